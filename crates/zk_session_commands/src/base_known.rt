//! What is known of sessions before the first transaction of a directory's logs.
ghost use Rattle.std.specs.Prelude.{◌≡◌, IfOk, OnOk};
ghost use Rattle.zk_session_commands.specs.FirstKnown.{Finds, FindsBefore, FindsFirst, FindsKnown, KnowsBy, first_of, is_before, known_in, leases_in, nodes_in, with_stored};
ghost use Rattle.zk_snapshot.specs.Reading.{all_of};

use std::alloc::Global;
use zk_directory_state::{Folder, HistoryFault, logs_in, read_snapshot_file, snapshots_in};
use zk_path::NoMemory;
use zk_replay::shown_owner;
use zk_sessions::Known;
use zk_snapshot::{Lease, Snapshot, SnapshotFault, Stored, read_snapshot};

/// The zxid in the name of the first log, which is that of its first transaction.
#[derive(Clone, Copy, Debug)]
struct LogStart {
    zxid: i64,
}

/// Whether a node was created before the first transaction.
fn is_before(first: LogStart, stored: &Stored) -> bool
    ensures { result ≡ is_before first.zxid stored.now }
{
    stored.kept.moments.czxid < first.zxid
}

/// Adds a stored node, if it is ephemeral and was created before the first transaction.
fn add_stored(known: &mut Known, first: LogStart, stored: &Stored) -> Result<(), NoMemory>
    ensures { OnOk result (known.new ≡ with_stored first.zxid known.old stored.now) }
{
    if shown_owner(stored.kept.owner) == 0 || !is_before(first, stored) {
        return Ok(());
    }
    known.add_node(stored.path.text(), stored.kept.owner)
}

fn add_nodes(known: &mut Known, first: LogStart, nodes: &[Stored]) -> Result<(), NoMemory>
    ensures { OnOk result (known.new ≡ nodes_in first.zxid known.old nodes.now) }
{
    for stored in nodes {
        add_stored(known, first, stored)?;
    }
    Ok(())
}

fn add_leases(known: &mut Known, leases: &[Lease]) -> Result<(), NoMemory>
    ensures { OnOk result (known.new ≡ leases_in known.old leases.now) }
{
    for lease in leases {
        known.add_lease(lease.session, lease.timeout)?;
    }
    Ok(())
}

/// What a snapshot shows of the time before the first transaction.
fn known_in(alloc: Global, first: LogStart, snapshot: &Snapshot) -> Result<Known, NoMemory>
    ensures { IfOk result (λ known. known ≡ known_in first.zxid snapshot.now) }
{
    let mut known = Known::new(alloc);
    add_leases(&mut known, snapshot.contents.leases.as_slice())?;
    add_nodes(&mut known, first, snapshot.contents.nodes.as_slice())?;
    Ok(known)
}

/// What a snapshot of these bytes shows; `None` if it is broken.
fn known_from(alloc: Global, first: LogStart, bytes: &[u8]) -> Result<Option<Known>, NoMemory>
    ensures { IfOk result (λ found. KnowsBy first.zxid (all_of bytes.now) found) }
{
    match read_snapshot(alloc, bytes) {
        Ok(snapshot) => {
            let known = known_in(alloc, first, &snapshot)?;
            Ok(Some(known))
        }
        Err(SnapshotFault::NoMemory) => Err(NoMemory),
        Err(_) => Ok(None),
    }
}

/// What the snapshot of this zxid shows; `None` if it is broken.
fn known_at<S: Folder>(
    alloc: Global,
    snapshots: &S,
    first: LogStart,
    zxid: i64,
) -> Result<Option<Known>, HistoryFault>
    ensures { Finds (S.bytes_in snapshots.now) first.zxid zxid result }
{
    let bytes = read_snapshot_file(alloc, snapshots, zxid)?;
    Ok(known_from(alloc, first, bytes.as_slice())?)
}

/// What the first of these snapshots shows that is whole.
fn known_of<S: Folder>(
    alloc: Global,
    snapshots: &S,
    first: LogStart,
    held: &[i64],
) -> Result<Known, HistoryFault>
    ensures { FindsFirst (S.bytes_in snapshots.now) first.zxid held.now result }
{
    let mut rest = held;
    while let [zxid, more @ ..] = rest {
        if let Some(known) = known_at(alloc, snapshots, first, *zxid)? {
            return Ok(known);
        }
        rest = more;
    }
    Ok(Known::new(alloc))
}

/// What the first of a folder's snapshots shows that is whole.
fn known_first<S: Folder>(
    alloc: Global,
    snapshots: &S,
    first: LogStart,
) -> Result<Known, HistoryFault>
    ensures { FindsKnown (S.names_in snapshots.now) (S.bytes_in snapshots.now) first.zxid result }
{
    let held = snapshots_in(alloc, snapshots)?;
    known_of(alloc, snapshots, first, held.as_slice())
}

/// The first zxid; 0 for none.
fn first_of(logged: &[i64]) -> LogStart
    ensures { result.zxid ≡ first_of logged.now }
{
    match logged {
        [] => LogStart { zxid: 0 },
        [first, ..] => LogStart { zxid: *first },
    }
}

/// What is known of sessions before the first transaction of the second folder's logs: the sessions
/// in the first snapshot that is whole, and of its ephemeral nodes those that were created before
/// that transaction.
///
/// Fails with [`HistoryFault::Read`] if a folder cannot be read, and with
/// [`HistoryFault::Unreadable`] if a snapshot cannot.
#[tactic(auto, using(crate::proofs::Unknowing::logs_fail, crate::proofs::Unknowing::snapshots_fail))]
pub fn first_known<S: Folder, L: Folder>(
    alloc: Global,
    snapshots: &S,
    logs: &L,
) -> Result<Known, HistoryFault>
    ensures { FindsBefore (S.names_in snapshots.now) (S.bytes_in snapshots.now) (L.names_in logs.now) result }
{
    let logged = logs_in(alloc, logs)?;
    let known = known_first(alloc, snapshots, first_of(logged.as_slice()))?;
    Ok(known)
}
