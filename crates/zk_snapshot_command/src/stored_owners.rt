//! The owners that a server stores in the state that a data directory holds.
ghost use Rattle.std.specs.Prelude.{◌≡◌, IfOk, IfErr};
ghost use Rattle.std.specs.FinMap as finite;
ghost use Rattle.zk_directory_state.specs.Logs.{AreUnreadFiles, IsUnreadIn, IsUnreadLog, IsUnreadSnapshot, logs_from};
ghost use Rattle.zk_snapshot_command.specs.DirectoryOwners.{AreOwnersFrom, AreOwnersIn, AreOwnersOver, AreStored, IsBase, IsStoredBase, base_of, reread_fault};

use std::alloc::Global;
use zk_directory::{FileName, first_log};
use zk_directory_state::{
    Folder, HistoryFault, Origin, Shown, logs_in, read_logs, read_snapshot_file, slices_of,
};
use zk_snapshot::{SnapshotFault, read_snapshot};
use zk_stored_owners::{Owners, follow_logs};

/// Why a snapshot that was read before cannot be read again: the file has changed, or allocation
/// failed.
fn reread_fault(zxid: i64, fault: SnapshotFault) -> HistoryFault
    ensures { result ≡ reread_fault zxid fault }
{
    match fault {
        SnapshotFault::NoMemory => HistoryFault::NoMemory,
        _ => HistoryFault::Unreadable(FileName::Snapshot { zxid }),
    }
}

/// The owners in the snapshot of this zxid, which was read before.
///
/// Fails with [`HistoryFault::Unreadable`] if it cannot be read again.
fn stored_in<S: Folder>(alloc: Global, snapshots: &S, zxid: i64) -> Result<Owners, HistoryFault>
    requires { IsStoredBase (S.bytes_in snapshots.now) zxid }
    ensures stored { IfOk result (λ owners. AreStored (S.bytes_in snapshots.now) zxid (finite.get owners)) }
    ensures unread { IfErr result (λ fault. IsUnreadSnapshot (S.bytes_in snapshots.now) fault) }
{
    let bytes = read_snapshot_file(alloc, snapshots, zxid)?;
    match read_snapshot(alloc, bytes.as_slice()) {
        Ok(snapshot) => Ok(Owners::stored(alloc, snapshot.contents.nodes.as_slice())?),
        Err(fault) => Err(reread_fault(zxid, fault)),
    }
}

/// The owners after a zxid, with the records after it of these logs, up to another zxid.
fn owners_from<L: Folder>(
    alloc: Global,
    logs: &L,
    owners: Owners,
    from: i64,
    upto: i64,
    logged: &[i64],
) -> Result<Owners, HistoryFault>
    ensures followed { IfOk result (λ after. AreOwnersFrom (L.bytes_in logs.now) upto from (finite.get owners) logged.now (finite.get after)) }
    ensures unread { IfErr result (λ fault. IsUnreadLog (L.bytes_in logs.now) fault) }
{
    let loaded = read_logs(alloc, logs, logged)?;
    let slices = slices_of(alloc, loaded.as_slice())?;
    Ok(follow_logs(alloc, owners, from, upto, slices.as_slice())?)
}

/// The logs from the one on in which the records after a snapshot begin.
fn logs_from(logged: &[i64], zxid: i64) -> &[i64]
    ensures { result.now ≡ logs_from zxid logged.now }
{
    let first = first_log(logged, zxid);
    &logged[first..]
}

/// The owners over the snapshot of a zxid, or over the empty tree, up to another zxid.
#[tactic(auto, using(zk_directory_state::proofs::Unreading::a_snapshot, zk_directory_state::proofs::Unreading::a_log))]
fn owners_over<S: Folder, L: Folder>(
    alloc: Global,
    snapshots: &S,
    logs: &L,
    base: Option<i64>,
    upto: i64,
    logged: &[i64],
) -> Result<Owners, HistoryFault>
    requires { IsBase (S.bytes_in snapshots.now) base }
    ensures owners { IfOk result (λ owners. AreOwnersOver (S.bytes_in snapshots.now) (L.bytes_in logs.now) upto logged.now base (finite.get owners)) }
    ensures unread { IfErr result (λ fault. AreUnreadFiles (S.bytes_in snapshots.now) (L.bytes_in logs.now) fault) }
{
    match base {
        Some(zxid) => {
            let owners = stored_in(alloc, snapshots, zxid)?;
            let after = logs_from(logged, zxid);
            owners_from(alloc, logs, owners, zxid, upto, after)
        }
        None => owners_from(alloc, logs, Owners::new(alloc), 0, upto, logged),
    }
}

/// The snapshot that a state begins at.
fn base_of(origin: Option<Origin>) -> Option<i64>
    ensures { result ≡ base_of origin }
{
    match origin {
        Some(origin) => Some(origin.zxid),
        None => None,
    }
}

/// The owners in the state that a data directory holds: those of the snapshot that the state begins
/// at, and of the records after it. The files are read again.
///
/// Fails with [`HistoryFault::Unreadable`] or [`HistoryFault::Read`] if one cannot be read.
#[tactic(auto, using(zk_directory_state::proofs::Unreading::a_file, zk_directory_state::proofs::Unreading::the_logs))]
pub(crate) fn owners_in<S: Folder, L: Folder>(
    alloc: Global,
    snapshots: &S,
    logs: &L,
    shown: &Shown,
) -> Result<Owners, HistoryFault>
    requires { IsBase (S.bytes_in snapshots.now) (base_of shown.now.origin) }
    ensures owners { IfOk result (λ owners. AreOwnersIn (S.bytes_in snapshots.now) (L.names_in logs.now) (L.bytes_in logs.now) shown.now (finite.get owners)) }
    ensures unread { IfErr result (λ fault. IsUnreadIn (S.names_in snapshots.now) (S.bytes_in snapshots.now) (L.names_in logs.now) (L.bytes_in logs.now) fault) }
{
    let logged = logs_in(alloc, logs)?;
    let upto = shown.restored.position.unwrap_or(0);
    let base = base_of(shown.origin);
    owners_over(alloc, snapshots, logs, base, upto, logged.as_slice())
}
