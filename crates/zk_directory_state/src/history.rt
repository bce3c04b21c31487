//! The state of a directory: from which snapshot, and which ones were passed over.
ghost use Rattle.std.specs.Prelude.{◌≡◌, ◌+◌, ◌==◌, ℕ, ℤ, List, [], Option, None, IfOk, OnOk, filter, length};
ghost use Rattle.zk_directory_state.specs.Histories.{ChoosesOf, Holds, RestoresWithout, TriesNext, candidates, blank_fault, early_fault, fault_without, first_early, is_begun, missing, purged_fault, start_fault, with_broken, without_by};

use crate::attempt::{Attempt, try_snapshot};
use crate::evidence::{Start, is_first, is_new, proved, start_of};
use crate::fault_causes::history_fault;
use crate::logs::{logs_in, read_logs, slices_of, snapshots_in};
use crate::upto::{Upto, zxid_of};
use crate::{
    Base, DirectoryFault, Folder, HistoryFault, PassedFault, RestoreFault, Restored, restore,
};
use std::alloc::Global;
use zk_path::NoMemory;
use zk_replay::Exact;

/// A broken snapshot, which was passed over.
#[derive(Clone, Copy, Debug, PartialEq, Eq)]
pub struct Broken {
    /// The zxid in its name.
    pub zxid: i64,
    pub fault: PassedFault,
}

/// A snapshot that is exact only from a later zxid on than the one that is asked for.
#[derive(Clone, Copy, Debug)]
pub(crate) struct Early {
    pub(crate) zxid: i64,
    pub(crate) exact: i64,
}

/// The snapshot that a state begins at.
#[derive(Clone, Copy, Debug)]
pub struct Origin {
    /// The zxid in its name.
    pub zxid: i64,
    /// From which zxid on a replay of the logs over it is exact.
    pub exact: Exact,
}

/// The state that a data directory holds.
#[derive(Drop)]
pub struct Shown {
    /// The table after the last transaction, that transaction's zxid, and how the last log ends.
    pub restored: Restored,
    /// `None` for the empty tree.
    pub origin: Option<Origin>,
    /// The broken snapshots that were passed over, the latest first.
    pub broken: Vec<Broken>,
}

/// The snapshots that do not serve.
#[derive(Drop)]
pub(crate) struct PassedOver {
    pub(crate) broken: Vec<Broken>,
    /// The first one that is exact too late.
    pub(crate) early: Option<Early>,
}

/// What follows a snapshot that was tried.
#[derive(Drop)]
pub(crate) enum Next {
    Done(Shown),
    More(PassedOver),
}

/// Whether a snapshot was begun at this zxid or an earlier one.
fn is_begun(upto: Option<i64>, zxid: i64) -> bool
    ensures { result ≡ is_begun upto zxid }
{
    match upto {
        Some(upto) => zxid <= upto,
        None => true,
    }
}

/// The snapshots that were begun up to a zxid.
fn begun_of(alloc: Global, held: &[i64], upto: Option<i64>) -> Result<Vec<i64>, NoMemory>
    ensures { IfOk result (λ begun. begun.items ≡ filter (is_begun upto) held.now) }
{
    let begun = held
        .iter()
        .copied()
        .filter(|zxid| is_begun(upto, *zxid))
        .collect::<Vec<_>>(alloc)?;
    Ok(begun)
}

/// The snapshots that were begun up to a zxid, the latest first.
fn candidates(alloc: Global, held: &[i64], upto: Option<i64>) -> Result<Vec<i64>, NoMemory>
    ensures { IfOk result (λ begun. begun.items ≡ candidates upto held.now) }
{
    let mut begun = begun_of(alloc, held, upto)?;
    begun.reverse();
    Ok(begun)
}

fn early_fault(early: Early) -> HistoryFault
    ensures { result ≡ early_fault early }
{
    HistoryFault::Early {
        snapshot: early.zxid,
        exact: early.exact,
    }
}

/// The fault of a directory whose snapshots do not serve and whose logs have no transaction.
fn missing(early: Option<Early>, broken: &[Broken], held: &[i64]) -> Option<HistoryFault>
    ensures { result ≡ missing early broken.now held.now }
{
    if let Some(early) = early {
        return Some(early_fault(early));
    }
    if let Some(first) = broken.first() {
        return Some(HistoryFault::Snapshot {
            snapshot: first.zxid,
            fault: first.fault,
        });
    }
    match held.first() {
        Some(zxid) => Some(HistoryFault::Purged { first: *zxid }),
        None => None,
    }
}

/// The fault of logs that begin with this transaction, which is not the first one.
fn purged_fault(early: Option<Early>, first: i64) -> HistoryFault
    ensures { result ≡ purged_fault early first }
{
    match early {
        Some(early) => early_fault(early),
        None => HistoryFault::Purged { first },
    }
}

/// The fault of logs without an entry.
pub(crate) fn blank_fault(held: &[i64], logged: &[i64]) -> Option<HistoryFault>
    ensures { result ≡ blank_fault held.now logged.now }
{
    if held.is_empty() && !is_new(logged) {
        Some(HistoryFault::NoTransaction)
    } else {
        None
    }
}

/// The fault of logs that do not begin with the first transaction.
fn start_fault(
    early: Option<Early>,
    held: &[i64],
    logged: &[i64],
    start: Option<Start>,
) -> Option<HistoryFault>
    ensures { result ≡ start_fault early held.now logged.now start }
{
    match start {
        Some(start) => {
            if is_first(logged, start) {
                None
            } else {
                Some(purged_fault(early, start.zxid))
            }
        }
        None => blank_fault(held, logged),
    }
}

/// The fault of a restoration from the empty tree. If the first transactions are missing, an early
/// snapshot says from which zxid on there are states.
fn fault_without(early: Option<Early>, failed: DirectoryFault, logged: &[i64]) -> HistoryFault
    ensures { result ≡ fault_without early failed logged.now failed.fault }
{
    match (early, failed.fault) {
        (Some(early), RestoreFault::Purged { .. }) => early_fault(early),
        _ => history_fault(failed, 0, logged),
    }
}

/// The state from the empty tree, or the fault of a directory whose snapshots do not serve.
fn without_by(
    held: &[i64],
    logged: &[i64],
    over: &PassedOver,
    outcome: Result<Restored, DirectoryFault>,
) -> Result<Restored, HistoryFault>
    ensures { result ≡ without_by held.now logged.now over.now.broken.items over.now.early outcome }
{
    let restored = match outcome {
        Ok(restored) => restored,
        Err(failed) => return Err(fault_without(over.early, failed, logged)),
    };
    if restored.position.is_some() {
        return Ok(restored);
    }
    match missing(over.early, over.broken.as_slice(), held) {
        Some(fault) => Err(fault),
        None => Ok(restored),
    }
}

/// The state from the empty tree, if no snapshot serves.
fn without_snapshot<L: Folder>(
    alloc: Global,
    logs: &L,
    held: &[i64],
    logged: &[i64],
    upto: Option<i64>,
    over: &PassedOver,
) -> Result<Restored, HistoryFault>
    ensures { (snapshot_bytes : List ℕ → Option (List ℕ)) → RestoresWithout
        (record { snapshot_bytes = snapshot_bytes; log_bytes = L.bytes_in logs.now; held = held.now; logged = logged.now; upto = upto })
        over.now.broken.items over.now.early result }
{
    let loaded = read_logs(alloc, logs, logged)?;
    let slices = slices_of(alloc, loaded.as_slice())?;
    let start = start_of(alloc, slices.as_slice())?;
    if let Some(fault) = start_fault(over.early, held, logged, start) {
        return Err(fault);
    }
    without_by(
        held,
        logged,
        over,
        restore(alloc, Base::Empty, upto, slices.as_slice()),
    )
}

/// The first early snapshot.
fn first_early(early: Option<Early>, zxid: i64, exact: i64) -> Option<Early>
    ensures { result ≡ first_early early zxid exact }
{
    match early {
        Some(early) => Some(early),
        None => Some(Early { zxid, exact }),
    }
}

/// Adds a snapshot that is passed over.
fn add_broken(broken: &mut Vec<Broken>, zxid: i64, fault: PassedFault) -> Result<(), NoMemory>
    ensures { OnOk result (broken.new.items ≡ with_broken broken.old.items zxid fault) }
{
    broken.push(Broken { zxid, fault })?;
    Ok(())
}

/// Tries the snapshot of this zxid, after others that do not serve.
fn try_next<S: Folder, L: Folder>(
    alloc: Global,
    snapshots: &S,
    logs: &L,
    logged: &[i64],
    upto: Option<i64>,
    zxid: i64,
    over: PassedOver,
) -> Result<Next, HistoryFault>
    ensures { (held : List ℤ) → TriesNext
        (record { snapshot_bytes = S.bytes_in snapshots.now; log_bytes = L.bytes_in logs.now; held = held; logged = logged.now; upto = upto })
        zxid over result }
{
    let mut over = over;
    match try_snapshot(alloc, snapshots, logs, zxid, logged, upto)? {
        Attempt::Serves { restored, exact } => Ok(Next::Done(Shown {
            restored,
            origin: Some(Origin { zxid, exact }),
            broken: over.broken,
        })),
        Attempt::Passed { fault } => {
            add_broken(&mut over.broken, zxid, fault)?;
            Ok(Next::More(over))
        }
        Attempt::Early { exact } => {
            over.early = first_early(over.early, zxid, exact);
            Ok(Next::More(over))
        }
    }
}

/// The state by the first of these snapshots that serves, or else from the empty tree.
#[tactic(auto, using(crate::proofs::Chosen::none_passed, crate::proofs::Chosen::served, crate::proofs::Chosen::passed_on, crate::proofs::Chosen::failed, crate::proofs::Chosen::without, crate::proofs::Chosen::fails_without))]
fn shown_from<S: Folder, L: Folder>(
    alloc: Global,
    snapshots: &S,
    logs: &L,
    held: &[i64],
    logged: &[i64],
    upto: Option<i64>,
    begun: &[i64],
) -> Result<Shown, HistoryFault>
    ensures { ChoosesOf
        (record { snapshot_bytes = S.bytes_in snapshots.now; log_bytes = L.bytes_in logs.now; held = held.now; logged = logged.now; upto = upto })
        begun.now [] None result }
{
    let mut over = PassedOver {
        broken: Vec::new(alloc),
        early: None,
    };
    for zxid in begun {
        match try_next(alloc, snapshots, logs, logged, upto, *zxid, over)? {
            Next::Done(shown) => return Ok(shown),
            Next::More(next) => over = next,
        }
    }
    let restored = without_snapshot(alloc, logs, held, logged, upto, &over)?;
    Ok(Shown {
        restored,
        origin: None,
        broken: over.broken,
    })
}

/// Whether there is no snapshot and no log.
pub(crate) fn has_no_files(held: &[i64], logged: &[i64]) -> bool
    ensures { result ≡ (length held.now + length logged.now == 0) }
{
    held.len() + logged.len() == 0
}

/// The state that a data directory holds up to a transaction: that of the latest snapshot in
/// `snapshots` that serves, with the transactions after it in `logs`; or else of all transactions,
/// from the first. A snapshot serves if it is whole, and exact up to that transaction. Both folders
/// may be the same.
///
/// A state is returned only if the files prove it: `specs/Evidence.antt`.
///
/// Fails with
/// - [`HistoryFault::Empty`] if there is no snapshot and no log;
/// - [`HistoryFault::Early`] if no snapshot serves, and one of them is exact only later;
/// - [`HistoryFault::Purged`] or [`HistoryFault::Snapshot`] if no other snapshot serves, and the
///   logs lack the first transaction;
/// - [`HistoryFault::Beyond`] if the question comes after the last transaction;
/// - [`HistoryFault::NoTransaction`] if a time is asked for, and no log has a transaction; or if there
///   is no snapshot either;
/// - [`HistoryFault::Short`] if the logs end before the snapshot is exact;
/// - [`HistoryFault::Gap`], [`HistoryFault::Differs`] or [`HistoryFault::Log`] if the logs do not
///   continue one another up to that transaction;
/// - [`HistoryFault::Unreadable`] or [`HistoryFault::Read`] if a file or folder cannot be read.
#[tactic(auto, using(crate::proofs::Held::no_files, crate::proofs::Held::snapshots_unlisted, crate::proofs::Held::logs_unlisted))]
pub fn shown_of<S: Folder, L: Folder>(
    alloc: Global,
    snapshots: &S,
    logs: &L,
    upto: Upto,
) -> Result<Shown, HistoryFault>
    ensures { Holds (S.names_in snapshots.now) (S.bytes_in snapshots.now)
        (L.names_in logs.now) (L.bytes_in logs.now) upto result }
{
    let held = snapshots_in(alloc, snapshots)?;
    let logged = logs_in(alloc, logs)?;
    if has_no_files(held.as_slice(), logged.as_slice()) {
        return Err(HistoryFault::Empty);
    }
    let zxid = zxid_of(alloc, logs, logged.as_slice(), upto)?;
    let begun = candidates(alloc, held.as_slice(), zxid)?;
    let found = shown_from(
        alloc,
        snapshots,
        logs,
        held.as_slice(),
        logged.as_slice(),
        zxid,
        begun.as_slice(),
    );
    proved(upto, found)
}
