//! What a snapshot leads to.
ghost use Rattle.std.specs.Prelude.{◌≡◌, IfOk, drop};
ghost use Rattle.std.specs.List.{list_any};
ghost use Rattle.zk_directory_state.specs.Attempts.{FindsExact, broken_by, passed_fault};
ghost use Rattle.zk_verification.specs.Following.{Follows, FollowsBytes, IsFollowedEmpty, IsRestoredTo, Marks, is_broken, says, settled, upto_of};

use crate::Mark;
use crate::breaks::{Break, earlier, greater, reach_of};
use crate::survey::is_differing;
use std::alloc::Global;
use zk_directory::first_log;
use zk_directory_state::{
    Base, DirectoryFault, HistoryFault, PassedFault, Restored, history_fault, restore, window_end,
};
use zk_path::NoMemory;
use zk_replay::{BaseFault, Exact, exact_from};
use zk_snapshot::{Snapshot, SnapshotFault, read_snapshot};

/// Up to which zxid a snapshot is followed that is exact from a zxid on: to the end of the history,
/// or to the zxid from which the next snapshot is exact, if there is one.
fn upto_of(end: Option<i64>, next: Option<i64>, exact: Exact) -> Option<i64>
    ensures { result ≡ upto_of end next exact }
{
    let Some(next) = next else {
        return end;
    };
    earlier(end, greater(next, exact.zxid))
}

/// From which zxid on a replay of a snapshot is exact. If the file does not state it, the logs do.
fn exact_of(
    alloc: Global,
    snapshot: &Snapshot,
    zxid: i64,
    logs: &[&[u8]],
) -> Result<Exact, BaseFault>
    ensures { FindsExact snapshot.now zxid logs.now result }
{
    let exact = exact_from(snapshot, zxid);
    if exact.is_told {
        return Ok(exact);
    }
    let end = window_end(alloc, &snapshot.contents, zxid, exact.zxid, logs)?;
    Ok(Exact {
        zxid: end,
        is_told: false,
    })
}

/// Why a snapshot that holds no state is broken.
fn broken_by(fault: BaseFault) -> PassedFault
    ensures { result ≡ broken_by fault }
{
    match fault {
        BaseFault::Access => PassedFault::Access,
        BaseFault::Tree => PassedFault::Tree,
        BaseFault::NoMemory => PassedFault::Tree,
    }
}

/// Why a snapshot cannot be read; `None` if allocation failed.
fn passed_fault(fault: SnapshotFault) -> Option<PassedFault>
    ensures { result ≡ passed_fault fault }
{
    match fault {
        SnapshotFault::Header => Some(PassedFault::Header),
        SnapshotFault::Short => Some(PassedFault::Short),
        SnapshotFault::Field => Some(PassedFault::Field),
        SnapshotFault::Checksum => Some(PassedFault::Checksum),
        SnapshotFault::Trailing => Some(PassedFault::Trailing),
        SnapshotFault::Compressed => Some(PassedFault::Compressed),
        SnapshotFault::NoMemory => None,
    }
}

/// What is said of states that were restored, or not.
fn mark_of(
    snapshot: Option<i64>,
    exact: Exact,
    zxid: i64,
    logged: &[i64],
    outcome: Result<Restored, DirectoryFault>,
) -> Result<Mark, NoMemory>
    ensures { Marks snapshot exact zxid logged.now outcome result }
{
    match outcome {
        Ok(restored) => Ok(Mark::States {
            snapshot,
            exact,
            last: restored.position.unwrap_or(zxid),
            digests: restored.digests,
        }),
        Err(failed) => match history_fault(failed, zxid, logged) {
            HistoryFault::NoMemory => Err(NoMemory),
            fault => Ok(Mark::Wrong(fault)),
        },
    }
}

/// The items from a place on.
fn from_place<T>(items: &[T], place: usize) -> &[T]
    ensures { result.now ≡ drop place items.now }
{
    if items.len() <= place {
        return &[];
    }
    &items[place..]
}

/// The states that a snapshot leads to up to a zxid.
fn restore_to(
    alloc: Global,
    snapshot: &Snapshot,
    zxid: i64,
    exact: Exact,
    upto: Option<i64>,
    logged: &[i64],
    logs: &[&[u8]],
) -> Result<Mark, NoMemory>
    ensures { IfOk result (λ mark. IsRestoredTo snapshot.now zxid exact upto logged.now logs.now mark) }
{
    let base = Base::Snapshot {
        contents: &snapshot.contents,
        zxid,
        exact: exact.zxid,
    };
    mark_of(
        Some(zxid),
        exact,
        zxid,
        logged,
        restore(alloc, base, upto, logs),
    )
}

/// What a snapshot that was read leads to, with the logs from where its entries begin.
fn follow(
    alloc: Global,
    snapshot: &Snapshot,
    zxid: i64,
    breaks: &[Break],
    next: Option<i64>,
    logged: &[i64],
    logs: &[&[u8]],
) -> Result<Mark, NoMemory>
    ensures { IfOk result (λ mark. Follows snapshot.now zxid breaks.now next logged.now logs.now mark) }
{
    let exact = match exact_of(alloc, snapshot, zxid, logs) {
        Ok(exact) => exact,
        Err(BaseFault::NoMemory) => return Err(NoMemory),
        Err(fault) => {
            let fault = broken_by(fault);
            return Ok(Mark::Wrong(HistoryFault::Snapshot {
                snapshot: zxid,
                fault,
            }));
        }
    };
    let upto = upto_of(reach_of(zxid, breaks), next, exact);
    restore_to(alloc, snapshot, zxid, exact, upto, logged, logs)
}

/// What the snapshot of this zxid, with these bytes, leads to: states, or a fault. It is followed as
/// far as the breaks allow, and not beyond the zxid `next` from which the next snapshot is exact. `logs` are all logs of the directory, in order, and `logged` the zxids
/// in their names.
pub(crate) fn follow_snapshot(
    alloc: Global,
    bytes: &[u8],
    zxid: i64,
    breaks: &[Break],
    next: Option<i64>,
    logged: &[i64],
    logs: &[&[u8]],
) -> Result<Mark, NoMemory>
    ensures { IfOk result (λ mark. FollowsBytes bytes.now zxid breaks.now next logged.now logs.now mark) }
{
    match read_snapshot(alloc, bytes) {
        Ok(snapshot) => {
            let first = first_log(logged, zxid);
            follow(
                alloc,
                &snapshot,
                zxid,
                breaks,
                next,
                from_place(logged, first),
                from_place(logs, first),
            )
        }
        Err(fault) => match passed_fault(fault) {
            Some(fault) => Ok(Mark::Wrong(HistoryFault::Snapshot {
                snapshot: zxid,
                fault,
            })),
            None => Err(NoMemory),
        },
    }
}

/// What all logs lead to from the empty tree, as far as the breaks allow.
pub(crate) fn follow_empty(
    alloc: Global,
    breaks: &[Break],
    logged: &[i64],
    logs: &[&[u8]],
) -> Result<Mark, NoMemory>
    ensures { IfOk result (λ mark. IsFollowedEmpty breaks.now logged.now logs.now mark) }
{
    let exact = Exact {
        zxid: 0,
        is_told: true,
    };
    let upto = reach_of(0, breaks);
    mark_of(
        None,
        exact,
        0,
        logged,
        restore(alloc, Base::Empty, upto, logs),
    )
}

/// A mark of a snapshot, or of the empty tree, unless its fault is among the marks that were made.
pub(crate) fn settled(said: &[Mark], snapshot: Option<i64>, mark: Mark) -> Mark
    ensures { result ≡ settled said.now snapshot mark }
{
    match &mark {
        Mark::Wrong(fault) if is_said(said, fault) => Mark::Stopped { snapshot },
        _ => mark,
    }
}

/// Whether a mark says what the fault says.
fn is_said(said: &[Mark], fault: &HistoryFault) -> bool
    ensures { result ≡ list_any (says fault.now) said.now }
{
    said.iter().any(|mark| says(fault, mark))
}

fn says(fault: &HistoryFault, mark: &Mark) -> bool
    ensures { result ≡ says fault.now mark.now }
{
    match fault {
        HistoryFault::Log { log, .. } => is_broken(mark, *log),
        HistoryFault::Differs { log, .. } => is_differing(Some(mark), *log),
        _ => false,
    }
}

/// Whether a mark says that a log is broken at the place where a server stops reading it.
fn is_broken(mark: &Mark, log: i64) -> bool
    ensures { result ≡ is_broken mark.now log }
{
    match mark {
        Mark::Lost(damage) => damage.log == log,
        Mark::Wrong(HistoryFault::Log { log: marked, .. }) => *marked == log,
        _ => false,
    }
}
