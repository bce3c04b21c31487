//! One snapshot of a directory.
ghost use Rattle.std.specs.Prelude.{◌≡◌};
ghost use Rattle.zk_directory_state.specs.Attempts.{FindsExact, Leads, Tries, TriesBytesOf, TriesOver, attempt_of};
ghost use Rattle.zk_directory_state.specs.Logs.{logs_from};

use crate::fault_causes::{broken_by, history_fault, passed_fault};
use crate::logs::{read_logs, read_snapshot_file, slices_of};
use crate::{
    Base, DirectoryFault, Folder, HistoryFault, PassedFault, RestoreFault, Restored, restore,
    window_end,
};
use std::alloc::Global;
use zk_directory::first_log;
use zk_replay::{BaseFault, Exact, exact_from};
use zk_snapshot::{Snapshot, read_snapshot};

/// What a snapshot leads to.
#[derive(Drop)]
pub(crate) enum Attempt {
    /// The state.
    Serves { restored: Restored, exact: Exact },
    /// Nothing: it is broken.
    Passed { fault: PassedFault },
    /// It is exact only from a later zxid on than the one that is asked for.
    Early { exact: i64 },
}

/// From which zxid on a replay of a snapshot is exact. If the file does not state it, the logs do.
fn exact_of(
    alloc: Global,
    snapshot: &Snapshot,
    zxid: i64,
    logs: &[&[u8]],
) -> Result<Exact, BaseFault>
    ensures { FindsExact snapshot.now zxid logs.now result }
{
    let exact = exact_from(snapshot, zxid);
    if exact.is_told {
        return Ok(exact);
    }
    let end = window_end(alloc, &snapshot.contents, zxid, exact.zxid, logs)?;
    Ok(Exact {
        zxid: end,
        is_told: false,
    })
}

/// What a snapshot leads to that holds no state, or none that is asked for; else the fault.
fn attempt_of(failed: DirectoryFault, zxid: i64, logged: &[i64]) -> Result<Attempt, HistoryFault>
    ensures { result ≡ attempt_of failed zxid logged.now failed.fault }
{
    match failed.fault {
        RestoreFault::Early { exact } => Ok(Attempt::Early { exact }),
        RestoreFault::Tree => Ok(Attempt::Passed {
            fault: PassedFault::Tree,
        }),
        RestoreFault::Access => Ok(Attempt::Passed {
            fault: PassedFault::Access,
        }),
        _ => Err(history_fault(failed, zxid, logged)),
    }
}

/// What a snapshot with these logs leads to.
fn try_contents(
    alloc: Global,
    snapshot: &Snapshot,
    zxid: i64,
    upto: Option<i64>,
    logged: &[i64],
    logs: &[&[u8]],
) -> Result<Attempt, HistoryFault>
    ensures { Leads snapshot.now zxid upto logged.now logs.now result }
{
    let exact = match exact_of(alloc, snapshot, zxid, logs) {
        Ok(exact) => exact,
        Err(BaseFault::NoMemory) => return Err(HistoryFault::NoMemory),
        Err(fault) => {
            let fault = broken_by(fault);
            return Ok(Attempt::Passed { fault });
        }
    };
    let base = Base::Snapshot {
        contents: &snapshot.contents,
        zxid,
        exact: exact.zxid,
    };
    match restore(alloc, base, upto, logs) {
        Ok(restored) => Ok(Attempt::Serves { restored, exact }),
        Err(failed) => attempt_of(failed, zxid, logged),
    }
}

/// The logs from the one on in which the entries after a snapshot begin.
fn logs_from(logged: &[i64], zxid: i64) -> &[i64]
    ensures { result.now ≡ logs_from zxid logged.now }
{
    let first = first_log(logged, zxid);
    &logged[first..]
}

/// What a snapshot that was read leads to, with the logs from where its entries begin.
fn try_over<L: Folder>(
    alloc: Global,
    logs: &L,
    snapshot: &Snapshot,
    zxid: i64,
    upto: Option<i64>,
    logged: &[i64],
) -> Result<Attempt, HistoryFault>
    ensures { TriesOver (L.bytes_in logs.now) snapshot.now zxid upto logged.now result }
{
    let rest = logs_from(logged, zxid);
    let loaded = read_logs(alloc, logs, rest)?;
    let slices = slices_of(alloc, loaded.as_slice())?;
    try_contents(alloc, snapshot, zxid, upto, rest, slices.as_slice())
}

/// What the bytes of a snapshot lead to.
fn try_bytes<L: Folder>(
    alloc: Global,
    logs: &L,
    bytes: &[u8],
    zxid: i64,
    upto: Option<i64>,
    logged: &[i64],
) -> Result<Attempt, HistoryFault>
    ensures { TriesBytesOf (L.bytes_in logs.now) bytes.now zxid upto logged.now result }
{
    match read_snapshot(alloc, bytes) {
        Ok(snapshot) => try_over(alloc, logs, &snapshot, zxid, upto, logged),
        Err(fault) => match passed_fault(fault) {
            Some(fault) => Ok(Attempt::Passed { fault }),
            None => Err(HistoryFault::NoMemory),
        },
    }
}

/// What the snapshot of this zxid leads to.
#[tactic(auto, using(crate::proofs::Unreading::snapshot_fails, crate::proofs::Unreading::tries_bytes))]
pub(crate) fn try_snapshot<S: Folder, L: Folder>(
    alloc: Global,
    snapshots: &S,
    logs: &L,
    zxid: i64,
    logged: &[i64],
    upto: Option<i64>,
) -> Result<Attempt, HistoryFault>
    ensures { Tries (S.bytes_in snapshots.now) (L.bytes_in logs.now) zxid upto logged.now result }
{
    let bytes = read_snapshot_file(alloc, snapshots, zxid)?;
    try_bytes(alloc, logs, bytes.as_slice(), zxid, upto, logged)
}
