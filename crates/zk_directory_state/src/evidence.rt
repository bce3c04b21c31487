//! What the files of a directory prove.
ghost use Rattle.std.specs.Prelude.{◌≡◌, ◌++◌, IfOk, OnOk};
ghost use Rattle.zk_directory.specs.Joints.{is_joint};
ghost use Rattle.zk_directory.specs.Continuing.{epoch_of};
ghost use Rattle.zk_directory_state.specs.Attempts.{zxid_or_none};
ghost use Rattle.zk_directory_state.specs.Evidence.{IsStart, beyond, end_fault, gap_fault, goes_on, is_beyond, is_first, is_later, is_new, last_joint, proved, unproved};

use crate::fault_causes::log_at;
use crate::history::Shown;
use crate::upto::Upto;
use crate::{HistoryFault, Restored};
use std::alloc::Global;
use zk_directory::{Joint, continues, read_log_file, starts_history};
use zk_path::NoMemory;

/// The number of zxids in an epoch.
const EPOCH: u64 = 4_294_967_296;

/// The first entry of a directory's logs.
#[derive(Clone, Copy, Debug)]
pub(crate) struct Start {
    /// The place of its log.
    pub(crate) log: usize,
    pub(crate) zxid: i64,
}

/// The first entry of these logs.
#[tactic(auto, using(crate::proofs::Starting::found_start, crate::proofs::Starting::no_start, crate::proofs::Starting::none_start))]
pub(crate) fn start_of(alloc: Global, logs: &[&[u8]]) -> Result<Option<Start>, NoMemory>
    ensures { IfOk result (λ start. IsStart 0 logs.now start) }
{
    let mut log = 0usize;
    for bytes in logs {
        let file = read_log_file(alloc, *bytes)?;
        if let Some(entry) = file.entries.first() {
            let zxid = entry.newer.txn.zxid;
            return Ok(Some(Start { log, zxid }));
        }
        log += 1;
    }
    Ok(None)
}

/// Whether nothing was before the first entry of the logs, which have these zxids in their names.
pub(crate) fn is_first(logged: &[i64], start: Start) -> bool
    ensures { result ≡ is_first logged.now start }
{
    starts_history(start.zxid) || starts_history(log_at(logged, start.log))
}

/// Whether the logs, which have no entry, were created for the first transaction.
pub(crate) fn is_new(logged: &[i64]) -> bool
    ensures { result ≡ is_new logged.now }
{
    starts_history(log_at(logged, 0))
}

/// The zxid, or 0.
pub(crate) fn zxid_or_none(zxid: Option<i64>) -> i64
    ensures { result ≡ zxid_or_none zxid }
{
    match zxid {
        Some(zxid) => zxid,
        None => 0,
    }
}

/// Whether a time comes after that of the last entry that was taken.
fn is_later(time: i64, last: Option<i64>) -> bool
    ensures { result ≡ is_later time last }
{
    match last {
        Some(last) => last < time,
        None => false,
    }
}

/// Whether a question comes after the last entry of logs that were read to their end.
fn is_beyond(upto: Upto, restored: &Restored) -> bool
    ensures { result ≡ is_beyond upto restored.now }
{
    match upto {
        Upto::Last => false,
        Upto::Zxid { zxid } => zxid_or_none(restored.position) < zxid,
        Upto::Time { time } => is_later(time, restored.time),
    }
}

fn beyond(restored: &Restored) -> HistoryFault
    ensures { result ≡ beyond restored.now }
{
    HistoryFault::Beyond {
        last: zxid_or_none(restored.position),
        time: restored.time,
    }
}

/// The fault of a time between the last entry that was taken and the next one.
fn gap_fault(upto: Upto, position: Option<i64>, next: i64) -> Option<HistoryFault>
    ensures { result ≡ gap_fault upto position next }
{
    match (upto, position) {
        (Upto::Time { .. }, Some(position)) => {
            if continues(position, next) {
                None
            } else {
                Some(HistoryFault::Gap {
                    from: position,
                    to: next,
                })
            }
        }
        _ => None,
    }
}

/// Why the files do not prove the state that is asked for.
fn end_fault(upto: Upto, restored: &Restored) -> Option<HistoryFault>
    ensures { result ≡ end_fault upto restored.now restored.now.next }
{
    match restored.next {
        Some(next) => gap_fault(upto, restored.position, next),
        None => {
            if is_beyond(upto, restored) {
                Some(beyond(restored))
            } else {
                None
            }
        }
    }
}

/// A state, if the files prove it.
pub(crate) fn proved(upto: Upto, found: Result<Shown, HistoryFault>) -> Result<Shown, HistoryFault>
    ensures { result ≡ proved upto found }
{
    match found {
        Ok(shown) => match end_fault(upto, &shown.restored) {
            Some(fault) => Err(fault),
            None => Ok(shown),
        },
        Err(fault) => Err(fault),
    }
}

/// The epoch of a zxid.
fn epoch_of(zxid: i64) -> u64
    ensures { result ≡ epoch_of zxid }
{
    zxid.cast_unsigned() / EPOCH
}

/// Whether an epoch begins after another.
fn is_joint(before: i64, zxid: i64) -> bool
    ensures { result ≡ is_joint before zxid }
{
    epoch_of(before) < epoch_of(zxid) && !(before == 0 && starts_history(zxid))
}

/// Whether a question goes on after the last entry that was taken.
fn goes_on(upto: Upto, position: i64) -> bool
    ensures { result ≡ goes_on upto position }
{
    match upto {
        Upto::Last => false,
        Upto::Zxid { zxid } => position < zxid,
        Upto::Time { .. } => true,
    }
}

/// Appends the place after the last entry, if a state rests on it.
fn push_last_joint(
    joints: &mut Vec<Joint>,
    upto: Upto,
    position: Option<i64>,
    next: Option<i64>,
) -> Result<(), NoMemory>
    ensures { OnOk result (joints.new.items ≡ joints.old.items ++ last_joint upto position next) }
{
    if let (Some(last), Some(next)) = (position, next)
        && goes_on(upto, last)
        && is_joint(last, next)
    {
        joints.push(Joint { last, next })?;
    }
    Ok(())
}

/// The places at which a state rests on the end of an epoch that is not proved.
pub(crate) fn unproved(
    alloc: Global,
    upto: Upto,
    restored: &Restored,
) -> Result<Vec<Joint>, NoMemory>
    ensures { IfOk result (λ joints. joints.items ≡ unproved upto restored.now) }
{
    let mut joints = Vec::new(alloc);
    joints.extend_from_slice(restored.joints.as_slice())?;
    push_last_joint(&mut joints, upto, restored.position, restored.next)?;
    Ok(joints)
}
