//! Up to which transaction a directory is shown.
ghost use Rattle.std.specs.Prelude.{◌≡◌, pos, IfOk, IfErr};
ghost use Rattle.zk_directory_state.specs.Histories.{FindsTime, FindsUpto, HaveEntry, IsLatestAt, IsLatestIn, later_at, latest_in};
ghost use Rattle.zk_directory_state.specs.Logs.{IsUnreadLog};

use crate::evidence::start_of;
use crate::logs::{read_log, read_logs, slices_of};
use crate::{Folder, HistoryFault};
use std::alloc::Global;
use zk_directory::{FileEntry, read_log_file};

/// Up to which transaction a directory is shown.
#[derive(Clone, Copy, Debug, PartialEq, Eq)]
pub enum Upto {
    /// The end of the logs.
    Last,
    /// The transactions up to this zxid.
    Zxid { zxid: i64 },
    /// Those up to the last one, in order of zxid, that has this time or an earlier one:
    /// milliseconds since 1970.
    Time { time: i64 },
}

/// The zxid up to which transactions are shown; `None` for the end of the logs.
///
/// Fails with [`HistoryFault::NoTransaction`] if a time is asked for, and no log has a transaction.
pub(crate) fn zxid_of<L: Folder>(
    alloc: Global,
    logs: &L,
    logged: &[i64],
    upto: Upto,
) -> Result<Option<i64>, HistoryFault>
    ensures { FindsUpto (L.bytes_in logs.now) logged.now upto result }
{
    match upto {
        Upto::Last => Ok(None),
        Upto::Zxid { zxid } => Ok(Some(zxid)),
        Upto::Time { time } => Ok(Some(last_at(alloc, logs, logged, time)?)),
    }
}

/// The greatest zxid of a transaction of these logs that has this time or an earlier one; or 0, if
/// they have only later ones.
fn last_at<L: Folder>(
    alloc: Global,
    logs: &L,
    logged: &[i64],
    time: i64,
) -> Result<i64, HistoryFault>
    ensures { FindsTime (L.bytes_in logs.now) time logged.now result }
{
    let latest = zxid_at(alloc, logs, logged, time)?;
    if latest != 0 {
        return Ok(latest);
    }
    if have_entry(alloc, logs, logged)? {
        Ok(latest)
    } else {
        Err(HistoryFault::NoTransaction)
    }
}

/// Whether one of these logs has an entry.
fn have_entry<L: Folder>(alloc: Global, logs: &L, logged: &[i64]) -> Result<bool, HistoryFault>
    ensures have { IfOk result (λ has. HaveEntry (L.bytes_in logs.now) logged.now has) }
    ensures unread { IfErr result (λ fault. IsUnreadLog (L.bytes_in logs.now) fault) }
{
    let loaded = read_logs(alloc, logs, logged)?;
    let slices = slices_of(alloc, loaded.as_slice())?;
    Ok(start_of(alloc, slices.as_slice())?.is_some())
}

/// The greatest zxid of a transaction of these logs that has this time or an earlier one, or 0.
#[tactic(auto, using(crate::proofs::Chosen::later_on, crate::proofs::Chosen::all_times))]
fn zxid_at<L: Folder>(
    alloc: Global,
    logs: &L,
    logged: &[i64],
    time: i64,
) -> Result<i64, HistoryFault>
    ensures latest { IfOk result (λ latest. IsLatestAt (L.bytes_in logs.now) time (pos 0) logged.now latest) }
    ensures unread { IfErr result (λ fault. IsUnreadLog (L.bytes_in logs.now) fault) }
{
    let mut latest = 0;
    for log in logged {
        latest = zxid_in(alloc, logs, *log, time, latest)?;
    }
    Ok(latest)
}

/// The greatest zxid of a transaction of this log that has this time or an earlier one, and of
/// this one.
fn zxid_in<L: Folder>(
    alloc: Global,
    logs: &L,
    log: i64,
    time: i64,
    zxid: i64,
) -> Result<i64, HistoryFault>
    ensures latest { IfOk result (λ latest. IsLatestIn (L.bytes_in logs.now) log time zxid latest) }
    ensures unread { IfErr result (λ fault. IsUnreadLog (L.bytes_in logs.now) fault) }
{
    let bytes = read_log(alloc, logs, log)?;
    let file = read_log_file(alloc, bytes.as_slice())?;
    Ok(latest_in(time, zxid, file.entries.as_slice()))
}

#[tactic(auto, using(crate::proofs::Chosen::latest_more, crate::proofs::Chosen::latest_all))]
fn latest_in(time: i64, zxid: i64, entries: &[FileEntry<'_>]) -> i64
    ensures { result ≡ latest_in time zxid entries.now }
{
    let mut latest = zxid;
    for entry in entries {
        latest = later_at(time, entry, latest);
    }
    latest
}

fn later_at(time: i64, entry: &FileEntry<'_>, zxid: i64) -> i64
    ensures { result ≡ later_at time entry.now zxid }
{
    let txn = &entry.newer.txn;
    if txn.time <= time && zxid < txn.zxid {
        txn.zxid
    } else {
        zxid
    }
}
