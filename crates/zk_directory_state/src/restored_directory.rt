//! Whole directories.
ghost use Rattle.std.specs.Prelude.{◌≡◌};
ghost use Rattle.zk_directory_state.specs.Directories.{IsRestored, ReadsLog, ReadsLogs, ending_of};

use crate::ends::next_by;
use crate::restoration::{Base, Restore};
use crate::restore_fault::{DirectoryFault, RestoreFault};
use std::alloc::Global;
use zk_directory::{Joint, LogFile, read_log_file};
use zk_fold::Fold;
use zk_log::Ending;
use zk_replay::DigestCount;

/// The state that a directory holds.
#[derive(Drop)]
pub struct Restored {
    pub table: Fold,
    /// The zxid of the last entry that was taken, or else of the snapshot.
    pub position: Option<i64>,
    /// How many of the logs were read.
    pub read: usize,
    /// How the last of these ends; `None` if there is none, or if it is broken after all entries
    /// that were asked for.
    pub ending: Option<Ending>,
    /// The digests of the records after the snapshot's window, compared with those of the trees.
    pub digests: DigestCount,
    /// The zxid of the entry at which reading stopped, since all that was asked for was taken; `None`
    /// if the logs were read to their end.
    pub next: Option<i64>,
    /// The time of the last entry that was taken, in milliseconds since 1970; `None` if there is none.
    pub time: Option<i64>,
    /// The places among the entries at which an epoch follows another, and nothing shows that the
    /// first is whole.
    pub joints: Vec<Joint>,
}

/// How far logs were read.
#[derive(Drop)]
struct Progress<'a> {
    restore: Restore<'a>,
    /// How many files.
    read: usize,
    /// How the last one ends.
    ending: Option<Ending>,
    /// The zxid of the entry at which reading stopped.
    next: Option<i64>,
}

/// A log that was read.
#[derive(Drop)]
struct Step<'a> {
    restore: Restore<'a>,
    ending: Option<Ending>,
    /// Whether reading goes on with the next file.
    goes_on: bool,
    /// The zxid of the entry at which reading stopped.
    next: Option<i64>,
}

/// How a log file ends, unless it is broken.
fn ending_of(file: &LogFile<'_>) -> Option<Ending>
    ensures { result ≡ ending_of file.now.outcome }
{
    match &file.outcome {
        Ok(ending) => Some(*ending),
        Err(_) => None,
    }
}

/// Reads a log.
fn read_log<'a>(
    alloc: Global,
    restore: Restore<'a>,
    bytes: &'a [u8],
) -> Result<Step<'a>, RestoreFault>
    ensures { ReadsLog restore.entry bytes.now result }
{
    let file = read_log_file(alloc, bytes)?;
    let (restore, goes_on) = restore.take_file(alloc, &file)?;
    let next = next_by(goes_on, restore.position(), file.entries.as_slice());
    Ok(Step {
        restore,
        ending: ending_of(&file),
        goes_on,
        next,
    })
}

/// Reads the logs in order, until all that was asked for was taken.
#[tactic(auto, using(crate::proofs::TakenFiles::none_read))]
fn read_logs<'a>(
    alloc: Global,
    start: Restore<'a>,
    logs: &[&'a [u8]],
) -> Result<Progress<'a>, DirectoryFault>
    ensures { ReadsLogs start.entry logs.now result }
{
    let mut restore = start;
    let mut read = 0usize;
    let mut ending = None;
    for bytes in logs {
        let Step {
            restore: next,
            ending: last,
            goes_on,
            next: stop,
        } = match read_log(alloc, restore, *bytes) {
            Ok(step) => step,
            Err(fault) => return Err(DirectoryFault { log: read, fault }),
        };
        restore = next;
        ending = last;
        read += 1;
        if !goes_on {
            return Ok(Progress {
                restore,
                read,
                ending,
                next: stop,
            });
        }
    }
    Ok(Progress {
        restore,
        read,
        ending,
        next: None,
    })
}

/// Restores the state that logs lead to, from a base up to the zxid `upto` or to the end of the
/// logs. `logs` has the bytes of the log files, in order of name, from the one in which the entries
/// after the base begin ([`zk_directory::first_log`]).
///
/// Fails as [`Restore::new`], [`Restore::take_file`] and [`Restore::finish`] do.
#[tactic(auto, using(crate::proofs::Wholes::restores, crate::proofs::Wholes::start_fails, crate::proofs::Wholes::logs_fail, crate::proofs::Wholes::end_fails))]
pub fn restore<'a>(
    alloc: Global,
    base: Base<'_>,
    upto: Option<i64>,
    logs: &[&'a [u8]],
) -> Result<Restored, DirectoryFault>
    ensures { IsRestored base.entry upto logs.now result }
{
    let start = match Restore::new(alloc, base, upto) {
        Ok(start) => start,
        Err(fault) => return Err(DirectoryFault { log: 0, fault }),
    };
    let Progress {
        restore,
        read,
        ending,
        next,
    } = read_logs(alloc, start, logs)?;
    let (position, digests, time) = (restore.position(), restore.digests(), restore.time());
    let Ok(joints) = restore.joints(alloc) else {
        let fault = RestoreFault::NoMemory;
        return Err(DirectoryFault { log: read, fault });
    };
    match restore.finish(alloc) {
        Ok(table) => Ok(Restored {
            table,
            position,
            read,
            ending,
            digests,
            next,
            time,
            joints,
        }),
        Err(fault) => Err(DirectoryFault { log: read, fault }),
    }
}
