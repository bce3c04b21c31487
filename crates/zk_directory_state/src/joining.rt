//! The entries of log files, joined into one history.
ghost use Rattle.std.specs.Prelude.{◌≡◌, OnOk};
ghost use Rattle.zk_directory.specs.Chains.{history_of, with_entry};
ghost use Rattle.zk_directory_state.specs.Joins.{TakesEntry, end_of, fault_at, is_wanted, told_of};

use crate::restore_fault::RestoreFault;
use zk_directory::{Chain, ChainFault, FileEntry, LogEntry, LogFile, Turn};
use zk_path::NoMemory;

/// A fault of a chain at an entry of this offset.
fn fault_at(at: u64, fault: ChainFault) -> RestoreFault
    ensures { result ≡ fault_at at fault }
{
    match fault {
        ChainFault::Purged { first } => RestoreFault::Purged { first },
        ChainFault::Gap { from, to } => RestoreFault::Gap { from, to },
        ChainFault::Differs => RestoreFault::Differs { at },
        ChainFault::NoMemory => RestoreFault::NoMemory,
    }
}

/// Takes the next entry of the log files, which are read in order, and returns the decision on it.
/// A fault leaves the chain unchanged.
pub fn take_entry<'a>(chain: &mut Chain<'a>, entry: &FileEntry<'a>) -> Result<Turn, RestoreFault>
    ensures { TakesEntry (history_of chain.old) entry.now result (history_of chain.new) }
{
    let told = LogEntry {
        zxid: entry.newer.txn.zxid,
        bytes: entry.bytes,
    };
    match chain.take(told) {
        Ok(turn) => Ok(turn),
        Err(fault) => Err(fault_at(entry.at, fault)),
    }
}

/// Takes an entry that does not continue the history all the same.
pub fn take_on<'a>(chain: &mut Chain<'a>, entry: &FileEntry<'a>) -> Result<(), NoMemory>
    ensures { OnOk result (history_of chain.new ≡ with_entry (history_of chain.old) (told_of entry.now)) }
{
    let zxid = entry.newer.txn.zxid;
    chain.taken.push(LogEntry {
        zxid,
        bytes: entry.bytes,
    })?;
    chain.position = Some(zxid);
    Ok(())
}

/// Whether an entry that was not taken yet is asked for.
fn is_wanted(chain: &Chain<'_>) -> bool
    ensures { result ≡ is_wanted (history_of chain.now) }
{
    let (Some(upto), Some(position)) = (chain.upto, chain.position) else {
        return true;
    };
    position < upto
}

/// Checks how a log file ends, of which all entries were taken: its own fault is an error if a
/// later entry is asked for.
pub fn check_end(chain: &Chain<'_>, file: &LogFile<'_>) -> Result<(), RestoreFault>
    ensures { result ≡ end_of (is_wanted (history_of chain.now)) file.now.outcome }
{
    match &file.outcome {
        Err(fault) if is_wanted(chain) => Err(RestoreFault::Log(*fault)),
        _ => Ok(()),
    }
}
