ghost use Rattle.std.specs.Prelude.{◌≡◌};
ghost use Rattle.zk_directory_state.specs.Joins.{fault_of_base};
ghost use Rattle.zk_directory_state.specs.declared.restore_fault.RestoreFault.TheVariants as faults;

use thiserror::Error;
use zk_directory::LogFileFault;
use zk_path::NoMemory;
use zk_replay::BaseFault;

/// Why a directory holds no state at a zxid, or none that is certain. Each prints as its name and
/// its numbers; D4 to S8 are about a file, whose name a caller prints between the two.
#[derive(Clone, Copy, Debug, PartialEq, Eq, Error)]
pub enum RestoreFault {
    /// D2: there is no snapshot, and the logs begin with this transaction, which is not the first
    /// of an epoch.
    #[error("D2 {first:016x}")]
    Purged { first: i64 },
    /// D3: the transactions between these two are in no log.
    #[error("D3 {from:016x} {to:016x}")]
    Gap { from: i64, to: i64 },
    /// D4: the entry at this offset in a log file, in bytes, has other bytes than the entry of its
    /// zxid in an earlier log.
    #[error("D4 {at}")]
    Differs { at: u64 },
    /// D5: the logs end before the zxid from which the snapshot is exact.
    #[error("D5 {exact:016x}")]
    Short { exact: i64 },
    /// D6: the state was asked for before the zxid from which the snapshot is exact.
    #[error("D6 {exact:016x}")]
    Early { exact: i64 },
    /// A log file is broken before an entry that is needed.
    #[error("{0}")]
    Log(LogFileFault),
    /// S7: the nodes of the snapshot are no tree when its window ends.
    #[error("S7")]
    Tree,
    /// S8: an access control list is still missing when the window of the snapshot ends.
    #[error("S8")]
    Access,
    /// Allocation failed.
    #[error("G8")]
    NoMemory,
}

impl From<BaseFault> for RestoreFault {
    ghost from_gives = { λ base fault. fault ≡ fault_of_base base };

    fn from(fault: BaseFault) -> RestoreFault {
        match fault {
            BaseFault::Tree => RestoreFault::Tree,
            BaseFault::Access => RestoreFault::Access,
            BaseFault::NoMemory => RestoreFault::NoMemory,
        }
    }
}

impl From<NoMemory> for RestoreFault {
    ghost from_gives = { λ _ fault. fault ≡ faults.NoMemory };

    fn from(_fault: NoMemory) -> RestoreFault {
        RestoreFault::NoMemory
    }
}

/// A fault of a directory, and the file that it is about.
#[derive(Clone, Copy, Debug, PartialEq, Eq)]
pub struct DirectoryFault {
    /// The place of the log; the number of logs that were read if it is the snapshot.
    pub log: usize,
    pub fault: RestoreFault,
}
