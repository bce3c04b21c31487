//! Why a data directory holds no history up to a zxid.

ghost use Rattle.std.specs.Prelude.{◌≡◌};
ghost use Rattle.zk_directory_state.specs.declared.fault.HistoryFault.TheVariants as faults;

use std::alloc::AllocError;
use thiserror::Error;
use zk_directory::{FileName, LogFileFault};
use zk_path::NoMemory;

/// Why a snapshot is passed over.
#[derive(Clone, Copy, Debug, PartialEq, Eq, Error)]
pub enum PassedFault {
    #[error("S1")]
    Header,
    #[error("S2")]
    Short,
    #[error("S3")]
    Field,
    #[error("S4")]
    Checksum,
    #[error("S5")]
    Trailing,
    #[error("S6")]
    Compressed,
    #[error("S7")]
    Tree,
    #[error("S8")]
    Access,
}

/// Why a data directory holds no history up to a zxid.
#[derive(Clone, Copy, Debug, PartialEq, Eq, Error)]
pub enum HistoryFault {
    /// There is no snapshot and no log.
    #[error("D1")]
    Empty,
    /// No snapshot serves, and the logs begin with this transaction.
    #[error("D2")]
    Purged { first: i64 },
    /// The transactions between these two are missing.
    #[error("D3")]
    Gap { from: i64, to: i64 },
    /// The entry at this byte of the log differs from an earlier one of its zxid.
    #[error("D4")]
    Differs { log: i64, at: u64 },
    /// The logs end before the zxid from which the snapshot is exact.
    #[error("D5")]
    Short { snapshot: i64, exact: i64 },
    /// The snapshot is exact only from this zxid on, and no earlier one serves.
    #[error("D6")]
    Early { snapshot: i64, exact: i64 },
    /// What was asked for comes after the last transaction that the files prove: it has this zxid,
    /// and this time, in milliseconds since 1970, if a log holds it.
    #[error("D7")]
    Beyond { last: i64, time: Option<i64> },
    /// A time was asked for, and no log has a transaction.
    #[error("D8")]
    NoTransaction,
    /// A log is broken.
    #[error("G")]
    Log { log: i64, fault: LogFileFault },
    /// There is no log, and the last snapshot is broken.
    #[error("S")]
    Snapshot { snapshot: i64, fault: PassedFault },
    /// This file could not be read.
    #[error("G6")]
    Unreadable(FileName),
    /// A folder could not be read.
    #[error("read")]
    Read,
    /// Allocation failed.
    #[error("memory")]
    NoMemory,
}

impl From<NoMemory> for HistoryFault {
    ghost from_gives = { λ _ fault. fault ≡ faults.NoMemory };

    fn from(_fault: NoMemory) -> HistoryFault {
        HistoryFault::NoMemory
    }
}

impl From<AllocError> for HistoryFault {
    ghost from_gives = { λ _ fault. fault ≡ faults.NoMemory };

    fn from(_fault: AllocError) -> HistoryFault {
        HistoryFault::NoMemory
    }
}
