ghost use Rattle.std.specs.Prelude.{◌≡◌};
ghost use Rattle.zk_servers.specs.declared.fault.CallFault.TheVariants as faults;

use std::alloc::AllocError;
use thiserror::Error;
use zk_path::NoMemory;

/// Why an event fails before it happens. There is no record, and no state has changed.
#[derive(Clone, Copy, Debug, PartialEq, Eq, Error)]
pub enum CallFault {
    /// An allocation failed.
    #[error("S1")]
    NoMemory,
    /// All numbers of records are used.
    #[error("S2")]
    Full,
}

impl From<NoMemory> for CallFault {
    ghost from_gives = { λ _ e. e ≡ faults.NoMemory };

    fn from(_refused: NoMemory) -> CallFault {
        CallFault::NoMemory
    }
}

impl From<AllocError> for CallFault {
    ghost from_gives = { λ _ e. e ≡ faults.NoMemory };

    fn from(_refused: AllocError) -> CallFault {
        CallFault::NoMemory
    }
}

/// Why a chronicle is not returned.
#[derive(Clone, Copy, Debug, PartialEq, Eq, Error)]
pub enum CloseFault {
    /// The numbers of calls, receipts and events differ, or a seat's call is not in the chronicle.
    #[error("C1")]
    Count,
    /// The receipt at this index, from 0 on, is the first that does not match its record, or that
    /// repeats one.
    #[error("C2 {0}")]
    Receipt(usize),
    /// An allocation failed.
    #[error("C3")]
    NoMemory,
}
