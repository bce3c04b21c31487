ghost use Rattle.std.specs.Prelude.{◌≡◌};
ghost use Rattle.zk_front.specs.declared.fault.FrontFault.TheVariants as faults;

use std::alloc::AllocError;
use thiserror::Error;
use zk_log::WriteFault;
use zk_path::NoMemory;

/// Why serving ended before the end of the input.
#[derive(Clone, Copy, Debug, PartialEq, Eq, Error)]
pub enum FrontFault {
    /// A read failed.
    #[error("F1")]
    Read,
    /// A write failed, or wrote no byte.
    #[error("F2")]
    Write,
    /// The input did not end within the limit of reads.
    #[error("F3")]
    Endless,
    /// An allocation failed, here or in the service.
    #[error("F4")]
    NoMemory,
}

impl From<AllocError> for FrontFault {
    ghost from_gives = { λ _ e. e ≡ faults.NoMemory };

    fn from(_refused: AllocError) -> FrontFault {
        FrontFault::NoMemory
    }
}

impl From<NoMemory> for FrontFault {
    ghost from_gives = { λ _ e. e ≡ faults.NoMemory };

    fn from(_refused: NoMemory) -> FrontFault {
        FrontFault::NoMemory
    }
}

impl From<WriteFault> for FrontFault {
    ghost from_gives = { λ _ e. e ≡ faults.Write };

    fn from(_failed: WriteFault) -> FrontFault {
        FrontFault::Write
    }
}
