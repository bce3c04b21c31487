ghost use Rattle.std.specs.Prelude.{◌≡◌};
ghost use Rattle.zk_quorum_records.specs.declared.fault.WriteFault.TheVariants as faults;

use std::alloc::{AllocError, AllocFailed};
use thiserror::Error;
use zk_jute::JuteFault;
use zk_path::NoMemory;

/// Why the next item of a stream cannot be taken.
#[derive(Clone, Copy, Debug, PartialEq, Eq, Error)]
pub enum StreamFault {
    /// It has more bytes than an item may have.
    #[error("longer than 16777216 bytes")]
    TooLong,
    /// The first of its fields that cannot be read.
    #[error("{0}")]
    Field(JuteFault),
}

/// A fault of a stream, and where in it the item begins.
#[derive(Clone, Copy, Debug, PartialEq, Eq, Error)]
#[error("byte {place}: {fault}")]
pub struct BadItem {
    pub place: u64,
    pub fault: StreamFault,
}

/// Why no item can be taken from a stream.
#[derive(Clone, Copy, Debug, PartialEq, Eq, Error)]
pub enum DecodeFault {
    /// The stream ends at this item.
    #[error("{0}")]
    Broken(BadItem),
    /// An allocation failed; the item still waits.
    #[error("out of memory")]
    NoMemory,
}

/// Why a value has no bytes.
#[derive(Clone, Copy, Debug, PartialEq, Eq, Error)]
pub enum WriteFault {
    /// A text, data or a list is longer than its field, or an address is empty.
    #[error("a length that its field cannot have")]
    Length,
    /// An allocation failed.
    #[error("out of memory")]
    NoMemory,
}

impl From<NoMemory> for WriteFault {
    ghost from_gives = { λ _ fault. fault ≡ faults.NoMemory };

    fn from(_refused: NoMemory) -> WriteFault {
        WriteFault::NoMemory
    }
}

impl From<AllocError> for WriteFault {
    ghost from_gives = { λ _ fault. fault ≡ faults.NoMemory };

    fn from(_refused: AllocError) -> WriteFault {
        WriteFault::NoMemory
    }
}

impl<T: Drop> From<AllocFailed<T>> for WriteFault {
    ghost from_gives = { λ _ fault. fault ≡ faults.NoMemory };

    fn from(_refused: AllocFailed<T>) -> WriteFault {
        WriteFault::NoMemory
    }
}
