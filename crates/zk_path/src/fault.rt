ghost use Rattle.std.specs.Prelude.{◌≡◌};
ghost use Rattle.zk_path.specs.declared.fault.PathFault.TheVariants as faults;

use crate::memory::NoMemory;
use std::alloc::{AllocError, AllocFailed};
use thiserror::Error;

/// The first fault of a text that is not a path, checked in the order of the variants.
#[derive(Clone, Copy, Debug, PartialEq, Eq, Error)]
pub enum PathFault {
    /// The text is empty.
    #[error("P1")]
    Empty,
    /// The text does not start with a slash.
    #[error("P2")]
    NotAbsolute,
    /// The text ends with a slash and is not the root.
    #[error("P3")]
    TrailingSlash,
    /// Two slashes are adjacent.
    #[error("P4")]
    EmptyName,
    /// A name is `.` or `..`.
    #[error("P5")]
    DotName,
    /// A name contains a character that no name may contain.
    #[error("P6")]
    BadChar,
    /// An allocation failed.
    #[error("P7")]
    NoMemory,
}

impl From<NoMemory> for PathFault {
    ghost from_gives = { λ _ fault. fault ≡ faults.NoMemory };

    fn from(_refused: NoMemory) -> PathFault {
        PathFault::NoMemory
    }
}

impl From<AllocError> for PathFault {
    ghost from_gives = { λ _ fault. fault ≡ faults.NoMemory };

    fn from(_refused: AllocError) -> PathFault {
        PathFault::NoMemory
    }
}

impl<T: Drop> From<AllocFailed<T>> for PathFault {
    ghost from_gives = { λ _ fault. fault ≡ faults.NoMemory };

    fn from(_refused: AllocFailed<T>) -> PathFault {
        PathFault::NoMemory
    }
}
