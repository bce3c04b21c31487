ghost use Rattle.std.specs.Prelude.{◌≡◌};
ghost use Rattle.zk_jute.specs.declared.fault.JuteFault.TheVariants as faults;

use std::alloc::{AllocError, AllocFailed};
use thiserror::Error;
use zk_path::{NoMemory, PathFault};

/// Why bytes are not a record: the first fault from the left.
#[derive(Clone, Copy, Debug, PartialEq, Eq, Error)]
pub enum JuteFault {
    /// Too few bytes for a field, or for the length it states.
    #[error("J1")]
    Short,
    /// A negative length or count; for a content, one below -1, since -1 is null.
    #[error("J2")]
    Length,
    /// A text that is not UTF-8.
    #[error("J3")]
    Text,
    /// A boolean other than 0 and 1.
    #[error("J4")]
    Boolean,
    /// A type that is no operation's, or no part's.
    #[error("J5")]
    Kind,
    /// Bytes after the body, also in the buffer of a part of a multi.
    #[error("J6")]
    Trailing,
    /// A text that is not a path.
    #[error("J7")]
    Path,
    /// An allocation failed.
    #[error("J8")]
    NoMemory,
}

impl From<NoMemory> for JuteFault {
    ghost from_gives = { λ _ fault. fault ≡ faults.NoMemory };

    fn from(_refused: NoMemory) -> JuteFault {
        JuteFault::NoMemory
    }
}

impl From<AllocError> for JuteFault {
    ghost from_gives = { λ _ fault. fault ≡ faults.NoMemory };

    fn from(_refused: AllocError) -> JuteFault {
        JuteFault::NoMemory
    }
}

impl<T: Drop> From<AllocFailed<T>> for JuteFault {
    ghost from_gives = { λ _ fault. fault ≡ faults.NoMemory };

    fn from(_refused: AllocFailed<T>) -> JuteFault {
        JuteFault::NoMemory
    }
}

/// A text that is not a path, or an allocation failure.
impl From<PathFault> for JuteFault {
    ghost use Rattle.zk_jute.specs.Faults.{fault_of_path};

    ghost from_gives = { λ refused fault. fault ≡ fault_of_path refused };

    fn from(refused: PathFault) -> JuteFault {
        match refused {
            PathFault::NoMemory => JuteFault::NoMemory,
            _ => JuteFault::Path,
        }
    }
}
