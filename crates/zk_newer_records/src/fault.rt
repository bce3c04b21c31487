ghost use Rattle.std.specs.Prelude.{◌≡◌};
ghost use Rattle.zk_newer_records.specs.declared.fault.NewerFault.TheVariants as faults;

use std::alloc::{AllocError, AllocFailed};
use thiserror::Error;
use zk_jute::JuteFault;
use zk_path::NoMemory;

/// Why bytes are not a record that `zk mend` converts. Displayed as the program prints it.
#[derive(Clone, Copy, Debug, PartialEq, Eq, Error)]
pub enum NewerFault {
    /// Not a 3.5 to 3.8 server's record: an unknown type, a digest of another version, other bytes
    /// after a body, an invalid path, a kept body of unknown shape, or any fault of a 3.4 record.
    #[error("G3")]
    Record,
    /// A failed multi that kept bodies of requests, without its error code: converted, it would be
    /// applied.
    #[error("N1")]
    Reasonless,
    /// An allocation failed.
    #[error("G8")]
    NoMemory,
}

impl From<NoMemory> for NewerFault {
    ghost from_gives = { λ _ fault. fault ≡ faults.NoMemory };

    fn from(_refused: NoMemory) -> NewerFault {
        NewerFault::NoMemory
    }
}

impl From<AllocError> for NewerFault {
    ghost from_gives = { λ _ fault. fault ≡ faults.NoMemory };

    fn from(_refused: AllocError) -> NewerFault {
        NewerFault::NoMemory
    }
}

impl<T: Drop> From<AllocFailed<T>> for NewerFault {
    ghost from_gives = { λ _ fault. fault ≡ faults.NoMemory };

    fn from(_refused: AllocFailed<T>) -> NewerFault {
        NewerFault::NoMemory
    }
}

/// Any fault of the bytes, or an allocation failure.
impl From<JuteFault> for NewerFault {
    ghost use Rattle.zk_newer_records.specs.Faults.{fault_of_record};

    ghost from_gives = { λ refused fault. fault ≡ fault_of_record refused };

    fn from(refused: JuteFault) -> NewerFault {
        match refused {
            JuteFault::NoMemory => NewerFault::NoMemory,
            _ => NewerFault::Record,
        }
    }
}
