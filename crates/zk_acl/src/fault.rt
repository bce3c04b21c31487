ghost use Rattle.std.specs.Prelude.{◌≡◌};
ghost use Rattle.zk_acl.specs.declared.fault.AclFault.TheVariants as faults;

use std::alloc::{AllocError, AllocFailed};
use thiserror::Error;
use zk_path::NoMemory;

/// Why an access control list or a digest is rejected.
#[derive(Clone, Copy, Debug, PartialEq, Eq, Error)]
pub enum AclFault {
    /// No caller may set this list, or the text names no user.
    #[error("A1")]
    Invalid,
    /// An allocation failed.
    #[error("A2")]
    NoMemory,
}

impl From<NoMemory> for AclFault {
    ghost from_gives = { λ _ fault. fault ≡ faults.NoMemory };

    fn from(_refused: NoMemory) -> AclFault {
        AclFault::NoMemory
    }
}

impl From<AllocError> for AclFault {
    ghost from_gives = { λ _ fault. fault ≡ faults.NoMemory };

    fn from(_refused: AllocError) -> AclFault {
        AclFault::NoMemory
    }
}

impl<T: Drop> From<AllocFailed<T>> for AclFault {
    ghost from_gives = { λ _ fault. fault ≡ faults.NoMemory };

    fn from(_refused: AllocFailed<T>) -> AclFault {
        AclFault::NoMemory
    }
}
