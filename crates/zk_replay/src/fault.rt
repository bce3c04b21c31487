ghost use Rattle.std.specs.Prelude.{◌≡◌};
ghost use Rattle.zk_replay.specs.declared.fault.BaseFault.TheVariants as faults;

use std::alloc::AllocError;
use thiserror::Error;
use zk_path::NoMemory;

/// Why a snapshot holds no state. Each prints as its name.
#[derive(Clone, Copy, Debug, PartialEq, Eq, Error)]
pub enum BaseFault {
    /// The nodes are not a tree: no root, a path twice, or a parent that is missing, has an owner
    /// or counts -1 creates.
    #[error("S7")]
    Tree,
    /// A node refers to an access control list that neither the file nor the log holds.
    #[error("S8")]
    Access,
    /// Allocation failed.
    #[error("G8")]
    NoMemory,
}

impl From<NoMemory> for BaseFault {
    ghost from_gives = { λ _ fault. fault ≡ faults.NoMemory };

    fn from(_fault: NoMemory) -> BaseFault {
        BaseFault::NoMemory
    }
}

impl From<AllocError> for BaseFault {
    ghost from_gives = { λ _ fault. fault ≡ faults.NoMemory };

    fn from(_fault: AllocError) -> BaseFault {
        BaseFault::NoMemory
    }
}
