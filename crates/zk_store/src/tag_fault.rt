ghost use Rattle.std.specs.Prelude.{◌≡◌};
ghost use Rattle.zk_store.specs.declared.tag_fault.TagFault.TheVariants as faults;

use std::alloc::{AllocError, AllocFailed};
use std::io;
use thiserror::Error;

/// Why tags were not stored or not read.
#[derive(Clone, Copy, Debug, Error)]
pub enum TagFault {
    /// The disk returned this error.
    #[error("the disk failed: {0}")]
    Disk(io::Error),
    /// An allocation failed.
    #[error("out of memory")]
    NoMemory,
    /// The checksum of a tag is that of other bytes.
    #[error("the tags are damaged")]
    Damaged,
}

impl From<io::Error> for TagFault {
    ghost from_gives = { λ error fault. fault ≡ faults.Disk error };

    fn from(error: io::Error) -> TagFault {
        TagFault::Disk(error)
    }
}

impl From<AllocError> for TagFault {
    ghost from_gives = { λ _ fault. fault ≡ faults.NoMemory };

    fn from(_failed: AllocError) -> TagFault {
        TagFault::NoMemory
    }
}

impl From<AllocFailed<u64>> for TagFault {
    ghost from_gives = { λ _ fault. fault ≡ faults.NoMemory };

    fn from(_failed: AllocFailed<u64>) -> TagFault {
        TagFault::NoMemory
    }
}
