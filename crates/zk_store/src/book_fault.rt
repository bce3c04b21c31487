ghost use Rattle.std.specs.Prelude.{◌≡◌};
ghost use Rattle.zk_store.specs.declared.book_fault.BookFault.TheVariants as faults;

use std::alloc::AllocError;
use std::io;
use thiserror::Error;

/// Why a book was not stored or not read.
#[derive(Clone, Copy, Debug, Error)]
pub enum BookFault {
    /// The disk returned this error.
    #[error("the disk failed: {0}")]
    Disk(io::Error),
    /// An allocation failed.
    #[error("out of memory")]
    NoMemory,
    /// The checksum of the selected block is that of other bytes.
    #[error("the book is damaged")]
    Damaged,
}

impl From<io::Error> for BookFault {
    ghost from_gives = { λ error fault. fault ≡ faults.Disk error };

    fn from(error: io::Error) -> BookFault {
        BookFault::Disk(error)
    }
}

impl From<AllocError> for BookFault {
    ghost from_gives = { λ _ fault. fault ≡ faults.NoMemory };

    fn from(_failed: AllocError) -> BookFault {
        BookFault::NoMemory
    }
}
