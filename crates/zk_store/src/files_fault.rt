ghost use Rattle.std.specs.Prelude.{◌≡◌};
ghost use Rattle.zk_store.specs.declared.files_fault.FilesFault.TheVariants as faults;

use crate::{BookFault, LogStoreFault, TagFault};
use std::alloc::AllocError;
use std::io;
use thiserror::Error;
use zk_path::NoMemory;

/// Why a change or a recovery of a store's files failed.
#[derive(Clone, Copy, Debug, Error)]
pub enum FilesFault {
    /// A call of a file failed.
    #[error("the disk failed: {0}")]
    Disk(io::Error),
    /// An allocation failed.
    #[error("out of memory")]
    NoMemory,
    /// A checksum is that of other bytes, or the files do not have what the book counts.
    #[error("the store is damaged")]
    Damaged,
    /// The history has 2^60 entries or more.
    #[error("the store is full")]
    Full,
}

impl From<io::Error> for FilesFault {
    ghost from_gives = { λ error fault. fault ≡ faults.Disk error };

    fn from(error: io::Error) -> FilesFault {
        FilesFault::Disk(error)
    }
}

impl From<NoMemory> for FilesFault {
    ghost from_gives = { λ _ fault. fault ≡ faults.NoMemory };

    fn from(_failed: NoMemory) -> FilesFault {
        FilesFault::NoMemory
    }
}

impl From<AllocError> for FilesFault {
    ghost from_gives = { λ _ fault. fault ≡ faults.NoMemory };

    fn from(_failed: AllocError) -> FilesFault {
        FilesFault::NoMemory
    }
}

impl From<TagFault> for FilesFault {
    ghost use Rattle.zk_store.specs.Faults.{tag_fault};

    ghost from_gives = { λ error fault. fault ≡ tag_fault error };

    fn from(fault: TagFault) -> FilesFault {
        match fault {
            TagFault::Disk(error) => FilesFault::Disk(error),
            TagFault::NoMemory => FilesFault::NoMemory,
            TagFault::Damaged => FilesFault::Damaged,
        }
    }
}

impl From<BookFault> for FilesFault {
    ghost use Rattle.zk_store.specs.Faults.{book_fault};

    ghost from_gives = { λ error fault. fault ≡ book_fault error };

    fn from(fault: BookFault) -> FilesFault {
        match fault {
            BookFault::Disk(error) => FilesFault::Disk(error),
            BookFault::NoMemory => FilesFault::NoMemory,
            BookFault::Damaged => FilesFault::Damaged,
        }
    }
}

impl From<LogStoreFault> for FilesFault {
    ghost use Rattle.zk_store.specs.Faults.{log_fault};

    ghost from_gives = { λ error fault. fault ≡ log_fault error };

    fn from(fault: LogStoreFault) -> FilesFault {
        match fault {
            LogStoreFault::Disk(error) => FilesFault::Disk(error),
            LogStoreFault::Header => FilesFault::Damaged,
            LogStoreFault::NoMemory => FilesFault::NoMemory,
        }
    }
}
