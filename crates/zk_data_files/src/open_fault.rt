ghost use Rattle.std.specs.Prelude.{◌≡◌, ◌≢◌};
ghost use Rattle.zab_host.specs.declared.storage.StoreFault.TheVariants as store_faults;
ghost use Rattle.zk_data_files.specs.FileStores.{store_fault_of};
ghost use Rattle.zk_data_files.specs.declared.open_fault.OpenFault.TheVariants as faults;

use sqlite_disk::Disk;
use std::io;
use thiserror::Error;
use zab_host::StoreFault;
use zk_store::{BookFault, FilesFault, StoreFiles};

/// Why a store was not opened.
#[derive(Clone, Copy, Debug, Error)]
pub enum OpenFault {
    /// Out of memory.
    #[error("out of memory")]
    NoMemory,
    /// A call of a file failed, or a sync of one had failed before.
    #[error("the disk failed")]
    Disk,
    /// The files have no book, but the log has entries. They are unchanged.
    #[error("the book of the store is missing")]
    NoBook,
    /// The checksum of the book is that of other bytes. The files are unchanged.
    #[error("the book of the store is damaged")]
    DamagedBook,
    /// A checksum of a tag is that of other bytes, or the files do not have the entries that the book
    /// counts. They are unchanged.
    #[error("the log of the store is damaged")]
    Damaged,
}

impl From<io::Error> for OpenFault {
    ghost from_gives = { λ _ error. error ≡ faults.Disk };

    fn from(_error: io::Error) -> OpenFault {
        OpenFault::Disk
    }
}

impl From<BookFault> for OpenFault {
    ghost use Rattle.zk_data_files.specs.FileStores.{book_open_fault};

    ghost from_gives = { λ fault error. error ≡ book_open_fault fault };

    fn from(fault: BookFault) -> OpenFault {
        match fault {
            BookFault::NoMemory => OpenFault::NoMemory,
            BookFault::Disk(_) => OpenFault::Disk,
            BookFault::Damaged => OpenFault::DamagedBook,
        }
    }
}

impl From<FilesFault> for OpenFault {
    ghost use Rattle.zk_data_files.specs.FileStores.{open_fault};

    ghost from_gives = { λ fault error. error ≡ open_fault fault };

    fn from(fault: FilesFault) -> OpenFault {
        match fault {
            FilesFault::NoMemory => OpenFault::NoMemory,
            FilesFault::Disk(_) => OpenFault::Disk,
            // No file has the entries of a book that counts 2^60.
            FilesFault::Damaged | FilesFault::Full => OpenFault::Damaged,
        }
    }
}

/// A store that was not opened, and why.
#[derive(Drop)]
pub struct Unopened<D: Disk> {
    pub fault: OpenFault,
    /// The files, as the call has left them.
    pub files: StoreFiles<D>,
}

/// The fault of a store whose files failed.
pub(crate) fn store_fault(fault: FilesFault) -> StoreFault
    ensures is { result ≡ store_fault_of fault }
    ensures not_full { result ≢ store_faults.BootsFull }
{
    match fault {
        FilesFault::NoMemory => StoreFault::NoMemory,
        FilesFault::Disk(_) => StoreFault::Failed,
        FilesFault::Damaged => StoreFault::Failed,
        FilesFault::Full => StoreFault::Failed,
    }
}
