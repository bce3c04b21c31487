use sqlite_std_file::OpenError;
use std::alloc::{AllocError, AllocFailed};
use std::io;
use thiserror::Error;

/// Why a data directory cannot be used.
#[derive(Clone, Copy, Debug, Error)]
pub enum DataFault {
    /// Another process uses it.
    #[error("another process uses it")]
    InUse,
    /// It is the directory of an ensemble of this number of servers.
    #[error("it has the data of {0} servers")]
    Servers(usize),
    /// Its file `ensemble` is damaged.
    #[error("its file `ensemble` is damaged")]
    Damaged,
    /// A call of a server's files failed.
    #[error("the files of server {0} have failed")]
    Store(usize),
    /// A server's log does not have the entries that its book counts.
    #[error("the log of server {0} is damaged")]
    Log(usize),
    /// A server's book is damaged.
    #[error("the book of server {0} is damaged")]
    Book(usize),
    /// The book of a server's store is missing, though its log has entries.
    #[error("the book of server {0} is missing")]
    NoBook(usize),
    /// The system has rejected a call.
    #[error("{0}")]
    System(io::Error),
    /// Out of memory.
    #[error("out of memory")]
    NoMemory,
}

impl From<io::Error> for DataFault {
    fn from(error: io::Error) -> DataFault {
        DataFault::System(error)
    }
}

impl From<AllocError> for DataFault {
    fn from(_failed: AllocError) -> DataFault {
        DataFault::NoMemory
    }
}

impl<T: Drop> From<AllocFailed<T>> for DataFault {
    fn from(_failed: AllocFailed<T>) -> DataFault {
        DataFault::NoMemory
    }
}

impl From<OpenError> for DataFault {
    fn from(error: OpenError) -> DataFault {
        match error {
            OpenError::Io(error) => DataFault::System(error),
            OpenError::OutOfMemory => DataFault::NoMemory,
            OpenError::Busy => DataFault::InUse,
            OpenError::HotJournal => DataFault::Damaged,
        }
    }
}
