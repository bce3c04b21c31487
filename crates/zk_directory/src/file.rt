//! The contents of a log file.

use thiserror::Error;
use zk_log::Ending;
use zk_newer_records::NewerRecord;

/// An entry of a log file.
#[derive(Debug, Drop)]
pub struct FileEntry<'a> {
    /// The offset from the start of the file, in bytes.
    pub at: u64,
    /// The bytes of the record.
    pub bytes: &'a [u8],
    pub newer: NewerRecord,
}

/// The entries of a log file, up to its end or to the first that is rejected.
#[derive(Debug, Drop)]
pub struct LogFile<'a> {
    pub entries: Vec<FileEntry<'a>>,
    pub outcome: Result<Ending, LogFileFault>,
}

/// Why reading a log file stops. A position is the offset of an entry from the start of the file,
/// in bytes.
#[derive(Clone, Copy, Debug, PartialEq, Eq, Error)]
pub enum LogFileFault {
    /// The header is short, or its first 8 bytes are wrong.
    #[error("G1")]
    Header,
    /// Checksum mismatch.
    #[error("G2 {0}")]
    Checksum(u64),
    /// The record is not one of a 3.4 to 3.8 server.
    #[error("G3 {0}")]
    Record(u64),
    /// The zxid is not above the one before (0 at the start).
    #[error("G4 {0}")]
    Order(u64),
    /// The length, unsigned, is above 16,777,216.
    #[error("G5 {0}")]
    TooLong(u64),
}
