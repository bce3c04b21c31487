//! Log files that are read from memory.

use crate::files::WINDOW;
use std::alloc::Global;
use zk_directory::{FileEntry, LogFile, LogFileFault, read_log_file};
use zk_log::Ending;

/// A header, and a zero.
const HEADER: &[u8] = b"ZKLG\0\0\0\x02\0\0\0\0\0\0\0\0\0";

/// An entry of zxid 0.
const UNNUMBERED: &[u8] =
    b"ZKLG\0\0\0\x02\0\0\0\0\0\0\0\0\0\0\0\0\x1a\xb8\x04\xa4\0\0\0$\0\0\0\0\0\0\0\x01\0\0\0\0\0\0\
      \0\0\0\0\0\0\0\0\0\0\0\0\0\0\xff\xff\xff\xf6\0\0\x0f\xa0B";

/// An entry whose checksum is one more than that of its record.
const WRONG_SUM: &[u8] = b"ZKLG\0\0\0\x02\0\0\0\0\0\0\0\0\0\0\0\0\0\x02\0\x03\0\0\0\x01\x01B";

/// An entry whose record is one byte.
const NO_RECORD: &[u8] = b"ZKLG\0\0\0\x02\0\0\0\0\0\0\0\0\0\0\0\0\0\x02\0\x02\0\0\0\x01\x01B";

/// An entry of 16,777,217 bytes.
const TOO_LONG: &[u8] = b"ZKLG\0\0\0\x02\0\0\0\0\0\0\0\0\0\0\0\0\0\0\0\0\x01\0\0\x01";

/// The offsets, zxids and lengths of the records of `WINDOW`.
static ENTRIES: [(u64, i64, usize); 8] = [
    (16, 0x11, 77),
    (106, 0x12, 40),
    (159, 0x13, 40),
    (212, 0x14, 32),
    (257, 0x15, 42),
    (312, 0x16, 75),
    (400, 0x17, 71),
    (484, 0x18, 51),
];

/// Files, how many of their bytes are kept, how many entries of `ENTRIES` they have, and how they
/// end.
static FILES: [(&[u8], usize, usize, Result<Ending, LogFileFault>); 12] = [
    (WINDOW, 548, 8, Ok(Ending::Whole)),
    (WINDOW, 547, 7, Ok(Ending::Torn(484))),
    (WINDOW, 490, 7, Ok(Ending::Torn(484))),
    (HEADER, 17, 0, Ok(Ending::Torn(16))),
    (HEADER, 16, 0, Ok(Ending::Whole)),
    (HEADER, 15, 0, Err(LogFileFault::Header)),
    (HEADER, 0, 0, Ok(Ending::Whole)),
    (b"\0\0\0", 3, 0, Ok(Ending::Padding)),
    (
        UNNUMBERED,
        UNNUMBERED.len(),
        0,
        Err(LogFileFault::Order(16)),
    ),
    (
        WRONG_SUM,
        WRONG_SUM.len(),
        0,
        Err(LogFileFault::Checksum(16)),
    ),
    (NO_RECORD, NO_RECORD.len(), 0, Err(LogFileFault::Record(16))),
    (TOO_LONG, TOO_LONG.len(), 0, Err(LogFileFault::TooLong(16))),
];

/// Whether the entries are the first of `ENTRIES`.
fn are_entries(entries: &[FileEntry<'_>]) -> bool {
    let mut all = true;
    for (entry, (at, zxid, length)) in entries.iter().zip(ENTRIES.iter()) {
        all = entry.at == *at && entry.newer.txn.zxid == *zxid && all;
        all = entry.bytes.len() == *length && all;
    }
    all
}

/// Whether a file has this many entries and this outcome.
fn is_file(file: &LogFile<'_>, count: usize, outcome: Result<Ending, LogFileFault>) -> bool {
    file.entries.len() == count && file.outcome == outcome && are_entries(file.entries.as_slice())
}

/// Reads a file. It has no contract: a proof would hold all facts of what was read.
pub(crate) fn read(alloc: Global, bytes: &[u8]) -> Option<LogFile<'_>> {
    read_log_file(alloc, bytes).ok()
}

/// Whether a file is read so.
fn is_read(
    alloc: Global,
    bytes: &[u8],
    count: usize,
    outcome: Result<Ending, LogFileFault>,
) -> bool {
    matches!(read(alloc, bytes), Some(file) if is_file(&file, count, outcome))
}

/// Returns the number of the first file that is read otherwise.
fn other_file(alloc: Global) -> Option<usize> {
    for (number, (bytes, kept, count, outcome)) in FILES.iter().enumerate() {
        let bytes = bytes.get(..*kept).unwrap_or(*bytes);
        if !is_read(alloc, bytes, *count, *outcome) {
            return Some(number);
        }
    }
    None
}

#[test]
fn log_files_are_read_up_to_their_end(rt: HostRuntime) {
    assert_eq!(rt; other_file(rt.alloc()), None);
}
