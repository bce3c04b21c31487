//! Tests of `Source` and `Sink`: what they pass on and count, also with devices that fail.

use crate::log_tests::{ended, read_log};
use std::alloc::Global;
use std::io;
use std::io::{ErrorKind, Read, Write};
use zk_log::{DripIn, DripOut, LogFault, Sink, Source, WriteFault};

/// A device that counts its calls and keeps the size of the last buffer. It reads or writes half of
/// the buffer.
#[derive(Debug, Drop, PartialEq, Eq)]
struct Noting {
    calls: u32,
    size: usize,
}

impl Noting {
    fn note(&mut self, size: usize) {
        self.calls = self.calls.saturating_add(1);
        self.size = size;
    }
}

impl Read for Noting {
    fn read(&mut self, buf: &mut [u8]) -> io::Result<usize> {
        self.note(buf.len());
        Ok(buf.len() / 2)
    }
}

impl Write for Noting {
    fn write(&mut self, buf: &[u8]) -> io::Result<usize> {
        self.note(buf.len());
        Ok(buf.len() / 2)
    }

    fn flush(&mut self) -> io::Result<()> {
        Ok(())
    }
}

/// Whether a read of `size` bytes, at most 99, is passed on whole and once, with the device's
/// result.
fn is_read_passed_on(size: usize) -> Option<bool> {
    let mut room = [0; 99];
    let buf = room.get_mut(..size)?;
    let mut source = Source::new(Noting { calls: 0, size: 0 });
    let is_half = source.read(buf).ok() == Some(size / 2);
    Some(source.into_inner() == Noting { calls: 1, size } && is_half)
}

/// Whether a write of `size` bytes is passed on whole and once.
fn is_write_passed_on(size: usize) -> Option<bool> {
    let zeros = [0; 99];
    let bytes = zeros.get(..size)?;
    let mut sink = Sink::new(Noting { calls: 0, size: 0 });
    let is_half = sink.write(bytes).ok() == Some(size / 2);
    Some(sink.into_inner() == Noting { calls: 1, size } && is_half)
}

#[test]
fn calls_are_passed_on_whole_and_once(rt: HostRuntime) {
    for size in [0, 1, 99] {
        assert!(rt; is_read_passed_on(size) == Some(true));
        assert!(rt; is_write_passed_on(size) == Some(true));
    }
}

/// A read's number of bytes, or `None` if it fails; and the source's counts: reads, failures, ends,
/// and bytes of the last read.
type Counted = (Option<usize>, (u64, u64, u64), usize);

/// Reads once into a buffer, and returns the counts.
fn read_by<R: Read>(source: &mut Source<R>, piece: &mut [u8]) -> Option<Counted> {
    if source.reads() == u64::MAX || source.failures() == u64::MAX {
        return None;
    }
    let given = source.read(piece).ok();
    let counts = (source.reads(), source.failures(), source.ends());
    Some((given, counts, source.last_read()))
}

/// Whether the next reads have these counts, and the buffer then begins with these bytes.
fn read_so<R: Read>(source: &mut Source<R>, rows: &[(Counted, &[u8])]) -> bool {
    let mut piece = [0; 8];
    let mut all = true;
    for (counted, front) in rows {
        all = read_by(source, &mut piece) == Some(*counted)
            && piece.get(..front.len()) == Some(*front)
            && all;
    }
    all
}

/// Five bytes in chunks of two, where the second read fails.
static FAILING_READS: [(Counted, &[u8]); 3] = [
    ((Some(2), (1, 0, 0), 2), b"ab"),
    ((None, (2, 1, 0), 0), b"ab"),
    ((Some(2), (3, 1, 0), 2), b"cd"),
];

/// Whether the reads of five bytes have these counts, and the rest of the buffer is unchanged.
fn five_bytes_are_read() -> bool {
    let mut source = Source::new(DripIn::new(b"abcde", 2, Some(1)));
    let all = read_so(&mut source, &FAILING_READS);
    source.into_inner().rest() == b"e".as_slice() && all
}

/// Two bytes, followed by the end. A failed read meets no end.
static ENDING_READS: [(Counted, &[u8]); 3] = [
    ((Some(2), (2, 0, 0), 2), b"ab"),
    ((Some(0), (3, 0, 1), 0), b"ab"),
    ((None, (4, 1, 1), 0), b"ab"),
];

/// Whether the reads of two bytes have these counts, after a read into an empty buffer, which meets
/// no end.
fn two_bytes_are_read() -> bool {
    let mut source = Source::new(DripIn::new(b"ab", 2, Some(3)));
    read_by(&mut source, &mut []) == Some((Some(0), (1, 0, 0), 0))
        && read_so(&mut source, &ENDING_READS)
}

#[test]
fn source_counts_reads_failures_and_ends(rt: HostRuntime) {
    assert!(rt; five_bytes_are_read());
    assert!(rt; two_bytes_are_read());
}

/// A reader whose first read is interrupted; a second one would meet the end.
#[derive(Debug, Drop)]
struct Interrupted {
    reads: u32,
}

impl Read for Interrupted {
    fn read(&mut self, _buf: &mut [u8]) -> io::Result<usize> {
        self.reads = self.reads.saturating_add(1);
        if self.reads == 1 {
            return Err(io::Error::from(ErrorKind::Interrupted));
        }
        Ok(0)
    }
}

/// Whether a load ends with the interrupted read, which is the only one and counts as a failure.
fn fails_when_interrupted(alloc: Global) -> bool {
    let mut source = Source::new(Interrupted { reads: 0 });
    let is_told = ended(&read_log(alloc, &mut source, 9)) == Err(LogFault::Read);
    let counted = (source.reads(), source.failures());
    source.into_inner().reads == 1 && counted == (1, 1) && is_told
}

#[test]
fn an_interrupted_read_is_a_failure(rt: HostRuntime) {
    assert!(rt; fails_when_interrupted(rt.alloc()));
}

/// Whether a sink takes three bytes of six, then four in two chunks, is flushed, and holds all
/// seven.
fn writes_in_pieces(alloc: Global) -> bool {
    let mut sink = Sink::new(DripOut::new(alloc, 3, None));
    let taken = sink.write(b"abcdef").ok();
    if sink.failures() == u64::MAX {
        return false;
    }
    let told = sink.write_all(b"defg");
    let counts = (sink.writes(), sink.failures());
    let mut out = sink.into_inner();
    let is_out = out.flush().is_ok() && out.bytes() == b"abcdefg".as_slice();
    (taken, told, counts) == (Some(3), Ok(()), (3, 0)) && is_out
}

/// The size of a sink's chunks, the number of calls before it fails, the bytes to write, its count
/// of writes, and the bytes that it took.
type FailedWrite = (usize, Option<u64>, &'static [u8], u64, &'static [u8]);

static FAILED_WRITES: [FailedWrite; 2] = [
    (3, Some(1), b"abcdefg", 2, b"abc"),
    // It takes no byte.
    (0, None, b"a", 1, b""),
];

/// Whether a write fails as expected, and is the only failure.
fn fails_so(alloc: Global, row: &FailedWrite) -> bool {
    let (piece, good_calls, bytes, writes, taken) = row;
    let mut sink = Sink::new(DripOut::new(alloc, *piece, *good_calls));
    let told = sink.write_all(bytes);
    let counts = (sink.writes(), sink.failures());
    let are_left = sink.into_inner().bytes() == *taken;
    told == Err(WriteFault::Write) && counts == (*writes, 1) && are_left
}

#[test]
fn sink_writes_all_in_pieces_or_tells(rt: HostRuntime) {
    assert!(rt; writes_in_pieces(rt.alloc()));
    for row in &FAILED_WRITES {
        assert!(rt; fails_so(rt.alloc(), row));
    }
}
