//! A 3.8 server's log in small chunks, and reads that fail. Mended whole files are tested in
//! `checks/golden`.

use std::alloc::Global;
use zk_log::{DripIn, DripOut, Ending, LogFault, Sink, Source, write_log};
use zk_mend::{MendFault, Mended, mend};

// The cost of a function's proof grows steeply with its exits and with what it owns there.
// Therefore a test calls one helper, test cases are tables that one helper walks, and a helper
// borrows what was mended.

/// A log of 3.8: a session, a create with a reply's path, and forty zeros after them.
const NEWER: &[u8] =
    b"ZKLG\0\0\0\x02\0\0\0\0\0\0\0\0\0\0\0\0\xc1\x9b\n\x88\0\0\00\x01\0\0M#\xab\0\0\0\0\0\0\0\0\0\0\0\0\0\
      \x01\0\0\x01\xa2\x08u\xe3\x80\xff\xff\xff\xf6\0\0u0\0\0\0\x02\0\0\0\0Q\xc6\xd6`B\0\0\0\0\xe0I\x0be\0\0\
      \0Y\x01\0\0M#\xab\0\0\0\0\0\x01\0\0\0\0\0\0\0\x02\0\0\x01\xa2\x08u\xe3\xa4\0\0\0\x0f\0\0\0\x02/a\0\0\0\
      \x03one\0\0\0\x01\0\0\0\x1f\0\0\0\x05world\0\0\0\x06anyone\0\0\0\0\x01\0\0\0\x02\0\0\0\x01\nA%gB\0\0\0\
      \0\0\0\0\0\0\0\0\0\0\0\0\0\0\0\0\0\0\0\0\0\0\0\0\0\0\0\0\0\0\0\0\0\0\0\0\0";

/// The mended log.
const OLD: &[u8] =
    b"ZKLG\0\0\0\x02\0\0\0\0\0\0\0\0\0\0\0\0Y;\x089\0\0\0$\x01\0\0M#\xab\0\0\0\0\0\0\0\0\0\0\0\0\0\x01\0\0\
      \x01\xa2\x08u\xe3\x80\xff\xff\xff\xf6\0\0u0B\0\0\0\0]\x8e\n}\0\0\0M\x01\0\0M#\xab\0\0\0\0\0\x01\0\0\0\
      \0\0\0\0\x02\0\0\x01\xa2\x08u\xe3\xa4\0\0\0\x01\0\0\0\x02/a\0\0\0\x03one\0\0\0\x01\0\0\0\x1f\0\0\0\x05\
      world\0\0\0\x06anyone\0\0\0\0\x01B";

/// Lengths of prefixes, and how they end.
static FRONTS: [(usize, Ending); 3] = [
    (179, Ending::Whole),
    (182, Ending::Torn(179)),
    (219, Ending::Padding),
];

/// Mends a prefix, with a number of reads before one fails, and of turns. It has no contract: a
/// proof would hold all facts of what was mended.
fn mended(
    alloc: Global,
    length: usize,
    good_calls: Option<u64>,
    turns: u32,
) -> Result<Mended, MendFault> {
    let front = NEWER.get(..length).unwrap_or(NEWER);
    let mut source = Source::new(DripIn::new(front, 7, good_calls));
    mend(alloc, &mut source, turns)
}

/// Writes the mended log.
fn written(alloc: Global, mended: &Mended) -> Option<DripOut> {
    let mut sink = Sink::new(DripOut::new(alloc, 4096, None));
    match write_log(&mut sink, mended.dbid, &mended.journal) {
        Ok(()) => Some(sink.into_inner()),
        Err(_) => None,
    }
}

/// Whether both records were mended, with this ending.
fn is_mended(alloc: Global, mended: &Mended, ending: Ending) -> bool {
    mended.told.records == 2
        && mended.ending == ending
        && matches!(written(alloc, mended), Some(sink) if sink.bytes() == OLD)
}

/// Whether a prefix of `length` bytes is mended with this ending.
fn front_holds(alloc: Global, length: usize, ending: Ending) -> bool {
    match mended(alloc, length, None, 999) {
        Ok(mended) => is_mended(alloc, &mended, ending),
        Err(_) => false,
    }
}

/// Returns the first length with another result.
fn other_front(alloc: Global) -> Option<usize> {
    for (length, ending) in &FRONTS {
        if !front_holds(alloc, *length, *ending) {
            return Some(*length);
        }
    }
    None
}

#[test]
fn a_log_in_small_pieces_is_mended(rt: HostRuntime) {
    assert!(rt; other_front(rt.alloc()).is_none());
}

/// Lengths of prefixes, numbers of good reads and of turns, and the fault.
static FAULTS: [(usize, Option<u64>, u32, LogFault); 3] = [
    (77, Some(5), 999, LogFault::Read),
    (77, None, 5, LogFault::Endless),
    (2, None, 999, LogFault::Header),
];

/// Returns the fault of a log that is rejected.
fn fault_of(mended: &Result<Mended, MendFault>) -> Option<MendFault> {
    match mended {
        Ok(_) => None,
        Err(fault) => Some(*fault),
    }
}

/// Does the same with a prefix of `length` bytes.
fn fault_in(
    alloc: Global,
    length: usize,
    good_calls: Option<u64>,
    turns: u32,
) -> Option<MendFault> {
    fault_of(&mended(alloc, length, good_calls, turns))
}

/// Returns the first fault that is not reported.
fn untold_fault(alloc: Global) -> Option<LogFault> {
    for (length, good_calls, turns, fault) in &FAULTS {
        if fault_in(alloc, *length, *good_calls, *turns) != Some(MendFault::Log(*fault)) {
            return Some(*fault);
        }
    }
    None
}

#[test]
fn failed_reads_and_short_headers_are_told(rt: HostRuntime) {
    assert!(rt; untold_fault(rt.alloc()).is_none());
}
