//! Tests of journals, and of the logs written from them.

use crate::log_tests::{FIRST_LOG, Load, dripped, read_log};
use std::alloc::Global;
use zk_log::{DripOut, Ending, Journal, LogFault, Sink, Source, WriteFault, write_log};
use zk_records::size;
use zk_table::Txn;

/// Appends a transaction if its zxid is above the last one's, and returns whether it was appended.
fn is_pushed(journal: &mut Journal, txn: Txn) -> bool {
    if txn.zxid <= journal.last_zxid() || size(&txn) > 16_777_216 {
        return false;
    }
    journal.push(txn).is_ok()
}

/// Counts the loaded transactions that are appended.
fn count_pushed(journal: &mut Journal, loaded: Load) -> Result<u32, LogFault> {
    let mut count: u32 = 0;
    for txn in loaded?.txns.into_vec() {
        if is_pushed(journal, txn) {
            count = count.saturating_add(1);
        }
    }
    Ok(count)
}

/// Whether a journal's bytes are these of the first log, and its transactions are `count`.
fn holds(journal: &Journal, from: usize, to: usize, count: usize) -> bool {
    FIRST_LOG.get(from..to) == Some(journal.bytes()) && journal.txns().len() == count
}

/// Whether `count` transactions of the first log are appended, and then held.
fn is_filled(alloc: Global, journal: &mut Journal, count: u32) -> bool {
    let mut source = Source::new(FIRST_LOG.as_slice());
    let loaded = read_log(alloc, &mut source, 2);
    count_pushed(journal, loaded) == Ok(count) && holds(journal, 16, 199, 3)
}

/// Whether a cut leaves these bytes of the first log, and `left` transactions.
fn is_cut(journal: &mut Journal, count: usize, to: usize, left: usize) -> bool {
    journal.cut(count);
    holds(journal, 16, to, left)
}

/// Replaces a journal's entries by all of another's, and returns whether that succeeded.
fn is_replaced(journal: &mut Journal, rest: &mut Journal) -> bool {
    !rest.txns().is_empty() && journal.splice(0, rest).is_ok()
}

/// Whether the entries after a journal's first are copied, and can then replace the whole journal.
fn ends_as_its_tail(journal: &mut Journal) -> bool {
    if journal.txns().is_empty() {
        return false;
    }
    match journal.tail(1) {
        Ok(mut tail) => {
            holds(&tail, 65, 199, 2)
                && is_replaced(journal, &mut tail)
                && holds(journal, 65, 199, 2)
                && holds(&tail, 16, 16, 0)
        }
        Err(_) => false,
    }
}

/// Whether an empty journal is filled, cut, filled again, and cut to its tail.
fn holds_its_list(alloc: Global, journal: &mut Journal) -> bool {
    is_filled(alloc, journal, 3)
        && is_cut(journal, 4, 199, 3)
        && is_cut(journal, 1, 65, 1)
        && journal.last_zxid() == 0x1_0000_0001
        && is_filled(alloc, journal, 2)
        && ends_as_its_tail(journal)
}

/// Whether a new journal is empty, and can be filled.
fn new_journal_holds_its_list(alloc: Global) -> bool {
    let mut journal = Journal::new(alloc);
    (journal.last_zxid(), journal.bytes().len()) == (0, 0) && holds_its_list(alloc, &mut journal)
}

#[test]
fn journal_holds_the_entries_of_its_list(rt: HostRuntime) {
    assert!(rt; new_journal_holds_its_list(rt.alloc()));
}

/// Whether a journal is written as these bytes, which load as `count` transactions.
fn is_written_as(alloc: Global, dbid: i64, journal: &Journal, bytes: &[u8], count: usize) -> bool {
    let mut sink = Sink::new(DripOut::new(alloc, 7, None));
    let told = write_log(&mut sink, dbid, journal);
    let is_out = sink.into_inner().bytes() == bytes;
    told == Ok(()) && is_out && dripped(alloc, bytes, (200, None, 9)) == Ok((count, Ending::Whole))
}

/// Whether an empty journal is written as its magic number and its dbid.
fn is_written_empty(alloc: Global) -> bool {
    let journal = Journal::new(alloc);
    let bytes = b"ZKLG\0\0\0\x02\xff\xff\xff\xff\xff\xff\xff\xfe";
    is_written_as(alloc, -2, &journal, bytes, 0)
}

#[test]
fn log_of_no_entries_has_its_dbid(rt: HostRuntime) {
    assert!(rt; is_written_empty(rt.alloc()));
}

/// The size of a sink's chunks, the number of calls before it fails, its count of writes, and the
/// number of bytes left.
type FailedWrite = (usize, Option<u64>, u64, usize);

static FAILED_WRITES: [FailedWrite; 4] = [
    // in the magic number, in the dbid, and in the entries
    (100, Some(0), 1, 0),
    (100, Some(1), 2, 8),
    (100, Some(3), 4, 116),
    // It takes no byte.
    (0, None, 1, 0),
];

/// Whether a write of a log fails as expected, and is the only failure.
fn fails_so(alloc: Global, journal: &Journal, row: &FailedWrite) -> bool {
    let (piece, good_calls, writes, length) = row;
    let mut sink = Sink::new(DripOut::new(alloc, *piece, *good_calls));
    let told = write_log(&mut sink, 0, journal);
    let counts = (sink.writes(), sink.failures());
    let is_left = FIRST_LOG.get(..*length) == Some(sink.into_inner().bytes());
    told == Err(WriteFault::Write) && counts == (*writes, 1) && is_left
}

/// Whether each failure is reported, also each of 199 writes of one byte.
fn are_told(alloc: Global, journal: &Journal) -> bool {
    let mut all = true;
    for row in &FAILED_WRITES {
        all = fails_so(alloc, journal, row) && all;
    }
    for length in 0..199 {
        let good_calls = length as u64;
        let row = (1, Some(good_calls), good_calls.saturating_add(1), length);
        all = fails_so(alloc, journal, &row) && all;
    }
    all
}

/// Whether a new journal takes the first log's transactions, is written as that log, and reports
/// failures.
fn first_log_is_written(alloc: Global) -> bool {
    let mut journal = Journal::new(alloc);
    is_filled(alloc, &mut journal, 3)
        && is_written_as(alloc, 0, &journal, &FIRST_LOG, 3)
        && are_told(alloc, &journal)
}

#[test]
fn written_log_is_loaded_again_and_a_failed_write_told(rt: HostRuntime) {
    assert!(rt; first_log_is_written(rt.alloc()));
}
