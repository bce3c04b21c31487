//! Tests of `zk_jute`: an archive of 5,000 transactions holds what a journal of the same ones
//! holds, those that are kept as values and those that are read from their bytes.

use crate::jute_tests::{FIRST, MULTI, SECOND};
use std::alloc::Global;
use zk_jute::{Archive, Span, read_txn, size};
use zk_records::Journal;
use zk_table::Txn;

/// How many transactions are appended.
const COUNT: u32 = 5000;

/// A transaction with this zxid: a session is opened, a node is created, or a multi.
fn numbered(alloc: Global, zxid: i64) -> Option<Txn> {
    let record = match zxid % 3 {
        0 => FIRST.as_slice(),
        1 => SECOND.as_slice(),
        _ => MULTI.as_slice(),
    };
    let mut txn = read_txn(alloc, record).ok()?;
    txn.zxid = zxid;
    Some(txn)
}

fn is_journaled(journal: &mut Journal, txn: Txn) -> bool {
    if txn.zxid <= journal.last_zxid() || size(&txn) > 16_777_216 {
        return false;
    }
    journal.push(txn).is_ok()
}

fn is_archived(archive: &mut Archive, txn: Txn) -> bool {
    if txn.zxid <= archive.last_zxid() || size(&txn) > 16_777_216 {
        return false;
    }
    archive.push(txn).is_ok()
}

/// Appends a transaction to both.
fn is_pushed(archive: &mut Archive, journal: &mut Journal, txn: &Txn) -> bool {
    match (txn.copy(), txn.copy()) {
        (Ok(first), Ok(second)) => is_archived(archive, first) && is_journaled(journal, second),
        _ => false,
    }
}

/// Appends transactions with the zxids after `from`, up to `COUNT`, to both.
fn are_filled(alloc: Global, archive: &mut Archive, journal: &mut Journal, from: u32) -> bool {
    for number in from..COUNT {
        let zxid = i64::from(number).saturating_add(1);
        let is_next = match numbered(alloc, zxid) {
            Some(txn) => is_pushed(archive, journal, &txn),
            None => false,
        };
        if !is_next {
            return false;
        }
    }
    true
}

/// Whether an archive has the bytes, the number and the zxids of a journal.
fn is_same(archive: &Archive, journal: &Journal) -> bool {
    let first = match journal.txns().first() {
        Some(txn) => Some(txn.zxid),
        None => None,
    };
    archive.bytes() == journal.bytes()
        && archive.bytes_len() == journal.bytes().len()
        && archive.len() == journal.txns().len()
        && archive.first_zxid() == first
        && archive.last_zxid() == journal.last_zxid()
}

/// Whether these are a journal's transactions, by their entries.
fn are_of(alloc: Global, txns: &[Txn], journal: &Journal) -> bool {
    let mut again = Journal::new(alloc);
    for txn in txns {
        let is_next = match txn.copy() {
            Ok(txn) => is_journaled(&mut again, txn),
            Err(_) => false,
        };
        if !is_next {
            return false;
        }
    }
    again.bytes() == journal.bytes()
}

/// A journal's transactions between two positions.
fn part(journal: &Journal, from: usize, to: usize) -> Option<Journal> {
    if from > to || to > journal.txns().len() {
        return None;
    }
    let mut part = journal.tail(from).ok()?;
    part.cut(to - from);
    Some(part)
}

fn is_read_as(alloc: Global, span: &Span<'_>, journal: &Journal) -> bool {
    match span.read(alloc) {
        Ok(txns) => are_of(alloc, txns.as_slice(), journal),
        Err(_) => false,
    }
}

/// The transactions between two positions, whose zxids are one above them.
fn is_part_read(
    alloc: Global,
    archive: &Archive,
    journal: &Journal,
    from: usize,
    to: usize,
) -> bool {
    if from > to || to > archive.len() {
        return false;
    }
    let later = archive.span().behind(from);
    if to - from > later.len() {
        return false;
    }
    let span = later.first(to - from);
    match part(journal, from, to) {
        Some(part) => span.len() == to - from && is_read_as(alloc, &span, &part),
        None => false,
    }
}

/// The bytes before and after a position, and the zxid before it.
fn is_split(archive: &Archive, journal: &Journal, at: usize) -> bool {
    match (
        part(journal, 0, at),
        part(journal, at, journal.txns().len()),
    ) {
        (Some(before), Some(after)) => {
            at <= archive.len()
                && archive.bytes_to(at) == before.bytes()
                && archive.bytes_from(at) == after.bytes()
                && archive.zxid_at(at) == before.last_zxid()
                && archive.count_up_to(archive.zxid_at(at)) == at
        }
        _ => false,
    }
}

/// The transaction at a position.
fn is_copied(alloc: Global, archive: &Archive, journal: &Journal, at: usize) -> bool {
    if at >= archive.len() {
        return false;
    }
    match (
        archive.copy_at(alloc, at),
        part(journal, at, at.saturating_add(1)),
    ) {
        (Ok(txn), Some(part)) => {
            let one = [txn];
            are_of(alloc, one.as_slice(), &part)
        }
        _ => false,
    }
}

/// Positions among those that are read from their bytes, at the seam, and among the last ones.
static PARTS: [(usize, usize); 6] = [
    (0, 5000),
    (10, 20),
    (3000, 3000),
    (3900, 4200),
    (4700, 5000),
    (4999, 5000),
];

fn are_parts_read(alloc: Global, archive: &Archive, journal: &Journal) -> bool {
    for (from, to) in &PARTS {
        let is_there = is_part_read(alloc, archive, journal, *from, *to)
            && is_split(archive, journal, *from)
            && is_split(archive, journal, *to);
        if !is_there {
            return false;
        }
    }
    is_copied(alloc, archive, journal, 7) && is_copied(alloc, archive, journal, 4990)
}

/// Cuts both, and fills them again.
fn is_cut(alloc: Global, archive: &mut Archive, journal: &mut Journal, at: u32) -> bool {
    archive.cut(at as usize);
    journal.cut(at as usize);
    is_same(archive, journal)
        && are_filled(alloc, archive, journal, at)
        && is_same(archive, journal)
        && are_parts_read(alloc, archive, journal)
}

/// Replaces all of both by the tail from a position.
fn is_replaced(archive: &mut Archive, journal: &mut Journal, at: usize) -> bool {
    if at > archive.len() || at > journal.txns().len() {
        return false;
    }
    match (archive.tail(at), journal.tail(at)) {
        (Ok(mut tail), Ok(mut other)) => {
            is_same(&tail, &other)
                && is_archive_spliced(archive, &mut tail)
                && is_journal_spliced(journal, &mut other)
                && is_same(archive, journal)
        }
        _ => false,
    }
}

fn is_archive_spliced(archive: &mut Archive, rest: &mut Archive) -> bool {
    !rest.bytes().is_empty() && archive.splice(0, rest).is_ok() && rest.len() == 0
}

fn is_journal_spliced(journal: &mut Journal, rest: &mut Journal) -> bool {
    !rest.txns().is_empty() && journal.splice(0, rest).is_ok()
}

fn archive_is_its_journal(alloc: Global) -> bool {
    let mut archive = Archive::new(alloc);
    let mut journal = Journal::new(alloc);
    is_same(&archive, &journal)
        && are_filled(alloc, &mut archive, &mut journal, 0)
        && is_same(&archive, &journal)
        && are_parts_read(alloc, &archive, &journal)
        && is_cut(alloc, &mut archive, &mut journal, 2000)
        && is_cut(alloc, &mut archive, &mut journal, 4800)
        && is_replaced(&mut archive, &mut journal, 1)
        && is_part_read(alloc, &archive, &journal, 3900, 4100)
        && is_replaced(&mut archive, &mut journal, 4900)
        && is_part_read(alloc, &archive, &journal, 3, 99)
}

#[test]
fn archive_holds_what_a_journal_holds(rt: HostRuntime) {
    assert!(rt; archive_is_its_journal(rt.alloc()));
}
