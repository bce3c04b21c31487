//! Tests of `zk_jute`: the fault of each rejected record, which no command of `zk` prints, and that
//! other records are written back, by both readers. The contents of records are tested in
//! checks/golden/records.golden.

use crate::jute_tests::Of::{First, Multi, Part, Second, Third};
use std::alloc::Global;
use zk_acl::Acls;
use zk_jute::JuteFault::{self, Boolean, Kind, Length, Short, Trailing};
use zk_jute::{read_txn, read_txn_sharing, size, write_txn};
use zk_path::NoMemory;
use zk_table::Txn;

/// The first record of the first log: a session is opened.
pub(crate) static FIRST: [u8; 36] = [
    // session, cxid, zxid and time
    1, 0, 0, 0, 0, 0, 0, 1, 0, 0, 0, 0, 0, 0, 0, 1, 0, 0, 0, 1, 0, 0, 0, 0, 0, 0, 0x03, 0xe8,
    // createSession, and its timeout
    0xff, 0xff, 0xff, 0xf6, 0, 0, 0x75, 0x30,
];

/// The second: `/a` is created.
pub(crate) static SECOND: [u8; 76] = [
    // session, cxid, zxid and time
    1, 0, 0, 0, 0, 0, 0, 1, 0, 0, 0, 1, 0, 0, 0, 1, 0, 0, 0, 2, 0, 0, 0, 0, 0, 0, 0x07, 0xd0,
    // create, the path and the content
    0, 0, 0, 1, 0, 0, 0, 2, b'/', b'a', 0, 0, 0, 2, b'h', b'i',
    // one entry: perms, scheme and id
    0, 0, 0, 1, 0, 0, 0, 31, 0, 0, 0, 5, b'w', b'o', b'r', b'l', b'd', 0, 0, 0, 6, b'a', b'n',
    b'y', b'o', b'n', b'e',
    // not ephemeral, and the count
    0, 0, 0, 0, 1,
];

/// The third: the session is closed.
static THIRD: [u8; 32] = [
    // session, cxid, zxid and time
    1, 0, 0, 0, 0, 0, 0, 1, 0, 0, 0, 2, 0, 0, 0, 1, 0, 0, 0, 3, 0, 0, 0, 0, 0, 0, 0x0b, 0xb8,
    // closeSession
    0xff, 0xff, 0xff, 0xf5,
];

/// A multi: `/a` is checked, and the request failed.
pub(crate) static MULTI: [u8; 66] = [
    // session, cxid, zxid and time
    1, 0, 0, 0, 0, 0, 0, 1, 0, 0, 0, 3, 0, 0, 0, 1, 0, 0, 0, 4, 0, 0, 0, 0, 0, 0, 0x0b, 0xb8,
    // multi with two parts
    0, 0, 0, 14, 0, 0, 0, 2,
    // check, the length of its body, the path and the version
    0, 0, 0, 13, 0, 0, 0, 10, 0, 0, 0, 2, b'/', b'a', 0, 0, 0, 7,
    // error, the length of its body, and code -103
    0xff, 0xff, 0xff, 0xff, 0, 0, 0, 4, 0xff, 0xff, 0xff, 0x99,
];

/// A multi whose only part creates `/a`.
static PART: [u8; 88] = [
    // session, cxid, zxid and time
    1, 0, 0, 0, 0, 0, 0, 1, 0, 0, 0, 3, 0, 0, 0, 1, 0, 0, 0, 4, 0, 0, 0, 0, 0, 0, 0x0b, 0xb8,
    // multi with one part
    0, 0, 0, 14, 0, 0, 0, 1,
    // create, the length of its body, the path and the content
    0, 0, 0, 1, 0, 0, 0, 44, 0, 0, 0, 2, b'/', b'a', 0, 0, 0, 2, b'h', b'i',
    // one entry: perms, scheme and id
    0, 0, 0, 1, 0, 0, 0, 31, 0, 0, 0, 5, b'w', b'o', b'r', b'l', b'd', 0, 0, 0, 6, b'a', b'n',
    b'y', b'o', b'n', b'e',
    // not ephemeral, and the count
    0, 0, 0, 0, 1,
];

/// The record from which another one is built.
#[derive(Clone, Copy)]
enum Of {
    First,
    Second,
    Third,
    Multi,
    Part,
}

/// How a record is built: bytes of a record up to an offset, other bytes, and bytes of the record
/// between two offsets. Then its fault, if it is not read and written back.
type Row = (Of, usize, &'static [u8], usize, usize, Option<JuteFault>);

static ROWS: [Row; 29] = [
    // each of them unchanged
    (First, 36, b"", 36, 36, None),
    (Second, 76, b"", 76, 76, None),
    (Third, 32, b"", 32, 32, None),
    (Multi, 66, b"", 66, 66, None),
    // the same access control list as before, another one, and the first one again
    (Second, 76, b"", 76, 76, None),
    (Second, 48, &[0, 0, 0, 1], 52, 76, None),
    (Second, 76, b"", 76, 76, None),
    // a create of 3.3, which ends after its boolean; without the boolean, with a part of a count,
    // and with one byte more
    (Second, 72, b"", 72, 72, None),
    (Second, 71, b"", 71, 71, Some(Short)),
    (Second, 73, b"", 73, 73, Some(Short)),
    (Second, 74, b"", 74, 74, Some(Short)),
    (Second, 75, b"", 75, 75, Some(Short)),
    (Second, 76, &[0], 76, 76, Some(Trailing)),
    // the body of a part without the count, with parts of it, and whole
    (Part, 43, &[40], 44, 84, Some(Short)),
    (Part, 43, &[41], 44, 85, Some(Short)),
    (Part, 43, &[43], 44, 87, Some(Short)),
    (Part, 88, b"", 88, 88, None),
    // a timeout without its last byte, an unknown type, and one byte after a record
    (First, 35, b"", 35, 35, Some(Short)),
    (First, 28, &[0, 0, 0, 3], 32, 36, Some(Kind)),
    (First, 36, &[0], 36, 36, Some(Trailing)),
    // a wrong boolean, a list of -1 entries, an invalid path, and invalid UTF-8
    (Second, 71, &[2], 72, 76, Some(Boolean)),
    (Second, 44, &[0xff, 0xff, 0xff, 0xff], 48, 76, Some(Length)),
    (Second, 36, b"aa", 38, 76, Some(JuteFault::Path)),
    (Second, 36, b"/\xff", 38, 76, Some(JuteFault::Text)),
    // a part of an unknown type, and one with a null body
    (Multi, 36, &[0, 0, 0, 7], 40, 66, Some(Kind)),
    (Multi, 40, &[0xff, 0xff, 0xff, 0xff], 44, 66, Some(Length)),
    // a body that is longer than the rest, shorter than its fields, and longer than its fields
    (Multi, 40, &[0, 0, 0, 23], 44, 66, Some(Short)),
    (Multi, 40, &[0, 0, 0, 9], 44, 66, Some(Short)),
    (Multi, 40, &[0, 0, 0, 11], 44, 66, Some(Trailing)),
];

fn bytes_of(of: Of) -> &'static [u8] {
    match of {
        First => &FIRST,
        Second => &SECOND,
        Third => &THIRD,
        Multi => &MULTI,
        Part => &PART,
    }
}

/// Concatenates three slices.
fn joined(alloc: Global, front: &[u8], middle: &[u8], back: &[u8]) -> Result<Vec<u8>, NoMemory> {
    let mut bytes = Vec::from_slice(alloc, front)?;
    bytes.extend_from_slice(middle)?;
    bytes.extend_from_slice(back)?;
    Ok(bytes)
}

/// Builds the record of a test case.
fn made(alloc: Global, row: &Row) -> Option<Vec<u8>> {
    let (of, place, middle, behind, end, _) = row;
    let record = bytes_of(*of);
    let front = record.get(..*place)?;
    let back = record.get(*behind..*end)?;
    joined(alloc, front, middle, back).ok()
}

// A function that owns what was read has an expensive proof: there are few of them, without
// contracts.

fn read(alloc: Global, record: &[u8]) -> Result<Txn, JuteFault> {
    read_txn(alloc, record)
}

fn read_after(alloc: Global, earlier: &mut Option<Acls>, record: &[u8]) -> Result<Txn, JuteFault> {
    read_txn_sharing(alloc, earlier, record)
}

/// Returns the record of a transaction, or `None` if it is too long.
fn written(alloc: Global, txn: &Txn) -> Option<Vec<u8>> {
    if size(txn) > 16_777_216 {
        return None;
    }
    write_txn(alloc, txn).ok()
}

/// Whether a record was written, and is this one.
fn is_record(written: &Option<Vec<u8>>, record: &[u8]) -> bool {
    matches!(written, Some(bytes) if bytes.as_slice() == record)
}

/// Whether a record is rejected with the fault, or its transaction has the record's size and is
/// written back as it.
fn is_so(
    alloc: Global,
    read: &Result<Txn, JuteFault>,
    record: &[u8],
    fault: Option<JuteFault>,
) -> bool {
    match read {
        Ok(txn) => {
            fault.is_none()
                && size(txn) == record.len() as u64
                && is_record(&written(alloc, txn), record)
        }
        Err(told) => fault == Some(*told),
    }
}

fn is_read(alloc: Global, record: &[u8], fault: Option<JuteFault>) -> bool {
    is_so(alloc, &read(alloc, record), record, fault)
}

fn is_read_after(
    alloc: Global,
    earlier: &mut Option<Acls>,
    record: &[u8],
    fault: Option<JuteFault>,
) -> bool {
    is_so(alloc, &read_after(alloc, earlier, record), record, fault)
}

/// Whether a test case holds, for its record alone and after those before it.
fn holds(alloc: Global, earlier: &mut Option<Acls>, row: &Row) -> bool {
    match made(alloc, row) {
        Some(record) => {
            is_read(alloc, record.as_slice(), row.5)
                && is_read_after(alloc, earlier, record.as_slice(), row.5)
        }
        None => false,
    }
}

/// Returns the index of the first test case that fails.
fn first_wrong(alloc: Global, earlier: &mut Option<Acls>) -> Option<usize> {
    for (place, row) in ROWS.iter().enumerate() {
        if !holds(alloc, earlier, row) {
            return Some(place);
        }
    }
    None
}

#[test]
fn record_faults_in_order(rt: HostRuntime) {
    let wrong = first_wrong(rt.alloc(), &mut None);
    assert_eq!(rt; wrong, None);
}
