//! Tests of books on a disk that stops after some calls.

use sqlite_disk::{Crash, Disk, Fuse, Memory};
use std::alloc::Global;
use zk_store::book_storing::{create, recover};
use zk_store::{Book, BookFault, Join, StoredBook, replace};

const FIRST: Book = Book {
    promised: 0,
    current: 0,
    boots: 1,
    entries: 0,
    join: None,
};

const SECOND: Book = Book {
    promised: 0x0102_0304,
    current: 5,
    boots: 6,
    entries: 0x0708,
    join: Some(Join { keep: 9, added: 10 }),
};

/// The blocks of both books: their numbers, and the Adler-32 checksum that Python's `zlib` finds.
const BLOCKS: [[u8; 41]; 2] = [
    [
        0, 0, 0, 0, 0, 0, 0, 0, 0, 0, 0, 1, 0, 0, 0, 0, 0, 0, 0, 0, 0, 0, 0, 0, 0, 0, 0, 0, 0, 0,
        0, 0, 0, 0, 0, 0, 0, 0, 63, 0, 2,
    ],
    [
        1, 2, 3, 4, 0, 0, 0, 5, 0, 0, 0, 6, 0, 0, 0, 0, 0, 0, 7, 8, 1, 0, 0, 0, 0, 0, 0, 0, 9, 0,
        0, 0, 0, 0, 0, 0, 10, 4, 54, 0, 57,
    ],
];

type Stopping = Fuse<Memory>;

/// Creates a book and replaces it; returns the number of steps that succeeded.
fn count_steps(alloc: Global, disk: &mut Stopping) -> usize {
    if !disk.may_be_used() {
        return 0;
    }
    let Ok(mut held) = create(alloc, disk, FIRST) else {
        return 0;
    };
    match replace(alloc, disk, &mut held, SECOND) {
        Ok(()) => 2,
        Err(_) => 1,
    }
}

/// The book that is recovered after a crash, if there is one.
fn recovered(disk: &mut Stopping) -> Option<StoredBook> {
    if !disk.may_be_used() {
        return None;
    }
    match recover(disk) {
        Ok(found) => found,
        Err(_) => None,
    }
}

/// Whether a crash after `calls` calls leaves this book.
fn stops_with(alloc: Global, calls: u64, book: Option<StoredBook>) -> bool {
    let mut disk = Fuse::new(Memory::new(alloc), calls);
    let _steps = count_steps(alloc, &mut disk);
    disk.crash();
    recovered(&mut disk) == book
}

#[test]
fn crash_at_each_call_leaves_one_book(rt: HostRuntime) {
    let first = Some(StoredBook {
        book: FIRST,
        slot: 0,
    });
    let second = Some(StoredBook {
        book: SECOND,
        slot: 1,
    });
    for calls in 0..8 {
        assert!(rt; stops_with(rt.alloc(), calls, None));
    }
    for calls in 8..12 {
        assert!(rt; stops_with(rt.alloc(), calls, first));
    }
    assert!(rt; stops_with(rt.alloc(), 12, second));
}

/// Whether a file has these bytes at an offset.
fn has_at(file: &[u8], at: usize, bytes: &[u8]) -> bool {
    matches!(file.get(at..at.saturating_add(bytes.len())), Some(found) if found == bytes)
}

/// Whether both books are stored as these bytes, each in a sector of its own, and then what selects
/// the second one.
fn is_file(alloc: Global) -> bool {
    let mut disk = Fuse::new(Memory::new(alloc), 12);
    let stored = count_steps(alloc, &mut disk) == 2;
    let file = disk.inner().bytes();
    stored
        && file.len() == 8195
        && has_at(file, 0, BLOCKS[0].as_slice())
        && has_at(file, 4096, BLOCKS[1].as_slice())
        && has_at(file, 8192, &[1, 1, 1])
}

#[test]
fn book_has_these_bytes(rt: HostRuntime) {
    assert!(rt; is_file(rt.alloc()));
}

/// What is found in a file in which one byte of two books was changed.
fn found_after(alloc: Global, at: usize, byte: u8) -> Result<Option<StoredBook>, BookFault> {
    let mut disk = Memory::new(alloc);
    if !disk.may_be_used() {
        return Ok(None);
    }
    let mut held = create(alloc, &mut disk, FIRST)?;
    replace(alloc, &mut disk, &mut held, SECOND)?;
    if !disk.may_be_used() {
        return Ok(None);
    }
    disk.write_at(at, &[byte])?;
    recover(&mut disk)
}

/// Whether the second book is still found.
fn is_kept(alloc: Global, at: usize, byte: u8) -> bool {
    matches!(found_after(alloc, at, byte), Ok(Some(held)) if held.book == SECOND)
}

/// Whether the change is an error.
fn is_noticed(alloc: Global, at: usize, byte: u8) -> bool {
    matches!(found_after(alloc, at, byte), Err(BookFault::Damaged))
}

#[test]
fn a_changed_byte_is_noticed_or_harmless(rt: HostRuntime) {
    // The number of entries, and the checksum of the selected block.
    assert!(rt; is_noticed(rt.alloc(), 4096 + 19, 9));
    assert!(rt; is_noticed(rt.alloc(), 4096 + 40, 58));
    // The other block, and each byte that selects.
    assert!(rt; is_kept(rt.alloc(), 19, 9));
    for at in 8192..8195 {
        assert!(rt; is_kept(rt.alloc(), at, 0));
        assert!(rt; is_kept(rt.alloc(), at, 254));
    }
}
