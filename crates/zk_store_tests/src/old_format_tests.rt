//! Tests of files in the format without checksums.

use std::alloc::{AllocError, Global};
use zk_store::{Book, Join, book_file, read_old_book, renewed_tags};

/// A book as a program without checksums wrote it: two blocks, of which the second is selected.
const OLD_BOOK: [u8; 75] = [
    0, 0, 0, 0, 0, 0, 0, 0, 0, 0, 0, 1, 0, 0, 0, 0, 0, 0, 0, 0, 0, 0, 0, 0, 0, 0, 0, 0, 0, 0, 0, 0,
    0, 0, 0, 0, 0, // the second block
    1, 2, 3, 4, 0, 0, 0, 5, 0, 0, 0, 6, 0, 0, 0, 0, 0, 0, 7, 8, 1, 0, 0, 0, 0, 0, 0, 0, 9, 0, 0, 0,
    0, 0, 0, 0, 10, // selected
    1,
];

const BOOK: Book = Book {
    promised: 0x0102_0304,
    current: 5,
    boots: 6,
    entries: 0x0708,
    join: Some(Join { keep: 9, added: 10 }),
};

#[test]
fn old_book_is_read(rt: HostRuntime) {
    assert!(rt; read_old_book(OLD_BOOK.as_slice()) == Some(BOOK));
    assert!(rt; read_old_book(&OLD_BOOK[..74]) == None);
}

/// Whether the file of a book has its block in two sectors.
fn is_new_file(alloc: Global) -> Result<bool, AllocError> {
    let file = book_file(alloc, &BOOK)?;
    Ok(
        file.len() == 8195
            && file.get(..37) == OLD_BOOK.get(37..74)
            && file.get(4096..4133) == OLD_BOOK.get(37..74)
            && file.get(8192..) == Some(&[0, 0, 0]),
    )
}

#[test]
fn book_is_written_anew(rt: HostRuntime) {
    assert!(rt; matches!(is_new_file(rt.alloc()), Ok(true)));
}

/// Whether two old tags, and a part of a third one, are written anew.
fn are_renewed(alloc: Global) -> Result<bool, AllocError> {
    let old = [0, 0, 0, 0, 0, 0, 0, 1, 0, 0, 0, 0, 0, 0, 0, 4, 0, 0, 7];
    let new = [
        0, 0, 0, 0, 0, 0, 0, 1, 0, 17, 0, 2, 0, 0, 0, 0, 0, 0, 0, 4, 0, 29, 0, 6,
    ];
    Ok(renewed_tags(alloc, old.as_slice())?.as_slice() == new.as_slice())
}

#[test]
fn tags_are_written_anew(rt: HostRuntime) {
    assert!(rt; matches!(are_renewed(rt.alloc()), Ok(true)));
}
