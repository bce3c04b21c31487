//! The bytes of a block.

ghost use Rattle.std.specs.Prelude.{◌≡◌, ◌<◌, ◌^◌, ◌∷◌, ◌++◌, length, IfSome, IfNone, IfOk, OnOk};
ghost use Rattle.std.specs.Int.{w64, to_be_bytes};
ghost use Rattle.zk_store.specs.Books.{block_of, book_bytes, join_bytes, read_block, read_book, read_join};
ghost use Rattle.zk_store.specs.Books.{Damaged, HasBook};

use crate::{Book, Join};
use bytes::{Buf, BufMut};
use std::alloc::{AllocError, Global};
use zk_records::adler;

/// The number of bytes of a book.
const BOOK: usize = 37;

/// The bytes of a book's block.
pub(crate) fn block_of(alloc: Global, book: &Book) -> Result<Vec<u8>, AllocError>
    ensures { IfOk result (λ bytes. bytes.items ≡ block_of book.now) }
{
    let mut bytes = book_bytes(alloc, book)?;
    let sum = adler(bytes.as_slice());
    bytes.put_u32(sum)?;
    Ok(bytes)
}

fn book_bytes(alloc: Global, book: &Book) -> Result<Vec<u8>, AllocError>
    ensures { IfOk result (λ bytes. bytes.items ≡ book_bytes book.now) }
{
    let mut bytes = Vec::new(alloc);
    bytes.put_u32(book.promised)?;
    bytes.put_u32(book.current)?;
    bytes.put_u32(book.boots)?;
    bytes.put_u64(book.entries)?;
    put_join(&mut bytes, book.join)?;
    Ok(bytes)
}

fn put_join(bytes: &mut Vec<u8>, join: Option<Join>) -> Result<(), AllocError>
    ensures { OnOk result (bytes.new.items ≡ bytes.old.items ++ join_bytes join) }
{
    match join {
        None => put_join_fields(bytes, 0, 0, 0),
        Some(Join { keep, added }) => put_join_fields(bytes, 1, keep, added),
    }
}

fn put_join_fields(bytes: &mut Vec<u8>, flag: u8, keep: u64, added: u64) -> Result<(), AllocError>
    ensures { OnOk result (bytes.new.items ≡ bytes.old.items ++ (flag ∷ to_be_bytes w64 keep ++ to_be_bytes w64 added)) }
{
    bytes.put_u8(flag)?;
    bytes.put_u64(keep)?;
    bytes.put_u64(added)
}

/// A block is read as it was written.
pub(crate) fn block_is_read_back(book: &Book)
    ensures { read_block (block_of book.now) ≡ HasBook book.now }
{
    fits_32(book.promised);
    fits_32(book.current);
    fits_32(book.boots);
    fits_64(book.entries);
    join_fits(book.join);
}

fn fits_32(_number: u32)
    ensures { _number < 2 ^ 32 }
{}

fn fits_64(_number: u64)
    ensures { _number < 2 ^ 64 }
{}

fn join_fits(join: Option<Join>)
    ensures { IfSome join (λ join. (join.keep < 2 ^ 64) × (join.added < 2 ^ 64)) }
{
    if let Some(Join { keep, added }) = join {
        fits_64(keep);
        fits_64(added);
    }
}

/// The book of a block; `None` if its checksum is that of other bytes.
pub(crate) fn read_block(block: &[u8]) -> Option<Book>
    requires { length block.now ≡ 41 }
    ensures found { IfSome result (λ book. read_block block.now ≡ HasBook book) }
    ensures damaged { IfNone result (read_block block.now ≡ Damaged) }
{
    let (bytes, rest) = block.split_at(BOOK);
    let mut sum = rest;
    if sum.get_u32() != adler(bytes) {
        return None;
    }
    Some(read_book(bytes))
}

/// The book of its bytes.
pub(crate) fn read_book(bytes: &[u8]) -> Book
    requires { length bytes.now ≡ 37 }
    ensures { result ≡ read_book bytes.now }
{
    let mut rest = bytes;
    let promised = rest.get_u32();
    let current = rest.get_u32();
    let boots = rest.get_u32();
    let entries = rest.get_u64();
    Book {
        promised,
        current,
        boots,
        entries,
        join: read_join(rest),
    }
}

fn read_join(bytes: &[u8]) -> Option<Join>
    requires { length bytes.now ≡ 17 }
    ensures { result ≡ read_join bytes.now }
{
    let mut rest = bytes;
    let flag = rest.get_u8();
    let keep = rest.get_u64();
    let added = rest.get_u64();
    if flag == 0 {
        None
    } else {
        Some(Join { keep, added })
    }
}
