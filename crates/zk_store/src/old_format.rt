//! Files of a store in the format without checksums, which are read once and written anew.

ghost use Rattle.std.specs.Prelude.{◌≡◌, ◌≢◌, ◌*◌, ◌<◌, ◌≤◌, ◌^◌, ◌++◌, ℕ, List, length, IfOk, IfNone, IfSome, OnOk};
ghost use Rattle.zk_store.specs.Books.{HasBook, book_of};
ghost use Rattle.zk_store.specs.OldFormat.{old_book, old_tags};
ghost use Rattle.zk_store.specs.Tags.{bytes_from};

use crate::Book;
use crate::block::{block_is_read_back, block_of, read_book};
use crate::tag_storing::bytes_from;
use bytes::Buf;
use std::alloc::{AllocError, Global};

/// The number of bytes of an old book's block.
const OLD_BLOCK: usize = 37;

/// The number of bytes of an old book's file.
const OLD_BOOK: usize = 75;

/// The distance of a new book's blocks.
const SECTOR: usize = 4096;

/// The number of bytes of an old tag.
const OLD_TAG: usize = 8;

/// The book of a file in the old format; `None` if it has another length.
pub fn read_old_book(file: &[u8]) -> Option<Book>
    ensures found { IfSome result (λ book. book ≡ old_book file.now) }
    ensures none { IfNone result (length file.now ≢ 75) }
{
    if file.len() != OLD_BOOK {
        return None;
    }
    let start = OLD_BLOCK * (file[OLD_BOOK - 1] % 2) as usize;
    Some(read_book(&file[start..start + OLD_BLOCK]))
}

/// The bytes of a new file of a book.
pub fn book_file(alloc: Global, book: &Book) -> Result<Vec<u8>, AllocError>
    ensures { IfOk result (λ bytes. book_of bytes.items ≡ HasBook book.now) }
{
    block_is_read_back(book);
    let block = block_of(alloc, book)?;
    let mut bytes = Vec::new(alloc);
    put_sector(alloc, &mut bytes, block.as_slice())?;
    put_sector(alloc, &mut bytes, block.as_slice())?;
    bytes.extend_from_slice(&[0, 0, 0])?;
    Ok(bytes)
}

/// Appends a block, and zeros up to the end of its sector.
fn put_sector(alloc: Global, bytes: &mut Vec<u8>, block: &[u8]) -> Result<(), AllocError>
    requires { length block.now ≡ 41 }
    ensures { OnOk result ((rest : List ℕ) × ((length rest ≡ 4055)
        × (bytes.new.items ≡ bytes.old.items ++ (block.now ++ rest)))) }
{
    bytes.extend_from_slice(block)?;
    let mut rest = vec![in alloc; 0; SECTOR - block.len()]?;
    bytes.append(&mut rest)?;
    Ok(())
}

/// The bytes of a new file of the tags in an old one.
pub fn renewed_tags(alloc: Global, file: &[u8]) -> Result<Vec<u8>, AllocError>
    ensures { IfOk result (λ bytes. (tags : List ℕ) × ((rest : List ℕ) × ((file.now ≡ old_tags tags ++ rest)
        × ((length rest < 8) × (bytes.items ≡ bytes_from 0 tags))))) }
{
    let tags = old_tags(alloc, file)?;
    bytes_from(alloc, 0, tags.as_slice())
}

fn old_tags(alloc: Global, file: &[u8]) -> Result<Vec<u64>, AllocError>
    ensures tags { IfOk result (λ tags. (rest : List ℕ) × ((file.now ≡ old_tags tags.items ++ rest) × (length rest < 8))) }
    ensures few { IfOk result (λ tags. 8 * length tags.items ≤ length file.now) }
{
    let mut tags = Vec::new(alloc);
    let mut rest = file;
    while rest.len() >= OLD_TAG {
        tags.push(rest.get_u64())?;
    }
    Ok(tags)
}
