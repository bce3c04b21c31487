//! Frames: where the first one of a stream ends, and how one is written.

ghost use Rattle.std.specs.Prelude.{◌≡◌, ◌++◌, ◌<◌, ◌^◌, ◌≤◌, length, drop, IfOk, IfSome, OnOk, OnErr};
ghost use Rattle.zk_records.specs.Checksum.{adler_of};
ghost use Rattle.zab_frames.specs.Frames.{framed, header, first_in, contents_by, number_in, stated_length, seen, IsFirst};

use crate::fault::FrameFault;
use bytes::{Buf, BufMut};
use std::alloc::Global;
use zk_path::NoMemory;
use zk_records::adler;

/// The number of bytes of a header: the length of the contents, their checksum, and the checksum of
/// these two.
pub const HEADER: usize = 16;

/// The number of bytes of a header that its own checksum covers.
const CHECKED: usize = 12;

/// The first length that no contents have.
const TOO_LONG: u64 = 1 << 63;

/// Appends contents as a frame. If an allocation fails, nothing is appended.
#[tactic(auto, unfolding(crate::specs::Frames::framed))]
pub fn write_frame(alloc: Global, out: &mut Vec<u8>, contents: &[u8]) -> Result<(), NoMemory>
    ensures written { OnOk result (out.new.items ≡ out.old.items ++ framed contents.now) }
    ensures short { length contents.now < 2 ^ 63 }
    ensures unchanged { OnErr result (out.new.items ≡ out.old.items) }
{
    let mut frame = header_of(alloc, contents)?;
    frame.put_slice(contents)?;
    Ok(out.append(&mut frame)?)
}

fn header_of(alloc: Global, contents: &[u8]) -> Result<Vec<u8>, NoMemory>
    ensures { IfOk result (λ head. head.items ≡ header (length contents.now) (adler_of contents.now)) }
{
    let mut head = Vec::with_capacity(alloc, HEADER)?;
    head.put_u64(contents.len() as u64)?;
    head.put_u32(adler(contents))?;
    let check = adler(head.as_slice());
    head.put_u32(check)?;
    Ok(head)
}

/// The length of the contents, their checksum, the header's checksum, and the bytes after it.
fn split_header(bytes: &[u8]) -> (u64, u32, u32, &[u8])
    requires { 16 ≤ length bytes.now }
    ensures length { result.0 ≡ stated_length bytes.now }
    ensures sum { result.1 ≡ number_in bytes.now 8 }
    ensures check { result.2 ≡ number_in bytes.now 12 }
    ensures later { result.3.now ≡ drop 16 bytes.now }
{
    let mut rest = bytes;
    let length = rest.get_u64();
    let sum = rest.get_u32();
    let check = rest.get_u32();
    (length, sum, check, rest)
}

/// The contents of the first frame; `None` if more bytes are needed.
pub fn first_frame(bytes: &[u8]) -> Result<Option<&[u8]>, FrameFault>
    ensures exact { seen (λ contents. contents.now) result ≡ first_in bytes.now }
    ensures first { IfOk result (λ found. IfSome found (λ contents. IsFirst bytes.now contents.now)) }
{
    cut_frame(bytes)
}

#[tactic(auto, unfolding(crate::specs::Frames::first_in))]
fn cut_frame(bytes: &[u8]) -> Result<Option<&[u8]>, FrameFault>
    ensures { seen (λ contents. contents.now) result ≡ first_in bytes.now }
{
    if bytes.len() < HEADER {
        return Ok(None);
    }
    let (length, sum, check, later) = split_header(bytes);
    let (checked, _) = bytes.split_at(CHECKED);
    if check != adler(checked) {
        return Err(FrameFault::Header);
    }
    if length >= TOO_LONG {
        return Err(FrameFault::Length);
    }
    contents(sum, length as usize, later)
}

/// The contents after a header that states their length and checksum.
fn contents(sum: u32, length: usize, later: &[u8]) -> Result<Option<&[u8]>, FrameFault>
    ensures { seen (λ contents. contents.now) result ≡ contents_by sum length later.now }
{
    if later.len() < length {
        return Ok(None);
    }
    let (contents, _) = later.split_at(length);
    if sum != adler(contents) {
        return Err(FrameFault::Checksum);
    }
    Ok(Some(contents))
}
