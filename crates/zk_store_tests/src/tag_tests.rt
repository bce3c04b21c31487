//! Tests of tags on a disk.

use sqlite_disk::{Crash, Disk, Memory};
use std::alloc::Global;
use zk_store::{TagFault, read, write};

/// The tags 1 and 4, each with the Adler-32 checksum that Python's `zlib` finds of its index and tag.
const FILE: [u8; 24] = [
    0, 0, 0, 0, 0, 0, 0, 1, 0, 17, 0, 2, 0, 0, 0, 0, 0, 0, 0, 4, 0, 29, 0, 6,
];

/// Whether the file has these two tags, and no third one.
fn has_two(alloc: Global, disk: &mut Memory) -> bool {
    if !disk.may_be_used() {
        return false;
    }
    let has_first = match read(alloc, disk, 2) {
        Ok(tags) => tags.as_slice() == [1, 4].as_slice(),
        Err(_) => false,
    };
    has_first && read(alloc, disk, 3).is_err()
}

/// Whether a tag replaces those after the first one, and survives a crash.
fn are_replaced(alloc: Global) -> bool {
    let mut disk = Memory::new(alloc);
    if write(alloc, &mut disk, 0, &[1, 2]).is_err() || write(alloc, &mut disk, 1, &[4]).is_err() {
        return false;
    }
    disk.crash();
    disk.bytes() == FILE.as_slice() && has_two(alloc, &mut disk)
}

#[test]
fn tags_are_replaced_and_survive_a_crash(rt: HostRuntime) {
    assert!(rt; are_replaced(rt.alloc()));
}

/// Whether a changed byte of a tag is an error.
fn is_noticed(alloc: Global, at: usize, byte: u8) -> bool {
    let mut disk = Memory::new(alloc);
    if write(alloc, &mut disk, 0, &[1, 4]).is_err() || !disk.may_be_used() {
        return false;
    }
    if disk.write_at(at, &[byte]).is_err() {
        return false;
    }
    matches!(read(alloc, &mut disk, 2), Err(TagFault::Damaged))
}

#[test]
fn a_changed_tag_is_noticed(rt: HostRuntime) {
    assert!(rt; is_noticed(rt.alloc(), 7, 3));
    assert!(rt; is_noticed(rt.alloc(), 23, 7));
}
