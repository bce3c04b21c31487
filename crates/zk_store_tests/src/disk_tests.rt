//! Tests of a change and its sync.

use sqlite_disk::{Crash, Memory};
use std::alloc::Global;
use zk_store::{cut_and_sync, write_and_sync};

/// Whether bytes are written and cut, and a crash leaves them.
fn survives_a_crash(alloc: Global) -> bool {
    let mut disk = Memory::new(alloc);
    if write_and_sync(&mut disk, 1, b"abc").is_err() {
        return false;
    }
    disk.crash();
    let is_written = disk.bytes() == b"\0abc".as_slice();
    let is_cut = cut_and_sync(&mut disk, 2).is_ok();
    disk.crash();
    is_written && is_cut && disk.bytes() == b"\0a".as_slice()
}

#[test]
fn synced_changes_survive_a_crash(rt: HostRuntime) {
    assert!(rt; survives_a_crash(rt.alloc()));
}
