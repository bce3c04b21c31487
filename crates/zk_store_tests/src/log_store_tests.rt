//! Tests of logs on a disk that stops after some calls.

use sqlite_disk::{Crash, Disk, Fuse, Memory};
use std::alloc::Global;
use zk_log::Journal;
use zk_store::log_storing::{create, recover};
use zk_store::{LogStoreFault, StoredLog, append, can_append, read_prefix, truncate};

/// A log of three entries, at the offsets 16, 65 and 154, after "The 3.4 server's transaction log".
pub(crate) const FIRST_LOG: [u8; 199] = [
    0x5a, 0x4b, 0x4c, 0x47, 0, 0, 0, 2, 0, 0, 0, 0, 0, 0, 0, 0,
    // a session is opened
    0, 0, 0, 0, 0x23, 0xa4, 5, 0x88, 0, 0, 0, 0x24, 1, 0, 0, 0, 0, 0, 0, 1, 0, 0, 0, 0, 0, 0, 0, 1,
    0, 0, 0, 1, 0, 0, 0, 0, 0, 0, 3, 0xe8, 0xff, 0xff, 0xff, 0xf6, 0, 0, 0x75, 0x30, 0x42,
    // `/a` is created
    0, 0, 0, 0, 0x9d, 0x97, 7, 0x22, 0, 0, 0, 0x4c, 1, 0, 0, 0, 0, 0, 0, 1, 0, 0, 0, 1, 0, 0, 0, 1,
    0, 0, 0, 2, 0, 0, 0, 0, 0, 0, 7, 0xd0, 0, 0, 0, 1, 0, 0, 0, 2, 0x2f, 0x61, 0, 0, 0, 2, 0x68,
    0x69, 0, 0, 0, 1, 0, 0, 0, 0x1f, 0, 0, 0, 5, 0x77, 0x6f, 0x72, 0x6c, 0x64, 0, 0, 0, 6, 0x61,
    0x6e, 0x79, 0x6f, 0x6e, 0x65, 0, 0, 0, 0, 1, 0x42,
    // the session is closed
    0, 0, 0, 0, 0x0e, 0x81, 4, 0xbe, 0, 0, 0, 0x20, 1, 0, 0, 0, 0, 0, 0, 1, 0, 0, 0, 2, 0, 0, 0, 1,
    0, 0, 0, 3, 0, 0, 0, 0, 0, 0, 0x0b, 0xb8, 0xff, 0xff, 0xff, 0xf5, 0x42,
];

/// The bytes of the first log that are stored after no step, after `create`, after the first entry,
/// after the two others, and after the cut to two entries.
const STORED: [usize; 5] = [0, 16, 65, 199, 154];

/// The calls of the disk after which each step is over.
const CALLS: [u64; 5] = [0, 6, 8, 10, 12];

type Stopping = Fuse<Memory>;

/// Creates a log and appends two lists of entries; returns the number of steps that succeeded.
fn count_steps(
    alloc: Global,
    disk: &mut Stopping,
    first: &mut Journal,
    others: &mut Journal,
) -> usize {
    if !disk.may_be_used() {
        return 0;
    }
    let Ok(mut held) = create(alloc, disk, 0) else {
        return 0;
    };
    if !can_append(&held, first) || append(disk, &mut held, first).is_err() {
        return 1;
    }
    if !can_append(&held, others) || append(disk, &mut held, others).is_err() {
        return 2;
    }
    match truncate(disk, &mut held, 2) {
        Ok(()) => 4,
        Err(_) => 3,
    }
}

/// Runs the steps with the first log's entries, on a disk that stops after some calls.
fn steps_before_stop(alloc: Global, disk: &mut Stopping) -> usize {
    let Ok(mut log) = read_prefix(alloc, &FIRST_LOG) else {
        return 9;
    };
    if log.journal.txns().is_empty() {
        return 9;
    }
    let Ok(mut others) = log.journal.tail(1) else {
        return 9;
    };
    log.journal.cut(1);
    count_steps(alloc, disk, &mut log.journal, &mut others)
}

/// Whether a log has these bytes of the first log.
fn is_prefix(log: &StoredLog, end: usize) -> bool {
    log.dbid == 0 && FIRST_LOG.get(16..end) == Some(log.journal.bytes())
}

/// Whether a file is recovered as the first log up to `end`, or has no header.
fn is_recovered(alloc: Global, disk: &mut Stopping, end: usize) -> bool {
    if !disk.may_be_used() {
        return false;
    }
    match recover(alloc, disk) {
        Ok(log) => end >= 16 && is_prefix(&log, end),
        Err(LogStoreFault::Header) => end < 16,
        Err(_) => false,
    }
}

/// Whether a file of `length` bytes is what is stored up to `end`; before, it has no whole header.
fn is_stored(length: usize, end: usize) -> bool {
    length == end || (end == 0 && length < 16)
}

/// Whether a crash after `calls` calls leaves the steps that succeeded, and no more.
fn stops_after(alloc: Global, calls: u64, steps: usize) -> bool {
    let mut disk = Fuse::new(Memory::new(alloc), calls);
    let done = steps_before_stop(alloc, &mut disk);
    disk.crash();
    let Some(end) = STORED.get(done) else {
        return false;
    };
    let left = disk.inner().bytes();
    let is_left = FIRST_LOG.starts_with(left) && is_stored(left.len(), *end);
    done == steps && is_left && is_recovered(alloc, &mut disk, *end)
}

/// The number of steps that are over after `calls` calls.
fn steps_after(calls: u64) -> usize {
    let mut steps = 0;
    for (step, end) in CALLS.iter().enumerate() {
        if *end <= calls {
            steps = step;
        }
    }
    steps
}

#[test]
fn crash_at_each_call_leaves_what_was_stored(rt: HostRuntime) {
    for calls in 0..14 {
        assert!(rt; stops_after(rt.alloc(), calls, steps_after(calls)));
    }
}

/// Whether a prefix of the first log is read as `count` transactions, and what follows is ignored.
fn is_read_as(alloc: Global, bytes: &[u8], count: usize) -> bool {
    match read_prefix(alloc, bytes) {
        Ok(log) => log.journal.txns().len() == count,
        Err(_) => false,
    }
}

#[test]
fn reading_stops_at_a_torn_or_wrong_entry(rt: HostRuntime) {
    assert!(rt; is_read_as(rt.alloc(), &FIRST_LOG, 3));
    assert!(rt; is_read_as(rt.alloc(), &FIRST_LOG[..198], 2));
    assert!(rt; is_read_as(rt.alloc(), &FIRST_LOG[..16], 0));
    let mut log = FIRST_LOG;
    log[72] = 0x23;
    assert!(rt; is_read_as(rt.alloc(), &log, 1));
}
