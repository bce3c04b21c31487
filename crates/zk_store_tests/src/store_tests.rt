//! Tests of a store's files, on disks that stop after some calls.

ghost use Rattle.std.specs.Prelude.{◌≤◌, length, IsTrue};

use crate::log_store_tests::FIRST_LOG;
use sqlite_disk::{Crash, Disk, Fuse, Memory};
use std::alloc::Global;
use zab_epoch::{History, Stable};
use zk_store::{
    FilesFault, StoreFiles, StoredBook, count_boot, create, extend, is_front, read_entries,
    recover, replace_history,
};

/// The tags of the first log's entries.
const TAGS: [u8; 36] = [
    0, 0, 0, 0, 0, 0, 0, 7, 0, 23, 0, 8, 0, 0, 0, 0, 0, 0, 0, 8, 0, 33, 0, 10, 0, 0, 0, 0, 0, 0, 0,
    9, 0, 43, 0, 12,
];

type Stopping = Fuse<Memory>;

/// The number of calls that each disk passes on.
#[derive(Drop)]
struct Calls([u64; 5]);

/// Empty files.
fn new_files(alloc: Global, calls: &Calls) -> StoreFiles<Stopping> {
    let Calls([log, tags, joining, joining_tags, book]) = *calls;
    StoreFiles {
        log: Fuse::new(Memory::new(alloc), log),
        tags: Fuse::new(Memory::new(alloc), tags),
        joining: Fuse::new(Memory::new(alloc), joining),
        joining_tags: Fuse::new(Memory::new(alloc), joining_tags),
        book: Fuse::new(Memory::new(alloc), book),
    }
}

/// A file with these bytes.
fn file_of(alloc: Global, bytes: &[u8]) -> Memory {
    let mut file = Memory::new(alloc);
    if file.may_be_used() {
        let _ = file.write_at(0, bytes);
    }
    file
}

/// The first entries of the first log, in these epochs.
fn stable_part(
    alloc: Global,
    promised: u32,
    current: u32,
    count: u64,
) -> Result<Stable, FilesFault> {
    let mut log = file_of(alloc, &FIRST_LOG);
    let mut tags = file_of(alloc, &TAGS);
    if !log.may_be_used() || !tags.may_be_used() {
        return Err(FilesFault::Damaged);
    }
    let history = read_entries(alloc, &mut log, &mut tags, count)?;
    Ok(Stable {
        promised,
        current,
        history,
    })
}

/// Whether a stable part can be stored after what a book counts.
fn is_longer(counted: &StoredBook, stable: &Stable) -> bool
    ensures { IsTrue result → counted.now.book.entries ≤ length stable.now.history }
{
    counted.book.entries <= stable.history.len() as u64
}

/// The stable parts that are stored one after the other.
#[derive(Drop)]
struct Parts {
    one: Stable,
    three: Stable,
    two: Stable,
}

fn make_parts(alloc: Global) -> Result<Parts, FilesFault> {
    Ok(Parts {
        one: stable_part(alloc, 1, 0, 1)?,
        three: stable_part(alloc, 2, 1, 3)?,
        two: stable_part(alloc, 3, 2, 2)?,
    })
}

/// Creates a store, stores one entry, then three, then replaces all but the first, and counts a
/// start; returns the number of steps that succeeded.
fn count_steps(alloc: Global, files: &mut StoreFiles<Stopping>, parts: &Parts) -> usize {
    if !files.may_be_used() {
        return 0;
    }
    let Ok(mut counted) = create(alloc, files) else {
        return 0;
    };
    if !is_longer(&counted, &parts.one) || extend(alloc, files, &mut counted, &parts.one).is_err() {
        return 1;
    }
    if !is_longer(&counted, &parts.three)
        || extend(alloc, files, &mut counted, &parts.three).is_err()
    {
        return 2;
    }
    if parts.two.history.len() < 1
        || replace_history(alloc, files, &mut counted, &parts.two, 1).is_err()
    {
        return 3;
    }
    if counted.book.boots != 0 || count_boot(alloc, files, &mut counted).is_err() {
        return 4;
    }
    5
}

/// Recovers the stable part after a crash, and the number of starts.
fn recovered(
    alloc: Global,
    files: &mut StoreFiles<Stopping>,
) -> Result<Option<(Stable, u32)>, FilesFault> {
    files.log.crash();
    files.tags.crash();
    files.joining.crash();
    files.joining_tags.crash();
    files.book.crash();
    if !files.may_be_used() {
        return Err(FilesFault::Damaged);
    }
    let Some(mut counted) = zk_store::book_storing::recover(&mut files.book)? else {
        return Ok(None);
    };
    let stable = recover(alloc, files, &mut counted)?;
    Ok(Some((stable, counted.book.boots)))
}

/// Whether this is the stable part after a number of steps.
fn is_after(steps: usize, found: &Option<(Stable, u32)>) -> bool {
    let tags: &[u64] = &[7, 8, 9];
    let (promised, current, count, starts) = match steps {
        0 => return found.is_none(),
        1 => (0, 0, 0, 0),
        2 => (1, 0, 1, 0),
        3 => (2, 1, 3, 0),
        4 => (3, 2, 2, 0),
        _ => (3, 2, 2, 1),
    };
    match found {
        None => false,
        Some((stable, boots)) => {
            stable.promised == promised
                && stable.current == current
                && *boots == starts
                && has_first(&stable.history, tags.split_at(count).0)
        }
    }
}

/// Whether a history has the first log's first entries.
fn has_first(history: &History, tags: &[u64]) -> bool {
    let end = match tags.len() {
        0 => 16,
        1 => 65,
        2 => 154,
        _ => 199,
    };
    history.entries().tags() == tags
        && FIRST_LOG.split_at(16).1.split_at(end - 16).0 == history.bytes()
}

/// How many steps succeed on these files, if a crash then leaves them, and at most one more.
fn surviving_steps(alloc: Global, parts: &Parts, calls: &Calls) -> Option<usize> {
    let mut files = new_files(alloc, calls);
    let steps = count_steps(alloc, &mut files, parts);
    match recovered(alloc, &mut files) {
        Ok(found) if is_after(steps, &found) || is_after(steps.saturating_add(1), &found) => {
            Some(steps)
        }
        _ => None,
    }
}

/// One file stops after a number of calls, the others do not.
fn calls_of(file: usize, calls: u64) -> Calls {
    let mut all = [u64::MAX; 5];
    if file < 5 {
        all[file] = calls;
    }
    Calls(all)
}

/// Whether the store survives each number of calls of a file, up to the first with which all steps
/// succeed.
fn file_may_stop(alloc: Global, parts: &Parts, file: usize) -> bool {
    for calls in 0..200 {
        match surviving_steps(alloc, parts, &calls_of(file, calls)) {
            None => return false,
            Some(5) => return true,
            Some(_) => (),
        }
    }
    false
}

/// Whether this is so of each file.
fn always_survives(alloc: Global) -> bool {
    let Ok(parts) = make_parts(alloc) else {
        return false;
    };
    for file in 0..5 {
        if !file_may_stop(alloc, &parts, file) {
            return false;
        }
    }
    true
}

/// The first bytes of a file; all, if there are fewer.
fn first_of(bytes: &[u8], count: usize) -> &[u8] {
    bytes.split_at(count.min(bytes.len())).0
}

/// Whether all steps succeed on files that do not stop, and leave the log's bytes and the tags.
fn all_are_stored(alloc: Global) -> bool {
    let Ok(parts) = make_parts(alloc) else {
        return false;
    };
    let mut files = new_files(alloc, &calls_of(5, 0));
    let steps = count_steps(alloc, &mut files, &parts);
    steps == 5
        && files.log.inner().bytes() == FIRST_LOG.split_at(154).0
        && TAGS.split_at(24).0 == first_of(files.tags.inner().bytes(), 24)
        && matches!(recovered(alloc, &mut files), Ok(found) if is_after(5, &found))
}

/// Whether a log's first two entries are found to be the first of its three, and not of one.
fn compares_fronts(alloc: Global) -> Result<bool, FilesFault> {
    let three = stable_part(alloc, 0, 0, 3)?;
    let one = stable_part(alloc, 0, 0, 1)?;
    let mut log = file_of(alloc, &FIRST_LOG);
    let mut tags = file_of(alloc, &TAGS);
    if !log.may_be_used() || !tags.may_be_used() {
        return Err(FilesFault::Damaged);
    }
    let first = is_front(alloc, &mut log, &mut tags, 2, &three.history)?;
    let longer = is_front(alloc, &mut log, &mut tags, 2, &one.history)?;
    Ok(first && !longer)
}

#[test]
fn stored_entries_are_compared_with_a_history(rt: HostRuntime) {
    assert!(rt; matches!(compares_fronts(rt.alloc()), Ok(true)));
}

#[test]
fn what_was_stored_is_recovered(rt: HostRuntime) {
    assert!(rt; all_are_stored(rt.alloc()));
}

#[test]
fn a_file_may_stop_at_each_call(rt: HostRuntime) {
    assert!(rt; always_survives(rt.alloc()));
}
