//! Tests of stores that are opened again after a crash.

use sqlite_disk::{Crash, Disk, Fuse, Memory};
use std::alloc::Global;
use zab_epoch::{History, Stable};
use zab_host::{Storage, StoreFault};
use zk_data_files::{FileStore, OpenFault, Unopened};
use zk_store::StoreFiles;

fn new_files(alloc: Global) -> StoreFiles<Memory> {
    StoreFiles {
        log: Memory::new(alloc),
        tags: Memory::new(alloc),
        joining: Memory::new(alloc),
        joining_tags: Memory::new(alloc),
        book: Memory::new(alloc),
    }
}

/// The files after a crash.
fn crashed(store: FileStore<Memory>) -> StoreFiles<Memory> {
    let mut files = store.into_files();
    files.log.crash();
    files.tags.crash();
    files.joining.crash();
    files.joining_tags.crash();
    files.book.crash();
    files
}

/// Epochs without entries.
fn epochs(alloc: Global, promised: u32, current: u32) -> Stable {
    Stable {
        promised,
        current,
        history: History::new(alloc),
    }
}

/// Whether a store recovers these epochs, without entries.
fn recovers(alloc: Global, store: &mut FileStore<Memory>, promised: u32, current: u32) -> bool {
    match store.load(alloc) {
        Ok(stable) => {
            stable.promised == promised && stable.current == current && stable.history.len() == 0
        }
        Err(_) => false,
    }
}

/// Opens new files, stores epochs in two ways, and opens the files again after a crash.
fn epochs_are_recovered(alloc: Global) -> Result<bool, Unopened<Memory>> {
    let mut store = FileStore::open(alloc, new_files(alloc))?;
    let first = store.count_boot() == Ok(1) && recovers(alloc, &mut store, 0, 0);
    let stored = store.store(&epochs(alloc, 2, 1), 0).is_ok();
    let mut again = FileStore::open(alloc, crashed(store))?;
    let second = again.count_boot() == Ok(2) && recovers(alloc, &mut again, 2, 1);
    let atomic = again.store_atomically(&epochs(alloc, 4, 3)).is_ok();
    let mut last = FileStore::open(alloc, crashed(again))?;
    let third = recovers(alloc, &mut last, 4, 3);
    let none = matches!(last.entries_after(alloc, 0), Ok(history) if history.len() == 0);
    Ok(first && stored && second && atomic && third && none)
}

/// Whether nothing is stored before the history was loaded.
fn is_loaded_first(alloc: Global) -> Result<bool, Unopened<Memory>> {
    let mut store = FileStore::open(alloc, new_files(alloc))?;
    Ok(store.store_atomically(&epochs(alloc, 2, 1)) == Err(StoreFault::Failed))
}

/// Whether files with entries, but no book, are rejected.
fn needs_its_book(alloc: Global) -> bool {
    let mut files = new_files(alloc);
    if !files.log.may_be_used() || files.log.write_at(0, &[0; 17]).is_err() {
        return false;
    }
    matches!(
        FileStore::open(alloc, files),
        Err(Unopened {
            fault: OpenFault::NoBook,
            ..
        })
    )
}

/// Whether files are damaged if the log is cut off.
fn needs_its_log(alloc: Global) -> Result<bool, Unopened<Memory>> {
    let mut files = FileStore::open(alloc, new_files(alloc))?.into_files();
    if !files.log.may_be_used() || files.log.set_len(0).is_err() {
        return Ok(false);
    }
    Ok(matches!(
        FileStore::open(alloc, files),
        Err(Unopened {
            fault: OpenFault::Damaged,
            ..
        })
    ))
}

fn fused(alloc: Global, calls: u64) -> Fuse<Memory> {
    Fuse::new(Memory::new(alloc), calls)
}

/// New files, of which the log and the book fail after these numbers of calls.
fn fused_files(alloc: Global, log: u64, book: u64) -> StoreFiles<Fuse<Memory>> {
    StoreFiles {
        log: fused(alloc, log),
        tags: fused(alloc, 0),
        joining: fused(alloc, 0),
        joining_tags: fused(alloc, 0),
        book: fused(alloc, book),
    }
}

/// Whether files are not opened, since a call of one fails.
fn fails(alloc: Global, files: StoreFiles<Fuse<Memory>>) -> bool {
    matches!(
        FileStore::open(alloc, files),
        Err(Unopened {
            fault: OpenFault::Disk,
            ..
        })
    )
}

/// The calls on a new log and a new book: each change is one, and so is its sync.
const LOG_CALLS: u64 = 7;

const BOOK_CALLS: u64 = 10;

/// Whether an open fails with each call of the log and of the book that fails.
fn each_call_counts(alloc: Global) -> bool {
    for calls in 0..LOG_CALLS {
        if !fails(alloc, fused_files(alloc, calls, BOOK_CALLS)) {
            return false;
        }
    }
    for calls in 0..BOOK_CALLS {
        if !fails(alloc, fused_files(alloc, LOG_CALLS, calls)) {
            return false;
        }
    }
    FileStore::open(alloc, fused_files(alloc, LOG_CALLS, BOOK_CALLS)).is_ok()
}

#[test]
fn a_call_that_fails_is_a_fault_of_the_disk(rt: HostRuntime) {
    assert!(rt; each_call_counts(rt.alloc()));
}

#[test]
fn stored_epochs_are_recovered(rt: HostRuntime) {
    assert!(rt; matches!(epochs_are_recovered(rt.alloc()), Ok(true)));
}

#[test]
fn a_store_is_loaded_first(rt: HostRuntime) {
    assert!(rt; matches!(is_loaded_first(rt.alloc()), Ok(true)));
}

#[test]
fn entries_without_a_book_are_rejected(rt: HostRuntime) {
    assert!(rt; needs_its_book(rt.alloc()));
}

#[test]
fn a_log_without_the_counted_entries_is_damaged(rt: HostRuntime) {
    assert!(rt; matches!(needs_its_log(rt.alloc()), Ok(true)));
}
