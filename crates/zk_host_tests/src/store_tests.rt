//! The store in memory, and the tags of its host.

ghost use Rattle.std.specs.Prelude.{◌≡◌, true};
ghost use Rattle.zab_epoch.specs.Shortness.{IsShort};

use std::alloc::Global;
use zab_epoch::{Entry, History, Stable};
use zab_host::{MemoryStorage, Storage, TAG_BOOTS, TagIssuer};
use zk_path::NoMemory;
use zk_records::size;
use zk_table::{Op, Txn};

/// An entry that changes nothing.
fn entry(tag: u64, zxid: i64) -> Entry {
    Entry {
        tag,
        txn: Txn {
            session: 0,
            cxid: 0,
            zxid,
            time: 0,
            op: Op::Error { code: 0 },
        },
    }
}

/// Whether an entry's record has at most 16,777,216 bytes.
fn is_short(entry: &Entry) -> bool
    ensures { result ≡ true → IsShort entry.now }
{
    size(&entry.txn) <= 16_777_216
}

/// Appends an entry, if its zxid is above the last.
fn push(history: &mut History, entry: Entry) -> Result<(), NoMemory> {
    if history.last_zxid() < entry.txn.zxid && is_short(&entry) {
        return history.push(entry);
    }
    Err(NoMemory)
}

/// A stable part with entries of these tags and zxids.
fn stable_with(alloc: Global, entries: &[(u64, i64)]) -> Option<Stable> {
    let mut history = History::new(alloc);
    for (tag, zxid) in entries {
        if push(&mut history, entry(*tag, *zxid)).is_err() {
            return None;
        }
    }
    Some(Stable {
        promised: 3,
        current: 2,
        history,
    })
}

/// Whether a store has these epochs and tags.
fn has(
    alloc: Global,
    storage: &mut MemoryStorage,
    promised: u32,
    current: u32,
    tags: &[u64],
) -> bool {
    match storage.load(alloc) {
        Ok(stable) => {
            stable.promised == promised
                && stable.current == current
                && stable.history.entries().tags() == tags
        }
        Err(_) => false,
    }
}

/// Whether a store has these tags after its first entry.
fn has_after_one(alloc: Global, storage: &mut MemoryStorage, tags: &[u64]) -> bool {
    matches!(storage.entries_after(alloc, 1), Ok(history) if history.entries().tags() == tags)
}

/// Whether a store's copy has these tags.
fn has_copy(alloc: Global, storage: &MemoryStorage, tags: &[u64]) -> bool {
    match storage.copy() {
        Ok(mut copy) => has(alloc, &mut copy, 3, 2, tags),
        Err(_) => false,
    }
}

/// Whether a store keeps two entries, and then three, and returns those after the first.
#[tactic(auto, using(zab_host::proofs::Growth::none_stored))]
fn keeps(alloc: Global, storage: &mut MemoryStorage) -> bool {
    let two = stable_with(alloc, &[(10, 1), (20, 2)]);
    let three = stable_with(alloc, &[(10, 1), (20, 2), (30, 3)]);
    match (two, three) {
        (Some(two), Some(three)) => {
            has(alloc, storage, 0, 0, &[])
                && storage.store(&two, 0).is_ok()
                && has(alloc, storage, 3, 2, &[10, 20])
                && storage.store_atomically(&three).is_ok()
                && has(alloc, storage, 3, 2, &[10, 20, 30])
                && has_after_one(alloc, storage, &[20, 30])
        }
        _ => false,
    }
}

#[test]
fn a_store_keeps_what_was_stored_last(rt: HostRuntime) {
    let alloc = rt.alloc();
    let mut storage = MemoryStorage::new(alloc);
    assert!(rt; keeps(alloc, &mut storage));
    assert_eq!(rt; storage.count_boot(), Ok(1));
    assert_eq!(rt; storage.count_boot(), Ok(2));
    assert!(rt; has(alloc, &mut storage, 3, 2, &[10, 20, 30]));
    assert!(rt; has_copy(alloc, &storage, &[10, 20, 30]));
}

/// The first two tags that a host issues after a start on its store.
fn issued(host: u8, storage: &mut MemoryStorage) -> [Option<u64>; 2] {
    match TagIssuer::open(host, storage) {
        Ok(mut tags) => [tags.issue(), tags.issue()],
        Err(_) => [None, None],
    }
}

#[test]
fn tags_have_host_start_and_number(rt: HostRuntime) {
    let mut storage = MemoryStorage::new(rt.alloc());
    assert_eq!(rt; TAG_BOOTS, 0x100_0000);
    assert_eq!(rt;
        issued(2, &mut storage),
        [Some(0x0200_0001_0000_0000), Some(0x0200_0001_0000_0001)]
    );
    assert_eq!(rt;
        issued(2, &mut storage),
        [Some(0x0200_0002_0000_0000), Some(0x0200_0002_0000_0001)]
    );
}
