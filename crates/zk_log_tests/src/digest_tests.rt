//! The digests that a server wrote with its records, compared with those of the trees.

use std::alloc::Global;
use zk_directory::{FileEntry, read_log_file};
use zk_fold::Fold;
use zk_replay::{DigestCount, Digests, shown_owner};

/// Four records of a server of 3.8.0, the first and three later ones. Between them the server
/// created other nodes, so the later digests are of another tree.
const RECORDS: &[u8] =
    b"ZKLG\0\0\0\x02\0\0\0\0\0\0\0\0\0\0\0\0\xc1\x9b\n\x88\0\0\00\x01\0\0M#\xab\0\0\0\0\0\0\0\0\
      \0\0\0\0\0\x01\0\0\x01\xa2\x08u\xe3\x80\xff\xff\xff\xf6\0\0u0\0\0\0\x02\0\0\0\0Q\xc6\xd6`B\
      \0\0\0\0^E\x10#\0\0\0V\x01\0\0M#\xab\0\0\0\0\0\x02\0\0\0\0\0\0\0\x03\0\0\x01\xa2\x08u\xe3\
      \xbe\0\0\0\x0f\0\0\0\x02/e\xff\xff\xff\xff\0\0\0\x01\0\0\0\x1f\0\0\0\x05world\0\0\0\x06any\
      one\x01\0\0\0\x02\0\0\0\x02\0\0\0\x01\x96\xbf\x87\xe0B\0\0\0\0\x8b\xe3\x06\x1c\0\0\06\x01\
      \0\0M#\xab\0\0\0\0\0\x06\0\0\0\0\0\0\0\x08\0\0\x01\xa2\x08u\xe4G\0\0\0\r\0\0\0\x02/a\0\0\0\
      \x01\0\0\0\x02\0\0\0\x03a\xc23\xabB\0\0\0\0\xe91\tm\0\0\06\x01\0\0M#\xab\0\0\0\0\0\t\0\0\0\
      \0\0\0\0\x10\0\0\x01\xa2\x08u\xf0/\xff\xff\xff\xf5\0\0\0\x01\0\0\0\x02/e\0\0\0\x02\0\0\0\
      \x01\xa4P[\x1dB";

/// Advances a table by the records in order.
fn advanced(alloc: Global, entries: &[FileEntry<'_>]) -> Option<DigestCount> {
    let mut table = Fold::new(alloc).ok()?;
    let mut digests = Digests::new(alloc);
    for entry in entries {
        if table.has_failed() {
            return None;
        }
        digests.advance(&mut table, &entry.newer).ok()?;
    }
    if table.last() != 0x10 {
        return None;
    }
    Some(digests.count())
}

/// Compares the first digest with that of the table after the first record.
fn begun(alloc: Global, entries: &[FileEntry<'_>]) -> Option<DigestCount> {
    let first = entries.first()?;
    let mut table = Fold::new(alloc).ok()?;
    table.advance(&first.newer.txn).ok()?;
    let mut digests = Digests::new(alloc);
    digests.begin(&table, &first.newer).ok()?;
    Some(digests.count())
}

/// Passes over the first record.
fn passed(alloc: Global, entries: &[FileEntry<'_>]) -> Option<DigestCount> {
    let first = entries.first()?;
    let mut digests = Digests::new(alloc);
    digests.pass(&first.newer).ok()?;
    Some(digests.count())
}

fn count_of(equal: u64, other: u64, first: Option<i64>, last: Option<i64>) -> Option<DigestCount> {
    Some(DigestCount {
        equal,
        other,
        first,
        last,
    })
}

fn are_counted(alloc: Global) -> bool {
    let Ok(file) = read_log_file(alloc, RECORDS) else {
        return false;
    };
    let entries = file.entries.as_slice();
    advanced(alloc, entries) == count_of(1, 3, Some(3), Some(1))
        && begun(alloc, entries) == count_of(1, 0, None, Some(1))
        && passed(alloc, entries) == count_of(0, 0, None, None)
}

#[test]
fn digests_of_another_tree_are_counted(rt: HostRuntime) {
    assert!(rt; are_counted(rt.alloc()));
}

#[test]
fn clients_see_no_owner_of_containers(rt: HostRuntime) {
    assert!(rt; shown_owner(i64::MIN) == 0);
    assert!(rt; shown_owner(-1) == 0);
    assert!(rt; shown_owner(5) == 5);
}
