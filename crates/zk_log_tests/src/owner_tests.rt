//! The owners of containers and of nodes with a time to live, as servers store them.

use crate::base_tests::{read, settled};
use crate::files::REAL;
use std::alloc::Global;
use zk_fold::Fold;
use zk_replay::BaseFault;
use zk_snapshot::{Snapshot, Stored};
use zk_stored_owners::{Owners, follow_logs, stored_snapshot};

/// Records of a 3.8.0 server, which create the container `/c` and the node `/t` with a time to live
/// of 5,000 seconds. Then `/c` is deleted, and created as a persistent node. Their zxids are 4, 6, 7
/// and 8.
const LOG: &[u8] =
    b"ZKLG\0\0\0\x02\0\0\0\0\0\0\0\0\0\0\0\0\x9b\x97\x0b$\0\0\0U\x01\0\0M#\xab\0\0\0\0\0\x03\0\0\
      \0\0\0\0\0\x04\0\0\x01\xa2\x08u\xe3\xc1\0\0\0\x13\0\0\0\x02/c\0\0\0\0\0\0\0\x01\0\0\0\x1f\0\
      \0\0\x05world\0\0\0\x06anyone\0\0\0\x03\0\0\0\x02\0\0\0\x02\xbbn\x1ejB\0\0\0\0\x17z\x0c\xe3\
      \0\0\0^\x01\0\0M#\xab\0\0\0\0\0\x05\0\0\0\0\0\0\0\x06\0\0\x01\xa2\x08u\xe3\xcb\0\0\0\x15\0\
      \0\0\x02/t\0\0\0\x01t\0\0\0\x01\0\0\0\x1f\0\0\0\x05world\0\0\0\x06anyone\0\0\0\x04\0\0\0\0\
      \0LK@\0\0\0\x02\0\0\0\x03a\xc23\xabB\0\0\0\0K4\x04\x96\0\0\0&\x01\0\0M#\xab\0\0\0\0\0\x07\0\
      \0\0\0\0\0\0\x07\0\0\x01\xa2\x08u\xe3\xd2\0\0\0\x02\0\0\0\x02/cB\0\0\0\018\x09z\0\0\0J\x01\
      \0\0M#\xab\0\0\0\0\0\x08\0\0\0\0\0\0\0\x08\0\0\x01\xa2\x08u\xe3\xd3\0\0\0\x01\0\0\0\x02/c\0\
      \0\0\0\0\0\0\x01\0\0\0\x1f\0\0\0\x05world\0\0\0\x06anyone\0\0\0\0\x05B";

/// The owner of each container: `EphemeralType` of `org.apache.zookeeper.server`.
const CONTAINER: i64 = i64::MIN;

/// The owner of `/t`: ff in the first byte, and the milliseconds.
const LIVING: i64 = -72_057_594_032_927_936;

/// The owner of `/ttl` in `REAL`, as `SnapshotFormatter` prints it.
const REAL_LIVING: i64 = -72_057_594_034_327_936;

/// After which zxid records are followed, and up to which; and the owners of `/c` and `/t` then.
static FOLLOWED: [(i64, i64, Option<i64>, Option<i64>); 5] = [
    (0, 3, None, None),
    (0, 5, Some(CONTAINER), None),
    (0, 6, Some(CONTAINER), Some(LIVING)),
    (4, 6, None, Some(LIVING)),
    (0, 8, None, Some(LIVING)),
];

/// The owners after some records of two copies of `LOG`.
fn owners_after(alloc: Global, from: i64, upto: i64) -> Option<Owners> {
    follow_logs(alloc, Owners::new(alloc), from, upto, &[LOG, LOG]).ok()
}

/// Whether `/c` and `/t` have these owners.
fn have_owners(owners: &Owners, container: Option<i64>, living: Option<i64>) -> bool {
    owners.get("/c") == container && owners.get("/t") == living
}

/// The number of the first entry of `FOLLOWED` that does not hold.
fn other_owners(alloc: Global) -> Option<usize> {
    for (number, (from, upto, container, living)) in FOLLOWED.iter().enumerate() {
        match owners_after(alloc, *from, *upto) {
            Some(owners) if have_owners(&owners, *container, *living) => {}
            _ => return Some(number),
        }
    }
    None
}

#[test]
fn records_give_owners(rt: HostRuntime) {
    assert_eq!(rt; other_owners(rt.alloc()), None);
}

/// The owners that `REAL` stores.
fn real_owners(alloc: Global) -> Option<Owners> {
    let snapshot = read(alloc, REAL)?;
    Owners::stored(alloc, snapshot.contents.nodes.as_slice()).ok()
}

/// Whether they are those that clients see of no node.
fn are_real(owners: &Owners) -> bool {
    owners.get("/cont") == Some(CONTAINER)
        && owners.get("/ttl") == Some(REAL_LIVING)
        && owners.get("/c2") == None
        && owners.get("/none") == None
}

/// Whether a node of `REAL` has the owner that `SnapshotFormatter` prints.
fn has_owner(stored: &Stored) -> bool {
    let owner = match stored.path.text() {
        "/cont" => CONTAINER,
        "/ttl" => REAL_LIVING,
        _ => 0,
    };
    stored.kept.owner == owner
}

/// Whether each of the 16 nodes of `REAL` has it.
fn have_real_owners(snapshot: &Snapshot) -> bool {
    let nodes = snapshot.contents.nodes.as_slice();
    nodes.len() == 16 && nodes.iter().all(|stored| has_owner(stored))
}

/// Whether the snapshot of a table has the owners of `REAL`.
fn is_stored(alloc: Global, table: &Fold, owners: &Owners) -> bool {
    match stored_snapshot(alloc, table, owners) {
        Ok(snapshot) => have_real_owners(&snapshot),
        Err(_) => false,
    }
}

/// Whether the table of `REAL`, whose nodes have no owner, leads to them.
fn leads_there(alloc: Global, table: Option<Result<Fold, BaseFault>>, owners: &Owners) -> bool {
    match table {
        Some(Ok(table)) => is_stored(alloc, &table, owners),
        _ => false,
    }
}

/// Whether the owners of `REAL` are read, and written with the nodes of its table.
fn are_kept(alloc: Global) -> bool {
    match real_owners(alloc) {
        Some(owners) => are_real(&owners) && leads_there(alloc, settled(alloc, REAL), &owners),
        None => false,
    }
}

#[test]
fn a_real_snapshot_keeps_its_owners(rt: HostRuntime) {
    assert!(rt; are_kept(rt.alloc()));
}
