//! What a snapshot holds: its draft, the table that the draft settles to, and when it does neither.

use crate::files::{EMPTY, FUZZY, ORPHAN, OWNED, REAL, TWICE};
use std::alloc::Global;
use zk_fold::Fold;
use zk_machine::Machine;
use zk_replay::{BaseFault, Draft, Exact, exact_from, settle};
use zk_snapshot::{Snapshot, read_snapshot};
use zk_tree::Entry;

/// Reads a snapshot. It has no contract: a proof would hold all facts of what was read.
pub(crate) fn read(alloc: Global, bytes: &[u8]) -> Option<Snapshot> {
    read_snapshot(alloc, bytes).ok()
}

/// Builds the draft of a snapshot; `None` if there is no snapshot.
pub(crate) fn draft_of(alloc: Global, bytes: &[u8]) -> Option<Result<Draft, BaseFault>> {
    let snapshot = read(alloc, bytes)?;
    Some(Draft::of(alloc, &snapshot.contents))
}

/// Settles the draft of a snapshot at the zxid 16 (hexadecimal 10).
pub(crate) fn settled(alloc: Global, bytes: &[u8]) -> Option<Result<Fold, BaseFault>> {
    match draft_of(alloc, bytes)? {
        Ok(draft) => Some(settle(alloc, draft, 16)),
        Err(fault) => Some(Err(fault)),
    }
}

/// The fault of a snapshot that holds no state.
fn fault_of(alloc: Global, bytes: &[u8]) -> Option<BaseFault> {
    match settled(alloc, bytes) {
        Some(Err(fault)) => Some(fault),
        _ => None,
    }
}

/// Snapshots, each with its fault.
static FAULTS: [(&[u8], Option<BaseFault>); 6] = [
    (REAL, None),
    (EMPTY, Some(BaseFault::Tree)),
    (TWICE, Some(BaseFault::Tree)),
    (ORPHAN, Some(BaseFault::Tree)),
    (OWNED, Some(BaseFault::Tree)),
    (FUZZY, Some(BaseFault::Access)),
];

/// Whether each snapshot has its fault.
fn faults_hold(alloc: Global) -> bool {
    let mut all = true;
    for (bytes, fault) in &FAULTS {
        all = fault_of(alloc, *bytes) == *fault && all;
    }
    all
}

#[test]
fn faults_come_where_there_is_no_state(rt: HostRuntime) {
    assert!(rt; faults_hold(rt.alloc()));
}

/// The paths of `REAL` in order, each with its number of children.
static CHILDREN: [(&str, usize); 16] = [
    ("/", 9),
    ("/app", 1),
    ("/app/config", 1),
    ("/app/config/db", 0),
    ("/c2", 0),
    ("/cont", 0),
    ("/hot", 1),
    ("/hot/x", 0),
    ("/m1", 0),
    ("/shop", 1),
    ("/shop/orders", 0),
    ("/ttl", 0),
    ("/workers", 0),
    ("/zookeeper", 2),
    ("/zookeeper/config", 0),
    ("/zookeeper/quota", 0),
];

/// Whether the entries are those paths, none with an owner.
fn are_children(entries: &[Entry<'_>]) -> bool {
    let mut all = entries.len() == CHILDREN.len();
    for (entry, (path, children)) in entries.iter().zip(CHILDREN.iter()) {
        all = entry.path.text() == *path && all;
        all = entry.child_count == *children && entry.node.owner == 0 && all;
    }
    all
}

/// Whether a table is that of `REAL`.
fn is_real(table: &Fold) -> bool {
    table.last() == 16 && matches!(table.entries(), Ok(entries) if are_children(entries.as_slice()))
}

/// Whether the table of `REAL` is built.
fn is_settled(alloc: Global) -> bool {
    matches!(settled(alloc, REAL), Some(Ok(table)) if is_real(&table))
}

#[test]
fn a_real_snapshot_is_a_table(rt: HostRuntime) {
    assert!(rt; is_settled(rt.alloc()));
}

/// Whether a machine is in the state of `REAL`, before any step.
fn is_real_machine(machine: &Machine) -> bool {
    let Ok(tree) = machine.tree() else {
        return false;
    };
    machine.last() == Ok(16)
        && machine.steps() == Ok(0)
        && matches!(tree.entries(), Ok(entries) if are_children(entries.as_slice()))
}

/// Whether the table of `REAL` leads to that machine.
fn has_machine(alloc: Global) -> bool {
    match settled(alloc, REAL) {
        Some(Ok(table)) => { matches!(table.machine(), Ok(machine) if is_real_machine(&machine)) }
        _ => false,
    }
}

#[test]
fn a_real_snapshot_is_a_machine(rt: HostRuntime) {
    assert!(rt; has_machine(rt.alloc()));
}

/// Snapshots, how many of their bytes are kept, the zxid in the name, and from where on a replay is
/// exact. Without its last 33 bytes a snapshot has no digest.
static EXACT: [(&[u8], usize, i64, Exact); 5] = [
    (
        REAL,
        REAL.len(),
        0x1_0000_0270,
        Exact {
            zxid: 0x1_0000_0270,
            is_told: true,
        },
    ),
    (
        FUZZY,
        FUZZY.len(),
        0x10,
        Exact {
            zxid: 0x17,
            is_told: true,
        },
    ),
    (
        FUZZY,
        FUZZY.len(),
        0x18,
        Exact {
            zxid: 0x18,
            is_told: false,
        },
    ),
    (
        FUZZY,
        426,
        0x10,
        Exact {
            zxid: 0x16,
            is_told: false,
        },
    ),
    (
        EMPTY,
        EMPTY.len(),
        7,
        Exact {
            zxid: 7,
            is_told: false,
        },
    ),
];

/// From where on the replay of a snapshot is exact.
fn exact_of(alloc: Global, bytes: &[u8], zxid: i64) -> Option<Exact> {
    let snapshot = read(alloc, bytes)?;
    Some(exact_from(&snapshot, zxid))
}

/// Whether each snapshot is exact from its zxid on.
fn exact_holds(alloc: Global) -> bool {
    let mut all = true;
    for (bytes, kept, zxid, exact) in &EXACT {
        let bytes = bytes.get(..*kept).unwrap_or(*bytes);
        all = exact_of(alloc, bytes, *zxid) == Some(*exact) && all;
    }
    all
}

#[test]
fn a_replay_is_exact_from_the_claim_on(rt: HostRuntime) {
    assert!(rt; exact_holds(rt.alloc()));
}
