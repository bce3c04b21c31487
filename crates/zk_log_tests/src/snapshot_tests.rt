//! A real snapshot, and files that are rejected.

use crate::expected::{ExpectedNode, is_content};
use crate::files::{EMPTY, FUZZY, REAL};
use std::alloc::Global;
use zk_snapshot::{
    Accesses, Claim, Leases, Snapshot, SnapshotFault, Stored, StoredNodes, read_snapshot,
    replay_is_exact,
};

/// The nodes of `REAL`, in the order of the file.
static NODES: [ExpectedNode; 16] = [
    ExpectedNode {
        path: "/",
        content: Some(b""),
        zxids: [0, 0, 0x1_0000_015b],
        versions: [0, 8, 0],
        owner: 0,
    },
    ExpectedNode {
        path: "/app",
        content: Some(b""),
        zxids: [0x1_0000_0002, 0x1_0000_0002, 0x1_0000_0003],
        versions: [0, 1, 0],
        owner: 0,
    },
    ExpectedNode {
        path: "/app/config",
        content: Some(b""),
        zxids: [0x1_0000_0003, 0x1_0000_0003, 0x1_0000_0004],
        versions: [0, 1, 0],
        owner: 0,
    },
    ExpectedNode {
        path: "/app/config/db",
        content: Some(b"v3"),
        zxids: [0x1_0000_0004, 0x1_0000_015b, 0x1_0000_0004],
        versions: [3, 0, 0],
        owner: 0,
    },
    ExpectedNode {
        path: "/shop",
        content: Some(b""),
        zxids: [0x1_0000_0005, 0x1_0000_0005, 0x1_0000_0230],
        versions: [0, 2, 0],
        owner: 0,
    },
    ExpectedNode {
        path: "/shop/orders",
        content: Some(b"three 195"),
        zxids: [0x1_0000_0006, 0x1_0000_0220, 0x1_0000_0006],
        versions: [95, 0, 0],
        owner: 0,
    },
    ExpectedNode {
        path: "/zookeeper",
        content: Some(b""),
        zxids: [0, 0, 0],
        versions: [0, 0, 0],
        owner: 0,
    },
    ExpectedNode {
        path: "/zookeeper/config",
        content: Some(
            b"server.1=127.0.0.1:21031:21041:participant;127.0.0.1:21021\n\
              server.2=127.0.0.1:21032:21042:participant;127.0.0.1:21022\n\
              server.3=127.0.0.1:21033:21043:participant;127.0.0.1:21023\n\
              version=100000000",
        ),
        zxids: [0, 0x1_0000_0000, 0],
        versions: [-1, 0, -1],
        owner: 0,
    },
    ExpectedNode {
        path: "/zookeeper/quota",
        content: Some(b""),
        zxids: [0, 0, 0],
        versions: [0, 0, 0],
        owner: 0,
    },
    ExpectedNode {
        path: "/m1",
        content: Some(b"1"),
        zxids: [0x1_0000_015b, 0x1_0000_015b, 0x1_0000_015b],
        versions: [0, 0, 0],
        owner: 0,
    },
    ExpectedNode {
        path: "/hot",
        content: Some(b""),
        zxids: [0x1_0000_000c, 0x1_0000_000c, 0x1_0000_015b],
        versions: [0, 2, 0],
        owner: 0,
    },
    ExpectedNode {
        path: "/hot/x",
        content: Some(b"four 59"),
        zxids: [0x1_0000_000d, 0x1_0000_026e, 0x1_0000_000d],
        versions: [415, 0, 0],
        owner: 0,
    },
    ExpectedNode {
        path: "/cont",
        content: Some(b"c"),
        zxids: [0x1_0000_0019, 0x1_0000_0019, 0x1_0000_0019],
        versions: [0, 0, 0],
        owner: i64::MIN,
    },
    ExpectedNode {
        path: "/workers",
        content: Some(b""),
        zxids: [0x1_0000_000f, 0x1_0000_000f, 0x1_0000_0157],
        versions: [0, 1, 0],
        owner: 0,
    },
    ExpectedNode {
        path: "/ttl",
        content: Some(b"t"),
        zxids: [0x1_0000_001a, 0x1_0000_001a, 0x1_0000_001a],
        versions: [0, 0, 0],
        owner: -72_057_594_034_327_936,
    },
    ExpectedNode {
        path: "/c2",
        content: None,
        zxids: [0x1_0000_001b, 0x1_0000_001b, 0x1_0000_001b],
        versions: [0, 0, 0],
        owner: 0,
    },
];

/// Whether a stored node is the expected one.
fn is_stored(stored: &Stored, node: &ExpectedNode) -> bool {
    let kept = &stored.kept;
    stored.path.text() == node.path
        && is_content(&kept.content, node.content)
        && [kept.moments.czxid, kept.moments.mzxid, kept.pzxid] == node.zxids
        && [
            kept.versions.version,
            kept.versions.creates,
            kept.versions.aversion,
        ] == node.versions
        && kept.owner == node.owner
}

/// Whether the stored nodes are those of `NODES`.
fn are_stored(stored: &[Stored]) -> bool {
    let mut all = stored.len() == NODES.len();
    for (one, node) in stored.iter().zip(NODES.iter()) {
        all = is_stored(one, node) && all;
    }
    all
}

/// Whether the one session is that of `REAL`.
fn are_leases(leases: &Leases) -> bool {
    matches!(leases.as_slice(), [one] if one.session == 0x300_000d_9c0a_0000 && one.timeout == 10_000)
}

/// Whether the access control lists have the numbers 1 and 2.
fn are_accesses(accesses: &Accesses) -> bool {
    matches!(accesses.as_slice(), [one, two] if one.number == 1 && two.number == 2)
}

/// Whether the digest's claim is that of `REAL`.
fn is_claim(claim: &Option<Claim>) -> bool {
    matches!(claim, Some(claim) if claim.zxid == 0x1_0000_0270 && claim.version == 2 && claim.sum == 24_855_271_644)
}

/// Whether a snapshot is `REAL`.
fn is_real(snapshot: &Snapshot) -> bool {
    snapshot.contents.dbid == -1
        && are_leases(&snapshot.contents.leases)
        && are_accesses(&snapshot.contents.accesses)
        && are_stored(snapshot.contents.nodes.as_slice())
        && is_claim(&snapshot.claim)
}

/// Reads a snapshot. It has no contract: a proof would hold all facts of what was read.
fn read(alloc: Global, bytes: &[u8]) -> Result<Snapshot, SnapshotFault> {
    read_snapshot(alloc, bytes)
}

/// Whether `REAL` is read.
fn is_read(alloc: Global) -> bool {
    match read(alloc, REAL) {
        Ok(snapshot) => is_real(&snapshot),
        Err(_) => false,
    }
}

#[test]
fn a_real_snapshot_is_read(rt: HostRuntime) {
    assert!(rt; is_read(rt.alloc()));
    replay_is_exact();
}

/// Files, how many of their bytes are kept, a byte that is added, and the fault.
static FAULTS: [(&[u8], usize, Option<u8>, SnapshotFault); 9] = [
    (REAL, 15, None, SnapshotFault::Header),
    (
        b"ZKLG\0\0\0\x02\0\0\0\0\0\0\0\0",
        16,
        None,
        SnapshotFault::Header,
    ),
    (REAL, 1000, None, SnapshotFault::Short),
    (EMPTY, 41, None, SnapshotFault::Short),
    (EMPTY, 16, Some(0xff), SnapshotFault::Short),
    (
        b"ZKSN\0\0\0\x02\0\0\0\0\0\0\0\0\xff\xff\xff\xff",
        20,
        None,
        SnapshotFault::Field,
    ),
    (
        b"ZKSN\0\0\0\x02\0\0\0\0\0\0\0\0\0\0\0\0\0\0\0\0\0\0\0\x01/\0\0\0\0\0\0\0\x01\0\0\0\x01/",
        42,
        None,
        SnapshotFault::Checksum,
    ),
    (FUZZY, FUZZY.len(), Some(0), SnapshotFault::Trailing),
    (
        b"\x1f\x8b\x08\0\0\0\0\0\0\0\0\0\0\0\0\0",
        16,
        None,
        SnapshotFault::Compressed,
    ),
];

/// The bytes that are kept, with the one that is added.
fn edited(alloc: Global, bytes: &[u8], kept: usize, added: Option<u8>) -> Option<Vec<u8>> {
    let front = bytes.get(..kept)?;
    let mut edited = Vec::with_capacity(alloc, kept).ok()?;
    edited.extend_from_slice(front).ok()?;
    if let Some(byte) = added {
        edited.push(byte).ok()?;
    }
    Some(edited)
}

/// The fault of a file.
fn fault_of(alloc: Global, bytes: &[u8]) -> Option<SnapshotFault> {
    match read(alloc, bytes) {
        Ok(_) => None,
        Err(fault) => Some(fault),
    }
}

/// Whether an edited file is rejected with this fault.
fn is_rejected(
    alloc: Global,
    bytes: &[u8],
    kept: usize,
    added: Option<u8>,
    fault: SnapshotFault,
) -> bool {
    match edited(alloc, bytes, kept, added) {
        Some(bytes) => fault_of(alloc, bytes.as_slice()) == Some(fault),
        None => false,
    }
}

/// Returns the first fault that another one took the place of.
fn other_fault(alloc: Global) -> Option<SnapshotFault> {
    for (bytes, kept, added, fault) in &FAULTS {
        if !is_rejected(alloc, *bytes, *kept, *added, *fault) {
            return Some(*fault);
        }
    }
    None
}

#[test]
fn faults_are_those_of_the_first_field(rt: HostRuntime) {
    assert_eq!(rt; other_fault(rt.alloc()), None);
}

#[test]
fn lists_of_a_file_keep_their_order(rt: HostRuntime) {
    let alloc: Global = rt.alloc();
    assert!(rt; Leases::new(Vec::new(alloc)).as_slice().is_empty());
    assert!(rt; Accesses::new(Vec::new(alloc)).as_slice().is_empty());
    assert!(rt; StoredNodes::new(Vec::new(alloc)).as_slice().is_empty());
}
