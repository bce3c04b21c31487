//! Recorded streams, in chunks of several sizes, and each prefix of one.

use crate::streams;
use crate::taken::take_chunks;
use zk_quorum_records::Phase;

/// A learner that gets a tree: LEADERINFO, SNAP, NEWLEADER, PING, UPTODATE, PING.
static LEADER: [(i32, i64); 6] = [
    (17, 0x4_0000_0000),
    (15, 0x4_0000_0003),
    (10, 0x4_0000_0000),
    (5, 0x4_0000_0003),
    (12, -1),
    (5, 0x4_0000_0003),
];

/// FOLLOWERINFO, ACKEPOCH, two ACKs, and replies to pings.
static LEARNER: [(i32, i64); 6] = [
    (11, 0x3_0000_0000),
    (18, 0x3_0000_0005),
    (3, 0x4_0000_0000),
    (3, 0x4_0000_0000),
    (5, 0x4_0000_0003),
    (5, 0x4_0000_0003),
];

/// LEADERINFO, DIFF, five times PROPOSAL and COMMIT, NEWLEADER, two PINGs, UPTODATE.
static FOLLOWED: [(i32, i64); 16] = [
    (17, 0x2_0000_0000),
    (13, 0x2_0000_0005),
    (2, 0x2_0000_0001),
    (4, 0x2_0000_0001),
    (2, 0x2_0000_0002),
    (4, 0x2_0000_0002),
    (2, 0x2_0000_0003),
    (4, 0x2_0000_0003),
    (2, 0x2_0000_0004),
    (4, 0x2_0000_0004),
    (2, 0x2_0000_0005),
    (4, 0x2_0000_0005),
    (10, 0x2_0000_0000),
    (5, 0x2_0000_0005),
    (5, 0x2_0000_0005),
    (12, -1),
];

#[test]
fn a_leader_sends_a_tree(rt: HostRuntime) {
    for size in [1, 7, 100, 4096] {
        let Some(taken) = take_chunks(rt.alloc(), streams::LEADER, Phase::Packets, size) else {
            panic!(rt; "{size}");
        };
        assert!(rt; taken.packets.as_slice() == LEADER.as_slice(), "{size}");
        assert!(rt; taken.sessions == 2 && taken.lists == 2, "{size}");
        assert!(rt; taken.nodes == 14 && taken.signatures == 1, "{size}");
        assert!(rt; taken.waiting == 0, "{size}");
    }
}

#[test]
fn a_learner_acknowledges(rt: HostRuntime) {
    let Some(taken) = take_chunks(rt.alloc(), streams::LEARNER, Phase::Packets, 9) else {
        panic!(rt; "a fault");
    };
    assert!(rt; taken.packets.as_slice() == LEARNER.as_slice() && taken.waiting == 0);
}

#[test]
fn a_leader_sends_entries(rt: HostRuntime) {
    let Some(taken) = take_chunks(rt.alloc(), streams::FOLLOWED, Phase::Packets, 50) else {
        panic!(rt; "a fault");
    };
    assert!(rt; taken.packets.as_slice() == FOLLOWED.as_slice() && taken.waiting == 0);
}

#[test]
fn servers_elect(rt: HostRuntime) {
    let Some(taken) = take_chunks(rt.alloc(), streams::CALLER, Phase::Hello, 3) else {
        panic!(rt; "a fault");
    };
    assert!(rt; taken.hellos == 1 && taken.notifications == 1 && taken.waiting == 0);
    let Some(taken) = take_chunks(rt.alloc(), streams::CALLED, Phase::Notifications, 3) else {
        panic!(rt; "a fault");
    };
    assert!(rt; taken.notifications == 2 && taken.waiting == 0);
}

#[test]
fn no_prefix_has_a_fault(rt: HostRuntime) {
    let bytes = streams::LEADER;
    for count in 0..bytes.len() {
        let taken = take_chunks(rt.alloc(), &bytes[..count], Phase::Packets, 64);
        assert!(rt; taken.is_some(), "{count}");
    }
}
