//! Three servers.

use crate::ensembles::{Ensemble, are, elects, ensemble, opens, reads, settle, writes};
use std::alloc::Global;
use zk_peers::PeerState;

/// Creates `/a`, and the reply to a read of it: the second transaction of epoch 1, at time 1000.
const CREATE: &str = "create \"/a\" \"one\" 1 31 \"world\" \"anyone\"";

const CREATED: &str = "ok x6f6e65 0000000100000002 0000000100000002 1000 1000 0 0 0 \
     0000000000000000 3 0 0000000100000002";

/// The same after the first transaction of epoch 2 has set `two`.
const CHANGED: &str = "ok x74776f 0000000100000002 0000000200000001 1000 1000 1 0 0 \
     0000000000000000 3 0 0000000100000002";

const STATES: [PeerState; 4] = [
    PeerState::Down,
    PeerState::Looking,
    PeerState::Following,
    PeerState::Leading,
];

/// Whether the servers have the states of these places in the list.
fn have(peers: &Ensemble, one: usize, two: usize, three: usize) -> bool {
    match (STATES.get(one), STATES.get(two), STATES.get(three)) {
        (Some(one), Some(two), Some(three)) => are(peers, &[*one, *two, *three]),
        _ => false,
    }
}

/// Server 3 is elected, as all votes are alike but for its number. It takes a write of server 1.
fn begins(alloc: Global, peers: &mut Ensemble) -> bool {
    peers.leader().is_none()
        && !peers.is_led()
        && have(peers, 1, 1, 1)
        && elects(alloc, peers, 3)
        && have(peers, 2, 2, 3)
        && opens(alloc, peers, 1)
        && writes(alloc, peers, 1, CREATE)
        && reads(alloc, peers, 1, "get \"/a\"", CREATED)
        && reads(alloc, peers, 2, "get \"/a\"", CREATED)
        && reads(alloc, peers, 3, "get \"/a\"", CREATED)
}

/// The leader crashes: no other serves until one is elected, which has all that was written.
fn loses_its_leader(alloc: Global, peers: &mut Ensemble) -> bool {
    peers.crash(3).is_ok()
        && peers.leader().is_none()
        && !peers.is_up(3)
        && peers.host(3).is_none()
        && have(peers, 1, 1, 0)
        && elects(alloc, peers, 2)
        && have(peers, 2, 3, 0)
        && reads(alloc, peers, 1, "get \"/a\"", CREATED)
        && writes(alloc, peers, 1, "set \"/a\" \"two\" -1")
        && reads(alloc, peers, 2, "get \"/a\"", CHANGED)
}

/// The server that had crashed restarts, follows the new leader, and has all that was written.
fn comes_back(alloc: Global, peers: &mut Ensemble) -> bool {
    peers.restart(3).is_ok()
        && have(peers, 2, 3, 1)
        && settle(alloc, peers)
        && have(peers, 2, 3, 2)
        && reads(alloc, peers, 3, "get \"/a\"", CHANGED)
}

#[test]
fn a_leader_that_crashes_loses_nothing(rt: HostRuntime) {
    let alloc = rt.alloc();
    let Some(mut peers) = ensemble(alloc, 3) else {
        return;
    };
    assert!(rt; begins(alloc, &mut peers));
    assert!(rt; loses_its_leader(alloc, &mut peers));
    assert!(rt; comes_back(alloc, &mut peers));
}

/// Server 1 hears no other, and does not serve; the others go on.
fn loses_a_follower(alloc: Global, peers: &mut Ensemble) -> bool {
    peers.cut(1, 2).is_ok()
        && peers.cut(3, 1).is_ok()
        && !peers.serves(1)
        && !peers.has_quorum(1)
        && peers.has_quorum(2)
        && peers.has_quorum(3)
        && have(peers, 1, 2, 3)
        && writes(alloc, peers, 2, "set \"/a\" \"two\" -1")
}

/// Once the links are healthy, server 1 follows again and has what it missed.
fn heals(alloc: Global, peers: &mut Ensemble) -> bool {
    peers.heal().is_ok()
        && have(peers, 1, 2, 3)
        && settle(alloc, peers)
        && have(peers, 2, 2, 3)
        && reads(alloc, peers, 1, "get \"/a\"", SET_IN_ONE)
}

/// `/a` after the third transaction of epoch 1 has set `two`.
const SET_IN_ONE: &str = "ok x74776f 0000000100000002 0000000100000003 1000 1000 1 0 0 \
     0000000000000000 3 0 0000000100000002";

#[test]
fn a_server_that_was_cut_off_catches_up(rt: HostRuntime) {
    let alloc = rt.alloc();
    let Some(mut peers) = ensemble(alloc, 3) else {
        return;
    };
    assert!(rt; begins(alloc, &mut peers));
    assert!(rt; loses_a_follower(alloc, &mut peers));
    assert!(rt; heals(alloc, &mut peers));
}

/// One server of three is no quorum: none is elected, and none serves.
fn is_alone(peers: &mut Ensemble) -> bool {
    peers.crash(1).is_ok()
        && have(peers, 0, 2, 3)
        && peers.crash(2).is_ok()
        && !peers.has_quorum(3)
        && !peers.is_led()
        && have(peers, 0, 0, 1)
        && peers.elect() == Ok(None)
        && peers.leader().is_none()
        && have(peers, 0, 0, 1)
}

/// With a second server there is a quorum again.
fn is_two(alloc: Global, peers: &mut Ensemble) -> bool {
    peers.restart(2).is_ok()
        && have(peers, 0, 1, 1)
        && elects(alloc, peers, 3)
        && have(peers, 0, 2, 3)
        && reads(alloc, peers, 2, "get \"/a\"", CREATED)
}

#[test]
fn one_server_of_three_serves_nobody(rt: HostRuntime) {
    let alloc = rt.alloc();
    let Some(mut peers) = ensemble(alloc, 3) else {
        return;
    };
    assert!(rt; begins(alloc, &mut peers));
    assert!(rt; is_alone(&mut peers));
    assert!(rt; is_two(alloc, &mut peers));
}

/// An operator makes server 1 lead.
fn is_made_leader(alloc: Global, peers: &mut Ensemble) -> bool {
    peers.lead(1).is_ok()
        && peers.leader() == Some(1)
        && have(peers, 1, 1, 1)
        && settle(alloc, peers)
        && have(peers, 3, 2, 2)
        && writes(alloc, peers, 3, "set \"/a\" \"two\" -1")
        && reads(alloc, peers, 2, "get \"/a\"", CHANGED)
}

#[test]
fn a_server_can_be_made_the_leader(rt: HostRuntime) {
    let alloc = rt.alloc();
    let Some(mut peers) = ensemble(alloc, 3) else {
        return;
    };
    assert!(rt; begins(alloc, &mut peers));
    assert!(rt; is_made_leader(alloc, &mut peers));
}
