//! Five servers.

use crate::ensembles::{Ensemble, are, elects, ensemble, opens, reads, settle, writes};
use std::alloc::Global;
use zk_peers::PeerState::{Down, Following, Leading, Looking};

/// Creates `/a`, and its stat: the first transaction of epoch 2, at time 1000.
const CREATE: &str = "create \"/a\" \"\" 1 31 \"world\" \"anyone\"";

const CREATED: &str = "ok 0000000200000001 0000000200000001 1000 1000 0 0 0 \
     0000000000000000 0 0 0000000200000001";

/// Server 5 leads, and loses its quorum: it hears server 4 alone. The others hear each other.
fn leader_is_cut_off(alloc: Global, peers: &mut Ensemble) -> bool {
    elects(alloc, peers, 5)
        && opens(alloc, peers, 1)
        && peers.cut(5, 1).is_ok()
        && peers.cut(5, 2).is_ok()
        && peers.cut(3, 5).is_ok()
        && !peers.has_quorum(5)
        && !peers.is_led()
        && are(peers, &[Looking, Looking, Looking, Looking, Looking])
}

/// Server 4 is elected: it hears all. The one that was cut off follows it.
fn another_leads(alloc: Global, peers: &mut Ensemble) -> bool {
    elects(alloc, peers, 4)
        && are(
            peers,
            &[Following, Following, Following, Leading, Following],
        )
        && peers.heal().is_ok()
        && settle(alloc, peers)
        && are(
            peers,
            &[Following, Following, Following, Leading, Following],
        )
}

#[test]
fn a_leader_that_hears_no_quorum_is_replaced(rt: HostRuntime) {
    let alloc = rt.alloc();
    let Some(mut peers) = ensemble(alloc, 5) else {
        return;
    };
    assert!(rt; leader_is_cut_off(alloc, &mut peers));
    assert!(rt; another_leads(alloc, &mut peers));
}

/// Servers 4 and 5 are cut off from the others, which write; then the others crash but one.
fn three_write(alloc: Global, peers: &mut Ensemble) -> bool {
    elects(alloc, peers, 5)
        && opens(alloc, peers, 1)
        && peers.lead(1).is_ok()
        && settle(alloc, peers)
        && cut_off(peers)
        && are(peers, &[Leading, Following, Following, Looking, Looking])
        && writes(alloc, peers, 2, CREATE)
        && peers.crash(1).is_ok()
        && peers.crash(2).is_ok()
        && !peers.is_led()
}

/// Each link between servers 1 to 3 and servers 4 and 5 is cut.
fn cut_off(peers: &mut Ensemble) -> bool {
    for one in [1, 2, 3] {
        if peers.cut(one, 4).is_err() || peers.cut(5, one).is_err() {
            return false;
        }
    }
    true
}

/// Server 3 has the write and the lowest number: its vote wins once a quorum hears it.
fn the_longest_history_wins(alloc: Global, peers: &mut Ensemble) -> bool {
    peers.elect() == Ok(None)
        && peers.heal().is_ok()
        && elects(alloc, peers, 3)
        && are(peers, &[Down, Down, Leading, Following, Following])
        && reads(alloc, peers, 4, "stat \"/a\"", CREATED)
        && reads(alloc, peers, 5, "stat \"/a\"", CREATED)
}

#[test]
fn the_server_with_the_write_is_elected(rt: HostRuntime) {
    let alloc = rt.alloc();
    let Some(mut peers) = ensemble(alloc, 5) else {
        return;
    };
    assert!(rt; three_write(alloc, &mut peers));
    assert!(rt; the_longest_history_wins(alloc, &mut peers));
}
