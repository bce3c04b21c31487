//! One server: it acknowledges itself.

use crate::ensembles::{Ensemble, are, elects, ensemble, opens, reads, settle, writes};
use std::alloc::Global;
use zk_peers::PeerState::{Down, Leading, Looking};
use zk_peers::PeersFault;

/// Creates `/a`, and the reply to a read of it: the second transaction of epoch 1, at time 1000.
const CREATE: &str = "create \"/a\" \"one\" 1 31 \"world\" \"anyone\"";

const CREATED: &str = "ok x6f6e65 0000000100000002 0000000100000002 1000 1000 0 0 0 \
     0000000000000000 3 0 0000000100000002";

/// The same after the first transaction of epoch 2 has set `two`.
const CHANGED: &str = "ok x74776f 0000000100000002 0000000200000001 1000 1000 1 0 0 \
     0000000000000000 3 0 0000000100000002";

/// It is elected, acknowledges itself in one round of mail, and serves.
fn begins(alloc: Global, peers: &mut Ensemble) -> bool {
    peers.leader().is_none()
        && are(peers, &[Looking])
        && peers.has_quorum(1)
        && peers.elect() == Ok(Some(1))
        && are(peers, &[Looking])
        && peers.has_mail()
        && settle(alloc, peers)
        && are(peers, &[Leading])
        && opens(alloc, peers, 1)
        && writes(alloc, peers, 1, CREATE)
        && reads(alloc, peers, 1, "get \"/a\"", CREATED)
}

/// It crashes and starts again: it leads the next epoch with all that it had.
fn comes_back(alloc: Global, peers: &mut Ensemble) -> bool {
    peers.crash(1).is_ok()
        && are(peers, &[Down])
        && peers.elect() == Ok(None)
        && peers.restart(1).is_ok()
        && are(peers, &[Looking])
        && elects(alloc, peers, 1)
        && reads(alloc, peers, 1, "get \"/a\"", CREATED)
        && writes(alloc, peers, 1, "set \"/a\" \"two\" -1")
        && reads(alloc, peers, 1, "get \"/a\"", CHANGED)
}

#[test]
fn a_lone_server_leads_and_loses_nothing(rt: HostRuntime) {
    let alloc = rt.alloc();
    let Some(mut peers) = ensemble(alloc, 1) else {
        return;
    };
    assert!(rt; begins(alloc, &mut peers));
    assert!(rt; comes_back(alloc, &mut peers));
}

/// It is made to lead again, which begins another epoch; it has no links.
fn leads_again(alloc: Global, peers: &mut Ensemble) -> bool {
    peers.lead(1).is_ok()
        && peers.lead(1).is_ok()
        && settle(alloc, peers)
        && are(peers, &[Leading])
        && writes(alloc, peers, 1, "set \"/a\" \"two\" -1")
        && reads(alloc, peers, 1, "get \"/a\"", CHANGED)
        && peers.cut(1, 1) == Err(PeersFault::NoServer)
        && peers.heal().is_ok()
}

#[test]
fn a_lone_server_can_be_made_to_lead_again(rt: HostRuntime) {
    let alloc = rt.alloc();
    let Some(mut peers) = ensemble(alloc, 1) else {
        return;
    };
    assert!(rt; begins(alloc, &mut peers));
    assert!(rt; leads_again(alloc, &mut peers));
}
