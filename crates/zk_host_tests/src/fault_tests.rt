//! Each error that a caller can bring about, and their texts.

use crate::ensembles::{Ensemble, ensemble, stores};
use std::alloc::Global;
use zab_host::{HostFault, StoreFault};
use zk_peers::{FEWEST, MOST, Peers, PeersFault};

/// Whether this number of stores is rejected.
fn is_rejected(alloc: Global, servers: usize) -> bool {
    matches!(
        Peers::start(alloc, stores(alloc, servers)),
        Err(PeersFault::Count)
    )
}

#[test]
fn an_ensemble_has_one_to_fifteen_servers(rt: HostRuntime) {
    let alloc = rt.alloc();
    assert!(rt; is_rejected(alloc, 0));
    assert!(rt; is_rejected(alloc, 16));
    assert!(rt; matches!(ensemble(alloc, FEWEST), Some(peers) if peers.len() == 1));
    assert!(rt; matches!(ensemble(alloc, MOST), Some(peers) if peers.len() == 15));
}

/// Whether servers 0 and 4 of three are unknown.
fn are_unknown(peers: &mut Ensemble) -> bool {
    for server in [0, 4] {
        let all = peers.lead(server) == Err(PeersFault::NoServer)
            && peers.crash(server) == Err(PeersFault::NoServer)
            && peers.restart(server) == Err(PeersFault::NoServer)
            && peers.receive(server) == Err(PeersFault::NoServer)
            && peers.cut(server, 1) == Err(PeersFault::NoServer)
            && peers.cut(1, server) == Err(PeersFault::NoServer)
            && peers.host(server).is_none()
            && peers.place_mut(server).is_none()
            && !peers.is_up(server);
        if !all {
            return false;
        }
    }
    peers.cut(2, 2) == Err(PeersFault::NoServer)
}

/// Whether a server that is down neither leads nor crashes, and one that is up does not start.
fn are_rejected(peers: &mut Ensemble) -> bool {
    peers.restart(2) == Err(PeersFault::NotDown)
}

/// Whether a server that is down neither leads nor crashes again.
fn is_down(peers: &mut Ensemble) -> bool {
    peers.crash(1).is_ok()
        && peers.crash(1) == Err(PeersFault::Down)
        && peers.lead(1) == Err(PeersFault::Down)
        && peers.receive(1).is_ok()
        && matches!(peers.place_mut(1), Some(place) if !place.is_up() && place.host().is_none())
        && matches!(peers.place_mut(3), Some(place) if place.is_up() && place.host().is_some())
}

#[test]
fn servers_that_are_unknown_or_down_are_rejected(rt: HostRuntime) {
    let Some(mut peers) = ensemble(rt.alloc(), 3) else {
        return;
    };
    assert!(rt; are_unknown(&mut peers));
    assert!(rt; is_down(&mut peers));
}

#[test]
fn a_server_that_is_up_is_not_restarted(rt: HostRuntime) {
    let Some(mut peers) = ensemble(rt.alloc(), 3) else {
        return;
    };
    assert!(rt; are_rejected(&mut peers));
}

/// Whether a fault is displayed so.
fn is_displayed(alloc: Global, fault: PeersFault, text: &str) -> bool {
    matches!(format!(in alloc; "{fault}"), Ok(shown) if shown.as_str() == text)
}

#[test]
fn faults_have_texts(rt: HostRuntime) {
    let alloc = rt.alloc();
    assert!(rt; is_displayed(alloc, PeersFault::Count, "an ensemble has 1 to 15 servers"));
    assert!(rt; is_displayed(alloc, PeersFault::NoServer, "no such server"));
    assert!(rt; is_displayed(alloc, PeersFault::Down, "the server is down"));
    assert!(rt; is_displayed(alloc, PeersFault::NotDown, "the server is not down"));
    assert!(rt; is_displayed(alloc, PeersFault::Host(HostFault::OutOfOrder), "H4"));
    assert!(rt; is_displayed(alloc, PeersFault::Store(StoreFault::Failed), "H2"));
    assert!(rt; is_displayed(alloc, PeersFault::NoMemory, "out of memory"));
}
