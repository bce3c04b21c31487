//! Votes of the leader election, and roles.

use crate::echo_hosts::{EchoHost, FIRST, QUORUMS, elect, settle, start};
use std::alloc::Global;
use zab_broadcast::EchoCall;
use zab_epoch::Role;
use zab_host::{MemoryStorage, Vote};

/// ZooKeeper, `FastLeaderElection`, `totalOrderPredicate`: the epoch decides, then the zxid, then
/// the server.
#[test]
fn votes_are_compared_by_epoch_zxid_and_server(rt: HostRuntime) {
    let vote = Vote {
        epoch: 2,
        zxid: 0x2_0000_0005,
        server: 3,
    };
    let lesser = [
        Vote {
            epoch: 1,
            zxid: 0x7_0000_0000,
            server: 9,
        },
        Vote {
            epoch: 2,
            zxid: 0x2_0000_0004,
            server: 9,
        },
        Vote {
            epoch: 2,
            zxid: 0x2_0000_0005,
            server: 2,
        },
        Vote {
            epoch: 2,
            zxid: -1,
            server: 3,
        },
    ];
    for other in lesser {
        assert!(rt; vote.wins_over(&other));
        assert!(rt; !other.wins_over(&vote));
    }
    assert!(rt; !vote.wins_over(&vote));
}

/// Whether a new host has no epoch and no entry, and looks for a leader.
fn begins(host: &EchoHost, server: usize) -> bool {
    let vote = Vote {
        epoch: 0,
        zxid: 0,
        server,
    };
    host.vote() == vote && matches!(host.role(), Role::Looking)
}

/// Whether host 1 leads host 2, and both have the entry that it made.
fn leads(alloc: Global, one: &mut EchoHost, two: &mut EchoHost) -> bool {
    let vote = |server| Vote {
        epoch: 1,
        zxid: FIRST,
        server,
    };
    elect(alloc, one, two)
        && one.submit(alloc, &QUORUMS, EchoCall { tag: 7 }).is_ok()
        && settle(alloc, one, two)
        && one.vote() == vote(1)
        && two.vote() == vote(2)
        && matches!(one.role(), Role::Broadcast)
        && matches!(two.role(), Role::Following { leader, synced } if *leader == 1 && *synced)
}

/// Whether two hosts begin so, and then one leads the other.
fn hosts_vote(alloc: Global) -> bool {
    let one = start(alloc, 1, MemoryStorage::new(alloc));
    let two = start(alloc, 2, MemoryStorage::new(alloc));
    match (one, two) {
        (Ok(mut one), Ok(mut two)) => {
            begins(&one, 1) && begins(&two, 2) && leads(alloc, &mut one, &mut two)
        }
        _ => false,
    }
}

#[test]
fn a_host_votes_with_its_epoch_and_last_zxid(rt: HostRuntime) {
    assert!(rt; hosts_vote(rt.alloc()));
}
