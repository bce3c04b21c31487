//! Hosts whose calls are tags: election, calls, syncs, restarts, and each error that a caller can
//! bring about.

use crate::echo_hosts::{
    EchoHost, FIRST, QUORUMS, elect, find, has_delivered, has_synced, is_displayed, is_rejected,
    settle, start,
};
use std::alloc::Global;
use zab_broadcast::{Caught, EchoCall};
use zab_epoch::{Body, Messages};
use zab_host::{HostFault, MemoryStorage, ReceiveFault, Storage, StoreFault, is_append_only};

/// Elects host 1, and submits the call 7 at host 2. Whether both deliver it.
fn delivers(alloc: Global, one: &mut EchoHost, two: &mut EchoHost) -> bool {
    elect(alloc, one, two)
        && two.submit(alloc, &QUORUMS, EchoCall { tag: 7 }).is_ok()
        && two.outbox_len() == 1
        && settle(alloc, one, two)
        && has_delivered(alloc, one, &[7])
        && has_delivered(alloc, two, &[7])
}

/// Whether a restarted host has delivered nothing, and delivers the call once it follows again.
fn catches_up(alloc: Global, one: &mut EchoHost, two: &mut EchoHost) -> bool {
    !two.is_serving()
        && has_delivered(alloc, two, &[])
        && two.follow(alloc, &QUORUMS, 1).is_ok()
        && settle(alloc, one, two)
        && has_delivered(alloc, two, &[7])
}

/// Whether a sync of host 2 completes with the one entry that host 1 has delivered, and is taken
/// once.
fn syncs(alloc: Global, one: &mut EchoHost, two: &mut EchoHost) -> bool {
    two.sync(alloc, &QUORUMS, 5).is_ok()
        && settle(alloc, one, two)
        && has_synced(alloc, two, &[Caught { tag: 5, length: 1 }])
        && has_synced(alloc, two, &[])
        && has_synced(alloc, one, &[])
}

/// Whether host 2 restarts on its store, and all of this happens.
fn restarts(alloc: Global, one: &mut EchoHost, storage: MemoryStorage) -> bool {
    match start(alloc, 2, storage) {
        Ok(mut two) => catches_up(alloc, one, &mut two),
        Err(_) => false,
    }
}

/// Starts two hosts. Whether they deliver, sync and restart.
fn run_hosts(alloc: Global) -> bool {
    let one = start(alloc, 1, MemoryStorage::new(alloc));
    let two = start(alloc, 2, MemoryStorage::new(alloc));
    match (one, two) {
        (Ok(mut one), Ok(mut two)) => {
            delivers(alloc, &mut one, &mut two)
                && syncs(alloc, &mut one, &mut two)
                && restarts(alloc, &mut one, two.into_storage())
        }
        _ => false,
    }
}

#[test]
fn hosts_deliver_sync_and_restart(rt: HostRuntime) {
    assert!(rt; run_hosts(rt.alloc()));
}

/// Whether a follower's first message is rejected by a host with another number.
fn rejects_others(alloc: Global, one: &mut EchoHost, messages: &Messages<EchoCall>) -> bool {
    match find(messages, 0) {
        Some(message) => {
            let outcome = one.receive_and_store(alloc, &QUORUMS, message);
            message.addressee == 2
                && matches!(outcome, Err(ReceiveFault::Host(HostFault::NoServer)))
        }
        None => false,
    }
}

/// Whether a host that follows host 2 rejects the message that it sends to host 2.
fn rejects_own(alloc: Global, one: &mut EchoHost) -> bool {
    if one.follow(alloc, &QUORUMS, 2).is_err() {
        return false;
    }
    match one.release(alloc) {
        Ok(messages) => rejects_others(alloc, one, &messages),
        Err(_) => false,
    }
}

/// Whether a host that has no leader rejects inputs.
fn rejects(alloc: Global, one: &mut EchoHost) -> bool {
    is_rejected(alloc, one.follow(alloc, &QUORUMS, 1), "H3")
        && is_rejected(alloc, one.follow(alloc, &QUORUMS, 0), "H3")
        && is_rejected(alloc, one.follow(alloc, &QUORUMS, 4), "H3")
        && is_rejected(
            alloc,
            one.submit(alloc, &QUORUMS, EchoCall { tag: 1 }),
            "Z5",
        )
        && is_rejected(alloc, one.sync(alloc, &QUORUMS, 1), "Z5")
        && one.outbox_len() == 0
}

/// Whether a new host rejects all of these.
fn rejects_all(alloc: Global) -> bool {
    match start(alloc, 1, MemoryStorage::new(alloc)) {
        Ok(mut one) => rejects(alloc, &mut one) && rejects_own(alloc, &mut one),
        Err(_) => false,
    }
}

#[test]
fn hosts_reject_what_is_not_for_them(rt: HostRuntime) {
    assert!(rt; rejects_all(rt.alloc()));
}

#[test]
fn phases_one_and_two_are_stored_atomically(rt: HostRuntime) {
    let commit: Body<EchoCall> = Body::Commit {
        epoch: 1,
        length: 1,
    };
    let promise: Body<EchoCall> = Body::CEpoch { promised: 1 };
    assert!(rt; is_append_only(&commit));
    assert!(rt; !is_append_only(&promise));
}

/// Whether the store of a host that delivered a call has the epoch and the entry.
fn keeps(alloc: Global, storage: &mut MemoryStorage) -> bool {
    match storage.load(alloc) {
        Ok(stable) => {
            stable.promised == 1 && stable.current == 1 && stable.history.last_zxid() == FIRST
        }
        Err(_) => false,
    }
}

/// Whether both stores have what was delivered.
fn stores(alloc: Global) -> bool {
    let one = start(alloc, 1, MemoryStorage::new(alloc));
    let two = start(alloc, 2, MemoryStorage::new(alloc));
    match (one, two) {
        (Ok(mut one), Ok(mut two)) => {
            delivers(alloc, &mut one, &mut two)
                && keeps(alloc, &mut one.into_storage())
                && keeps(alloc, &mut two.into_storage())
        }
        _ => false,
    }
}

#[test]
fn stores_outlive_their_hosts(rt: HostRuntime) {
    assert!(rt; stores(rt.alloc()));
}

#[test]
fn faults_are_displayed_by_their_codes(rt: HostRuntime) {
    let alloc = rt.alloc();
    let faults = [
        (HostFault::NoServer, "H3"),
        (HostFault::NotServing, "Z5"),
        (HostFault::EpochFull, "Z7"),
        (HostFault::NoMemory, "Z8"),
        (HostFault::OutOfOrder, "H4"),
    ];
    for (fault, text) in faults {
        assert!(rt; is_displayed(alloc, &fault, text));
        assert!(rt; is_displayed(alloc, &ReceiveFault::Host(fault), text));
    }
    let faults = [
        (StoreFault::NoMemory, "H1"),
        (StoreFault::Failed, "H2"),
        (StoreFault::BootsFull, "H7"),
    ];
    for (fault, text) in faults {
        assert!(rt; is_displayed(alloc, &ReceiveFault::Store(fault), text));
    }
}
