//! Hosts with trees: writes, reads, watches, syncs, news and restarts.

use crate::echo_hosts::is_displayed;
use crate::trios::{
    QUORUMS, SESSION, TreeHost, elect, has_news, is_behind, reads, settle, start, start_all,
    submits,
};
use std::alloc::Global;
use zab_broadcast::Caught;
use zab_epoch::Messages;
use zab_host::{HostFault, StoreFault};
use zk_host::{ReadFault, ReleaseFault};
use zk_requests::Call;

/// The first tags of host 2.
const OPEN: u64 = 0x0200_0001_0000_0000;

const CREATE: u64 = OPEN + 1;

/// The first tag of host 1.
const SET: u64 = 0x0100_0001_0000_0000;

/// `/a` as it was created by the second transaction, with `one` at time 1000.
const CREATED: &str = "ok x6f6e65 0000000100000002 0000000100000002 1000 1000 0 0 0 \
     0000000000000000 3 0 0000000100000002";

/// `/a` after the third transaction has set `two` at time 2000.
const CHANGED: &str = "ok x74776f 0000000100000002 0000000100000003 1000 2000 1 0 0 \
     0000000000000000 3 0 0000000100000002";

/// Host 2 opens a session and creates `/a`.
fn creates(alloc: Global, hosts: &mut [TreeHost]) -> bool {
    let opened = match hosts {
        [_, two, _] => submits(alloc, two, OPEN, "open 30000", 1000),
        _ => false,
    };
    if !opened || !settle(alloc, hosts) {
        return false;
    }
    let created = match hosts {
        [_, two, _] => submits(
            alloc,
            two,
            CREATE,
            "create \"/a\" \"one\" 1 31 \"world\" \"anyone\"",
            1000,
        ),
        _ => false,
    };
    created && settle(alloc, hosts)
}

/// Connections 7 and 8 watch `/a` at host 3, and 8 is closed. Then host 1 sets new content.
fn changes(alloc: Global, hosts: &mut [TreeHost]) -> bool {
    let watched = match hosts {
        [one, _, three] => {
            reads(alloc, three, 7, "get -w \"/a\"", CREATED)
                && reads(alloc, three, 8, "get -w \"/a\"", CREATED)
                && {
                    three.close_connection(8);
                    submits(alloc, one, SET, "set \"/a\" \"two\" -1", 2000)
                }
        }
        _ => false,
    };
    watched && settle(alloc, hosts)
}

/// Whether each host shows all, and has the news of its own clients alone.
fn shows(alloc: Global, hosts: &mut [TreeHost]) -> bool {
    match hosts {
        [one, two, three] => {
            reads(alloc, one, 1, "get \"/a\"", CHANGED)
                && reads(alloc, three, 7, "get \"/a\"", CHANGED)
                && two.last() == SESSION + 2
                && has_news(
                    alloc,
                    two,
                    " 200000100000000:0 200000100000001:0 100000100000000:0",
                )
                && has_news(
                    alloc,
                    three,
                    " 200000100000000:0 200000100000001:0 7 DataChanged /a 100000100000000:0",
                )
                && has_news(alloc, three, "")
                && is_behind(alloc, three, SESSION + 3, SESSION + 2)
        }
        _ => false,
    }
}

#[test]
fn hosts_show_what_was_written_and_tell_of_watches(rt: HostRuntime) {
    let alloc = rt.alloc();
    let mut hosts = start_all(alloc);
    assert!(rt; elect(alloc, &mut hosts));
    assert!(rt; creates(alloc, &mut hosts));
    assert!(rt; changes(alloc, &mut hosts));
    assert!(rt; shows(alloc, &mut hosts));
}

/// Whether a machine in the state of a host's tree has applied up to this zxid.
fn is_copied(alloc: Global, host: &TreeHost, last: i64) -> bool {
    matches!(host.machine(alloc), Ok(machine) if machine.last() == Ok(last))
}

/// Whether a host that has no messages has completed this sync, which is taken once.
fn has_synced(alloc: Global, host: &mut TreeHost, sync: Caught) -> bool {
    match host.release(alloc) {
        Ok(messages) => {
            messages.len() == 0
                && host.syncs() == [sync].as_slice()
                && host.take_syncs(alloc).as_slice() == [sync].as_slice()
                && host.syncs().is_empty()
        }
        Err(_) => false,
    }
}

/// Host 3 asks for a sync.
fn asks_sync(alloc: Global, hosts: &mut [TreeHost]) -> bool {
    let asked = match hosts {
        [_, _, three] => three.sync(alloc, &QUORUMS, 5).is_ok(),
        _ => false,
    };
    asked && settle(alloc, hosts)
}

/// Whether a sync at host 3 completes with the two entries that are delivered.
fn syncs(alloc: Global, hosts: &mut [TreeHost]) -> bool {
    let sync = Caught { tag: 5, length: 2 };
    asks_sync(alloc, hosts)
        && match hosts {
            [_, _, three] => {
                has_synced(alloc, three, sync) && is_copied(alloc, three, SESSION + 1)
            }
            _ => false,
        }
}

#[test]
fn a_sync_completes_with_what_the_leader_has_delivered(rt: HostRuntime) {
    let alloc = rt.alloc();
    let mut hosts = start_all(alloc);
    assert!(rt; elect(alloc, &mut hosts));
    assert!(rt; creates(alloc, &mut hosts));
    assert!(rt; syncs(alloc, &mut hosts));
}

/// Host 3 restarts on its store.
fn restart(alloc: Global, hosts: &mut Vec<TreeHost>) -> bool {
    let Some(three) = hosts.pop() else {
        return false;
    };
    match start(alloc, 3, three.into_storage()) {
        Ok(three) => hosts.push(three).is_ok(),
        Err(_) => false,
    }
}

/// Whether the restarted host 3 begins with an empty tree and new tags, and then follows host 1.
fn begins_again(alloc: Global, hosts: &mut [TreeHost]) -> bool {
    match hosts {
        [_, _, three] => {
            three.last() == 0
                && three.issue_tag() == Some(0x0300_0002_0000_0000)
                && reads(alloc, three, 7, "stat \"/a\"", "err -112")
                && three.follow(alloc, &QUORUMS, 1).is_ok()
        }
        _ => false,
    }
}

/// Whether host 3 shows `/a`.
fn shows_again(alloc: Global, hosts: &mut [TreeHost]) -> bool {
    match hosts {
        [_, _, three] => reads(alloc, three, 7, "get \"/a\"", CREATED),
        _ => false,
    }
}

#[test]
fn a_restarted_host_begins_with_an_empty_tree(rt: HostRuntime) {
    let alloc = rt.alloc();
    let mut hosts = start_all(alloc);
    assert!(rt; elect(alloc, &mut hosts));
    assert!(rt; creates(alloc, &mut hosts));
    assert!(rt; restart(alloc, &mut hosts));
    assert!(rt; begins_again(alloc, &mut hosts));
    assert!(rt; settle(alloc, &mut hosts));
    assert!(rt; shows_again(alloc, &mut hosts));
}

#[test]
fn faults_of_trees_are_displayed_by_their_codes(rt: HostRuntime) {
    let alloc = rt.alloc();
    let behind = ReadFault::Behind { seen: 5, last: 4 };
    assert!(rt; is_displayed(alloc, &behind, "E1 5 4"));
    assert!(rt; is_displayed(alloc, &ReadFault::NoMemory, "Z8"));
    assert!(rt; is_displayed(alloc, &ReleaseFault::Store(StoreFault::Failed), "H2"));
    assert!(rt; is_displayed(alloc, &ReleaseFault::Shrunk, "H6"));
    assert!(rt; is_displayed(alloc, &ReleaseFault::NoMemory, "Z8"));
}
