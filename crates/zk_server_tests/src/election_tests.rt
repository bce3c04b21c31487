//! Elections.

use crate::trio::start;
use zk_server::Arrival;

#[test]
fn a_lone_server_leads_at_once(rt: HostRuntime) {
    let alloc = rt.alloc();
    let Some(mut trio) = start(alloc, 1) else {
        return;
    };
    assert!(rt; trio.round().is_some());
    assert!(rt; trio.leaders().as_slice() == [1usize].as_slice());
}

#[test]
fn three_servers_follow_one_leader(rt: HostRuntime) {
    let alloc = rt.alloc();
    let Some(mut trio) = start(alloc, 3) else {
        return;
    };
    assert!(rt; trio.rounds(12).is_some());
    let leaders = trio.leaders();
    let leader = leaders.as_slice().first().copied().unwrap_or(0);
    assert!(rt; leader != 0);
    assert!(rt; leaders.as_slice() == [leader, leader, leader].as_slice());
}

#[test]
fn a_leader_without_a_quorum_is_replaced(rt: HostRuntime) {
    let alloc = rt.alloc();
    let Some(mut trio) = start(alloc, 3) else {
        return;
    };
    assert!(rt; trio.rounds(12).is_some());
    let leader = trio.leaders().as_slice().first().copied().unwrap_or(0);
    assert!(rt; trio.cut_off(leader).is_some());
    assert!(rt; trio.rounds(12).is_some());
    let leaders = trio.leaders();
    let mut named = 0usize;
    for index in 0..3usize {
        if index.saturating_add(1) != leader {
            let at = leaders.as_slice().get(index).copied().unwrap_or(0);
            assert!(rt; at != 0 && at != leader);
            assert!(rt; named == 0 || named == at);
            named = at;
        } else {
            assert!(rt; leaders.as_slice().get(index).copied() == Some(0));
        }
    }
}

#[test]
fn an_operator_makes_a_server_lead(rt: HostRuntime) {
    let alloc = rt.alloc();
    let Some(mut trio) = start(alloc, 3) else {
        return;
    };
    assert!(rt; trio.rounds(12).is_some());
    let Some(waiting) = trio.waiting.get_mut(0) else {
        return;
    };
    assert!(rt; waiting.push(Arrival::Lead).is_ok());
    assert!(rt; trio.rounds(12).is_some());
    assert!(rt; trio.leaders().as_slice() == [1usize, 1, 1].as_slice());
}
