//! A client's session, its writes and its reads.

use crate::frames::{
    CONNECT, CONNECTED, CONNECTED_AGAIN, CREATE, CREATED, FOUND, LOOK_AND_SET, LOOKED_AND_SET, READ,
};
use crate::lone::{Lone, connect, exchanges, is_removed, restart, start};
use std::alloc::Global;
use zab_host::MemoryStorage;

/// A client opens a session, creates a node, and writes to it.
fn writes(alloc: Global, lone: &mut Lone) -> bool {
    connect(alloc, lone, 1)
        && exchanges(alloc, lone, 0, CONNECT, CONNECTED)
        && exchanges(alloc, lone, 0, CREATE, CREATED)
        && exchanges(alloc, lone, 0, LOOK_AND_SET, LOOKED_AND_SET)
}

/// Another client opens a session, and reads what the first has written.
fn reads(alloc: Global, lone: &mut Lone) -> bool {
    connect(alloc, lone, 1)
        && exchanges(alloc, lone, 0, CONNECT, CONNECTED_AGAIN)
        && exchanges(alloc, lone, 0, READ, FOUND)
}

#[test]
fn a_lone_server_keeps_what_clients_write(rt: HostRuntime) {
    let alloc = rt.alloc();
    let Some(mut lone) = start(alloc, MemoryStorage::new(alloc)) else {
        panic!(rt; "no leader");
    };
    assert!(rt; lone.is_running());
    assert!(rt; writes(alloc, &mut lone));
    let Some(mut again) = restart(alloc, lone) else {
        panic!(rt; "no leader");
    };
    assert!(rt; reads(alloc, &mut again));
}

#[test]
fn a_connection_that_is_over_is_removed(rt: HostRuntime) {
    let alloc = rt.alloc();
    let Some(mut lone) = start(alloc, MemoryStorage::new(alloc)) else {
        panic!(rt; "no leader");
    };
    assert!(rt; connect(alloc, &mut lone, 7));
    assert!(rt; is_removed(alloc, &mut lone, 0, 7));
    assert!(rt; lone.port.connections.is_empty());
}
