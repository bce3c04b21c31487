//! What a server does with one connection: a read, a four-letter word, a list.

use crate::frames::{CONNECT, CONNECTED, DUMPED};
use crate::pairs::{LEADER, Pair, connect, is_sent, sends, start};
use std::alloc::Global;
use std::net::{Ipv4Addr, SocketAddr};
use zk_acl::Ids;
use zk_client_session::{Ask, Reply};
use zk_connections::Connection;
use zk_hub::reply_to;
use zk_path::Path;
use zk_peers::Place;
use zk_table::{ReadCall, ReadReply};

/// The first session has the number of the first transaction.
const SESSION: i64 = 0x1_0000_0001;

/// ZooKeeper's code for a node that does not exist.
const NO_NODE: i32 = -101;

/// A session's read of whether a node exists.
fn existence(alloc: Global, path: Path) -> Ask {
    Ask::Read {
        session: SESSION,
        seen: SESSION,
        auths: Ids::new(Vec::new(alloc)),
        call: ReadCall::Exists { path },
        watch: false,
    }
}

/// A client opens the session.
fn opens(pair: &mut Pair) -> bool {
    connects_from(pair, 0, 45576) && sends(pair, 0, CONNECT) && is_sent(pair, 0, CONNECTED)
}

/// Whether the leader finds no node at a path.
fn finds_none(pair: &mut Pair, path: Path) -> bool {
    let mut connection = Connection::new(pair.alloc, 5);
    let ask = existence(pair.alloc, path);
    let Some(Place::Up(host)) = pair.peers.place_mut(LEADER) else {
        return false;
    };
    let _ = host.take_news();
    let reply = reply_to(pair.alloc, host, LEADER, &mut connection, ask);
    matches!(&reply, Ok(Reply::Read { reply: ReadReply::Refused(code), zxid: SESSION }) if *code == NO_NODE)
}

#[test]
fn a_read_of_no_node_is_rejected(rt: HostRuntime) {
    let Some(mut pair) = start(rt.alloc()) else {
        panic!(rt; "no leader");
    };
    let Ok(path) = Path::read(rt.alloc(), "/none") else {
        panic!(rt; "no path");
    };
    assert!(rt; opens(&mut pair));
    assert!(rt; finds_none(&mut pair, path));
}

/// Whether a client that sends `ruok` is sent `imok`.
fn is_ok(pair: &mut Pair) -> bool {
    connect(pair) && sends(pair, 0, b"ruok") && is_sent(pair, 0, b"imok")
}

#[test]
fn a_word_has_its_reply(rt: HostRuntime) {
    let Some(mut pair) = start(rt.alloc()) else {
        panic!(rt; "no leader");
    };
    assert!(rt; is_ok(&mut pair));
}

/// A client connects from a port.
fn connects_from(pair: &mut Pair, index: usize, port: u16) -> bool {
    if !connect(pair) {
        return false;
    }
    match pair.port.connections.get_mut(index) {
        Some(connection) => {
            connection.set_peer(SocketAddr::from((Ipv4Addr::LOCALHOST, port)));
            true
        }
        None => false,
    }
}

/// Writes the lists that connections of the leader await.
fn writes_lists(pair: &mut Pair) -> bool {
    match pair.peers.host(LEADER) {
        Some(host) => pair.port.write_listings(pair.alloc, host).is_ok(),
        None => false,
    }
}

/// Whether a client is sent the list of sessions.
fn lists(pair: &mut Pair) -> bool {
    opens(pair)
        && connects_from(pair, 1, 45578)
        && sends(pair, 1, b"dump")
        && writes_lists(pair)
        && is_sent(pair, 1, DUMPED)
}

#[test]
fn a_list_is_written(rt: HostRuntime) {
    let Some(mut pair) = start(rt.alloc()) else {
        panic!(rt; "no leader");
    };
    assert!(rt; lists(&mut pair));
}
