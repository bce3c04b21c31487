//! A client's session, from its first frame to its last.

use crate::frames::{
    CLOSE, CLOSED, CONNECT, CONNECTED, CREATE, CREATED, IMPOSTOR, LOOK_AND_SET, LOOKED_AND_SET,
    PING, PINGED, RECONNECT, REJECTED, SYNC, SYNCED,
};
use crate::pairs::{
    Pair, connect, hears, is_sent, sends, settle, settle_until_written, start, turn,
};
use zk_client_port::{ClientPort, Selection};
use zk_connections::Connection;

/// The session of the first transaction.
const SESSION: i64 = 0x1_0000_0001;

/// Whether a client gets a session.
fn opens(pair: &mut Pair) -> bool {
    connect(pair) && sends(pair, 0, CONNECT) && is_sent(pair, 0, CONNECTED)
}

/// Whether replies have the order of requests, an event is sent before the reply to its write, and
/// a read finds the write before it.
fn writes(pair: &mut Pair) -> bool {
    sends(pair, 0, CREATE)
        && is_sent(pair, 0, CREATED)
        && sends(pair, 0, LOOK_AND_SET)
        && is_sent(pair, 0, LOOKED_AND_SET)
        && sends(pair, 0, PING)
        && is_sent(pair, 0, PINGED)
}

/// The connection that has the session.
fn holder(pair: &Pair) -> Option<u64> {
    pair.admission.sessions.session(SESSION)?.connection
}

/// Whether a client that knows the password gets the session, and one that does not gets none.
fn moves(pair: &mut Pair) -> bool {
    holder(pair) == Some(0)
        && connect(pair)
        && sends(pair, 1, RECONNECT)
        && is_sent(pair, 1, CONNECTED)
        && holder(pair) == Some(1)
        && connect(pair)
        && sends(pair, 2, IMPOSTOR)
        && is_sent(pair, 2, REJECTED)
        && holder(pair) == Some(1)
}

/// Whether the session ends, and the connections that are over are removed.
fn closes(pair: &mut Pair) -> bool {
    sends(pair, 1, CLOSE)
        && is_sent(pair, 1, CLOSED)
        && holder(pair).is_none()
        && pair.port.outstanding() == 0
        && matches!(pair.port.remove_over(pair.alloc, &mut pair.admission),
            Ok(over) if over.as_slice() == [0, 1, 2].as_slice())
        && pair.port.connections.is_empty()
}

#[test]
fn a_client_has_a_session(rt: HostRuntime) {
    let Some(mut pair) = start(rt.alloc()) else {
        panic!(rt; "no leader");
    };
    assert!(rt; opens(&mut pair));
    assert!(rt; writes(&mut pair));
    assert!(rt; moves(&mut pair));
    assert!(rt; closes(&mut pair));
}

/// Whether a client that sends a create and a sync at once gets both replies with one zxid.
fn syncs(pair: &mut Pair) -> bool {
    hears(pair, 0, CREATE)
        && hears(pair, 0, SYNC)
        && settle(pair)
        && is_sent_both(pair, 0, CREATED, SYNCED)
}

/// Whether a connection's client is sent these bytes, and then those.
fn is_sent_both(pair: &mut Pair, index: usize, first: &[u8], then: &[u8]) -> bool {
    let Some(connection) = pair.port.connections.get_mut(index) else {
        return false;
    };
    if !connection.unsent().starts_with(first) {
        return false;
    }
    connection.sent(first.len());
    is_sent(pair, index, then)
}

#[test]
fn a_sync_after_a_write_has_its_zxid(rt: HostRuntime) {
    let Some(mut pair) = start(rt.alloc()) else {
        panic!(rt; "no leader");
    };
    assert!(rt; opens(&mut pair));
    assert!(rt; syncs(&mut pair));
}

/// Whether the connection that the session moves to has its response, and a create of its client is
/// in flight.
fn moves_and_creates(pair: &mut Pair) -> bool {
    connect(pair)
        && hears(pair, 1, RECONNECT)
        && hears(pair, 1, CREATE)
        && settle_until_written(pair, 1)
        && holder(pair) == Some(1)
        && pair.port.outstanding() == 1
}

/// Whether the second connection is sent nothing, and is over.
fn is_sent_nothing(pair: &mut Pair) -> bool {
    settle(pair)
        && is_sent(pair, 1, b"")
        && matches!(pair.port.connections.get(1), Some(connection) if connection.is_over())
}

/// Another connection gets the session meanwhile: the response is dropped, and so is the reply.
#[test]
fn no_reply_follows_a_response_that_was_dropped(rt: HostRuntime) {
    let Some(mut pair) = start(rt.alloc()) else {
        panic!(rt; "no leader");
    };
    assert!(rt; opens(&mut pair));
    assert!(rt; moves_and_creates(&mut pair));
    pair.port.cut_off(Selection::Number(1));
    assert!(rt; is_sent_nothing(&mut pair));
}

/// A connection that waits for the session is cut off.
fn waits_for_the_session(pair: &mut Pair) -> bool {
    connect(pair) && hears(pair, 1, RECONNECT)
}

/// It takes the session from no other.
#[test]
fn a_connection_that_closes_gets_no_session(rt: HostRuntime) {
    let Some(mut pair) = start(rt.alloc()) else {
        panic!(rt; "no leader");
    };
    assert!(rt; opens(&mut pair));
    assert!(rt; waits_for_the_session(&mut pair));
    let _ = turn(&mut pair);
    assert!(rt; pair.port.outstanding() == 1);
    pair.port.cut_off(Selection::Number(1));
    assert!(rt; is_sent_nothing(&mut pair));
    assert!(rt; holder(&pair) == Some(0));
}

/// Whether the first connection that a port has is over.
fn is_over(port: &ClientPort) -> bool {
    matches!(port.connections.first(), Some(connection) if connection.is_over())
}

#[test]
fn connections_are_cut_off(rt: HostRuntime) {
    let mut port = ClientPort::new(rt.alloc());
    assert!(rt;
        port.connections
            .push(Connection::new(rt.alloc(), 3))
            .is_ok()
    );
    port.cut_off(Selection::Served);
    port.cut_off(Selection::Number(4));
    assert!(rt; !is_over(&port));
    port.cut_off(Selection::Number(3));
    assert!(rt; is_over(&port));
}
