//! A connection as a real 3.8 server and kazoo 2.8 held it, by the bytes of their sockets.

use std::alloc::Global;
use std::net::{Ipv4Addr, SocketAddr};
use zk_acl::Text;
use zk_client_session::{Action, ExpectedReply, Immediate, Reply, ReplyKind};
use zk_connections::{
    Connection, Mode, OwnedNodes, Status, Taken, Word, connections_text, sessions_text, text_of,
};
use zk_frames::ConnectResponse;
use zk_path::Path;

/// kazoo's first frame, with its length.
const CONNECT: &[u8] =
    b"\0\0\0\x2d\0\0\0\0\0\0\0\0\0\0\0\0\0\0\x17\x70\0\0\0\0\0\0\0\0\0\0\0\x10\0\0\0\0\0\0\0\0\0\0\0\0\0\0\0\0\0";

/// The server's response, with its length.
const CONNECTED: &[u8] =
    b"\0\0\0\x25\0\0\0\0\0\0\x17\x70\x01\0\0\x1b\xf0\x1f\0\0\0\0\0\x10\x13\x1b\x47\x91\xa4\xca\xb2\xf9\xa9\x6b\x60\xa2\x8d\xf5\x35\x27\0";

const PASSWORD: [u8; 16] = [
    0x13, 0x1b, 0x47, 0x91, 0xa4, 0xca, 0xb2, 0xf9, 0xa9, 0x6b, 0x60, 0xa2, 0x8d, 0xf5, 0x35, 0x27,
];

/// kazoo's digest of `u:p`, with its length, and the server's reply.
const AUTH: &[u8] = b"\0\0\0\x1d\xff\xff\xff\xfc\0\0\0\x64\0\0\0\0\0\0\0\x06digest\0\0\0\x03u:p";

const AUTHENTICATED: &[u8] = b"\0\0\0\x10\xff\xff\xff\xfc\0\0\0\0\0\0\0\0\0\0\0\0";

/// The replies to two syncs of `/`, both at transaction 9.
const SYNCED: &[u8] = b"\0\0\0\x15\0\0\0\x01\0\0\0\0\0\0\0\x09\0\0\0\0\0\0\0\x01/\
      \0\0\0\x15\0\0\0\x02\0\0\0\0\0\0\0\x09\0\0\0\0\0\0\0\x01/";

/// A connection that has kazoo's session.
fn connected(alloc: Global) -> Option<Connection> {
    let mut connection = Connection::new(alloc, 7);
    connection.hear(CONNECT).ok()?;
    let Ok(Some(Taken::Connects(request))) = connection.take(alloc) else {
        return None;
    };
    let response = ConnectResponse {
        timeout: request.timeout,
        session: 0x0100_001b_f01f_0000,
        password: PASSWORD,
        read_only: Some(false),
    };
    connection.open_session(alloc, &response, 0).ok()?;
    Some(connection)
}

#[test]
fn a_session_is_opened(rt: HostRuntime) {
    let Some(mut connection) = connected(rt.alloc()) else {
        panic!(rt; "no session");
    };
    assert!(rt; connection.unsent() == CONNECTED);
    assert!(rt; connection.session() == Some(0x0100_001b_f01f_0000));
    assert!(rt; connection.number() == 7);
    connection.sent(CONNECTED.len());
    assert!(rt; connection.unsent().is_empty());
    assert!(rt; !connection.is_over());
}

#[test]
fn a_frame_is_taken_once_it_is_whole(rt: HostRuntime) {
    let Some(mut connection) = connected(rt.alloc()) else {
        panic!(rt; "no session");
    };
    connection.sent(CONNECTED.len());
    let [first, rest @ ..] = AUTH else {
        panic!(rt; "no frame");
    };
    assert!(rt; connection.hear(&[*first]).is_ok());
    assert!(rt; matches!(connection.take(rt.alloc()), Ok(None)));
    assert!(rt; connection.hear(rest).is_ok());
    assert!(rt; connection.unread_len() == 33);
    let Ok(Some(Taken::Acts(Action::Replies(immediate)))) = connection.take(rt.alloc()) else {
        panic!(rt; "no action");
    };
    assert!(rt; immediate == Immediate::Authenticated { xid: -4 });
    assert!(rt; connection.write_immediate(rt.alloc(), 9, immediate).is_ok());
    assert!(rt; connection.unsent() == AUTHENTICATED);
}

/// The reply to a sync of `/`, which has this number.
fn synced(alloc: Global, connection: &mut Connection, xid: i32, zxid: i64) -> bool {
    let Ok(path) = Text::read(alloc, "/") else {
        return false;
    };
    let expected = ExpectedReply {
        xid,
        kind: ReplyKind::Synced(path),
    };
    connection
        .write_reply(alloc, expected, Reply::CaughtUp { zxid })
        .is_ok()
}

/// The second reply comes of what its server knew earlier; a client remembers the last header.
#[test]
fn headers_never_fall(rt: HostRuntime) {
    let Some(mut connection) = connected(rt.alloc()) else {
        panic!(rt; "no session");
    };
    connection.sent(CONNECTED.len());
    assert!(rt; synced(rt.alloc(), &mut connection, 1, 9));
    assert!(rt; synced(rt.alloc(), &mut connection, 2, 8));
    assert!(rt; connection.unsent() == SYNCED);
}

#[test]
fn a_connection_that_is_cut_off_is_written_nothing(rt: HostRuntime) {
    let Some(mut connection) = connected(rt.alloc()) else {
        panic!(rt; "no session");
    };
    assert!(rt; !connection.may_open());
    connection.cut_off();
    assert!(rt; synced(rt.alloc(), &mut connection, 1, 9));
    assert!(rt; connection.unsent().is_empty());
    assert!(rt; connection.is_over());
}

#[test]
fn an_expired_session_is_rejected(rt: HostRuntime) {
    let mut connection = Connection::new(rt.alloc(), 1);
    assert!(rt; connection.is_new());
    assert!(rt; connection.wants_input());
    assert!(rt; connection.reject_session(rt.alloc(), None).is_ok());
    assert!(rt; connection.unsent().len() == 40);
    assert!(rt; !connection.is_slow());
    assert!(rt; connection.is_closing());
    assert!(rt; !connection.wants_input());
    connection.cut_off();
    assert!(rt; connection.is_over());
    assert!(rt; !connection.is_clogged());
}

#[test]
fn words_have_their_replies(rt: HostRuntime) {
    let status = Status {
        mode: Mode::Leader,
        last: 0x1_0000_0002,
        nodes: 5,
        connections: 1,
        outstanding: 0,
    };
    let mut connection = Connection::new(rt.alloc(), 1);
    assert!(rt; connection.hear(b"srvr").is_ok());
    let Ok(Some(Taken::Word(word))) = connection.take(rt.alloc()) else {
        panic!(rt; "no word");
    };
    assert!(rt; word == Word::Srvr);
    let Ok(Some(text)) = text_of(rt.alloc(), word, &status) else {
        panic!(rt; "no text");
    };
    assert!(rt;
        text.as_str()
            == "Zookeeper version: 3.4\nConnections: 1\nOutstanding: 0\nZxid: 0x100000002\nMode: leader\nNode count: 5\n"
    );
    assert!(rt; connection.write_text(text.as_str()).is_ok());
    assert!(rt; connection.unsent() == text.as_str().as_bytes());
}

/// A client that has sent `cons` waits for a list.
#[test]
fn a_list_is_awaited(rt: HostRuntime) {
    let mut connection = Connection::new(rt.alloc(), 1);
    connection.await_listing(Word::Cons);
    assert!(rt; connection.listing() == Some(Word::Cons));
    connection.close();
    assert!(rt; connection.listing().is_none());
}

/// The connection of a client at this port.
fn connected_from(alloc: Global, port: u16) -> Option<Connection> {
    let mut connection = connected(alloc)?;
    connection.set_peer(SocketAddr::from((Ipv4Addr::LOCALHOST, port)));
    Some(connection)
}

/// As a 3.8 server writes them, without its counts of packets and its latencies.
#[test]
fn connections_are_listed(rt: HostRuntime) {
    let Some(connection) = connected_from(rt.alloc(), 45576) else {
        panic!(rt; "no session");
    };
    let connections = [connection, Connection::new(rt.alloc(), 8)];
    let Ok(text) = connections_text(rt.alloc(), &connections) else {
        panic!(rt; "no text");
    };
    assert!(rt; text.as_str() == " /127.0.0.1:45576[1](sid=0x100001bf01f0000)\n /unknown[1]()\n\n");
}

/// As a 3.8 follower writes them, without the times at which connections expire.
#[test]
fn sessions_are_listed(rt: HostRuntime) {
    let Some(connection) = connected_from(rt.alloc(), 45576) else {
        panic!(rt; "no session");
    };
    let Ok(path) = Path::read(rt.alloc(), "/e1") else {
        panic!(rt; "no path");
    };
    let mut paths = Vec::new(rt.alloc());
    assert!(rt; paths.push(path).is_ok());
    let session = 0x0100_001b_f01f_0000;
    let owned = [OwnedNodes { session, paths }];
    let sessions = [(session, 6000)];
    let Ok(text) = sessions_text(rt.alloc(), &[connection], &sessions, &owned) else {
        panic!(rt; "no text");
    };
    assert!(rt;
        text.as_str()
            == "SessionTracker dump:\nGlobal Sessions(1):\n0x100001bf01f0000\t6000ms\nephemeral nodes dump:\nSessions with Ephemerals (1):\n0x100001bf01f0000:\n\t/e1\nConnections dump:\n\tip: /127.0.0.1:45576 sessionId: 0x100001bf01f0000\n"
    );
}
