//! Requests and replies, as a ZooKeeper 3.8.0 server replied.

use crate::traffic::{
    AUTH, AUTH_REPLY, CHANGED_EVENT, CLOSE, CLOSE_REPLY, COUNT, COUNT_REPLY, CREATE, CREATE_REPLY,
    CREATE2, CREATE2_REPLY, EPHEMERALS, EPHEMERALS_REPLY, FAILED_MULTI, FAILED_MULTI_REPLY,
    GET_CHILDREN, GET_CHILDREN_REPLY, GET_DATA, GET_DATA_REPLY, MULTI, MULTI_REPLY, NO_NODE,
    NO_NODE_REPLY, PING, PING_REPLY, REMOVE_WATCHES, REMOVE_WATCHES_REPLY, SYNC, SYNC_REPLY,
};
use std::alloc::Global;
use zk_acl::{Stat, Text};
use zk_client_session::{Action, ExpectedReply, Link, Reply};
use zk_machine::ChangeKind;
use zk_path::Path;
use zk_table::{Content, Names, PartResult, PartResults, ReadReply, TxnResult};

/// The stat of `/f` once it has content `abc` and one child.
const STAT: Stat = Stat {
    czxid: 2,
    mzxid: 2,
    ctime: 0x1a2_2011_2c1a,
    mtime: 0x1a2_2011_2c1a,
    version: 0,
    cversion: 1,
    aversion: 0,
    ephemeral_owner: 0,
    data_length: 3,
    num_children: 1,
    pzxid: 3,
};

/// The stat of `/m` after its part of the multi.
const SET: Stat = Stat {
    czxid: 7,
    mzxid: 7,
    ctime: 0x1a2_2011_2de7,
    mtime: 0x1a2_2011_2de7,
    version: 1,
    cversion: 0,
    aversion: 0,
    ephemeral_owner: 0,
    data_length: 1,
    num_children: 0,
    pzxid: 7,
};

fn expected_by(alloc: Global, link: &mut Link, frame: &[u8]) -> Option<ExpectedReply> {
    match link.take(alloc, frame) {
        Ok(Action::Asks { ask: _, expected }) => Some(expected),
        _ => None,
    }
}

/// Whether a request expects a reply, and the service's reply has these bytes.
fn is_exchanged(alloc: Global, frame: &[u8], reply: Reply, bytes: &[u8]) -> bool {
    let mut link = Link::new(alloc, 7, 0);
    let mut out = Vec::new(alloc);
    match expected_by(alloc, &mut link, frame) {
        Some(expected) => {
            link.tell(alloc, &mut out, expected, reply).is_ok() && out.as_slice() == bytes
        }
        None => false,
    }
}

/// Whether a request has an immediate reply with these bytes, at transaction 9.
fn is_immediate(alloc: Global, frame: &[u8], bytes: &[u8]) -> bool {
    let mut link = Link::new(alloc, 7, 0);
    let mut out = Vec::new(alloc);
    match link.take(alloc, frame) {
        Ok(Action::Replies(immediate)) => {
            link.reply(&mut out, 9, immediate).is_ok()
                && out.as_slice() == bytes
                && !immediate.closes()
                && link.seen() == 9
                && link.session() == 7
        }
        _ => false,
    }
}

fn wrote(alloc: Global, zxid: i64, err: i32, path: &str) -> TxnResult {
    TxnResult {
        zxid,
        err,
        path: Path::read(alloc, path).ok(),
        stat: None,
        parts: PartResults::new(Vec::new(alloc)),
    }
}

fn names(alloc: Global, name: &str) -> Names {
    let mut texts = Vec::new(alloc);
    if let Ok(text) = Text::read(alloc, name) {
        let _ = texts.push(text);
    }
    Names::new(texts)
}

fn read(reply: ReadReply, zxid: i64) -> Reply {
    Reply::Read { reply, zxid }
}

fn part(alloc: Global, err: i32, stat: Option<Stat>) -> PartResult {
    let path = Path::read(alloc, "/m").ok();
    PartResult { err, path, stat }
}

/// The result of a multi with these parts.
fn wrote_parts(alloc: Global, zxid: i64, err: i32, parts: &[(i32, Option<Stat>)]) -> TxnResult {
    let mut results = Vec::new(alloc);
    for (code, stat) in parts {
        let _ = results.push(part(alloc, *code, *stat));
    }
    TxnResult {
        zxid,
        err,
        path: None,
        stat: None,
        parts: PartResults::new(results),
    }
}

fn is_created(alloc: Global) -> bool {
    let created = Reply::Wrote {
        result: wrote(alloc, 2, 0, "/f"),
        time: 0,
    };
    let created_with_stat = Reply::Wrote {
        result: wrote(alloc, 4, 0, "/f2"),
        time: 0x1a2_2011_2d12,
    };
    let closed = Reply::Wrote {
        result: wrote(alloc, 10, 0, "/"),
        time: 0,
    };
    is_exchanged(alloc, CREATE, created, CREATE_REPLY)
        && is_exchanged(alloc, CREATE2, created_with_stat, CREATE2_REPLY)
        && is_exchanged(alloc, CLOSE, closed, CLOSE_REPLY)
}

/// Whether the connection closes after the reply to a request.
fn closes(alloc: Global, frame: &[u8]) -> bool {
    let mut link = Link::new(alloc, 7, 0);
    matches!(expected_by(alloc, &mut link, frame), Some(expected) if expected.closes())
}

#[test]
fn writes_are_replied_to(rt: HostRuntime) {
    assert!(rt; is_created(rt.alloc()));
    assert!(rt; closes(rt.alloc(), CLOSE) && !closes(rt.alloc(), CREATE));
}

const DONE: &[(i32, Option<Stat>)] = &[(0, None), (0, Some(SET)), (0, None), (0, None)];

const FAILED: &[(i32, Option<Stat>)] = &[(0, None), (-103, None), (-2, None)];

#[test]
fn multis_are_replied_to(rt: HostRuntime) {
    let alloc = rt.alloc();
    let done = Reply::Wrote {
        result: wrote_parts(alloc, 7, 0, DONE),
        time: 0,
    };
    let failed = Reply::Wrote {
        result: wrote_parts(alloc, 8, -103, FAILED),
        time: 0,
    };
    assert!(rt; is_exchanged(alloc, MULTI, done, MULTI_REPLY));
    assert!(rt; is_exchanged(alloc, FAILED_MULTI, failed, FAILED_MULTI_REPLY));
}

fn data(alloc: Global) -> Reply {
    let content = Content::read(alloc, b"abc").ok();
    let reply = ReadReply::Content {
        content,
        stat: STAT,
    };
    read(reply, 4)
}

fn children(alloc: Global) -> Reply {
    let reply = ReadReply::Children {
        names: names(alloc, "q-0000000000"),
        stat: STAT,
    };
    read(reply, 5)
}

#[test]
fn reads_are_replied_to(rt: HostRuntime) {
    let alloc = rt.alloc();
    let missing = read(ReadReply::Refused(-101), 4);
    assert!(rt; is_exchanged(alloc, NO_NODE, missing, NO_NODE_REPLY));
    assert!(rt; is_exchanged(alloc, GET_DATA, data(alloc), GET_DATA_REPLY));
    assert!(rt; is_exchanged(alloc, GET_CHILDREN, children(alloc), GET_CHILDREN_REPLY));
}

/// Whether requests about the session and its watches are replied to.
fn are_others_exchanged(alloc: Global) -> bool {
    let caught_up = Reply::CaughtUp { zxid: 6 };
    let paths = Reply::Paths {
        paths: names(alloc, "/j/e"),
        zxid: 13,
    };
    let count = Reply::Count { count: 1, zxid: 13 };
    let removed = Reply::WatchesRemoved {
        found: true,
        zxid: 13,
    };
    is_exchanged(alloc, SYNC, caught_up, SYNC_REPLY)
        && is_exchanged(alloc, EPHEMERALS, paths, EPHEMERALS_REPLY)
        && is_exchanged(alloc, COUNT, count, COUNT_REPLY)
        && is_exchanged(alloc, REMOVE_WATCHES, removed, REMOVE_WATCHES_REPLY)
}

#[test]
fn others_are_replied_to(rt: HostRuntime) {
    assert!(rt; are_others_exchanged(rt.alloc()));
}

#[test]
fn some_replies_are_immediate(rt: HostRuntime) {
    assert!(rt; is_immediate(rt.alloc(), PING, PING_REPLY));
    assert!(rt; is_immediate(rt.alloc(), AUTH, AUTH_REPLY));
}

/// Whether the event of a watch has these bytes.
fn is_notified(alloc: Global, kind: ChangeKind, path: &str, bytes: &[u8]) -> bool {
    let link = Link::new(alloc, 7, 0);
    let mut out = Vec::new(alloc);
    link.notify(alloc, &mut out, kind, path).is_ok() && out.as_slice() == bytes
}

#[test]
fn events_are_sent(rt: HostRuntime) {
    assert!(rt; is_notified(rt.alloc(), ChangeKind::DataChanged, "/f", CHANGED_EVENT));
}
