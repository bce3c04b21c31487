//! Replies, watch events and connect responses, as a real ZooKeeper 3.8 server sends them to kazoo
//! and to ZooKeeper's command line.

use crate::reply_tests::Body::{
    Acl, Children, ChildrenAndStat, Count, Data, Done, Empty, Failed, Found, Path, PathAndStat,
};
use std::alloc::Global;
use zk_acl::{Acls, Id, Stat, Text};
use zk_frames::{
    ClientReply, ConnectResponse, MultiResult, MultiResults, ReplyBody, WatcherEvent,
    write_connect_response, write_event, write_reply,
};
use zk_path::NoMemory;
use zk_table::{Content, Names};

/// `/f2`, just created.
const CREATED: Stat = Stat {
    czxid: 4,
    mzxid: 4,
    ctime: 1_795_834_326_290,
    mtime: 1_795_834_326_290,
    version: 0,
    cversion: 0,
    aversion: 0,
    ephemeral_owner: 0,
    data_length: 1,
    num_children: 0,
    pzxid: 4,
};

/// `/f`, with a child.
const FOUND: Stat = Stat {
    czxid: 2,
    mzxid: 2,
    ctime: 1_795_834_326_042,
    mtime: 1_795_834_326_042,
    version: 0,
    cversion: 1,
    aversion: 0,
    ephemeral_owner: 0,
    data_length: 3,
    num_children: 1,
    pzxid: 3,
};

/// `/f`, after its content was set.
const CHANGED: Stat = Stat {
    czxid: 2,
    mzxid: 5,
    ctime: 1_795_834_326_042,
    mtime: 1_795_834_326_347,
    version: 1,
    cversion: 1,
    aversion: 0,
    ephemeral_owner: 0,
    data_length: 3,
    num_children: 1,
    pzxid: 3,
};

/// `/m`, created and set by one multi.
const SET: Stat = Stat {
    czxid: 7,
    mzxid: 7,
    ctime: 1_795_834_326_503,
    mtime: 1_795_834_326_503,
    version: 1,
    cversion: 0,
    aversion: 0,
    ephemeral_owner: 0,
    data_length: 1,
    num_children: 0,
    pzxid: 7,
};

/// What a reply says.
enum Body {
    Empty,
    Path(&'static str),
    PathAndStat(&'static str, Stat),
    Found(Stat),
    Data(&'static [u8], Stat),
    Acl(Stat),
    Children(&'static str),
    ChildrenAndStat(&'static str, Stat),
    Count(i32),
    Done,
    Failed,
}

/// The header's number, transaction and error, the body, and the contents of the frame.
static REPLIES: [(i32, i64, i32, Body, &[u8]); 12] = [
    // of a create
    (
        1,
        2,
        0,
        Path("/f"),
        b"\0\0\0\x01\0\0\0\0\0\0\0\x02\0\0\0\0\0\0\0\x02/f",
    ),
    // of a create2
    (
        3,
        4,
        0,
        PathAndStat("/f2", CREATED),
        b"\0\0\0\x03\0\0\0\0\0\0\0\x04\0\0\0\0\0\0\0\x03/f2\0\0\0\0\0\0\0\x04\0\0\0\0\0\0\0\x04\
            \0\0\x01\xa2 \x11-\x12\0\0\x01\xa2 \x11-\x12\0\0\0\0\0\0\0\0\0\0\0\0\0\0\0\0\0\0\0\0\0\
            \0\0\x01\0\0\0\0\0\0\0\0\0\0\0\x04",
    ),
    // of an exists
    (
        4,
        4,
        0,
        Found(FOUND),
        b"\0\0\0\x04\0\0\0\0\0\0\0\x04\0\0\0\0\0\0\0\0\0\0\0\x02\0\0\0\0\0\0\0\x02\0\0\x01\xa2 \
            \x11,\x1a\0\0\x01\xa2 \x11,\x1a\0\0\0\0\0\0\0\x01\0\0\0\0\0\0\0\0\0\0\0\0\0\0\0\x03\0\
            \0\0\x01\0\0\0\0\0\0\0\x03",
    ),
    // of an exists that finds no node
    (
        5,
        4,
        -101,
        Empty,
        b"\0\0\0\x05\0\0\0\0\0\0\0\x04\xff\xff\xff\x9b",
    ),
    // of a getData
    (
        6,
        4,
        0,
        Data(b"abc", FOUND),
        b"\0\0\0\x06\0\0\0\0\0\0\0\x04\0\0\0\0\0\0\0\x03abc\0\0\0\0\0\0\0\x02\0\0\0\0\0\0\0\x02\
            \0\0\x01\xa2 \x11,\x1a\0\0\x01\xa2 \x11,\x1a\0\0\0\0\0\0\0\x01\0\0\0\0\0\0\0\0\0\0\0\0\
            \0\0\0\x03\0\0\0\x01\0\0\0\0\0\0\0\x03",
    ),
    // of a getChildren
    (
        8,
        5,
        0,
        Children("q-0000000000"),
        b"\0\0\0\x08\0\0\0\0\0\0\0\x05\0\0\0\0\0\0\0\x01\0\0\0\x0cq-0000000000",
    ),
    // of a getChildren2
    (
        9,
        5,
        0,
        ChildrenAndStat("q-0000000000", CHANGED),
        b"\0\0\0\x09\0\0\0\0\0\0\0\x05\0\0\0\0\0\0\0\x01\0\0\0\x0cq-0000000000\0\0\0\0\0\0\0\x02\
            \0\0\0\0\0\0\0\x05\0\0\x01\xa2 \x11,\x1a\0\0\x01\xa2 \x11-K\0\0\0\x01\0\0\0\x01\0\0\0\
            \0\0\0\0\0\0\0\0\0\0\0\0\x03\0\0\0\x01\0\0\0\0\0\0\0\x03",
    ),
    // of a getACL
    (
        10,
        5,
        0,
        Acl(CHANGED),
        b"\0\0\0\x0a\0\0\0\0\0\0\0\x05\0\0\0\0\0\0\0\x01\0\0\0\x1f\0\0\0\x05world\0\0\0\x06anyon\
            e\0\0\0\0\0\0\0\x02\0\0\0\0\0\0\0\x05\0\0\x01\xa2 \x11,\x1a\0\0\x01\xa2 \x11-K\0\0\0\
            \x01\0\0\0\x01\0\0\0\0\0\0\0\0\0\0\0\0\0\0\0\x03\0\0\0\x01\0\0\0\0\0\0\0\x03",
    ),
    // of a getAllChildrenNumber
    (
        7,
        13,
        0,
        Count(1),
        b"\0\0\0\x07\0\0\0\0\0\0\0\x0d\0\0\0\0\0\0\0\x01",
    ),
    // of a multi
    (
        14,
        7,
        0,
        Done,
        b"\0\0\0\x0e\0\0\0\0\0\0\0\x07\0\0\0\0\0\0\0\x01\0\0\0\0\0\0\0\0\x02/m\0\0\0\x05\0\0\0\0\
            \0\0\0\0\0\0\0\0\x07\0\0\0\0\0\0\0\x07\0\0\x01\xa2 \x11-\xe7\0\0\x01\xa2 \x11-\xe7\0\0\
            \0\x01\0\0\0\0\0\0\0\0\0\0\0\0\0\0\0\0\0\0\0\x01\0\0\0\0\0\0\0\0\0\0\0\x07\0\0\0\x0d\0\
            \0\0\0\0\0\0\0\x02\0\0\0\0\0\xff\xff\xff\xff\x01\xff\xff\xff\xff",
    ),
    // of a multi that fails
    (
        15,
        8,
        0,
        Failed,
        b"\0\0\0\x0f\0\0\0\0\0\0\0\x08\0\0\0\0\xff\xff\xff\xff\0\0\0\0\0\0\0\0\0\xff\xff\xff\xff\
            \0\xff\xff\xff\x99\xff\xff\xff\x99\xff\xff\xff\xff\0\xff\xff\xff\xfe\xff\xff\xff\xfe\
            \xff\xff\xff\xff\x01\xff\xff\xff\xff",
    ),
    // of a delete
    (16, 9, 0, Empty, b"\0\0\0\x10\0\0\0\0\0\0\0\x09\0\0\0\0"),
];

fn names(alloc: Global, name: &str) -> Result<Names, NoMemory> {
    let mut texts = Vec::new(alloc);
    texts.push(Text::read(alloc, name)?)?;
    Ok(Names::new(texts))
}

fn anyone(alloc: Global) -> Result<Acls, NoMemory> {
    let mut entries = Vec::new(alloc);
    entries.push(zk_acl::Acl {
        perms: 31,
        id: Id {
            scheme: Text::read(alloc, "world")?,
            id: Text::read(alloc, "anyone")?,
        },
    })?;
    Acls::new(alloc, entries)
}

fn done(alloc: Global) -> Result<MultiResults, NoMemory> {
    let mut results = Vec::new(alloc);
    results.push(MultiResult::Create(Text::read(alloc, "/m")?))?;
    results.push(MultiResult::SetData(SET))?;
    results.push(MultiResult::Check)?;
    results.push(MultiResult::Delete)?;
    Ok(MultiResults::new(results))
}

fn failed(alloc: Global) -> Result<MultiResults, NoMemory> {
    let mut results = Vec::new(alloc);
    for err in [0, -103, -2] {
        results.push(MultiResult::Error(err))?;
    }
    Ok(MultiResults::new(results))
}

fn content(alloc: Global, bytes: &[u8]) -> Result<Option<Content>, NoMemory> {
    Ok(Some(Content::read(alloc, bytes)?))
}

fn body_of(alloc: Global, body: &Body) -> Result<ReplyBody, NoMemory> {
    match body {
        Empty => Ok(ReplyBody::Empty),
        Path(path) => Ok(ReplyBody::Path(Text::read(alloc, path)?)),
        PathAndStat(path, stat) => Ok(ReplyBody::PathAndStat {
            path: Text::read(alloc, path)?,
            stat: *stat,
        }),
        Found(stat) => Ok(ReplyBody::Stat(*stat)),
        Data(bytes, stat) => Ok(ReplyBody::Data {
            content: content(alloc, bytes)?,
            stat: *stat,
        }),
        Acl(stat) => Ok(ReplyBody::Acl {
            acl: anyone(alloc)?,
            stat: *stat,
        }),
        Children(name) => Ok(ReplyBody::Children(names(alloc, name)?)),
        ChildrenAndStat(name, stat) => Ok(ReplyBody::ChildrenAndStat {
            children: names(alloc, name)?,
            stat: *stat,
        }),
        Count(count) => Ok(ReplyBody::Count(*count)),
        Done => Ok(ReplyBody::Multi(done(alloc)?)),
        Failed => Ok(ReplyBody::Multi(failed(alloc)?)),
    }
}

/// Whether `frame` is a frame with these contents.
fn is_frame(frame: &[u8], contents: &[u8]) -> bool {
    match frame.split_first_chunk::<4>() {
        Some((length, rest)) => {
            u32::from_be_bytes(*length) as usize == contents.len() && rest == contents
        }
        None => false,
    }
}

/// Whether a reply is written as these bytes.
fn is_written(alloc: Global, xid: i32, zxid: i64, err: i32, body: &Body, bytes: &[u8]) -> bool {
    let Ok(body) = body_of(alloc, body) else {
        return false;
    };
    let reply = ClientReply {
        xid,
        zxid,
        err,
        body,
    };
    let mut out = Vec::new(alloc);
    write_reply(&mut out, &reply).is_ok() && is_frame(out.as_slice(), bytes)
}

#[test]
fn replies_are_those_of_a_real_server(rt: HostRuntime) {
    for (xid, zxid, err, body, bytes) in &REPLIES {
        assert!(rt;
            is_written(rt.alloc(), *xid, *zxid, *err, body, bytes),
            "{xid}"
        );
    }
}

/// A change of `/f`'s content.
static EVENT: &[u8] =
    b"\xff\xff\xff\xff\xff\xff\xff\xff\xff\xff\xff\xff\0\0\0\0\0\0\0\x03\0\0\0\x03\0\0\0\x02/f";

fn event(alloc: Global) -> Option<Vec<u8>> {
    let event = WatcherEvent {
        kind: 3,
        path: Text::read(alloc, "/f").ok()?,
    };
    let mut out = Vec::new(alloc);
    write_event(&mut out, &event).ok()?;
    Some(out)
}

#[test]
fn events_are_those_of_a_real_server(rt: HostRuntime) {
    let out = event(rt.alloc()).expect(&rt, "memory");
    assert!(rt; is_frame(out.as_slice(), EVENT));
}

/// The session of kazoo.
static RESPONSE: &[u8] =
    b"\0\0\0\0\0\0\x17p\x01\0\0\x1b\xf0\x1f\0\0\0\0\0\x10\x13\x1bG\x91\xa4\xca\xb2\xf9\
    \xa9k`\xa2\x8d\xf55'\0";

const PASSWORD: [u8; 16] = *b"\x13\x1bG\x91\xa4\xca\xb2\xf9\xa9k`\xa2\x8d\xf55'";

fn response(alloc: Global, read_only: Option<bool>) -> Option<Vec<u8>> {
    let response = ConnectResponse {
        timeout: 6000,
        session: 0x100_001b_f01f_0000,
        password: PASSWORD,
        read_only,
    };
    let mut out = Vec::new(alloc);
    write_connect_response(&mut out, &response).ok()?;
    Some(out)
}

#[test]
fn connect_responses_are_those_of_a_real_server(rt: HostRuntime) {
    let out = response(rt.alloc(), Some(false)).expect(&rt, "memory");
    assert!(rt; is_frame(out.as_slice(), RESPONSE));
    let out = response(rt.alloc(), None).expect(&rt, "memory");
    assert!(rt; is_frame(out.as_slice(), &RESPONSE[..36]));
}
