//! Requests, as kazoo 2.8 and ZooKeeper's command line 3.8 send them to a real server.

use std::alloc::Global;
use zk_acl::{Acl, Acls, Text};
use zk_frames::RequestFault::{Body, Header, Type};
use zk_frames::{
    AclRecord, AclRecords, ConnectRequest, CreateRequest, DeleteRequest, MultiPart, MultiParts,
    RequestBody, RequestFault, SetWatches, read_connect_request, read_request,
};
use zk_jute::JuteFault::{self, Boolean, Kind, Length, Short, Trailing};
use zk_path::NoMemory;
use zk_table::Content;

/// What a request says: its type, its path or scheme, its content, and its version, flags, watch,
/// type, zxid or number of parts.
type Summary<'a> = (&'static str, &'a str, Option<&'a [u8]>, i64);

/// The contents of a frame, the request's number, and what it says.
static REQUESTS: [(&[u8], i32, Summary<'static>); 20] = [
    // a create, whose content and list are read in full
    (
        b"\0\0\0\x01\0\0\0\x01\0\0\0\x02/f\0\0\0\x03abc\0\0\0\x01\0\0\0\x1f\0\0\0\x05world\0\0\0\
            \x06anyone\0\0\0\0",
        1,
        ("create", "/f", Some(b"abc"), 0),
    ),
    // ephemeral and sequential
    (
        b"\0\0\0\x02\0\0\0\x01\0\0\0\x05/f/q-\0\0\0\0\0\0\0\x01\0\0\0\x1f\0\0\0\x05world\0\0\0\
            \x06anyone\0\0\0\x03",
        2,
        ("create", "/f/q-", Some(b""), 3),
    ),
    (
        b"\0\0\0\x03\0\0\0\x0f\0\0\0\x03/f2\0\0\0\x01x\0\0\0\x01\0\0\0\x1f\0\0\0\x05world\0\0\0\
            \x06anyone\0\0\0\0",
        3,
        ("create2", "/f2", Some(b"x"), 0),
    ),
    (
        b"\0\0\0\x04\0\0\0\x03\0\0\0\x02/f\0",
        4,
        ("exists", "/f", None, 0),
    ),
    // with a watch
    (
        b"\0\0\0\x06\0\0\0\x04\0\0\0\x02/f\x01",
        6,
        ("getData", "/f", None, 1),
    ),
    (
        b"\0\0\0\x07\0\0\0\x05\0\0\0\x02/f\0\0\0\x03new\0\0\0\0",
        7,
        ("setData", "/f", Some(b"new"), 0),
    ),
    (
        b"\0\0\0\x08\0\0\0\x08\0\0\0\x02/f\0",
        8,
        ("getChildren", "/f", None, 0),
    ),
    // with a watch
    (
        b"\0\0\0\x03\0\0\0\x0c\0\0\0\x02/j\x01",
        3,
        ("getChildren2", "/j", None, 1),
    ),
    (
        b"\0\0\0\x0a\0\0\0\x06\0\0\0\x02/f",
        10,
        ("getACL", "/f", None, 0),
    ),
    // with a null id
    (
        b"\0\0\0\x0b\0\0\0\x07\0\0\0\x03/f2\0\0\0\x02\0\0\0\x1f\0\0\0\x05world\0\0\0\x06anyone\0\
            \0\0\x1f\0\0\0\x04auth\xff\xff\xff\xff\xff\xff\xff\xff",
        11,
        ("setACL", "/f2", None, -1),
    ),
    (
        b"\0\0\0\x0d\0\0\0\x09\0\0\0\x02/f",
        13,
        ("sync", "/f", None, 0),
    ),
    // create, setData, check and delete
    (
        b"\0\0\0\x0e\0\0\0\x0e\0\0\0\x01\0\xff\xff\xff\xff\0\0\0\x02/m\0\0\0\x011\0\0\0\x01\0\0\
            \0\x1f\0\0\0\x05world\0\0\0\x06anyone\0\0\0\0\0\0\0\x05\0\xff\xff\xff\xff\0\0\0\x02/m\
            \0\0\0\x012\xff\xff\xff\xff\0\0\0\x0d\0\xff\xff\xff\xff\0\0\0\x02/m\0\0\0\x01\0\0\0\
            \x02\0\xff\xff\xff\xff\0\0\0\x02/m\xff\xff\xff\xff\xff\xff\xff\xff\x01\xff\xff\xff\xff",
        14,
        ("multi", "/m", None, 4),
    ),
    (
        b"\0\0\0\x10\0\0\0\x02\0\0\0\x03/f2\xff\xff\xff\xff",
        16,
        ("delete", "/f2", None, -1),
    ),
    // of the watches of children
    (
        b"\0\0\0\x09\0\0\0\x12\0\0\0\x02/j\0\0\0\x01",
        9,
        ("removeWatches", "/j", None, 1),
    ),
    (
        b"\xff\xff\xff\xfc\0\0\0d\0\0\0\0\0\0\0\x06digest\0\0\0\x03u:p",
        -4,
        ("auth", "digest", Some(b"u:p"), 0),
    ),
    // one watch of data, one of existence and one of children
    (
        b"\0\0\0\x0c\0\0\0e\0\0\0\0\0\0\0\x0d\0\0\0\x01\0\0\0\x02/j\0\0\0\x01\0\0\0\x05/nope\0\0\
            \0\x01\0\0\0\x02/j",
        12,
        ("setWatches", "/nope", None, 13),
    ),
    (
        b"\0\0\0\x06\0\0\0g\0\0\0\x02/j",
        6,
        ("getEphemerals", "/j", None, 0),
    ),
    (
        b"\0\0\0\x07\0\0\0h\0\0\0\x02/j",
        7,
        ("getAllChildrenNumber", "/j", None, 0),
    ),
    (b"\xff\xff\xff\xfe\0\0\0\x0b", -2, ("ping", "", None, 0)),
    (
        b"\0\0\0\x12\xff\xff\xff\xf5",
        18,
        ("closeSession", "", None, 0),
    ),
];

fn content_of(content: &Option<Content>) -> Option<&[u8]> {
    match content {
        Some(content) => Some(content.as_slice()),
        None => None,
    }
}

fn part_path(part: &MultiPart) -> &str {
    match part {
        MultiPart::Create(r) => r.path.as_str(),
        MultiPart::Create2(r) => r.path.as_str(),
        MultiPart::Delete(r) => r.path.as_str(),
        MultiPart::Check(r) => r.path.as_str(),
        MultiPart::SetData(r) => r.path.as_str(),
    }
}

fn summary_of_create<'a>(name: &'static str, r: &'a CreateRequest) -> Summary<'a> {
    (
        name,
        r.path.as_str(),
        content_of(&r.content),
        i64::from(r.flags),
    )
}

fn summary_of_multi(parts: &[MultiPart]) -> Summary<'_> {
    let path = match parts {
        [
            MultiPart::Create(_),
            MultiPart::SetData(_),
            MultiPart::Check(check),
            MultiPart::Delete(_),
        ] => check.path.as_str(),
        _ => "other parts",
    };
    ("multi", path, None, parts.len() as i64)
}

fn summary_of_watches(r: &SetWatches) -> Summary<'_> {
    let path = match (
        r.data_watches.as_slice(),
        r.exist_watches.as_slice(),
        r.child_watches.as_slice(),
    ) {
        ([_], [path], [_]) => path.as_str(),
        _ => "other watches",
    };
    ("setWatches", path, None, r.relative_zxid)
}

fn summary(body: &RequestBody) -> Summary<'_> {
    match body {
        RequestBody::Create(r) => summary_of_create("create", r),
        RequestBody::Delete(r) => ("delete", r.path.as_str(), None, i64::from(r.version)),
        RequestBody::Exists(r) => ("exists", r.path.as_str(), None, i64::from(r.watch)),
        RequestBody::GetData(r) => ("getData", r.path.as_str(), None, i64::from(r.watch)),
        RequestBody::SetData(r) => (
            "setData",
            r.path.as_str(),
            content_of(&r.content),
            i64::from(r.version),
        ),
        RequestBody::GetAcl(path) => ("getACL", path.as_str(), None, 0),
        RequestBody::SetAcl(r) => ("setACL", r.path.as_str(), None, i64::from(r.version)),
        RequestBody::GetChildren(r) => ("getChildren", r.path.as_str(), None, i64::from(r.watch)),
        RequestBody::Sync(path) => ("sync", path.as_str(), None, 0),
        RequestBody::Ping => ("ping", "", None, 0),
        RequestBody::GetChildren2(r) => ("getChildren2", r.path.as_str(), None, i64::from(r.watch)),
        RequestBody::Multi(parts) => summary_of_multi(parts.as_slice()),
        RequestBody::Create2(r) => summary_of_create("create2", r),
        RequestBody::RemoveWatches(r) => {
            ("removeWatches", r.path.as_str(), None, i64::from(r.kind))
        }
        RequestBody::Auth(r) => (
            "auth",
            r.scheme.as_str(),
            content_of(&r.auth),
            i64::from(r.kind),
        ),
        RequestBody::SetWatches(r) => summary_of_watches(r),
        RequestBody::GetEphemerals(prefix) => ("getEphemerals", prefix.as_str(), None, 0),
        RequestBody::GetAllChildrenNumber(path) => {
            ("getAllChildrenNumber", path.as_str(), None, 0)
        }
        RequestBody::CloseSession => ("closeSession", "", None, 0),
    }
}

/// Whether the bytes are read as the request that says this.
fn is_read(alloc: Global, bytes: &[u8], xid: i32, expected: Summary<'_>) -> bool {
    match read_request(alloc, bytes) {
        Ok(request) => request.xid == xid && summary(&request.body) == expected,
        Err(_) => false,
    }
}

#[test]
fn requests_of_real_clients_are_read(rt: HostRuntime) {
    for (bytes, xid, expected) in &REQUESTS {
        assert!(rt;
            is_read(rt.alloc(), bytes, *xid, *expected),
            "{}",
            expected.0
        );
    }
}

/// The contents of a frame, and their fault.
static FAULTS: [(&[u8], RequestFault); 15] = [
    (b"", Header),
    (b"\0\0\0\x01\0\0\0", Header),
    // check alone, and a type of 3.7
    (b"\0\0\0\x07\0\0\0\x0d\0\0\0\x02/f\0\0\0\0", Type { xid: 7 }),
    (b"\0\0\0\x07\0\0\0k", Type { xid: 7 }),
    // exists: no watch, a watch of 2, a byte more, a null path, and a path that is not UTF-8
    (
        b"\0\0\0\x04\0\0\0\x03\0\0\0\x02/f",
        Body {
            xid: 4,
            fault: Short,
        },
    ),
    (
        b"\0\0\0\x04\0\0\0\x03\0\0\0\x02/f\x02",
        Body {
            xid: 4,
            fault: Boolean,
        },
    ),
    (
        b"\0\0\0\x04\0\0\0\x03\0\0\0\x02/f\0\0",
        Body {
            xid: 4,
            fault: Trailing,
        },
    ),
    (
        b"\0\0\0\x04\0\0\0\x03\xff\xff\xff\xff\0",
        Body {
            xid: 4,
            fault: Length,
        },
    ),
    (
        b"\0\0\0\x04\0\0\0\x03\0\0\0\x02/\xff\0",
        Body {
            xid: 4,
            fault: JuteFault::Text,
        },
    ),
    // ping with a body
    (
        b"\xff\xff\xff\xfe\0\0\0\x0b\0",
        Body {
            xid: -2,
            fault: Trailing,
        },
    ),
    // multis: no end, an end of type 0, a part of type 3, and a header with an error
    (
        b"\0\0\0\x05\0\0\0\x0e",
        Body {
            xid: 5,
            fault: Short,
        },
    ),
    (
        b"\0\0\0\x05\0\0\0\x0e\0\0\0\0\x01\xff\xff\xff\xff",
        Body {
            xid: 5,
            fault: Kind,
        },
    ),
    (
        b"\0\0\0\x05\0\0\0\x0e\0\0\0\x03\0\xff\xff\xff\xff\0\0\0\x02/f\0",
        Body {
            xid: 5,
            fault: Kind,
        },
    ),
    (
        b"\0\0\0\x05\0\0\0\x0e\xff\xff\xff\xff\x01\0\0\0\0",
        Body {
            xid: 5,
            fault: Kind,
        },
    ),
    // setACL with a list of -2 entries
    (
        b"\0\0\0\x06\0\0\0\x07\0\0\0\x02/f\xff\xff\xff\xfe\0\0\0\0",
        Body {
            xid: 6,
            fault: Length,
        },
    ),
];

#[test]
fn other_bytes_have_their_first_fault(rt: HostRuntime) {
    for (bytes, fault) in &FAULTS {
        let read = read_request(rt.alloc(), bytes);
        assert!(rt; matches!(&read, Err(found) if found == fault), "{bytes:?}");
    }
}

/// setACL with a null list.
static NULL_LIST: &[u8] = b"\0\0\0\x0b\0\0\0\x07\0\0\0\x03/f2\xff\xff\xff\xff\xff\xff\xff\xff";

/// The list of a setACL.
fn acls_in(alloc: Global, bytes: &[u8]) -> Option<Acls> {
    let request = read_request(alloc, bytes).ok()?;
    match request.body {
        RequestBody::SetAcl(r) => AclRecords::acls_of(alloc, r.acl).ok(),
        _ => None,
    }
}

fn is_entry(acl: &Acl, scheme: &str, id: &str) -> bool {
    acl.perms == 31 && acl.id.scheme.as_str() == scheme && acl.id.id.as_str() == id
}

#[test]
fn nulls_in_lists_are_empty(rt: HostRuntime) {
    let acls = acls_in(rt.alloc(), REQUESTS[9].0).expect(&rt, "a list");
    assert!(rt;
        matches!(acls.as_slice(), [one, other]
        if is_entry(one, "world", "anyone") && is_entry(other, "auth", ""))
    );
    let acls = acls_in(rt.alloc(), NULL_LIST).expect(&rt, "a list");
    assert!(rt; acls.as_slice().is_empty());
}

/// The first frames of kazoo, of a client before 3.4, and of a client that reconnects.
static CONNECTS: [(&[u8], i64, i32, i64, Option<bool>); 3] = [
    (
        b"\0\0\0\0\0\0\0\0\0\0\0\0\0\0\x17p\0\0\0\0\0\0\0\0\0\0\0\x10\0\0\0\0\0\0\0\0\0\0\0\0\0\
            \0\0\0\0",
        0,
        6000,
        0,
        Some(false),
    ),
    (
        b"\0\0\0\0\0\0\0\0\0\0\0\0\0\0\x17p\0\0\0\0\0\0\0\0\0\0\0\x10\0\0\0\0\0\0\0\0\0\0\0\0\0\
            \0\0\0",
        0,
        6000,
        0,
        None,
    ),
    (
        b"\0\0\0\0\0\0\0\0\0\0\0\x0d\0\0u0\x01\0\0\x1b\xf0\x1f\0\x01\0\0\0\x10&<A\x91D\x16\x92>\
            \x9e\xae\xc7\xcda~J\xf4\0",
        13,
        30_000,
        0x100_001b_f01f_0001,
        Some(false),
    ),
];

fn is_connect(r: &ConnectRequest, seen: i64, timeout: i32, session: i64) -> bool {
    let password = content_of(&r.password).unwrap_or(b"");
    r.protocol_version == 0
        && r.last_zxid_seen == seen
        && r.timeout == timeout
        && r.session == session
        && password.len() == 16
}

#[test]
fn connect_requests_are_read(rt: HostRuntime) {
    for (bytes, seen, timeout, session, read_only) in &CONNECTS {
        let request = read_connect_request(rt.alloc(), bytes);
        assert!(rt;
            matches!(&request, Ok(r)
            if is_connect(r, *seen, *timeout, *session) && r.read_only == *read_only)
        );
    }
    let request = read_connect_request(rt.alloc(), b"\0\0\0\0\0\0");
    assert!(rt; matches!(request, Err(Short)));
}

/// Parts that were wrapped, and taken out again.
fn parts(alloc: Global) -> Result<Vec<MultiPart>, NoMemory> {
    let mut parts = Vec::new(alloc);
    parts.push(MultiPart::Check(DeleteRequest {
        path: Text::read(alloc, "/a")?,
        version: 7,
    }))?;
    Ok(MultiParts::new(parts).into_vec())
}

/// The length of a list of a null entry.
fn null_entry(alloc: Global) -> Result<Acls, NoMemory> {
    let mut entries = Vec::new(alloc);
    entries.push(AclRecord {
        perms: 31,
        scheme: None,
        id: None,
    })?;
    AclRecords::acls_of(alloc, Some(AclRecords::new(entries)))
}

#[test]
fn lists_hold_what_they_are_built_of(rt: HostRuntime) {
    let parts = parts(rt.alloc()).expect(&rt, "memory");
    assert!(rt; matches!(parts.as_slice(), [part] if part_path(part) == "/a"));
    let acls = null_entry(rt.alloc()).expect(&rt, "memory");
    assert!(rt; matches!(acls.as_slice(), [acl] if is_entry(acl, "", "")));
}
