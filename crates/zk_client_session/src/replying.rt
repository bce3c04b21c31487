//! Replies to requests.

ghost use Rattle.std.specs.Prelude.{◌≡◌, IfOk};
ghost use Rattle.zk_client_session.specs.Replies.{header_alone, immediate_reply, replied, multi_failed, write_failed, write_reply, read_reply, body_synced, body_set, body_removed, body_paths, body_count, removed_reply, reply_to};

use crate::ask::Immediate;
use crate::expected_reply::{ExpectedReply, ReplyKind};
use crate::reply::Reply;
use crate::reply_bodies::{SYSTEM_ERROR, body_done, body_read, parts_failed};
use std::alloc::Global;
use zk_frames::{ClientReply, ReplyBody};
use zk_path::NoMemory;
use zk_table::{Names, ReadReply, TxnResult};

const UNIMPLEMENTED: i32 = -6;

const AUTH_FAILED: i32 = -115;

pub(crate) const NO_WATCHER: i32 = -121;

/// The number of a ping's reply.
const PING_XID: i32 = -2;

fn header_alone(xid: i32, zxid: i64, err: i32) -> ClientReply
    ensures { result ≡ header_alone xid zxid err }
{
    ClientReply {
        xid,
        zxid,
        err,
        body: ReplyBody::Empty,
    }
}

/// An immediate reply, from a client that has seen a transaction.
pub(crate) fn immediate_reply(seen: &i64, immediate: &Immediate) -> ClientReply
    ensures { result ≡ immediate_reply seen.now immediate.now }
{
    let zxid = *seen;
    match *immediate {
        Immediate::Ping => header_alone(PING_XID, zxid, 0),
        Immediate::Authenticated { xid } => header_alone(xid, 0, 0),
        Immediate::NotAuthenticated { xid } => header_alone(xid, 0, AUTH_FAILED),
        Immediate::Unimplemented { xid } => header_alone(xid, -1, UNIMPLEMENTED),
        Immediate::Rejected { xid, code } => header_alone(xid, zxid, code),
    }
}

fn replied(xid: i32, zxid: i64, body: Option<ReplyBody>) -> ClientReply
    ensures { result ≡ replied xid zxid body }
{
    match body {
        Some(body) => ClientReply {
            xid,
            zxid,
            err: 0,
            body,
        },
        None => header_alone(xid, zxid, SYSTEM_ERROR),
    }
}

/// The reply to a multi that failed.
fn multi_failed(alloc: Global, xid: i32, wrote: &TxnResult) -> Result<ClientReply, NoMemory>
    ensures { IfOk result (λ reply. reply ≡ multi_failed xid wrote.now wrote.now.parts) }
{
    let parts = wrote.parts.as_slice();
    if parts.is_empty() {
        return Ok(header_alone(xid, wrote.zxid, wrote.err));
    }
    let results = parts_failed(alloc, parts)?;
    Ok(ClientReply {
        xid,
        zxid: wrote.zxid,
        err: 0,
        body: ReplyBody::Multi(results),
    })
}

fn write_failed(
    alloc: Global,
    kind: &ReplyKind,
    xid: i32,
    wrote: &TxnResult,
) -> Result<ClientReply, NoMemory>
    ensures { IfOk result (λ reply. reply ≡ write_failed kind.now xid wrote.now) }
{
    match kind {
        ReplyKind::Multi(_) => multi_failed(alloc, xid, wrote),
        _ => Ok(header_alone(xid, wrote.zxid, wrote.err)),
    }
}

fn write_reply(
    alloc: Global,
    expected: &ExpectedReply,
    wrote: &TxnResult,
    time: &i64,
) -> Result<ClientReply, NoMemory>
    ensures { IfOk result (λ reply. reply ≡ write_reply expected.now wrote.now time.now) }
{
    if wrote.err != 0 {
        return write_failed(alloc, &expected.kind, expected.xid, wrote);
    }
    let body = body_done(alloc, &expected.kind, wrote, time)?;
    Ok(replied(expected.xid, wrote.zxid, body))
}

fn read_reply(
    expected: &ExpectedReply,
    reply: &ReadReply,
    zxid: i64,
) -> Result<ClientReply, NoMemory>
    ensures { IfOk result (λ it. it ≡ read_reply expected.now reply.now zxid) }
{
    if let ReadReply::Refused(code) = reply {
        return Ok(header_alone(expected.xid, zxid, *code));
    }
    let body = body_read(&expected.kind, reply)?;
    Ok(replied(expected.xid, zxid, body))
}

fn body_synced(kind: ReplyKind) -> Option<ReplyBody>
    ensures { result ≡ body_synced kind }
{
    match kind {
        ReplyKind::Synced(path) => Some(ReplyBody::Path(path)),
        _ => None,
    }
}

fn body_set(kind: &ReplyKind) -> Option<ReplyBody>
    ensures { result ≡ body_set kind.now }
{
    match kind {
        ReplyKind::WatchesSet => Some(ReplyBody::Empty),
        _ => None,
    }
}

fn body_removed(kind: &ReplyKind) -> Option<ReplyBody>
    ensures { result ≡ body_removed kind.now }
{
    match kind {
        ReplyKind::WatchesRemoved => Some(ReplyBody::Empty),
        _ => None,
    }
}

fn body_paths(kind: &ReplyKind, paths: Names) -> Option<ReplyBody>
    ensures { result ≡ body_paths kind.now paths }
{
    match kind {
        ReplyKind::Paths => Some(ReplyBody::Children(paths)),
        _ => None,
    }
}

fn body_count(kind: &ReplyKind, count: i32) -> Option<ReplyBody>
    ensures { result ≡ body_count kind.now count }
{
    match kind {
        ReplyKind::Count => Some(ReplyBody::Count(count)),
        _ => None,
    }
}

fn removed_reply(expected: &ExpectedReply, found: bool, zxid: i64) -> ClientReply
    ensures { result ≡ removed_reply expected.now found zxid }
{
    if found {
        return removal_reply(expected, zxid);
    }
    header_alone(expected.xid, zxid, NO_WATCHER)
}

fn removal_reply(expected: &ExpectedReply, zxid: i64) -> ClientReply
    ensures { result ≡ replied expected.now.xid zxid (body_removed expected.now.kind) }
{
    with_body(expected, zxid, body_removed(&expected.kind))
}

fn with_body(expected: &ExpectedReply, zxid: i64, body: Option<ReplyBody>) -> ClientReply
    ensures { result ≡ replied expected.now.xid zxid body }
{
    replied(expected.xid, zxid, body)
}

fn set_reply(expected: &ExpectedReply, zxid: i64) -> ClientReply
    ensures { result ≡ replied expected.now.xid zxid (body_set expected.now.kind) }
{
    with_body(expected, zxid, body_set(&expected.kind))
}

fn paths_reply(expected: &ExpectedReply, paths: Names, zxid: i64) -> ClientReply
    ensures { result ≡ replied expected.now.xid zxid (body_paths expected.now.kind paths) }
{
    with_body(expected, zxid, body_paths(&expected.kind, paths))
}

fn count_reply(expected: &ExpectedReply, count: i32, zxid: i64) -> ClientReply
    ensures { result ≡ replied expected.now.xid zxid (body_count expected.now.kind count) }
{
    with_body(expected, zxid, body_count(&expected.kind, count))
}

fn synced_reply(expected: ExpectedReply, zxid: i64) -> ClientReply
    ensures { result ≡ replied expected.xid zxid (body_synced expected.kind) }
{
    let ExpectedReply { xid, kind } = expected;
    replied(xid, zxid, body_synced(kind))
}

/// The reply that the service's reply gives.
pub(crate) fn reply_to(
    alloc: Global,
    expected: ExpectedReply,
    reply: Reply,
) -> Result<ClientReply, NoMemory>
    ensures { IfOk result (λ it. it ≡ reply_to expected reply) }
{
    match reply {
        Reply::Wrote { result, time } => write_reply(alloc, &expected, &result, &time),
        Reply::Read { reply, zxid } => read_reply(&expected, &reply, zxid),
        Reply::CaughtUp { zxid } => Ok(synced_reply(expected, zxid)),
        Reply::WatchesSet { events: _, zxid } => Ok(set_reply(&expected, zxid)),
        Reply::WatchesRemoved { found, zxid } => Ok(removed_reply(&expected, found, zxid)),
        Reply::Paths { paths, zxid } => Ok(paths_reply(&expected, paths, zxid)),
        Reply::Count { count, zxid } => Ok(count_reply(&expected, count, zxid)),
    }
}
