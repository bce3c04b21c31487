//! Replies, watch events and connect responses, written as frames.

ghost use Rattle.std.specs.Prelude.{◌≡◌, ◌↔◌, ◌<◌, ◌≤◌, ◌^◌, ◌++◌, OnOk, IfOk, Err, pos, length};
ghost use Rattle.std.specs.List.{flat_map};
ghost use Rattle.std.specs.Result.{IfErr};
ghost use Rattle.zk_frames.specs.Frames.{framed};
ghost use Rattle.zk_frames.specs.Replies.{multi_header, result_of, body_of, reply_header, reply_of, event_of, read_only_bytes, connect_response_of};
ghost use Rattle.zk_records.specs.Sizes.{size_of};
ghost use Rattle.zk_frames.specs.declared.fault.FrameFault.TheVariants as faults;

use crate::fault::FrameFault;
use crate::field_writers::{
    put_acl_vector, put_boolean, put_content, put_count, put_counted, put_int, put_long, put_names,
    put_stat, put_text,
};
use crate::op_codes;
use crate::reply::{
    ClientReply, ConnectResponse, MultiResult, MultiResults, ReplyBody, WatcherEvent,
};
use crate::sizes::{event_size, reply_size};
use zk_path::NoMemory;

/// The greatest length that its field can hold.
const LONGEST: u64 = 2_147_483_647;

/// The number of events.
const EVENT_XID: i32 = -1;

/// The client is connected: `KeeperState.SyncConnected`.
const SYNC_CONNECTED: i32 = 3;

/// The size of a connect response without `readOnly`.
const CONNECT_RESPONSE: usize = 36;

fn put_multi_header(out: &mut Vec<u8>, kind: i32, done: bool, err: i32) -> Result<(), NoMemory>
    ensures { OnOk result (out.new.items ≡ out.old.items ++ multi_header kind done err) }
{
    put_int(out, kind)?;
    put_boolean(out, done)?;
    put_int(out, err)
}

#[tactic(auto, unfolding(crate::specs::Replies::result_of))]
fn put_result(out: &mut Vec<u8>, part: &MultiResult) -> Result<(), NoMemory>
    requires { length (result_of part.now) < 2 ^ 31 }
    ensures { OnOk result (out.new.items ≡ out.old.items ++ result_of part.now) }
{
    match part {
        MultiResult::Create(path) => {
            put_multi_header(out, op_codes::CREATE, false, 0)?;
            put_text(out, path.as_str())
        }
        MultiResult::Delete => put_multi_header(out, op_codes::DELETE, false, 0),
        MultiResult::SetData(stat) => {
            put_multi_header(out, op_codes::SET_DATA, false, 0)?;
            put_stat(out, *stat)
        }
        MultiResult::Check => put_multi_header(out, op_codes::CHECK, false, 0),
        MultiResult::Error(err) => {
            put_multi_header(out, op_codes::ERROR, false, *err)?;
            put_int(out, *err)
        }
    }
}

fn put_results(out: &mut Vec<u8>, results: &MultiResults) -> Result<(), NoMemory>
    requires { length (flat_map result_of results.now) < 2 ^ 31 }
    ensures { OnOk result (out.new.items ≡ out.old.items ++ flat_map result_of results.now) }
{
    for part in results.as_slice() {
        put_result(out, part)?;
    }
    Ok(())
}

fn put_body(out: &mut Vec<u8>, body: &ReplyBody) -> Result<(), NoMemory>
    requires { length (body_of body.now) < 2 ^ 31 }
    ensures { OnOk result (out.new.items ≡ out.old.items ++ body_of body.now) }
{
    match body {
        ReplyBody::Empty => Ok(()),
        ReplyBody::Path(path) => put_text(out, path.as_str()),
        ReplyBody::PathAndStat { path, stat } => {
            put_text(out, path.as_str())?;
            put_stat(out, *stat)
        }
        ReplyBody::Stat(stat) => put_stat(out, *stat),
        ReplyBody::Data { content, stat } => {
            put_content(out, content)?;
            put_stat(out, *stat)
        }
        ReplyBody::Acl { acl, stat } => {
            put_acl_vector(out, acl)?;
            put_stat(out, *stat)
        }
        ReplyBody::Children(names) => put_names(out, names),
        ReplyBody::ChildrenAndStat { children, stat } => {
            put_names(out, children)?;
            put_stat(out, *stat)
        }
        ReplyBody::Count(count) => put_int(out, *count),
        ReplyBody::Multi(results) => {
            put_results(out, results)?;
            put_multi_header(out, op_codes::ERROR, true, op_codes::ERROR)
        }
    }
}

fn put_reply_header(out: &mut Vec<u8>, xid: i32, zxid: i64, err: i32) -> Result<(), NoMemory>
    ensures { OnOk result (out.new.items ≡ out.old.items ++ reply_header xid zxid err) }
{
    put_int(out, xid)?;
    put_long(out, zxid)?;
    put_int(out, err)?;
    Ok(())
}

#[tactic(auto, unfolding(crate::specs::Replies::reply_of))]
fn put_reply(out: &mut Vec<u8>, reply: &ClientReply) -> Result<(), NoMemory>
    requires { length (reply_of reply.now) < 2 ^ 31 }
    ensures { OnOk result (out.new.items ≡ out.old.items ++ reply_of reply.now) }
{
    put_reply_header(out, reply.xid, reply.zxid, reply.err)?;
    put_body(out, &reply.body)?;
    Ok(())
}

#[tactic(auto, unfolding(crate::specs::Replies::event_of))]
fn put_event(out: &mut Vec<u8>, event: &WatcherEvent) -> Result<(), NoMemory>
    requires { length (event_of event.now) < 2 ^ 31 }
    ensures { OnOk result (out.new.items ≡ out.old.items ++ event_of event.now) }
{
    put_reply_header(out, EVENT_XID, -1, 0)?;
    put_int(out, event.kind)?;
    put_int(out, SYNC_CONNECTED)?;
    put_text(out, event.path.as_str())?;
    Ok(())
}

fn put_read_only(out: &mut Vec<u8>, read_only: Option<bool>) -> Result<(), NoMemory>
    ensures { OnOk result (out.new.items ≡ out.old.items ++ read_only_bytes read_only) }
{
    match read_only {
        Some(flag) => put_boolean(out, flag),
        None => Ok(()),
    }
}

#[tactic(auto, unfolding(crate::specs::Replies::connect_response_of))]
fn put_connect_response(out: &mut Vec<u8>, response: &ConnectResponse) -> Result<(), NoMemory>
    ensures { OnOk result (out.new.items ≡ out.old.items ++ connect_response_of response.now) }
{
    put_int(out, 0)?;
    put_int(out, response.timeout)?;
    put_long(out, response.session)?;
    put_counted(out, &response.password)?;
    put_read_only(out, response.read_only)?;
    Ok(())
}

/// The length of a frame.
fn frame_length(size: u64) -> Result<usize, FrameFault>
    ensures fits { IfOk result (λ length. (length ≡ size) × (size < 2 ^ 31)) }
    ensures long { IfErr result (λ fault. (fault ≡ faults.Length) × (2 ^ 31 ≤ size)) }
{
    if size > LONGEST {
        return Err(FrameFault::Length);
    }
    Ok(size as usize)
}

/// Appends a reply as a frame.
///
/// Fails with [`FrameFault::Length`] if the reply is too long for a frame, and appends nothing.
/// After an allocation failure a part of the frame may be appended.
pub fn write_reply(out: &mut Vec<u8>, reply: &ClientReply) -> Result<(), FrameFault>
    ensures written { OnOk result (out.new.items ≡ out.old.items ++ framed (reply_of reply.now)) }
    ensures length { (result ≡ Err faults.Length) ↔ (2 ^ 31 ≤ length (reply_of reply.now)) }
    ensures kept { result ≡ Err faults.Length → out.new.items ≡ out.old.items }
{
    let length = frame_length(reply_size(reply))?;
    put_count(out, length)?;
    Ok(put_reply(out, reply)?)
}

/// Appends a watch event as a frame. Fails as [`write_reply`] does.
pub fn write_event(out: &mut Vec<u8>, event: &WatcherEvent) -> Result<(), FrameFault>
    ensures written { OnOk result (out.new.items ≡ out.old.items ++ framed (event_of event.now)) }
    ensures length { (result ≡ Err faults.Length) ↔ (2 ^ 31 ≤ length (event_of event.now)) }
    ensures kept { result ≡ Err faults.Length → out.new.items ≡ out.old.items }
{
    let length = frame_length(event_size(event))?;
    put_count(out, length)?;
    Ok(put_event(out, event)?)
}

/// Appends a connect response as a frame. After an allocation failure a part of the frame may be
/// appended.
pub fn write_connect_response(out: &mut Vec<u8>, response: &ConnectResponse) -> Result<(), NoMemory>
    ensures { OnOk result (out.new.items ≡ out.old.items ++ framed (connect_response_of response.now)) }
{
    put_count(out, connect_response_size(response))?;
    put_connect_response(out, response)
}

#[tactic(auto, unfolding(crate::specs::Replies::connect_response_of))]
fn connect_response_size(response: &ConnectResponse) -> usize
    ensures size { result ≡ length (connect_response_of response.now) }
    ensures small { result ≤ 37 }
{
    match response.read_only {
        Some(_) => CONNECT_RESPONSE + 1,
        None => CONNECT_RESPONSE,
    }
}
