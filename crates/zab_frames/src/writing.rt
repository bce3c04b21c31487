//! Messages, written.

ghost use Rattle.std.specs.Prelude.{◌≡◌, ◌++◌, ◌≤◌, ◌<◌, ◌^◌, length, FitsSigned, IfOk, OnOk, OnErr};
ghost use Rattle.std.specs.Int.{w64};
ghost use Rattle.zk_records.specs.Records.{long, boolean};
ghost use Rattle.std.specs.List.{flat_map, AllByRecursion};
ghost use Rattle.zk_records.specs.Records.{record_of};
ghost use Rattle.zk_records.specs.Sizes.{size_of};
ghost use Rattle.zk_records.specs.Written.{entry_of, HasEntry};
ghost use Rattle.zab_epoch.specs.Shortness.{IsShort, IsShortBody};
ghost use Rattle.zab_frames.specs.Messages.{word, long_word, counted_list, tagged_entry, history_of, kind_of, fields_of, body_of, contents_of};
ghost use Rattle.zab_frames.specs.Ranges.{IsWord, IsLongWord, AreCounted, IsEntry, IsHistory, IsBody, IsMessage};
ghost use Rattle.zab_frames.specs.Streams.{frame_of, HasFrame};

use crate::call_writers::put_call;
use crate::field_writers::{put_boolean, put_int, put_long, put_long_word, put_word};
use crate::frame::write_frame;
use crate::kinds;
use bytes::BufMut;
use std::alloc::Global;
use zab_epoch::{Body, Entry, History, Message};
use zk_path::NoMemory;
use zk_records::{adler, write_txn};
use zk_requests::Call;
use zk_table::Txn;

/// The byte at the end of an entry.
const END: u8 = 0x42;

fn put_entry(alloc: Global, out: &mut Vec<u8>, txn: &Txn) -> Result<(), NoMemory>
    requires { size_of (record_of txn.now) ≤ 16777216 }
    ensures written { OnOk result (out.new.items ≡ out.old.items ++ entry_of txn.now) }
    ensures fits { OnOk result (HasEntry txn.now) }
{
    let record = write_txn(alloc, txn)?;
    out.put_u64(u64::from(adler(record.as_slice())))?;
    out.put_u32(record.len() as u32)?;
    out.put_slice(record.as_slice())?;
    Ok(out.put_u8(END)?)
}

fn put_tagged_entry(alloc: Global, out: &mut Vec<u8>, entry: &Entry) -> Result<(), NoMemory>
    requires { IsShort entry.now }
    ensures written { OnOk result (out.new.items ≡ out.old.items ++ tagged_entry entry.now) }
    ensures fits { OnOk result (IsEntry entry.now) }
{
    put_long_word(out, entry.tag)?;
    put_entry(alloc, out, &entry.txn)
}

fn put_tags(out: &mut Vec<u8>, tags: &[u64]) -> Result<(), NoMemory>
    ensures written { OnOk result (out.new.items ≡ out.old.items ++ counted_list long_word tags.now) }
    ensures fits { OnOk result (AreCounted IsLongWord tags.now) }
{
    put_long_word(out, tags.len() as u64)?;
    for tag in tags {
        put_long_word(out, *tag)?;
    }
    Ok(())
}

/// The tags of all entries, and then the entries.
fn put_history(out: &mut Vec<u8>, history: &History) -> Result<(), NoMemory>
    ensures written { OnOk result (out.new.items ≡ out.old.items ++ history_of history.now) }
    ensures fits { OnOk result (IsHistory history.now) }
{
    put_tags(out, history.tags())?;
    Ok(out.put_slice(history.bytes())?)
}

fn kind(body: &Body<Call>) -> i32
    ensures { result ≡ kind_of body.now }
{
    match body {
        Body::CEpoch { .. } => kinds::C_EPOCH,
        Body::NewEpoch { .. } => kinds::NEW_EPOCH,
        Body::AckEpoch { .. } => kinds::ACK_EPOCH,
        Body::NewLeader { .. } => kinds::NEW_LEADER,
        Body::AckLeader { .. } => kinds::ACK_LEADER,
        Body::Propose { .. } => kinds::PROPOSE,
        Body::Ack { .. } => kinds::ACK,
        Body::Commit { .. } => kinds::COMMIT,
        Body::Request { .. } => kinds::REQUEST,
        Body::SyncAsk { .. } => kinds::SYNC_ASK,
        Body::SyncTell { .. } => kinds::SYNC_TELL,
    }
}

fn put_pair(out: &mut Vec<u8>, epoch: u32, number: u64) -> Result<(), NoMemory>
    ensures written { OnOk result (out.new.items ≡ out.old.items ++ (word epoch ++ long_word number)) }
    ensures fits { IsWord epoch × IsLongWord number }
{
    put_word(out, epoch)?;
    put_long_word(out, number)
}

fn put_ack_epoch(
    out: &mut Vec<u8>,
    epoch: u32,
    vote: bool,
    current: u32,
    last: i64,
) -> Result<(), NoMemory>
    ensures written { OnOk result (out.new.items
        ≡ out.old.items ++ (word epoch ++ boolean vote ++ word current ++ long last)) }
    ensures fits { IsWord epoch × (IsWord current × FitsSigned w64 last) }
{
    put_word(out, epoch)?;
    put_boolean(out, vote)?;
    put_word(out, current)?;
    put_long(out, last)?;
    Ok(())
}

fn put_new_leader(out: &mut Vec<u8>, epoch: u32, keep: i64, rest: &History) -> Result<(), NoMemory>
    ensures written { OnOk result (out.new.items
        ≡ out.old.items ++ (word epoch ++ long keep ++ history_of rest.now)) }
    ensures fits { OnOk result ((IsWord epoch × FitsSigned w64 keep) × IsHistory rest.now) }
{
    put_word(out, epoch)?;
    put_long(out, keep)?;
    put_history(out, rest)?;
    Ok(())
}

fn put_fields(alloc: Global, out: &mut Vec<u8>, body: &Body<Call>) -> Result<(), NoMemory>
    requires { IsShortBody body.now }
    ensures written { OnOk result (out.new.items ≡ out.old.items ++ fields_of body.now) }
    ensures fits { OnOk result (IsBody body.now) }
{
    match body {
        Body::CEpoch { promised } => put_word(out, *promised),
        Body::NewEpoch { epoch } => put_word(out, *epoch),
        Body::AckEpoch {
            epoch,
            vote,
            current,
            last,
        } => put_ack_epoch(out, *epoch, *vote, *current, *last),
        Body::NewLeader { epoch, keep, rest } => put_new_leader(out, *epoch, *keep, rest),
        Body::Propose {
            epoch,
            index,
            entry,
        } => {
            put_pair(out, *epoch, *index)?;
            put_tagged_entry(alloc, out, entry)
        }
        Body::AckLeader { epoch, length }
        | Body::Ack { epoch, length }
        | Body::Commit { epoch, length } => put_pair(out, *epoch, *length),
        Body::Request { epoch, call } => {
            put_word(out, *epoch)?;
            put_call(out, call)
        }
        Body::SyncAsk { epoch, tag } => put_pair(out, *epoch, *tag),
        Body::SyncTell { epoch, tag, length } => {
            put_pair(out, *epoch, *tag)?;
            put_long_word(out, *length)
        }
    }
}

#[tactic(auto, unfolding(crate::specs::Messages::body_of))]
fn put_body(alloc: Global, out: &mut Vec<u8>, body: &Body<Call>) -> Result<(), NoMemory>
    requires { IsShortBody body.now }
    ensures written { OnOk result (out.new.items ≡ out.old.items ++ body_of body.now) }
    ensures fits { OnOk result (IsBody body.now) }
{
    put_int(out, kind(body))?;
    put_fields(alloc, out, body)
}

#[tactic(auto, unfolding(crate::specs::Messages::contents_of))]
fn put_message(alloc: Global, out: &mut Vec<u8>, message: &Message<Call>) -> Result<(), NoMemory>
    requires { IsShortBody message.now.body }
    ensures written { OnOk result (out.new.items ≡ out.old.items ++ contents_of message.now) }
    ensures fits { OnOk result (IsMessage message.now) }
{
    put_long_word(out, message.sender as u64)?;
    put_long_word(out, message.addressee as u64)?;
    put_body(alloc, out, &message.body)?;
    Ok(())
}

/// Appends the frame of a message. If an allocation fails, nothing is appended.
pub fn write_message(
    alloc: Global,
    out: &mut Vec<u8>,
    message: &Message<Call>,
) -> Result<(), NoMemory>
    requires short { IsShortBody message.now.body }
    ensures written { OnOk result (out.new.items ≡ out.old.items ++ frame_of message.now) }
    ensures has_frame { OnOk result (HasFrame message.now) }
    ensures unchanged { OnErr result (out.new.items ≡ out.old.items) }
{
    let mut contents = Vec::new(alloc);
    put_message(alloc, &mut contents, message)?;
    write_frame(alloc, out, contents.as_slice())
}
