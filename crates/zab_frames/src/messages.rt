//! Messages, read.

ghost use Rattle.std.specs.Prelude.{◌≢◌, IfOk, IfSome, IfNone, OnOk};
ghost use Rattle.zk_jute.specs.declared.fault.JuteFault.TheVariants as faults;
ghost use Rattle.std.specs.Int.{w32, w64};
ghost use Rattle.zk_jute.specs.Reading.{Gives, Takes, number_at, boolean_at, made_of};
ghost use Rattle.zab_frames.specs.Reading.{◌&◌, natural_at, history_at, tagged_entry_at, call_at, ack_epoch, new_leader, propose, request, fields_by, body_at, message_at, message_in};
ghost use Rattle.zab_frames.specs.Streams.{IsReadAs, IsNoMessage};

use crate::calls::call;
use crate::entries::{history, tagged_entry};
use crate::fields::{long_word, word};
use crate::kinds;
use std::alloc::Global;
use zab_epoch::{Body, Message, Payload};
use zk_jute::JuteFault;
use zk_jute::fields::{boolean, int, long};
use zk_path::NoMemory;
use zk_requests::Call;

fn ack_epoch(input: &mut &[u8]) -> Result<Body<Call>, JuteFault>
    ensures { Takes result input.new.now (made_of ack_epoch ((natural_at w32 & boolean_at & natural_at w32 & number_at w64) input.old.now)) }
{
    let epoch = word(input)?;
    let vote = boolean(input)?;
    let current = word(input)?;
    let last = long(input)?;
    Ok(Body::AckEpoch {
        epoch,
        vote,
        current,
        last,
    })
}

fn new_leader(alloc: Global, input: &mut &[u8]) -> Result<Body<Call>, JuteFault>
    ensures { Takes result input.new.now (made_of new_leader ((natural_at w32 & number_at w64 & history_at) input.old.now)) }
{
    let epoch = word(input)?;
    let keep = long(input)?;
    let rest = Payload::new(alloc, history(alloc, input)?)?;
    Ok(Body::NewLeader { epoch, keep, rest })
}

fn propose(alloc: Global, input: &mut &[u8]) -> Result<Body<Call>, JuteFault>
    ensures { Takes result input.new.now (made_of propose ((natural_at w32 & natural_at w64 & tagged_entry_at) input.old.now)) }
{
    let epoch = word(input)?;
    let index = long_word(input)?;
    let entry = Payload::new(alloc, tagged_entry(alloc, input)?)?;
    Ok(Body::Propose {
        epoch,
        index,
        entry,
    })
}

fn request(alloc: Global, input: &mut &[u8]) -> Result<Body<Call>, JuteFault>
    ensures { Takes result input.new.now (made_of request ((natural_at w32 & call_at) input.old.now)) }
{
    let epoch = word(input)?;
    let call = Payload::new(alloc, call(alloc, input)?)?;
    Ok(Body::Request { epoch, call })
}

/// The fields of a body of this kind.
#[tactic(auto, unfolding(crate::specs::Reading::fields_by))]
fn fields(alloc: Global, kind: i32, input: &mut &[u8]) -> Result<Body<Call>, JuteFault>
    ensures { Takes result input.new.now (fields_by kind input.old.now) }
{
    match kind {
        kinds::C_EPOCH => Ok(Body::CEpoch {
            promised: word(input)?,
        }),
        kinds::NEW_EPOCH => Ok(Body::NewEpoch {
            epoch: word(input)?,
        }),
        kinds::ACK_EPOCH => ack_epoch(input),
        kinds::NEW_LEADER => new_leader(alloc, input),
        kinds::ACK_LEADER => Ok(Body::AckLeader {
            epoch: word(input)?,
            length: long_word(input)?,
        }),
        kinds::PROPOSE => propose(alloc, input),
        kinds::ACK => Ok(Body::Ack {
            epoch: word(input)?,
            length: long_word(input)?,
        }),
        kinds::COMMIT => Ok(Body::Commit {
            epoch: word(input)?,
            length: long_word(input)?,
        }),
        kinds::REQUEST => request(alloc, input),
        kinds::SYNC_ASK => Ok(Body::SyncAsk {
            epoch: word(input)?,
            tag: long_word(input)?,
        }),
        kinds::SYNC_TELL => Ok(Body::SyncTell {
            epoch: word(input)?,
            tag: long_word(input)?,
            length: long_word(input)?,
        }),
        _ => Err(JuteFault::Kind),
    }
}

#[tactic(auto, unfolding(crate::specs::Reading::body_at))]
fn body(alloc: Global, input: &mut &[u8]) -> Result<Body<Call>, JuteFault>
    ensures { Takes result input.new.now (body_at input.old.now) }
{
    let kind = int(input)?;
    fields(alloc, kind, input)
}

#[tactic(auto, unfolding(crate::specs::Reading::message_at))]
fn message(alloc: Global, input: &mut &[u8]) -> Result<Message<Call>, JuteFault>
    ensures { Takes result input.new.now (message_at input.old.now) }
{
    let sender = long_word(input)? as usize;
    let addressee = long_word(input)? as usize;
    let body = body(alloc, input)?;
    Ok(Message {
        sender,
        addressee,
        body,
    })
}

fn whole_message(alloc: Global, contents: &[u8]) -> Result<Message<Call>, JuteFault>
    ensures { Gives result (message_in contents.now) }
{
    let mut input = contents;
    let message = message(alloc, &mut input)?;
    if !input.is_empty() {
        return Err(JuteFault::Trailing);
    }
    Ok(message)
}

/// Fails if an allocation failed.
fn unless_memory(fault: JuteFault) -> Result<(), NoMemory>
    ensures { OnOk result (fault ≢ faults.NoMemory) }
{
    match fault {
        JuteFault::NoMemory => Err(NoMemory),
        JuteFault::Short
        | JuteFault::Length
        | JuteFault::Text
        | JuteFault::Boolean
        | JuteFault::Kind
        | JuteFault::Trailing
        | JuteFault::Path => Ok(()),
    }
}

/// The message with these contents; `None` if there is none.
#[tactic(auto, using(crate::proofs::MessageLaws::no_message))]
pub(crate) fn read_message(
    alloc: Global,
    contents: &[u8],
) -> Result<Option<Message<Call>>, NoMemory>
    ensures found { IfOk result (λ read. IfSome read (λ message. IsReadAs contents.now message)) }
    ensures none { IfOk result (λ read. IfNone read (IsNoMessage contents.now)) }
{
    match whole_message(alloc, contents) {
        Ok(message) => Ok(Some(message)),
        Err(fault) => {
            unless_memory(fault)?;
            Ok(None)
        }
    }
}
