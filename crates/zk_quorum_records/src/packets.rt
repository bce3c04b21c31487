//! Packets, read from the start of the remaining bytes.

ghost use Rattle.std.specs.Int.{w32};
ghost use Rattle.zk_jute.specs.Reading.{Gives, Takes, many_at};
ghost use Rattle.zk_quorum_records.specs.Reading.{data_at, identities_at, identities_of, identity_at, length_in, packet_at};

use crate::packet::QuorumPacket;
use std::alloc::Global;
use zk_acl::{Id, Ids};
use zk_jute::JuteFault;
use zk_jute::fields::{content, int, long, text};
use zk_table::Content;

/// The greatest length of a packet's data, and of an item of a stream.
pub(crate) const MOST_BYTES: i32 = 16_777_216;

/// The length that comes next, if it is within its bounds.
#[tactic(auto, unfolding(crate::specs::Reading::length_in))]
pub(crate) fn length_in(least: i32, most: i32, input: &[u8]) -> Result<i32, JuteFault>
    ensures { Gives result (length_in least most input.now) }
{
    let mut ahead = input;
    let length = int(&mut ahead)?;
    if length < least || most < length {
        return Err(JuteFault::Length);
    }
    Ok(length)
}

#[tactic(auto, unfolding(crate::specs::Reading::data_at))]
fn data(alloc: Global, input: &mut &[u8]) -> Result<Option<Content>, JuteFault>
    ensures { Takes result input.new.now (data_at input.old.now) }
{
    let _length = length_in(-1, MOST_BYTES, input)?;
    content(alloc, input)
}

#[tactic(auto, unfolding(crate::specs::Reading::identity_at))]
fn identity(alloc: Global, input: &mut &[u8]) -> Result<Id, JuteFault>
    ensures { Takes result input.new.now (identity_at input.old.now) }
{
    let scheme = text(alloc, input)?;
    let id = text(alloc, input)?;
    Ok(Id { scheme, id })
}

/// `count` identities.
fn some_identities(alloc: Global, count: u32, input: &mut &[u8]) -> Result<Ids, JuteFault>
    ensures { Takes result input.new.now (many_at identity_at count input.old.now) }
{
    let mut ids = Vec::new(alloc);
    for _ in 0..count {
        ids.push(identity(alloc, input)?)?;
    }
    Ok(Ids::new(ids))
}

/// The identities after their count, which is -1 for null.
fn identities_of(alloc: Global, count: i32, input: &mut &[u8]) -> Result<Option<Ids>, JuteFault>
    ensures { Takes result input.new.now (identities_of count input.old.now) }
{
    if count == -1 {
        return Ok(None);
    }
    let count = u32::try_from(count).map_err(|_| JuteFault::Length)?;
    Ok(Some(some_identities(alloc, count, input)?))
}

#[tactic(auto, unfolding(crate::specs::Reading::identities_at))]
fn identities(alloc: Global, input: &mut &[u8]) -> Result<Option<Ids>, JuteFault>
    ensures { Takes result input.new.now (identities_at input.old.now) }
{
    let count = int(input)?;
    identities_of(alloc, count, input)
}

#[tactic(auto, unfolding(crate::specs::Reading::packet_at))]
pub(crate) fn packet(alloc: Global, input: &mut &[u8]) -> Result<QuorumPacket, JuteFault>
    ensures { Takes result input.new.now (packet_at input.old.now) }
{
    let kind = int(input)?;
    let zxid = long(input)?;
    let content = data(alloc, input)?;
    let authinfo = identities(alloc, input)?;
    Ok(QuorumPacket {
        kind,
        zxid,
        content,
        authinfo,
    })
}
