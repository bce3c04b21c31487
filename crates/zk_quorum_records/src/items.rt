//! One item of a stream, read from the start of the remaining bytes.

ghost use Rattle.zk_jute.specs.Reading.{Takes};
ghost use Rattle.zk_quorum_records.specs.Reading.{AreBytes, item_at};

use crate::elections::{hello, notification};
use crate::item::{Item, Phase};
use crate::packets::packet;
use crate::tree::{access, node_or_end, session, signature};
use std::alloc::Global;
use zk_jute::JuteFault;
use zk_jute::fields::count;

pub(crate) fn read_item(alloc: Global, phase: Phase, input: &mut &[u8]) -> Result<Item, JuteFault>
    ensures { Takes result input.new.now (item_at phase input.old.now) }
{
    match phase {
        Phase::Packets => Ok(Item::Packet(packet(alloc, input)?)),
        Phase::SessionCount => Ok(Item::SessionCount(count(input)?)),
        Phase::Sessions(_) => Ok(Item::Session(session(input)?)),
        Phase::AccessCount => Ok(Item::AccessCount(count(input)?)),
        Phase::Accesses(_) => Ok(Item::Access(access(alloc, input)?)),
        Phase::Nodes => node_or_end(alloc, input),
        Phase::Signature => signature(input),
        Phase::Hello => Ok(Item::Hello(hello(alloc, input)?)),
        Phase::Notifications => Ok(Item::Notification(notification(alloc, input)?)),
    }
}

/// Each byte is below 256.
pub(crate) fn are_bytes(bytes: &[u8])
    ensures { AreBytes bytes.now }
{
    let _bytes = bytes;
}
