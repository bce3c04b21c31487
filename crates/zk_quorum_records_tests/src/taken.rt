//! What a decoder takes of a stream.

ghost use Rattle.std.specs.Prelude.{◌<◌};

use std::alloc::Global;
use zk_quorum_records::{DecodeFault, Decoder, Item, Phase};

/// How many items of each kind were taken, and the types and zxids of the packets.
#[derive(Drop)]
pub struct Taken {
    pub packets: Vec<(i32, i64)>,
    pub sessions: usize,
    pub lists: usize,
    pub nodes: usize,
    pub signatures: usize,
    pub hellos: usize,
    pub notifications: usize,
    /// The bytes that wait.
    pub waiting: usize,
}

impl Taken {
    fn nothing(alloc: Global) -> Taken {
        Taken {
            packets: Vec::new(alloc),
            sessions: 0,
            lists: 0,
            nodes: 0,
            signatures: 0,
            hellos: 0,
            notifications: 0,
            waiting: 0,
        }
    }

    /// Whether there was memory for the item.
    fn count(&mut self, item: &Item) -> bool {
        match item {
            Item::Packet(packet) => {
                return self.packets.push((packet.kind, packet.zxid)).is_ok();
            }
            Item::Session(_) => self.sessions = self.sessions.saturating_add(1),
            Item::Access(_) => self.lists = self.lists.saturating_add(1),
            Item::Node(_) => self.nodes = self.nodes.saturating_add(1),
            Item::Signature => self.signatures = self.signatures.saturating_add(1),
            Item::Hello(_) => self.hellos = self.hellos.saturating_add(1),
            Item::Notification(_) => self.notifications = self.notifications.saturating_add(1),
            _ => (),
        }
        true
    }
}

/// Takes what is whole; returns `false` at a fault.
fn take_whole(alloc: Global, decoder: &mut Decoder, taken: &mut Taken) -> bool {
    for _ in 0..decoder.rest().len() {
        match decoder.next(alloc) {
            Ok(Some(item)) => {
                if !taken.count(&item) {
                    return false;
                }
            }
            Ok(None) => return true,
            Err(_) => return false,
        }
    }
    true
}

/// What is taken of a stream that comes in chunks of some bytes; `None` at a fault.
pub fn take_chunks(alloc: Global, bytes: &[u8], phase: Phase, size: usize) -> Option<Taken>
    requires { 0 < size }
{
    let mut decoder = Decoder::new(alloc, phase);
    let mut taken = Taken::nothing(alloc);
    for chunk in bytes.chunks(size) {
        if decoder.push(chunk).is_err() || !take_whole(alloc, &mut decoder, &mut taken) {
            return None;
        }
    }
    taken.waiting = decoder.rest().len();
    Some(taken)
}

/// The fault at which a stream ends.
pub fn fault_of(alloc: Global, bytes: &[u8], phase: Phase) -> Option<DecodeFault> {
    let mut decoder = Decoder::new(alloc, phase);
    decoder.push(bytes).ok()?;
    for _ in 0..bytes.len() {
        match decoder.next(alloc) {
            Ok(Some(_)) => (),
            Ok(None) => return None,
            Err(fault) => return Some(fault),
        }
    }
    None
}
