//! Two of three hosts whose calls are tags, turned in one thread.

ghost use Rattle.std.specs.Prelude.{IfSome};
ghost use Rattle.zab_epoch.specs.Shortness.{IsShortBody};

use std::alloc::Global;
use zab_broadcast::{Caught, Echo, EchoCall};
use zab_epoch::{Majority, Message, Messages};
use zab_host::{Host, HostFault, MemoryStorage, StoreFault, is_append_only};

pub type EchoHost = Host<Echo, MemoryStorage>;

/// Two of three hosts are a quorum.
pub const QUORUMS: Majority = Majority { servers: 3 };

/// The zxid of the first entry of the first epoch.
pub const FIRST: i64 = 0x1_0000_0001;

/// Starts host `me` of three on a store.
pub fn start(alloc: Global, me: usize, storage: MemoryStorage) -> Result<EchoHost, StoreFault> {
    Host::start(alloc, 3, me, storage)
}

/// Returns one of some messages, borrowed.
#[tactic(auto, using(zab_epoch::proofs::Shortness::short_at))]
pub fn find(messages: &Messages<EchoCall>, place: usize) -> Option<&Message<EchoCall>>
    ensures { IfSome result (λ message. IsShortBody message.now.body) }
{
    messages.as_slice().get(place)
}

/// A host receives a message, or rejects it.
fn receive(alloc: Global, host: &mut EchoHost, message: &Message<EchoCall>) -> bool
    requires { IsShortBody message.now.body }
{
    if is_append_only(&message.body) {
        host.receive(alloc, &QUORUMS, message).is_ok()
    } else {
        host.receive_and_store(alloc, &QUORUMS, message).is_ok()
    }
}

/// A host receives all messages. Whether it accepts each.
fn receive_all(alloc: Global, host: &mut EchoHost, messages: &Messages<EchoCall>) -> bool {
    for place in 0..messages.len() {
        let Some(message) = find(messages, place) else {
            return false;
        };
        if !receive(alloc, host, message) {
            return false;
        }
    }
    true
}

/// One host releases its messages to the other. Returns how many.
fn pass(alloc: Global, from: &mut EchoHost, to: &mut EchoHost) -> Option<usize> {
    match from.release(alloc) {
        Ok(messages) => {
            let count = messages.len();
            if receive_all(alloc, to, &messages) {
                Some(count)
            } else {
                None
            }
        }
        Err(_) => None,
    }
}

/// Two hosts exchange messages until neither has one. Whether that happens within 20 rounds.
pub fn settle(alloc: Global, one: &mut EchoHost, other: &mut EchoHost) -> bool {
    for _ in 0..20 {
        match (pass(alloc, one, other), pass(alloc, other, one)) {
            (Some(0), Some(0)) => return true,
            (Some(_), Some(_)) => (),
            _ => return false,
        }
    }
    false
}

/// Host 1 leads and host 2 follows it. Whether both accept calls then.
pub fn elect(alloc: Global, one: &mut EchoHost, two: &mut EchoHost) -> bool {
    one.lead(alloc, &QUORUMS).is_ok()
        && two.follow(alloc, &QUORUMS, 1).is_ok()
        && settle(alloc, one, two)
        && one.is_serving()
        && two.is_serving()
}

/// Whether a host that has no messages has delivered entries with these tags.
pub fn has_delivered(alloc: Global, host: &mut EchoHost, tags: &[u64]) -> bool {
    match host.release(alloc) {
        Ok(messages) => messages.len() == 0 && host.delivered().tags() == tags,
        Err(_) => false,
    }
}

/// Whether a host that has no messages has completed these syncs, which are taken.
pub fn has_synced(alloc: Global, host: &mut EchoHost, syncs: &[Caught]) -> bool {
    match host.release(alloc) {
        Ok(messages) => {
            messages.len() == 0
                && host.syncs() == syncs
                && host.take_syncs(alloc).as_slice() == syncs
        }
        Err(_) => false,
    }
}

/// Whether a fault is displayed so.
pub fn is_displayed<F: std::fmt::Display>(alloc: Global, fault: &F, text: &str) -> bool {
    matches!(format!(in alloc; "{fault}"), Ok(shown) if shown.as_str() == text)
}

/// Whether an input is rejected with this fault.
pub fn is_rejected(alloc: Global, outcome: Result<(), HostFault>, text: &str) -> bool {
    match outcome {
        Ok(()) => false,
        Err(fault) => is_displayed(alloc, &fault, text),
    }
}
