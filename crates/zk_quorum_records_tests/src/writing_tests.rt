//! Packets are written as they came.

use crate::streams;
use std::alloc::Global;
use zk_quorum_records::{Decoder, Item, Phase, QuorumPacket, write_packet};

/// Whether a packet is written as these bytes.
fn is_written_as(alloc: Global, packet: &QuorumPacket, bytes: &[u8]) -> bool {
    match write_packet(alloc, packet) {
        Ok(written) => written.as_slice() == bytes,
        Err(_) => false,
    }
}

/// How many packets of a stream were taken, if each is written as the bytes that it was read from.
fn count_rewritten(alloc: Global, bytes: &[u8]) -> Option<usize> {
    let mut decoder = Decoder::new(alloc, Phase::Packets);
    decoder.push(bytes).ok()?;
    let mut count: usize = 0;
    for _ in 0..bytes.len() {
        let from = decoder.taken() as usize;
        let found = decoder.next(alloc).ok()?;
        let Some(item) = found else {
            return Some(count);
        };
        let to = decoder.taken() as usize;
        if from > to || to > bytes.len() {
            return None;
        }
        if let Item::Packet(packet) = &item {
            if !is_written_as(alloc, packet, &bytes[from..to]) {
                return None;
            }
            count = count.saturating_add(1);
        }
    }
    Some(count)
}

#[test]
fn packets_are_written_as_they_came(rt: HostRuntime) {
    let alloc = rt.alloc();
    assert!(rt; count_rewritten(alloc, streams::LEADER) == Some(6));
    assert!(rt; count_rewritten(alloc, streams::LEARNER) == Some(6));
    assert!(rt; count_rewritten(alloc, streams::FOLLOWED) == Some(16));
    assert!(rt; count_rewritten(alloc, streams::OBSERVER) == Some(11));
}
