//! Links of bytes.

use crate::wires::{Wires, start, start_peer};
use std::alloc::Global;
use zab_epoch::Messages;
use zab_host::Vote;
use zk_peer_links::{Arrival, Chunk, LinkInput, Links, Notice, SessionNews, SessionNotice};

/// The frame of the notice of server 1 that has just started: 48 bytes of contents, their Adler-32, that
/// of the header, and the contents: sender 1, addressee 0, kind 12, round 0, epoch 0, zxid 0, leader 0.
/// The checksums are those of Python's `zlib.adler32`.
const NOTICE: [u8; 64] = [
    0, 0, 0, 0, 0, 0, 0, 48, 1, 181, 0, 14, 3, 45, 0, 245, 0, 0, 0, 0, 0, 0, 0, 1, 0, 0, 0, 0, 0,
    0, 0, 0, 0, 0, 0, 12, 0, 0, 0, 0, 0, 0, 0, 0, 0, 0, 0, 0, 0, 0, 0, 0, 0, 0, 0, 0, 0, 0, 0, 0,
    0, 0, 0, 0,
];

/// The frame of server 2's notice to server 1 that it has heard of session 0x100000001, whose timeout is
/// six seconds: 32 bytes of contents, and the checksums as above.
const TOUCHED: [u8; 48] = [
    0, 0, 0, 0, 0, 0, 0, 32, 1, 197, 0, 155, 3, 154, 1, 130, 0, 0, 0, 0, 0, 0, 0, 2, 0, 0, 0, 0, 0,
    0, 0, 1, 0, 0, 0, 14, 0, 0, 0, 1, 0, 0, 0, 1, 0, 0, 23, 112,
];

const TOUCH: SessionNotice = SessionNotice {
    sender: 2,
    addressee: 1,
    news: SessionNews::Touched,
    session: 0x1_0000_0001,
    timeout: 6000,
};

/// What server 2 writes to server 1 of a notice about a session, after that of its election.
fn written_of(alloc: Global, session: SessionNotice) -> Option<Vec<u8>> {
    let mut links = Links::new(alloc, 2, 3).ok()?;
    let inputs = [LinkInput::Opened { peer: 1, line: 7 }];
    links.hear(alloc, &inputs).ok()?;
    let notice = Notice {
        round: 0,
        vote: Vote {
            epoch: 0,
            zxid: 0,
            server: 2,
        },
        leader: 0,
    };
    let outputs = links
        .write(alloc, &notice, &[session], &Messages::new(alloc))
        .ok()?;
    let mut later = Vec::new(alloc);
    for byte in outputs.first()?.as_slice().iter().skip(NOTICE.len()) {
        later.push(*byte).ok()?;
    }
    Some(later)
}

/// What these bytes bring server 1 of sessions, if that is one notice.
fn heard_of(alloc: Global, bytes: Vec<u8>) -> Option<SessionNotice> {
    let mut links = Links::new(alloc, 1, 3).ok()?;
    let inputs = [
        LinkInput::Opened { peer: 2, line: 9 },
        LinkInput::Brought {
            line: 9,
            bytes: Chunk::new(bytes),
        },
    ];
    let heard = links.hear(alloc, &inputs).ok()?;
    match heard.arrivals.get(1)? {
        Arrival::Session(notice) => Some(*notice),
        _ => None,
    }
}

#[test]
fn a_notice_about_a_session_is_its_bytes(rt: HostRuntime) {
    let alloc = rt.alloc();
    let Some(bytes) = written_of(alloc, TOUCH) else {
        return;
    };
    assert!(rt; bytes.as_slice() == TOUCHED.as_slice());
    assert!(rt; heard_of(alloc, bytes) == Some(TOUCH));
}

#[test]
fn a_new_connection_hears_the_notice(rt: HostRuntime) {
    let alloc = rt.alloc();
    let Some(mut peer) = start_peer(alloc, 1) else {
        return;
    };
    let inputs = [LinkInput::Opened { peer: 2, line: 7 }];
    let Ok(written) = peer.turn(alloc, &inputs) else {
        return;
    };
    assert!(rt; written.ended.is_empty());
    for (place, chunk) in written.outputs.iter().enumerate() {
        let expected: &[u8] = if place == 1 { &NOTICE } else { &[] };
        assert!(rt; chunk.as_slice() == expected);
    }
}

#[test]
fn a_wrong_frame_ends_its_connection_alone(rt: HostRuntime) {
    let alloc = rt.alloc();
    let Some(mut peer) = start_peer(alloc, 1) else {
        return;
    };
    let Ok(zeros) = Vec::from_slice(alloc, &[0u8; 16]) else {
        return;
    };
    let inputs = [
        LinkInput::Opened { peer: 2, line: 7 },
        LinkInput::Opened { peer: 3, line: 8 },
        LinkInput::Brought {
            line: 7,
            bytes: Chunk::new(zeros),
        },
    ];
    let Ok(written) = peer.turn(alloc, &inputs) else {
        return;
    };
    assert!(rt; written.ended.as_slice() == [7u64].as_slice());
    for (place, chunk) in written.outputs.iter().enumerate() {
        let expected: &[u8] = if place == 2 { &NOTICE } else { &[] };
        assert!(rt; chunk.as_slice() == expected);
    }
}

#[test]
fn servers_agree_over_connections_that_are_cut_at_any_byte(rt: HostRuntime) {
    let alloc = rt.alloc();
    for seed in 1..=8u64 {
        let Some(mut wires) = start(alloc, seed) else {
            return;
        };
        assert!(rt; wires.rounds(60, 9, 40).is_some());
        assert!(rt; wires.rounds(60, 0, 100).is_some());
        assert!(rt; wires.agree());
    }
}

/// How many calls the servers forward.
const CALLS: u64 = 40;

/// Whether all servers serve under one leader all the time, while calls are forwarded to it.
fn stay_under(wires: &mut Wires, leader: usize) -> bool {
    let from = if leader == 1 { 2 } else { 1 };
    for tag in 1..=CALLS {
        let forwarded = wires.forward(from, leader, tag).is_some();
        if !forwarded || !wires.stay(4, 200) || wires.leader() != leader {
            return false;
        }
    }
    wires.stay(40, 400)
}

#[test]
fn followers_stay_with_their_leader_while_entries_come(rt: HostRuntime) {
    let alloc = rt.alloc();
    for seed in 1..=8u64 {
        let Some(mut wires) = start(alloc, seed) else {
            return;
        };
        assert!(rt; wires.rounds(60, 0, 100).is_some());
        assert!(rt; wires.agree());
        let leader = wires.leader();
        assert!(rt; stay_under(&mut wires, leader));
        // The epoch is the upper half of a zxid, and the number of the entry in its epoch the lower.
        let last = (1i64 << 32) + CALLS as i64;
        assert!(rt; wires.last_zxids().as_slice() == [last, last, last].as_slice());
    }
}
