//! The frames of messages between servers.

use crate::frames;
use crate::sent::{Decoded, append, decode, message, request};
use std::alloc::Global;
use zab_epoch::Message;
use zab_frames::{BadFrame, DecodeFault, Decoder, FrameFault, HEADER, first_frame, write_frame};
use zk_requests::Call;

/// The frames of messages that are no requests, by kind.
static MESSAGES: [(u32, &[u8]); 10] = [
    (1, frames::C_EPOCH),
    (2, frames::NEW_EPOCH),
    (3, frames::ACK_EPOCH),
    (4, frames::NEW_LEADER),
    (5, frames::ACK_LEADER),
    (6, frames::PROPOSE),
    (7, frames::ACK),
    (8, frames::COMMIT),
    (10, frames::SYNC_ASK),
    (11, frames::SYNC_TELL),
];

/// The frames of requests.
static REQUESTS: [&[u8]; 7] = [
    frames::CREATE,
    frames::DELETE,
    frames::SET_DATA,
    frames::SET_ACL,
    frames::MULTI,
    frames::OPEN_SESSION,
    frames::CLOSE_SESSION,
];

/// Whether a message is written as this frame, and read from it.
fn has_frame(alloc: Global, message: &Message<Call>, frame: &[u8]) -> bool {
    let mut out = Vec::new(alloc);
    append(alloc, &mut out, message) && out.as_slice() == frame && is_read(alloc, message, frame)
}

/// Whether a frame that comes in two chunks is read as a message, as both are shown.
fn is_read(alloc: Global, message: &Message<Call>, frame: &[u8]) -> bool {
    let (first, second) = frame.split_at(frame.len() / 2);
    let mut decoder = Decoder::new(alloc);
    if decoder.push(first).is_err() || !matches!(decoder.next(alloc), Ok(None)) {
        return false;
    }
    if decoder.push(second).is_err() {
        return false;
    }
    let Ok(Some(read)) = decoder.next(alloc) else {
        return false;
    };
    let (Ok(one), Ok(other)) = (
        format!(in alloc; "{message:?}"),
        format!(in alloc; "{read:?}"),
    ) else {
        return false;
    };
    one.as_str() == other.as_str() && decoder.rest().is_empty()
}

#[test]
fn each_message_has_its_frame(rt: HostRuntime) {
    for (kind, frame) in &MESSAGES {
        let Ok(Some(message)) = message(rt.alloc(), *kind) else {
            panic!(rt; "{kind}");
        };
        assert!(rt; has_frame(rt.alloc(), &message, frame), "{kind}");
    }
    for index in 0..REQUESTS.len() {
        let Ok(message) = request(rt.alloc(), index) else {
            panic!(rt; "{index}");
        };
        assert!(rt; has_frame(rt.alloc(), &message, REQUESTS[index]), "{index}");
    }
}

/// All the frames, one after the other.
fn stream(alloc: Global) -> Option<Vec<u8>> {
    let mut stream = Vec::new(alloc);
    for (_, frame) in &MESSAGES {
        stream.extend_from_slice(frame).ok()?;
    }
    for frame in &REQUESTS {
        stream.extend_from_slice(frame).ok()?;
    }
    Some(stream)
}

/// How many frames of the stream are whole in its first bytes.
fn whole_frames(count: usize) -> usize {
    let mut end: usize = 0;
    let mut whole: usize = 0;
    for (_, frame) in &MESSAGES {
        end = end.saturating_add(frame.len());
        if end <= count {
            whole = whole.saturating_add(1);
        }
    }
    for frame in &REQUESTS {
        end = end.saturating_add(frame.len());
        if end <= count {
            whole = whole.saturating_add(1);
        }
    }
    whole
}

#[test]
fn each_prefix_of_a_stream_has_the_whole_frames(rt: HostRuntime) {
    let Some(stream) = stream(rt.alloc()) else {
        panic!(rt; "no memory");
    };
    let bytes = stream.as_slice();
    for count in 0..bytes.len() {
        let decoded = decode(rt.alloc(), &bytes[..count / 3], &bytes[count / 3..count]);
        let wanted = Decoded {
            messages: whole_frames(count),
            broken: false,
        };
        assert!(rt; decoded == Some(wanted), "{count}");
    }
}

/// Whether the first frames of a stream are read, and no more, if the byte at a place is another.
fn stops_at(alloc: Global, stream: &mut [u8], place: usize) -> bool {
    if place >= stream.len() {
        return false;
    }
    stream[place] ^= 0x40;
    let (first, second) = stream.split_at(place);
    let decoded = decode(alloc, first, second);
    stream[place] ^= 0x40;
    matches!(decoded, Some(decoded) if decoded.broken && decoded.messages == whole_frames(place))
}

#[test]
fn each_changed_byte_is_a_fault(rt: HostRuntime) {
    let Some(mut stream) = stream(rt.alloc()) else {
        panic!(rt; "no memory");
    };
    for place in 0..stream.len() {
        assert!(rt;
            stops_at(rt.alloc(), stream.as_mut_slice(), place),
            "{place}"
        );
    }
}

/// Contents that are no message, after a message's frame; and the fault of a second call.
fn faults(alloc: Global) -> Option<[DecodeFault; 2]> {
    let mut stream = Vec::new(alloc);
    stream.extend_from_slice(frames::ACK).ok()?;
    write_frame(alloc, &mut stream, b"no message").ok()?;
    let mut decoder = Decoder::new(alloc);
    decoder.push(stream.as_slice()).ok()?;
    decoder.next(alloc).ok()?;
    Some([decoder.next(alloc).err()?, decoder.next(alloc).err()?])
}

#[test]
fn a_fault_has_its_place(rt: HostRuntime) {
    let bad = DecodeFault::Broken(BadFrame {
        place: 48,
        fault: FrameFault::Contents,
    });
    assert!(rt; faults(rt.alloc()) == Some([bad, bad]));
    assert_eq!(rt; HEADER, 16);
    assert!(rt; matches!(first_frame(&frames::ACK[..47]), Ok(None)));
    assert!(rt; matches!(first_frame(frames::ACK), Ok(Some(contents)) if contents.len() == 32));
}
