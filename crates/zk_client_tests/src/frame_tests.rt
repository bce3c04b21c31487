//! Where frames begin and end.

use zk_frames::{FrameFault, MOST_BYTES, next_frame};

/// The first bytes of a connection, and the length of the first frame.
static FRAMES: [(&[u8], Result<Option<usize>, FrameFault>); 8] = [
    (b"", Ok(None)),
    (b"\0\0\0", Ok(None)),
    (b"\0\0\0\0", Ok(Some(0))),
    (b"\0\0\0\x02\x01", Ok(None)),
    (b"\0\0\0\x02\x01\x02\0", Ok(Some(2))),
    // the greatest length, one more, and -1
    (b"\0\x0f\xff\xff", Ok(None)),
    (b"\0\x10\0\0", Err(FrameFault::Length)),
    (b"\xff\xff\xff\xff", Err(FrameFault::Length)),
];

#[test]
fn frames_are_cut_at_their_lengths(rt: HostRuntime) {
    for (bytes, length) in &FRAMES {
        assert!(rt; next_frame(bytes) == *length, "{bytes:?}");
    }
    assert!(rt; MOST_BYTES == 1_048_575);
}
