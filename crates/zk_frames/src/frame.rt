//! Where frames begin and end.

ghost use Rattle.std.specs.Prelude.{◌≡◌};
ghost use Rattle.zk_frames.specs.Frames.{next_frame_in};

use crate::fault::FrameFault;
use bytes::Buf;

/// The most bytes of a frame from a client: `jute.maxbuffer`.
pub const MOST_BYTES: usize = 1_048_575;

/// The length of the first frame, without the four bytes that state it. `None` if more bytes are
/// needed.
///
/// Fails with [`FrameFault::Length`] if the length is negative or more than [`MOST_BYTES`].
pub fn next_frame(bytes: &[u8]) -> Result<Option<usize>, FrameFault>
    ensures { result ≡ next_frame_in bytes.now }
{
    let mut rest = bytes;
    let Ok(length) = rest.try_get_i32() else {
        return Ok(None);
    };
    let Ok(length) = usize::try_from(length) else {
        return Err(FrameFault::Length);
    };
    if length > MOST_BYTES {
        return Err(FrameFault::Length);
    }
    if rest.len() < length {
        return Ok(None);
    }
    Ok(Some(length))
}
