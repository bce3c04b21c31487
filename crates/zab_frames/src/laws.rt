//! Laws of streams: functions without code, whose contracts are theorems.

ghost use Rattle.zab_frames.specs.Streams.{DecodingComposes, DecodingIsExact, FramesAreOfOne};

/// A stream decodes to the same messages in whatever chunks it comes: what two chunks decode to,
/// one after the other, is what they decode to as one.
pub fn decoding_composes()
    ensures { DecodingComposes }
{}

/// Each prefix of the frames of messages decodes to a prefix of the messages, without a fault.
pub fn decoding_is_exact()
    ensures { DecodingIsExact }
{}

/// Two messages have different frames, and no frame is a proper prefix of another.
pub fn frames_are_of_one()
    ensures { FramesAreOfOne }
{}
