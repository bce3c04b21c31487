//! Laws of streams: functions without code, whose contracts are theorems.

ghost use Rattle.zk_quorum_records.specs.Streams.{DecodingComposes, DecodingIsExact, ItemsAreOfOne};

/// Bytes decode to the same items in chunks of any size: what two chunks decode to, one after
/// the other, is what they decode to as one.
pub fn decoding_composes()
    ensures { DecodingComposes }
{}

/// Each prefix of the bytes of items decodes to a prefix of the items, without a fault.
pub fn decoding_is_exact()
    ensures { DecodingIsExact }
{}

/// In a phase, two items have different bytes, and those of no item begin those of another.
pub fn items_are_of_one()
    ensures { ItemsAreOfOne }
{}
