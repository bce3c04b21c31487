ghost use Rattle.std.specs.Prelude.{◌≡◌, ◌+◌, ◌-◌, ◌<◌, ◌≤◌, ◌^◌, length, IfOk};
ghost use Rattle.std.specs.String.{string_bytes};
ghost use Rattle.zk_log_commands.specs.Reading.{ReadsAll, TellsRead};
ghost use Rattle.zk_log_commands.specs.declared.text.TextFault.TheVariants as faults;
ghost use Rattle.zk_log.specs.Devices.{AsksAtMost, reader_of, reads_of, read_failures_of};

use std::alloc::{AllocError, Global};
use std::io::Read;
use zk_log::Source;

/// The maximum number of bytes of a read.
const PIECE: usize = 65_536;

/// Why a text could not be read.
#[derive(Clone, Copy, Debug, PartialEq, Eq)]
pub enum TextFault {
    /// A read failed, or all turns were used before the end.
    Read,
    /// The bytes are not UTF-8.
    Utf8,
    /// An allocation failed.
    NoMemory,
}

impl From<AllocError> for TextFault {
    ghost from_gives = { λ _ fault. fault ≡ faults.NoMemory };

    fn from(_refused: AllocError) -> TextFault {
        TextFault::NoMemory
    }
}

/// Reads a text to its end, by at most `turns` reads of at most 65,536 bytes.
pub fn read_text<F: Read>(
    alloc: Global,
    source: &mut Source<F>,
    turns: u32,
) -> Result<String, TextFault>
    requires reads { reads_of source.old + turns < 2 ^ 64 }
    requires failures { read_failures_of source.old < 2 ^ 64 - 1 }
    ensures text { ReadsAll string_bytes (F.remaining (reader_of source.old)) result }
    ensures tells { TellsRead source.old turns result source.new }
    ensures asks { AsksAtMost 65536 source.old source.new }
    ensures reads { reads_of source.new ≤ reads_of source.old + turns }
{
    let mut piece = new_piece(alloc)?;
    let bytes = read_bytes(alloc, source, piece.as_mut_slice(), turns)?;
    String::from_utf8(bytes).map_err(|_| TextFault::Utf8)
}

/// The buffer for one read.
fn new_piece(alloc: Global) -> Result<Vec<u8>, AllocError>
    ensures some { IfOk result (λ piece. 0 < length piece.items) }
    ensures most { IfOk result (λ piece. length piece.items ≤ 65536) }
{
    vec![in alloc; 0; PIECE]
}

/// Reads bytes to their end, in chunks.
fn read_bytes<F: Read>(
    alloc: Global,
    source: &mut Source<F>,
    piece: &mut [u8],
    turns: u32,
) -> Result<Vec<u8>, TextFault>
    requires some { 0 < length piece.old }
    requires most { length piece.old ≤ 65536 }
    requires reads { reads_of source.old + turns < 2 ^ 64 }
    requires failures { read_failures_of source.old < 2 ^ 64 - 1 }
    ensures bytes { ReadsAll (λ bytes. bytes.items) (F.remaining (reader_of source.old)) result }
    ensures tells { TellsRead source.old turns result source.new }
    ensures asks { AsksAtMost 65536 source.old source.new }
    ensures reads { reads_of source.new ≤ reads_of source.old + turns }
{
    let mut bytes = Vec::new(alloc);
    let mut left = turns;
    'reads: while left > 0 {
        left -= 1;
        match source.read(piece) {
            Err(_) => return Err(TextFault::Read),
            Ok(0) => return Ok(bytes),
            Ok(count) => bytes.extend_from_slice(&piece[..count])?,
        }
    }
    Err(TextFault::Read)
}
