//! Reading a line.
ghost use Rattle.std.specs.Prelude.{◌≡◌, ◌-◌, ◌<◌, ◌^◌, IfOk};
ghost use Rattle.zk_log.specs.Devices.{reader_of, reads_of, read_failures_of};
ghost use Rattle.zk_commands.specs.HearingLines.{HeardAtEnd, Hears, ReadsSo};

use crate::hearing_bytes::next_byte;
use crate::line::Line;
use crate::session::TalkFault;
use std::io::Read;
use zk_log::Source;

/// The result of reading a line.
#[derive(Clone, Copy, Debug, PartialEq, Eq)]
pub(crate) enum ReadLine {
    Line,
    /// The end of the input.
    End,
}

/// Reads a line up to its newline, or up to the end of the input, and no byte after it.
pub(crate) fn hear_line<L: Read>(
    lines: &mut Source<L>,
    line: &mut Line,
) -> Result<ReadLine, TalkFault>
    requires { read_failures_of lines.old < 2 ^ 64 - 1 }
    ensures heard { Hears (L.remaining (reader_of lines.old)) (L.remaining (reader_of lines.new)) line.new result }
    ensures so { ReadsSo lines.old result lines.new }
    ensures more { IfOk result (λ heard. reads_of lines.old < reads_of lines.new) }
    ensures room { IfOk result (λ heard. reads_of lines.old < 2 ^ 64 - 1) }
{
    line.begin();
    'bytes: while lines.reads() < u64::MAX {
        match next_byte(lines)? {
            None => return Ok(heard_at_end(line)),
            Some(b'\n') => return Ok(ReadLine::Line),
            Some(byte) => line.push(byte)?,
        }
    }
    Err(TalkFault::Read)
}

/// The result at the end of the input: the last line may have no newline.
fn heard_at_end(line: &Line) -> ReadLine
    ensures { HeardAtEnd line.now result }
{
    if line.is_long || !line.bytes.is_empty() {
        return ReadLine::Line;
    }
    ReadLine::End
}
