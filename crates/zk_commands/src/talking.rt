//! A session, line by line.
ghost use Rattle.std.specs.Prelude.{◌≡◌, ◌-◌, ◌<◌, ◌^◌, ℕ, List, IfOk, Ok};
ghost use Rattle.std.specs.String.{string_bytes};
ghost use Rattle.zk_records.specs.Sinks.{writer_of, write_failures_of};
ghost use Rattle.zk_log.specs.Devices.{reader_of, reads_of, read_failures_of};
ghost use Rattle.zk_commands.specs.declared.session.Turn.TheVariants as turns;
ghost use Rattle.zk_commands.specs.HearingLines.{ReadsSo};
ghost use Rattle.zk_commands.specs.Lines.{Holds};
ghost use Rattle.zk_commands.specs.Talking.{AppendsHeard, PutsAnswer, TakesTurn, Talked, WritesSo};

use crate::answering::answer_line;
use crate::hearing_lines::{ReadLine, hear_line};
use crate::line::Line;
use crate::prompting::put_prompt;
use crate::session::{Session, TalkFault, Turn};
use std::alloc::Global;
use std::io::{Read, Write};
use zk_log::{Sink, Source};
use zk_path::NoMemory;

/// Reads lines and writes the output for each before it reads the next, up to `quit` or the end of
/// the input.
pub(crate) fn talk<L: Read, O: Write>(
    alloc: Global,
    session: &mut Session,
    prompts: bool,
    lines: &mut Source<L>,
    line: &mut Line,
    output: &mut Sink<O>,
) -> Result<(), TalkFault>
    requires reads { read_failures_of lines.old < 2 ^ 64 - 1 }
    requires writes { write_failures_of output.old < 2 ^ 64 - 1 }
    ensures talked { Talked prompts session.old (L.remaining (reader_of lines.old)) (L.remaining (reader_of lines.new))
        (O.contents (writer_of output.old)) (O.contents (writer_of output.new)) result session.new }
    ensures reads { ReadsSo lines.old result lines.new }
    ensures writes { WritesSo output.old result output.new }
{
    'turns: loop {
        match take_turn(alloc, session, prompts, lines, line, output)? {
            Turn::GoesOn => {}
            Turn::Ends => return Ok(()),
        }
    }
}

/// Writes the prompt, reads a line, and writes its output.
fn take_turn<L: Read, O: Write>(
    alloc: Global,
    session: &mut Session,
    prompts: bool,
    lines: &mut Source<L>,
    line: &mut Line,
    output: &mut Sink<O>,
) -> Result<Turn, TalkFault>
    requires reads { read_failures_of lines.old < 2 ^ 64 - 1 }
    requires writes { write_failures_of output.old < 2 ^ 64 - 1 }
    ensures turn { TakesTurn prompts session.old (L.remaining (reader_of lines.old)) (L.remaining (reader_of lines.new))
        (O.contents (writer_of output.old)) (O.contents (writer_of output.new)) result session.new }
    ensures reads { ReadsSo lines.old result lines.new }
    ensures writes { WritesSo output.old result output.new }
    ensures more { IfOk result (λ turn. reads_of lines.old < reads_of lines.new) }
    ensures room { IfOk result (λ turn. reads_of lines.old < 2 ^ 64 - 1) }
{
    put_prompt(session, prompts, output)?;
    match hear_line(lines, line)? {
        ReadLine::Line => put_answer(alloc, session, line, output),
        ReadLine::End => Ok(Turn::Ends),
    }
}

/// Writes the output for a line that was read.
fn put_answer<O: Write>(
    alloc: Global,
    session: &mut Session,
    line: &Line,
    output: &mut Sink<O>,
) -> Result<Turn, TalkFault>
    requires { write_failures_of output.old < 2 ^ 64 - 1 }
    ensures answer { (text : List ℕ) → Holds line.now text → PutsAnswer session.old text
        (O.contents (writer_of output.old)) (O.contents (writer_of output.new)) result session.new }
    ensures writes { WritesSo output.old result output.new }
{
    let mut page = String::new(alloc);
    let turn = answer_heard(session, line, &mut page)?;
    output.write_all(page.as_bytes())?;
    Ok(turn)
}

/// Appends the output for a line that was read.
fn answer_heard(session: &mut Session, line: &Line, page: &mut String) -> Result<Turn, NoMemory>
    ensures { IfOk result (λ turn. (text : List ℕ) → Holds line.now text
        → AppendsHeard session.old text (string_bytes page.old) (string_bytes page.new) turn session.new) }
{
    if line.is_long {
        page.push_str("? a line of at most 65,536 bytes\n")?;
        return Ok(Turn::GoesOn);
    }
    answer_line(session, line.bytes.as_slice(), page)
}
