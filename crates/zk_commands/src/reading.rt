//! The lines that are not commands of a script.
ghost use Rattle.std.specs.Prelude.{◌≡◌, Some};
ghost use Rattle.zk_debug.specs.Reading.{Makes};
ghost use Rattle.zk_commands.specs.Words.{break_by, own_alone, own_break, own_from, own_if, own_with};

use crate::repl_command::ReplCommand;
use std::alloc::Global;
use zk_debug::{Breakpoint, Command, CommandFault, read_number, read_path};

/// The number of lines that `list` without a number shows before and after the place.
const AROUND: u32 = 5;

/// The command of a line that is not a command of a script.
#[tactic(auto, unfolding(crate::specs::Words::own_from))]
pub(crate) fn own_of(alloc: Global, line: &str) -> Result<ReplCommand, CommandFault>
    ensures { Makes result (own_from line.now) }
{
    match line.split_once(' ') {
        None => own_alone(line),
        Some((word, field)) => own_with(alloc, word, field),
    }
}

#[tactic(auto, unfolding(crate::specs::Words::own_alone))]
fn own_alone(word: &str) -> Result<ReplCommand, CommandFault>
    ensures { Makes result (own_alone word.now) }
{
    match word {
        "help" => Ok(ReplCommand::Help),
        "list" => Ok(ReplCommand::Around(AROUND)),
        "diff" => Ok(ReplCommand::Diff),
        "quit" => Ok(ReplCommand::Quit),
        _ => Err(CommandFault::Malformed),
    }
}

#[tactic(auto, unfolding(crate::specs::Words::own_with))]
fn own_with(alloc: Global, word: &str, field: &str) -> Result<ReplCommand, CommandFault>
    ensures { Makes result (own_with word.now field.now) }
{
    match word {
        "list" => Ok(ReplCommand::Around(read_number(field)?)),
        "step" => Ok(ReplCommand::Do(Command::StepBy(read_number(field)?))),
        "tree" => Ok(ReplCommand::Subtree(read_path(alloc, field)?)),
        "break" => own_break(alloc, field),
        "diff" => own_if(field, "last", ReplCommand::DiffLast),
        "info" => own_if(field, "breaks", ReplCommand::Breakpoints),
        _ => Err(CommandFault::Malformed),
    }
}

/// The command, if a field is this word.
fn own_if(field: &str, word: &str, own: ReplCommand) -> Result<ReplCommand, CommandFault>
    ensures { Makes result (own_if word.now own field.now) }
{
    if field == word {
        Ok(own)
    } else {
        Err(CommandFault::Malformed)
    }
}

/// The command of what follows `break`.
#[tactic(auto, unfolding(crate::specs::Words::own_break))]
fn own_break(alloc: Global, text: &str) -> Result<ReplCommand, CommandFault>
    ensures { Makes result (own_break text.now) }
{
    match text.split_once(' ') {
        None => Err(CommandFault::Malformed),
        Some((word, field)) => break_with(alloc, word, field),
    }
}

fn break_with(alloc: Global, word: &str, field: &str) -> Result<ReplCommand, CommandFault>
    ensures { Makes result (break_by word.now (Some field.now)) }
{
    if word != "prefix" {
        return Err(CommandFault::Malformed);
    }
    let path = read_path(alloc, field)?;
    Ok(ReplCommand::Do(Command::Break(Breakpoint::Prefix(path))))
}
