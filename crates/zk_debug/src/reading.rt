//! The reader of one line.
ghost use Rattle.std.specs.Prelude.{◌≡◌};
ghost use Rattle.zk_debug.specs.Commands.{ReadsCommand};
ghost use Rattle.zk_debug.specs.Reading.{Makes, command_from, alone_from, with_from, breakpoint_from, breakpoint_with, kind_from};

use crate::command::Command;
use crate::command_fault::CommandFault;
use crate::fields::{id, read_number, read_path};
use crate::{Breakpoint, Kind};
use std::alloc::Global;

/// Parses a line, without its newline. Each command has exactly one line, and no other line is read
/// as it.
pub fn read_command(alloc: Global, line: &str) -> Result<Command, CommandFault>
    ensures { ReadsCommand line.now result }
{
    command_of(alloc, line)
}

#[tactic(auto, unfolding(crate::specs::Reading::command_from))]
fn command_of(alloc: Global, line: &str) -> Result<Command, CommandFault>
    ensures { Makes result (command_from line.now) }
{
    match line.split_once(' ') {
        None => command_alone(line).ok_or(CommandFault::Malformed),
        Some((word, field)) => command_with(alloc, word, field),
    }
}

/// A command that is a single word.
#[tactic(auto, unfolding(crate::specs::Reading::alone_from))]
fn command_alone(word: &str) -> Option<Command>
    ensures { result ≡ alone_from word.now }
{
    match word {
        "step" => Some(Command::Step),
        "back" => Some(Command::Back),
        "run" => Some(Command::Run),
        "runback" => Some(Command::RunBack),
        "tree" => Some(Command::Tree),
        "last" => Some(Command::Last),
        "reset" => Some(Command::Reset),
        _ => None,
    }
}

/// A command with a field after its word.
#[tactic(auto, unfolding(crate::specs::Reading::with_from))]
fn command_with(alloc: Global, word: &str, field: &str) -> Result<Command, CommandFault>
    ensures { Makes result (with_from word.now field.now) }
{
    match word {
        "goto" => Ok(Command::Goto(id(field)?)),
        "node" => Ok(Command::Node(read_path(alloc, field)?)),
        "break" => Ok(Command::Break(breakpoint(alloc, field)?)),
        "clear" => Ok(Command::Clear(read_number(field)?)),
        _ => Err(CommandFault::Malformed),
    }
}

#[tactic(auto, unfolding(crate::specs::Reading::breakpoint_from))]
fn breakpoint(alloc: Global, text: &str) -> Result<Breakpoint, CommandFault>
    ensures { Makes result (breakpoint_from text.now) }
{
    if text == "error" {
        return Ok(Breakpoint::Error);
    }
    match text.split_once(' ') {
        None => Err(CommandFault::Malformed),
        Some((word, field)) => breakpoint_with(alloc, word, field),
    }
}

#[tactic(auto, unfolding(crate::specs::Reading::breakpoint_with))]
fn breakpoint_with(alloc: Global, word: &str, field: &str) -> Result<Breakpoint, CommandFault>
    ensures { Makes result (breakpoint_with word.now field.now) }
{
    match word {
        "at" => Ok(Breakpoint::At(id(field)?)),
        "path" => Ok(Breakpoint::Path(read_path(alloc, field)?)),
        "session" => Ok(Breakpoint::Session(id(field)?)),
        "kind" => Ok(Breakpoint::Kind(kind(field).ok_or(CommandFault::Malformed)?)),
        _ => Err(CommandFault::Malformed),
    }
}

/// The kind of transactions with this word in a listing.
#[tactic(auto, unfolding(crate::specs::Reading::kind_from))]
fn kind(word: &str) -> Option<Kind>
    ensures { result ≡ kind_from word.now }
{
    match word {
        "create0" => Some(Kind::CreateOld),
        "create" => Some(Kind::Create),
        "delete" => Some(Kind::Delete),
        "setData" => Some(Kind::SetData),
        "setACL" => Some(Kind::SetAcl),
        "createSession" => Some(Kind::OpenSession),
        "closeSession" => Some(Kind::CloseSession),
        "error" => Some(Kind::Error),
        "multi" => Some(Kind::Multi),
        _ => None,
    }
}
