ghost use Rattle.std.specs.Prelude.{◌≡◌, IfOk, map};
ghost use Rattle.zk_cli_args.specs.Lines.{ReadsCommandLine, ReadsFormed, ReadsLine, asked_of, has_asked, has_follow, has_form, has_json, formed_by, name_of};

use crate::commands::{Command, command_of};
use crate::follow::follow_of;
use crate::form::{Form, form_of};
use std::alloc::Global;
use thiserror::Error;
use zk_helps::{Refusal, refusal_of};
use zk_path::NoMemory;

/// A parsed command line.
#[derive(Clone, Copy, Debug)]
pub struct CommandLine<'a> {
    pub command: Command<'a>,
    /// The form of what the command writes, of those that it has.
    pub form: Form,
    /// Whether the command, which lists a directory, writes what servers go on to append to the
    /// logs.
    pub follows: bool,
}

/// Why a command line runs nothing.
#[derive(Debug, Drop, Error)]
pub enum CommandFault {
    /// The error in the line, or the help or the version that it asks for.
    #[error("{0}")]
    Refused(Refusal),
    /// An allocation failed.
    #[error("memory")]
    NoMemory,
}

/// Parses a command line, whose first word is the program's name.
///
/// The options of a form, and `--follow`, may be before and after the command's name.
pub fn read_command_line<'a>(
    alloc: Global,
    words: &[&'a str],
) -> Result<CommandLine<'a>, CommandFault>
    ensures { ReadsCommandLine (map (λ word. word.now) words.now) result }
{
    match line_of(alloc, words) {
        Ok(Some(line)) => Ok(line),
        Ok(None) => Err(fault_of(alloc, words)),
        Err(NoMemory) => Err(CommandFault::NoMemory),
    }
}

/// The error in words that name nothing.
fn fault_of(alloc: Global, words: &[&str]) -> CommandFault {
    match refusal_of(alloc, words) {
        Ok(refusal) => CommandFault::Refused(refusal),
        Err(_) => CommandFault::NoMemory,
    }
}

/// The command that words name. Where it does not have the options that are asked for, they are
/// words like others, as in `--logs --json`.
fn line_of<'a>(alloc: Global, words: &[&'a str]) -> Result<Option<CommandLine<'a>>, NoMemory>
    ensures { IfOk result (λ read. ReadsLine (map (λ word. word.now) words.now) read) }
{
    if let Some(line) = formed_line(alloc, words)? {
        return Ok(Some(line));
    }
    match command_of(alloc, words)? {
        Some(command) => Ok(Some(CommandLine {
            command,
            form: Form::Lines,
            follows: false,
        })),
        None => Ok(None),
    }
}

/// The command that words name besides the options that it has of those that are asked for.
fn formed_line<'a>(alloc: Global, words: &[&'a str]) -> Result<Option<CommandLine<'a>>, NoMemory>
    ensures { IfOk result (λ read. ReadsFormed (asked_of (map (λ word. word.now) words.now)) read) }
{
    match follow_of(alloc, words)? {
        Some(others) => line_in_form(alloc, true, others.as_slice()),
        None => line_in_form(alloc, false, words),
    }
}

/// The command of words without `--follow`, in the form that they ask for.
fn line_in_form<'a>(
    alloc: Global,
    follows: bool,
    words: &[&'a str],
) -> Result<Option<CommandLine<'a>>, NoMemory>
    ensures { IfOk result (λ read. ReadsFormed (formed_by (follows, map (λ word. word.now) words.now)) read) }
{
    let asked = form_of(alloc, words)?;
    line_with(alloc, follows, asked.form, asked.others.as_slice())
}

/// The command of words without options of a form, if it has these.
fn line_with<'a>(
    alloc: Global,
    follows: bool,
    form: Form,
    words: &[&'a str],
) -> Result<Option<CommandLine<'a>>, NoMemory>
    ensures { IfOk result (λ read. ReadsFormed (follows, form, map (λ word. word.now) words.now) read) }
{
    if !has_asked(name_of(words), follows, form) {
        return Ok(None);
    }
    match command_of(alloc, words)? {
        Some(command) => Ok(Some(CommandLine {
            command,
            form,
            follows,
        })),
        None => Ok(None),
    }
}

/// The word after the program's name.
fn name_of<'a>(words: &[&'a str]) -> &'a str
    ensures { result.now ≡ name_of (map (λ word. word.now) words.now) }
{
    match words {
        [_, name, ..] => name,
        _ => "",
    }
}

/// Whether the command of a name has these options.
fn has_asked(name: &str, follows: bool, form: Form) -> bool
    ensures { result ≡ has_asked name.now follows form }
{
    has_form(name, form) && has_follow(name, follows)
}

fn has_form(name: &str, form: Form) -> bool
    ensures { result ≡ has_form name.now form }
{
    match form {
        Form::Lines => true,
        Form::Json => has_json(name),
        Form::Times => name == "list",
    }
}

fn has_json(name: &str) -> bool
    ensures { result ≡ has_json name.now }
{
    name == "show"
        || name == "list"
        || name == "files"
        || name == "history"
        || name == "top"
        || name == "verify"
        || name == "diff"
        || name == "compare"
        || name == "sessions"
        || name == "session"
}

fn has_follow(name: &str, follows: bool) -> bool
    ensures { result ≡ has_follow name.now follows }
{
    if follows { name == "list" } else { true }
}
