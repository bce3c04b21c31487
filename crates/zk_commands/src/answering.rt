//! The output of a session for one line.
ghost use Rattle.std.specs.Prelude.{◌≡◌, ◌++◌, Some, IfOk, OnOk};
ghost use Rattle.std.specs.String.{string_bytes};
ghost use Rattle.zk_debug.specs.Debugging.{state_at};
ghost use Rattle.zk_commands.specs.Shown.{subtree_text};
ghost use Rattle.zk_commands.specs.Answering.{Appends, AppendsLong, AppendsOwn, ObeysInto, changes_from, repeated, seen};
ghost use Rattle.zk_commands.specs.Texts.{failed_line, told_line};
ghost use Rattle.zk_commands.specs.Words.{own_from};

use crate::diff::spell_diff;
use crate::list::spell_list;
use crate::reading::own_of;
use crate::repl_command::ReplCommand;
use crate::session::{Session, Turn};
use crate::texts::{expected_of, help};
use crate::{long_form, push_breakpoints, push_in_words, push_subtree};
use zk_debug::{Command, CommandFault, read_command, run_command};
use zk_path::{NoMemory, Path};

/// Appends the output for one line, without its newline. Returns whether another line is read.
///
/// An empty line repeats the last one, and short forms stand for their long ones. A command of a
/// script has the same output as in a script, but a fault is in words. Any other text has an error
/// message, and is dropped. After an allocation failure the command may have been executed, and a
/// part of the output appended.
pub fn answer_line(session: &mut Session, line: &[u8], page: &mut String) -> Result<Turn, NoMemory>
    ensures { IfOk result (λ turn. Appends session.old line.now (string_bytes page.old)
        (string_bytes page.new) turn session.new) }
{
    match str::from_utf8(line) {
        Ok(text) => answer_text(session, text, page),
        Err(_) => {
            page.push_str("? a line in UTF-8\n")?;
            Ok(Turn::GoesOn)
        }
    }
}

fn answer_text(session: &mut Session, line: &str, page: &mut String) -> Result<Turn, NoMemory>
    ensures { IfOk result (λ turn. Appends session.old line.now (string_bytes page.old)
        (string_bytes page.new) turn session.new) }
{
    let said = repeated(session, line)?;
    let text = long_form(session.alloc, said.as_str())?;
    let turn = answer_long(session, text.as_str(), page)?;
    session.last = said;
    Ok(turn)
}

/// The line, or the last one if it is empty.
fn repeated(session: &Session, line: &str) -> Result<String, NoMemory>
    ensures { IfOk result (λ said. string_bytes said ≡ repeated (string_bytes session.now.last) line.now) }
{
    let said = if line.is_empty() {
        session.last.as_str()
    } else {
        line
    };
    Ok(String::from_str(session.alloc, said)?)
}

/// Appends the output for a line in its long form.
fn answer_long(session: &mut Session, line: &str, page: &mut String) -> Result<Turn, NoMemory>
    ensures { IfOk result (λ turn. AppendsLong session.old line.now (string_bytes page.old)
        (string_bytes page.new) turn session.new) }
{
    match read_command(session.alloc, line) {
        Ok(command) => {
            obey(session, command, page)?;
            Ok(Turn::GoesOn)
        }
        Err(CommandFault::Malformed) => answer_other(session, line, page),
        Err(CommandFault::NoMemory) => Err(NoMemory),
    }
}

/// Executes a command of the debugger and appends its output.
fn obey(session: &mut Session, command: Command, page: &mut String) -> Result<(), NoMemory>
    ensures { OnOk result (ObeysInto session.old command (string_bytes page.old) (string_bytes page.new) session.new) }
{
    let place = session.debugger.place();
    let mut answer = String::new(session.alloc);
    run_command(&mut session.debugger, command, &mut answer)?;
    if place != session.debugger.place() {
        session.began = place;
    }
    push_in_words(page, answer.as_str())
}

/// Appends the output for a line that is not a command of a script.
fn answer_other(session: &mut Session, line: &str, page: &mut String) -> Result<Turn, NoMemory>
    ensures { IfOk result (λ turn. AppendsOwn session.old line.now (own_from line.now) (string_bytes page.old)
        (string_bytes page.new) turn session.new) }
{
    match own_of(session.alloc, line) {
        Ok(own) => answer_own(session, line, own, page),
        Err(CommandFault::Malformed) => {
            tell_line(line, page)?;
            Ok(Turn::GoesOn)
        }
        Err(CommandFault::NoMemory) => Err(NoMemory),
    }
}

/// Appends what was expected in place of a line that is not a command.
fn tell_line(line: &str, page: &mut String) -> Result<(), NoMemory>
    ensures { OnOk result (string_bytes page.new ≡ string_bytes page.old ++ told_line line.now) }
{
    page.push_str("? ")?;
    page.push_str(expected_of(line))?;
    page.push_str("\n")?;
    Ok(())
}

/// Appends the output for a command of the session's own.
fn answer_own(
    session: &mut Session,
    _line: &str,
    own: ReplCommand,
    page: &mut String,
) -> Result<Turn, NoMemory>
    ensures { IfOk result (λ turn. AppendsOwn session.old _line.now (Some own) (string_bytes page.old)
        (string_bytes page.new) turn session.new) }
{
    match own {
        ReplCommand::Do(command) => obey(session, command, page)?,
        ReplCommand::Help => page.push_str(help())?,
        ReplCommand::Around(count) => {
            let debugger = &session.debugger;
            spell_list(page, debugger.txns(), debugger.place(), count as usize)?;
        }
        ReplCommand::Diff => spell_changes_from(session, session.began, page)?,
        ReplCommand::DiffLast => {
            let before = session.debugger.place().saturating_sub(1);
            spell_changes_from(session, before, page)?;
        }
        ReplCommand::Subtree(path) => spell_subtree(session, &path, page)?,
        ReplCommand::Breakpoints => push_breakpoints(page, &session.debugger)?,
        ReplCommand::Quit => return Ok(Turn::Ends),
    }
    Ok(Turn::GoesOn)
}

/// Appends what changed in the tree since an earlier place.
fn spell_changes_from(session: &Session, began: usize, page: &mut String) -> Result<(), NoMemory>
    ensures { OnOk result (string_bytes page.new ≡ string_bytes page.old ++ changes_from session.now began) }
{
    let txns = session.debugger.txns();
    match session.debugger.tree() {
        Ok(machine) => {
            let before = &txns[..began.min(txns.len())];
            spell_diff(page, session.debugger.base(), before, machine)
        }
        Err(_) => tell_failed(page),
    }
}

/// Appends the nodes at and below a path.
fn spell_subtree(session: &Session, path: &Path, page: &mut String) -> Result<(), NoMemory>
    ensures { OnOk result (string_bytes page.new ≡ string_bytes page.old ++ seen session.now (subtree_text path.now (state_at session.now.debugger.base session.now.debugger.txns session.now.debugger.place).nodes)) }
{
    match session.debugger.tree() {
        Ok(machine) => push_subtree(page, machine, path.text()),
        Err(_) => tell_failed(page),
    }
}

/// Appends that the debugger has failed.
fn tell_failed(page: &mut String) -> Result<(), NoMemory>
    ensures { OnOk result (string_bytes page.new ≡ string_bytes page.old ++ failed_line) }
{
    page.push_str("an earlier command ran out of memory: reset (B5)\n")?;
    Ok(())
}
