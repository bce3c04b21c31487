//! Answers to a whole script.
ghost use Rattle.std.specs.Prelude.{◌≡◌, ◌++◌, ◌≤◌};
ghost use Rattle.std.specs.String.{string_bytes};
ghost use Rattle.zk_run_script.specs.Scripts.{RunsScript, BeginsOrNot, Plays};

use crate::command_reading::read_command;
use crate::first_line_reading::read_servers;
use crate::playing::run_command;
use std::alloc::Global;
use zab_epoch::Weighted;
use zk_ensemble::Ensemble;
use zk_listing::{ListCause, ScriptFault, next_line};

/// Executes the lines of a script one after the other, with an ensemble of the servers that the
/// first line names, and appends the answers, up to the first line that is no command. A newline
/// ends each line; the last one may have none. A script without lines fails at line 1.
pub fn run_script(alloc: Global, script: &str, answers: &mut String) -> Result<(), ScriptFault>
    ensures { RunsScript script.now (string_bytes answers.old) result (string_bytes answers.new) }
{
    if script.is_empty() {
        return Err(ScriptFault::Malformed(1));
    }
    let mut text = script;
    let first = next_line(&mut text);
    match read_servers(alloc, first) {
        Ok(weights) => begin(alloc, weights, text, answers),
        Err(ListCause::NoMemory) => Err(ScriptFault::NoMemory),
        Err(_) => Err(ScriptFault::Malformed(1)),
    }
}

/// Starts a server for each weight, and executes the lines.
fn begin(
    alloc: Global,
    weights: Weighted,
    text: &str,
    answers: &mut String,
) -> Result<(), ScriptFault>
    ensures { BeginsOrNot weights text.now (string_bytes answers.old) result (string_bytes answers.new) }
{
    let servers = weights.servers();
    let Ok(mut ensemble) = Ensemble::with(alloc, weights) else {
        return Err(ScriptFault::NoMemory);
    };
    if answers.push_str("ok\n").is_err() {
        return Err(ScriptFault::NoMemory);
    }
    play(alloc, servers, &mut ensemble, text, answers)
}

/// Executes the lines, of which the first is the script's second.
fn play(
    alloc: Global,
    servers: usize,
    ensemble: &mut Ensemble,
    text: &str,
    answers: &mut String,
) -> Result<(), ScriptFault>
    ensures { Plays servers ensemble.old text.now (string_bytes answers.old) result
        (string_bytes answers.new) ensemble.new }
{
    let mut left = text;
    let mut number: u64 = 1;
    while !left.is_empty() {
        let line = next_line(&mut left);
        number += 1;
        match read_command(alloc, servers, line) {
            Ok(command) => {
                let Ok(()) = run_command(ensemble, command, answers) else {
                    return Err(ScriptFault::NoMemory);
                };
            }
            Err(ListCause::NoMemory) => return Err(ScriptFault::NoMemory),
            Err(_) => return Err(ScriptFault::Malformed(number)),
        }
    }
    Ok(())
}
