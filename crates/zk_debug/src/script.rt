//! The output of a debugger for a script.
ghost use Rattle.std.specs.String.{string_bytes};
ghost use Rattle.zk_debug.specs.Scripts.{RunsScript};

use crate::Debugger;
use crate::answers::run_command;
use crate::command_fault::CommandFault;
use crate::reading::read_command;
use std::alloc::Global;
use zk_listing::{ScriptFault, next_line};

/// Executes the lines of a script in order and appends their output, up to the first line that is
/// not a command. A newline ends each line; the last one may have none.
pub fn run_script(
    alloc: Global,
    debugger: &mut Debugger,
    script: &str,
    answers: &mut String,
) -> Result<(), ScriptFault>
    ensures { RunsScript debugger.old script.now (string_bytes answers.old) result
        (string_bytes answers.new) debugger.new }
{
    let mut left = script;
    let mut number: u64 = 0;
    while !left.is_empty() {
        let line = next_line(&mut left);
        number += 1;
        match read_command(alloc, line) {
            Ok(command) => {
                let Ok(()) = run_command(debugger, command, answers) else {
                    return Err(ScriptFault::NoMemory);
                };
            }
            Err(CommandFault::Malformed) => return Err(ScriptFault::Malformed(number)),
            Err(CommandFault::NoMemory) => return Err(ScriptFault::NoMemory),
        }
    }
    Ok(())
}
