//! Writing the output for a script.
ghost use Rattle.std.specs.Prelude.{◌-◌, ◌<◌, ◌^◌, Ok};
ghost use Rattle.zk_records.specs.Sinks.{write_failures_of};
ghost use Rattle.zk_log_commands.specs.Answering.{OutputsAndTells};
ghost use Rattle.zk_log_commands.specs.Telling.{Outputs};
ghost use Rattle.zk_listing.specs.Lines.{line_of_script_fault};

use crate::telling::tell;
use std::alloc::Global;
use std::io::Write;
use zk_listing::script_line;
use zk_log::Sink;
use zk_path::NoMemory;

/// Writes the output for a script. Returns the exit status.
pub fn put_answers<O: Write, E: Write>(
    answers: &str,
    output: &mut Sink<O>,
    faults: &mut Sink<E>,
) -> u8
    requires output { write_failures_of output.old < 2 ^ 64 - 1 }
    requires faults { write_failures_of faults.old < 2 ^ 64 - 1 }
    ensures { Outputs O.contents E.contents answers.now output.old output.new
        faults.old faults.new (Ok result) }
{
    match output.write_all(answers.as_bytes()) {
        Ok(()) => 0,
        Err(_) => {
            tell(faults, "zk: write\n");
            1
        }
    }
}

/// Writes the output for the lines before one that is not a command, and that line's number on
/// standard error. Returns the exit status.
pub fn put_answers_before<O: Write, E: Write>(
    alloc: Global,
    answers: &str,
    line: u64,
    output: &mut Sink<O>,
    faults: &mut Sink<E>,
) -> Result<u8, NoMemory>
    requires output { write_failures_of output.old < 2 ^ 64 - 1 }
    requires faults { write_failures_of faults.old < 2 ^ 64 - 1 }
    ensures { OutputsAndTells O.contents E.contents answers.now (line_of_script_fault line)
        output.old output.new faults.old faults.new result }
{
    let told = script_line(alloc, line)?;
    match output.write_all(answers.as_bytes()) {
        Ok(()) => {
            tell(faults, told.as_str());
            Ok(1)
        }
        Err(_) => {
            tell(faults, "zk: write\n");
            Ok(1)
        }
    }
}
