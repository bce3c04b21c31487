//! The command `run`: reads a whole script, and writes an ensemble's output for its lines.
ghost use Rattle.std.specs.Prelude.{◌≡◌, ◌+◌, ◌-◌, ◌<◌, ◌^◌};
ghost use Rattle.zk_records.specs.Sinks.{write_failures_of};
ghost use Rattle.zk_log.specs.Devices.{reads_of, read_failures_of};
ghost use Rattle.zk_commands.specs.Running.{RunsText, RunsWhole};

use std::alloc::Global;
use std::io::{Read, Write};
use zk_log::{Sink, Source};
use zk_log_commands::{TURNS, TextFault, put_answers, put_answers_before, read_text, tell};
use zk_path::NoMemory;
use zk_run_script::{ScriptFault, run_script};

/// Reads a whole script, and writes an ensemble's output for its lines, up to the first that is not
/// a command. Returns the exit status.
pub fn run<F: Read, O: Write, E: Write>(
    alloc: Global,
    file: &mut Source<F>,
    output: &mut Sink<O>,
    faults: &mut Sink<E>,
) -> Result<u8, NoMemory>
    requires reads { reads_of file.old + 1048576 < 2 ^ 64 }
    requires failures { read_failures_of file.old < 2 ^ 64 - 1 }
    requires output { write_failures_of output.old < 2 ^ 64 - 1 }
    requires faults { write_failures_of faults.old < 2 ^ 64 - 1 }
    ensures { RunsText F.remaining O.contents E.contents file.old file.new
        output.old output.new faults.old faults.new result }
{
    match read_text(alloc, file, TURNS) {
        Ok(text) => run_text(alloc, text.as_str(), output, faults),
        Err(TextFault::Read) => {
            tell(faults, "zk: read\n");
            Ok(1)
        }
        Err(TextFault::Utf8) => {
            tell(faults, "zk: utf8\n");
            Ok(1)
        }
        Err(TextFault::NoMemory) => Err(NoMemory),
    }
}

/// Executes a script and writes its output. Returns the exit status.
fn run_text<O: Write, E: Write>(
    alloc: Global,
    script: &str,
    output: &mut Sink<O>,
    faults: &mut Sink<E>,
) -> Result<u8, NoMemory>
    requires output { write_failures_of output.old < 2 ^ 64 - 1 }
    requires faults { write_failures_of faults.old < 2 ^ 64 - 1 }
    ensures { RunsWhole O.contents E.contents script.now output.old output.new
        faults.old faults.new result }
{
    let mut answers = String::new(alloc);
    match run_script(alloc, script, &mut answers) {
        Ok(()) => Ok(put_answers(answers.as_str(), output, faults)),
        Err(ScriptFault::Malformed(line)) => {
            put_answers_before(alloc, answers.as_str(), line, output, faults)
        }
        Err(ScriptFault::NoMemory) => Err(NoMemory),
    }
}
