ghost use Rattle.std.specs.Prelude.{◌≡◌, ◌+◌, ◌-◌, ◌<◌, ◌^◌, false, None, Err, IfOk, IfSome};
ghost use Rattle.std.specs.String.{string_bytes};
ghost use Rattle.zk_debug.specs.Debugging.{started};
ghost use Rattle.zk_records.specs.Sinks.{write_failures_of};
ghost use Rattle.zk_log.specs.Devices.{reads_of, read_failures_of};
ghost use Rattle.zk_log_commands.specs.Answering.{OutputsAnswers};
ghost use Rattle.zk_log_commands.specs.Debugs.{Debugs, ReadsScript, Runs, RunsFromStart, state_of_base};
ghost use Rattle.zk_log_commands.specs.Notices.{within_epoch};

use crate::answering::put_answers_before;
use crate::notice::{first_zxid, put_noted};
use crate::telling::{TURNS, tell, tell_log_fault};
use crate::text::{TextFault, read_text};
use std::alloc::Global;
use std::io::{Read, Write};
use std::mem::forget;
use zk_debug::{Debugger, ScriptFault, run_script};
use zk_log::{LogFault, Sink, Source, Txns, load};
use zk_machine::Machine;
use zk_path::NoMemory;

/// Loads a log, reads a whole script, and writes the output for the script's lines, up to the first
/// that is not a command; then the notice on the log, if all are commands. Returns the exit status.
pub fn debug<F: Read, S: Read, O: Write, E: Write>(
    alloc: Global,
    file: &mut Source<F>,
    script: &mut Source<S>,
    output: &mut Sink<O>,
    faults: &mut Sink<E>,
) -> Result<u8, NoMemory>
    requires reads { reads_of file.old + 1048576 < 2 ^ 64 }
    requires read_failures { read_failures_of file.old < 2 ^ 64 - 1 }
    requires script_reads { reads_of script.old + 1048576 < 2 ^ 64 }
    requires script_failures { read_failures_of script.old < 2 ^ 64 - 1 }
    requires output { write_failures_of output.old < 2 ^ 64 - 1 }
    requires faults { write_failures_of faults.old < 2 ^ 64 - 1 }
    ensures { Debugs F.remaining S.remaining O.contents E.contents file.old file.new
        script.old script.new output.old output.new faults.old faults.new result }
{
    match load(alloc, file, TURNS) {
        Ok(loaded) => {
            let first = first_zxid(loaded.txns.as_slice());
            debug_txns(alloc, None, loaded.txns, first, script, output, faults)
        }
        Err(LogFault::NoMemory) => Err(NoMemory),
        Err(fault) => tell_log_fault(alloc, fault, faults),
    }
}

/// Reads a whole script, and writes the output for its lines with a debugger over transactions that
/// continue the state of `base`. Returns the exit status.
pub fn debug_from<S: Read, O: Write, E: Write>(
    alloc: Global,
    base: Machine,
    txns: Txns,
    script: &mut Source<S>,
    output: &mut Sink<O>,
    faults: &mut Sink<E>,
) -> Result<u8, NoMemory>
    requires base { base.failed ≡ false }
    requires reads { reads_of script.old + 1048576 < 2 ^ 64 }
    requires failures { read_failures_of script.old < 2 ^ 64 - 1 }
    requires output { write_failures_of output.old < 2 ^ 64 - 1 }
    requires faults { write_failures_of faults.old < 2 ^ 64 - 1 }
    ensures { ReadsScript S.remaining O.contents E.contents None base.state txns script.old script.new
        output.old output.new faults.old faults.new result }
{
    debug_txns(alloc, Some(base), txns, None, script, output, faults)
}

/// Reads a whole script and executes it over transactions; then writes the notice on a log with
/// this first zxid, if all lines are commands. Returns the exit status.
fn debug_txns<S: Read, O: Write, E: Write>(
    alloc: Global,
    base: Option<Machine>,
    txns: Txns,
    first: Option<i64>,
    script: &mut Source<S>,
    output: &mut Sink<O>,
    faults: &mut Sink<E>,
) -> Result<u8, NoMemory>
    requires base { IfSome base (λ base. base.failed ≡ false) }
    requires reads { reads_of script.old + 1048576 < 2 ^ 64 }
    requires failures { read_failures_of script.old < 2 ^ 64 - 1 }
    requires output { write_failures_of output.old < 2 ^ 64 - 1 }
    requires faults { write_failures_of faults.old < 2 ^ 64 - 1 }
    ensures { ReadsScript S.remaining O.contents E.contents (within_epoch first) (state_of_base base) txns
        script.old script.new output.old output.new faults.old faults.new result }
{
    match read_text(alloc, script, TURNS) {
        Ok(text) => run(alloc, base, txns, first, text.as_str(), output, faults),
        Err(TextFault::Read) => {
            tell(faults, "zk: read\n");
            Ok(1)
        }
        Err(TextFault::Utf8) => {
            tell(faults, "zk: utf8\n");
            Ok(1)
        }
        Err(TextFault::NoMemory) => Err(NoMemory),
    }
}

/// Executes a script from the start of a log, and then writes the notice. Returns the exit status.
fn run<O: Write, E: Write>(
    alloc: Global,
    base: Option<Machine>,
    txns: Txns,
    first: Option<i64>,
    script: &str,
    output: &mut Sink<O>,
    faults: &mut Sink<E>,
) -> Result<u8, NoMemory>
    requires base { IfSome base (λ base. base.failed ≡ false) }
    requires output { write_failures_of output.old < 2 ^ 64 - 1 }
    requires faults { write_failures_of faults.old < 2 ^ 64 - 1 }
    ensures { Runs O.contents E.contents (within_epoch first) (state_of_base base) txns script.now
        output.old output.new faults.old faults.new result }
{
    let mut answers = String::new(alloc);
    match push_answers(alloc, base, txns, script, &mut answers) {
        Ok(()) => put_noted(alloc, answers.as_str(), first, output, faults),
        Err(fault) => put_stopped(alloc, answers.as_str(), fault, output, faults),
    }
}

/// Writes the output for the lines before the one at which a script stopped. Returns the exit
/// status.
fn put_stopped<O: Write, E: Write>(
    alloc: Global,
    answers: &str,
    fault: ScriptFault,
    output: &mut Sink<O>,
    faults: &mut Sink<E>,
) -> Result<u8, NoMemory>
    requires output { write_failures_of output.old < 2 ^ 64 - 1 }
    requires faults { write_failures_of faults.old < 2 ^ 64 - 1 }
    ensures { OutputsAnswers O.contents E.contents (Err fault) answers.now output.old output.new
        faults.old faults.new result }
{
    match fault {
        ScriptFault::Malformed(line) => put_answers_before(alloc, answers, line, output, faults),
        ScriptFault::NoMemory => Err(NoMemory),
    }
}

/// Appends the output for a script from the start of a log.
fn push_answers(
    alloc: Global,
    base: Option<Machine>,
    txns: Txns,
    script: &str,
    answers: &mut String,
) -> Result<(), ScriptFault>
    requires { IfSome base (λ base. base.failed ≡ false) }
    ensures { RunsFromStart (state_of_base base) txns script.now (string_bytes answers.old) result
        (string_bytes answers.new) }
{
    let Ok(mut debugger) = start(alloc, base, txns) else {
        return Err(ScriptFault::NoMemory);
    };
    let ran = run_script(alloc, &mut debugger, script, answers);
    // The program ends after this: to free the memory object by object would cost as much as the
    // script.
    forget(debugger);
    ran
}

/// A debugger at the start of a log; without a base this is the start state.
fn start(alloc: Global, base: Option<Machine>, txns: Txns) -> Result<Debugger, NoMemory>
    requires { IfSome base (λ base. base.failed ≡ false) }
    ensures { IfOk result (λ debugger. debugger ≡ started (state_of_base base) txns) }
{
    let base = match base {
        Some(base) => base,
        None => Machine::new(alloc)?,
    };
    Debugger::from_base(alloc, base, txns)
}
