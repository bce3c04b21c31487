//! The command `debug` without a script.
ghost use Rattle.std.specs.Prelude.{◌≡◌, ◌+◌, ◌-◌, ◌<◌, ◌^◌, None};
ghost use Rattle.zk_records.specs.Sinks.{write_failures_of};
ghost use Rattle.zk_log.specs.Devices.{reads_of, read_failures_of};
ghost use Rattle.zk_log_commands.specs.Notices.{within_epoch};
ghost use Rattle.zk_commands.specs.Holding.{HoldsOver, RunsRepl, Sits, TellsEnd};

use crate::line::Line;
use crate::session::{Session, TalkFault};
use crate::talking::talk;
use std::alloc::Global;
use std::io::{Read, Write};
use std::mem::forget;
use zk_debug::Debugger;
use zk_log::{Loaded, LogFault, Sink, Source, load};
use zk_log_commands::{TURNS, first_zxid, tell, tell_log_fault, tell_notice};
use zk_path::NoMemory;

/// Loads a log, and holds a session with a debugger at its start: writes the output for each line
/// before it reads the next, up to `quit` or the end of the lines; then the notice on the log.
/// Returns the exit status.
///
/// If prompts are on, one precedes each line. A line that is not a command has an error message,
/// and is dropped.
pub fn run_repl<F: Read, L: Read, O: Write, E: Write>(
    alloc: Global,
    prompts: bool,
    file: &mut Source<F>,
    lines: &mut Source<L>,
    output: &mut Sink<O>,
    faults: &mut Sink<E>,
) -> Result<u8, NoMemory>
    requires reads { reads_of file.old + 1048576 < 2 ^ 64 }
    requires read_failures { read_failures_of file.old < 2 ^ 64 - 1 }
    requires line_failures { read_failures_of lines.old < 2 ^ 64 - 1 }
    requires output { write_failures_of output.old < 2 ^ 64 - 1 }
    requires faults { write_failures_of faults.old < 2 ^ 64 - 1 }
    ensures { RunsRepl F.remaining L.remaining O.contents E.contents prompts file.old file.new
        lines.old lines.new output.old output.new faults.old faults.new result }
{
    match load(alloc, file, TURNS) {
        Ok(loaded) => hold_over(alloc, prompts, loaded, lines, output, faults),
        Err(LogFault::NoMemory) => Err(NoMemory),
        Err(fault) => tell_log_fault(alloc, fault, faults),
    }
}

/// Holds a session over a loaded log. Returns the exit status.
fn hold_over<L: Read, O: Write, E: Write>(
    alloc: Global,
    prompts: bool,
    loaded: Loaded,
    lines: &mut Source<L>,
    output: &mut Sink<O>,
    faults: &mut Sink<E>,
) -> Result<u8, NoMemory>
    requires lines { read_failures_of lines.old < 2 ^ 64 - 1 }
    requires output { write_failures_of output.old < 2 ^ 64 - 1 }
    requires faults { write_failures_of faults.old < 2 ^ 64 - 1 }
    ensures { HoldsOver L.remaining O.contents E.contents prompts loaded.txns lines.old lines.new
        output.old output.new faults.old faults.new result }
{
    let first = first_zxid(loaded.txns.as_slice());
    let Ok(debugger) = Debugger::new(alloc, loaded) else {
        return Err(NoMemory);
    };
    hold(alloc, prompts, debugger, first, lines, output, faults)
}

/// Holds a session with a debugger, like [`run_repl`]; no notice follows. Returns the exit status.
pub fn run_repl_with<L: Read, O: Write, E: Write>(
    alloc: Global,
    prompts: bool,
    debugger: Debugger,
    lines: &mut Source<L>,
    output: &mut Sink<O>,
    faults: &mut Sink<E>,
) -> Result<u8, NoMemory>
    requires lines { read_failures_of lines.old < 2 ^ 64 - 1 }
    requires output { write_failures_of output.old < 2 ^ 64 - 1 }
    requires faults { write_failures_of faults.old < 2 ^ 64 - 1 }
    ensures { Sits L.remaining O.contents E.contents prompts None debugger lines.old lines.new
        output.old output.new faults.old faults.new result }
{
    hold(alloc, prompts, debugger, None, lines, output, faults)
}

/// Holds a session with a debugger, and writes the notice on a log with this first zxid. Returns
/// the exit status.
fn hold<L: Read, O: Write, E: Write>(
    alloc: Global,
    prompts: bool,
    debugger: Debugger,
    first: Option<i64>,
    lines: &mut Source<L>,
    output: &mut Sink<O>,
    faults: &mut Sink<E>,
) -> Result<u8, NoMemory>
    requires lines { read_failures_of lines.old < 2 ^ 64 - 1 }
    requires output { write_failures_of output.old < 2 ^ 64 - 1 }
    requires faults { write_failures_of faults.old < 2 ^ 64 - 1 }
    ensures { Sits L.remaining O.contents E.contents prompts (within_epoch first) debugger
        lines.old lines.new output.old output.new faults.old faults.new result }
{
    let mut session = Session::new(alloc, debugger);
    let mut line = Line::new(alloc);
    let ended = talk(alloc, &mut session, prompts, lines, &mut line, output);
    // The program ends after this: to free the memory object by object would cost as much as the
    // moves.
    forget(session);
    tell_end(alloc, ended, first, faults)
}

/// Writes the line for a session that was aborted, and after any other the notice on a log with
/// this first zxid. Returns the exit status.
fn tell_end<E: Write>(
    alloc: Global,
    ended: Result<(), TalkFault>,
    first: Option<i64>,
    faults: &mut Sink<E>,
) -> Result<u8, NoMemory>
    requires { write_failures_of faults.old < 2 ^ 64 - 1 }
    ensures { TellsEnd E.contents ended (within_epoch first) faults.old faults.new result }
{
    match ended {
        Ok(()) => tell_notice(alloc, first, faults),
        Err(TalkFault::Read) => {
            tell(faults, "zk: read\n");
            Ok(1)
        }
        Err(TalkFault::Write) => {
            tell(faults, "zk: write\n");
            Ok(1)
        }
        Err(TalkFault::NoMemory) => Err(NoMemory),
    }
}
