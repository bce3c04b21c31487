//! `zk debug` of a data directory, without a script.
ghost use Rattle.std.specs.Prelude.{◌≡◌, ◌-◌, ◌<◌, ◌^◌, false};
ghost use Rattle.zk_commands.specs.Outcomes.{HoldsSession, RunsDirectory};
ghost use Rattle.zk_commands.specs.Starts.{Directory};
ghost use Rattle.zk_log.specs.Devices.{read_failures_of};
ghost use Rattle.zk_records.specs.Sinks.{write_failures_of};

use crate::run_repl_with;
use crate::start::{Start, start_of};
use std::alloc::Global;
use std::io::{Read, Write};
use zk_debug::Debugger;
use zk_directory_state::{Folder, Upto, tell_fault};
use zk_log::{Sink, Source};
use zk_path::NoMemory;

/// Holds a session with a debugger of a directory, the snapshots of one folder and the logs of
/// another, like [`run_repl_with`]. Returns the exit status.
///
/// The debugger starts as [`start_of`] states.
pub fn run_repl<S: Folder, L: Folder, T: Read, O: Write, E: Write>(
    alloc: Global,
    prompts: bool,
    snapshots: &S,
    logs: &L,
    from: Option<Upto>,
    lines: &mut Source<T>,
    output: &mut Sink<O>,
    faults: &mut Sink<E>,
) -> Result<u8, NoMemory>
    requires lines { read_failures_of lines.old < 2 ^ 64 - 1 }
    requires output { write_failures_of output.old < 2 ^ 64 - 1 }
    requires faults { write_failures_of faults.old < 2 ^ 64 - 1 }
    ensures { RunsDirectory T.remaining O.contents E.contents prompts
        (record { snapshots = S.names_in snapshots.now; snapshot_bytes = S.bytes_in snapshots.now; logs = L.names_in logs.now; log_bytes = L.bytes_in logs.now })
        from lines.old lines.new output.old output.new faults.old faults.new result }
{
    match start_of(alloc, snapshots, logs, from) {
        Ok(start) => hold(alloc, prompts, start, lines, output, faults),
        Err(fault) => tell_fault(alloc, &fault, faults),
    }
}

/// Holds a session from this start. Returns the exit status.
fn hold<T: Read, O: Write, E: Write>(
    alloc: Global,
    prompts: bool,
    start: Start,
    lines: &mut Source<T>,
    output: &mut Sink<O>,
    faults: &mut Sink<E>,
) -> Result<u8, NoMemory>
    requires base { start.base.failed ≡ false }
    requires lines { read_failures_of lines.old < 2 ^ 64 - 1 }
    requires output { write_failures_of output.old < 2 ^ 64 - 1 }
    requires faults { write_failures_of faults.old < 2 ^ 64 - 1 }
    ensures { HoldsSession T.remaining O.contents E.contents prompts start lines.old lines.new
        output.old output.new faults.old faults.new result }
{
    let Start { base, txns } = start;
    let Ok(debugger) = Debugger::from_base(alloc, base, txns) else {
        return Err(NoMemory);
    };
    run_repl_with(alloc, prompts, debugger, lines, output, faults)
}
