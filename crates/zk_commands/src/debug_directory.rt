//! `zk debug` of a data directory, with a script.
ghost use Rattle.std.specs.Prelude.{◌+◌, ◌-◌, ◌<◌, ◌^◌};
ghost use Rattle.zk_commands.specs.Outcomes.{DebugsDirectory};
ghost use Rattle.zk_commands.specs.Starts.{Directory};
ghost use Rattle.zk_log.specs.Devices.{read_failures_of, reads_of};
ghost use Rattle.zk_records.specs.Sinks.{write_failures_of};

use crate::start::start_of;
use std::alloc::Global;
use std::io::{Read, Write};
use zk_directory_state::{Folder, Upto, tell_fault};
use zk_log::{Sink, Source};
use zk_log_commands::debug_from;
use zk_path::NoMemory;

/// Reads a whole script, and writes the output for its lines with a debugger of a directory: the
/// snapshots of one folder, and the logs of another. Returns the exit status.
///
/// The debugger starts as [`start_of`] states.
pub fn debug<S: Folder, L: Folder, T: Read, O: Write, E: Write>(
    alloc: Global,
    snapshots: &S,
    logs: &L,
    from: Option<Upto>,
    script: &mut Source<T>,
    output: &mut Sink<O>,
    faults: &mut Sink<E>,
) -> Result<u8, NoMemory>
    requires reads { reads_of script.old + 1048576 < 2 ^ 64 }
    requires failures { read_failures_of script.old < 2 ^ 64 - 1 }
    requires output { write_failures_of output.old < 2 ^ 64 - 1 }
    requires faults { write_failures_of faults.old < 2 ^ 64 - 1 }
    ensures { DebugsDirectory T.remaining O.contents E.contents
        (record { snapshots = S.names_in snapshots.now; snapshot_bytes = S.bytes_in snapshots.now; logs = L.names_in logs.now; log_bytes = L.bytes_in logs.now })
        from script.old script.new output.old output.new faults.old faults.new result }
{
    match start_of(alloc, snapshots, logs, from) {
        Ok(start) => debug_from(alloc, start.base, start.txns, script, output, faults),
        Err(fault) => tell_fault(alloc, &fault, faults),
    }
}
