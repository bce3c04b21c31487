//! `zk files`.
ghost use Rattle.std.specs.Prelude.{◌-◌, ◌<◌, ◌^◌};
ghost use Rattle.zk_directory_state.specs.Outcomes.{TellsFiles};
ghost use Rattle.zk_records.specs.Sinks.{write_failures_of};

use crate::telling::{put_text, tell_fault};
use crate::{Folder, files_text};
use std::alloc::Global;
use std::io::Write;
use zk_log::Sink;
use zk_path::NoMemory;

/// Writes a line for each snapshot of the first folder, and for each log of the second. Returns the
/// exit status.
pub fn files<S: Folder, L: Folder, O: Write, E: Write>(
    alloc: Global,
    snapshots: &S,
    logs: &L,
    output: &mut Sink<O>,
    faults: &mut Sink<E>,
) -> Result<u8, NoMemory>
    requires output { write_failures_of output.old < 2 ^ 64 - 1 }
    requires faults { write_failures_of faults.old < 2 ^ 64 - 1 }
    ensures { TellsFiles O.contents E.contents (S.names_in snapshots.now) (S.bytes_in snapshots.now)
        (L.names_in logs.now) (L.bytes_in logs.now) output.old output.new faults.old faults.new result }
{
    match files_text(alloc, snapshots, logs) {
        Ok(text) => Ok(put_text(text.as_str(), output, faults)),
        Err(fault) => tell_fault(alloc, &fault, faults),
    }
}
