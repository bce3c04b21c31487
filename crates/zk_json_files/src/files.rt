//! `zk files --json`.
ghost use Rattle.std.specs.Prelude.{◌-◌, ◌<◌, ◌^◌};
ghost use Rattle.zk_json_files.specs.Files.{TellsObjects};
ghost use Rattle.zk_records.specs.Sinks.{write_failures_of};

use crate::file_lines::file_lines;
use std::alloc::Global;
use std::io::Write;
use zk_directory_state::{Folder, put_text, tell_fault};
use zk_log::Sink;
use zk_path::NoMemory;

/// Writes an object for each snapshot of the first folder, and for each log of the second and each
/// gap before or in it. Returns the exit status.
pub fn files_json<S: Folder, L: Folder, O: Write, E: Write>(
    alloc: Global,
    snapshots: &S,
    logs: &L,
    output: &mut Sink<O>,
    faults: &mut Sink<E>,
) -> Result<u8, NoMemory>
    requires output { write_failures_of output.old < 2 ^ 64 - 1 }
    requires faults { write_failures_of faults.old < 2 ^ 64 - 1 }
    ensures { TellsObjects O.contents E.contents (S.names_in snapshots.now) (S.bytes_in snapshots.now)
        (L.names_in logs.now) (L.bytes_in logs.now) output.old output.new faults.old faults.new result }
{
    match file_lines(alloc, snapshots, logs) {
        Ok(text) => Ok(put_text(text.as_str(), output, faults)),
        Err(fault) => tell_fault(alloc, &fault, faults),
    }
}
