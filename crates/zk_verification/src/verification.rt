//! `zk verify`.
ghost use Rattle.std.specs.Prelude.{◌-◌, ◌<◌, ◌^◌};
ghost use Rattle.zk_records.specs.Sinks.{write_failures_of};
ghost use Rattle.zk_verification.specs.Outcomes.{OutputsReport, TellsVerification};

use crate::checking::marks_of;
use crate::{Mark, count_wrong, report_text};
use std::alloc::Global;
use std::io::Write;
use zk_directory_state::{Folder, put_text, tell_fault};
use zk_log::Sink;
use zk_path::NoMemory;

/// Writes the report of these marks. Returns the exit status.
#[tactic(auto, using(crate::proofs::Reported::nothing_written))]
fn tell_marks<O: Write, E: Write>(
    alloc: Global,
    marks: &[Mark],
    output: &mut Sink<O>,
    faults: &mut Sink<E>,
) -> Result<u8, NoMemory>
    requires output { write_failures_of output.old < 2 ^ 64 - 1 }
    requires faults { write_failures_of faults.old < 2 ^ 64 - 1 }
    ensures { OutputsReport O.contents E.contents marks.now output.old output.new faults.old faults.new result }
{
    let text = report_text(alloc, marks)?;
    let status = put_text(text.as_str(), output, faults);
    Ok(if count_wrong(marks) > 0 { 1 } else { status })
}

/// Writes what is wrong with a data directory, and what helps: with the second folder's logs, each by
/// itself, and with what the first folder's snapshots lead to. Returns the exit status: 1 if
/// something is wrong.
pub fn verify<S: Folder, L: Folder, O: Write, E: Write>(
    alloc: Global,
    snapshots: &S,
    logs: &L,
    output: &mut Sink<O>,
    faults: &mut Sink<E>,
) -> Result<u8, NoMemory>
    requires output { write_failures_of output.old < 2 ^ 64 - 1 }
    requires faults { write_failures_of faults.old < 2 ^ 64 - 1 }
    ensures { TellsVerification O.contents E.contents (S.names_in snapshots.now) (S.bytes_in snapshots.now)
        (L.names_in logs.now) (L.bytes_in logs.now) output.old output.new faults.old faults.new result }
{
    match marks_of(alloc, snapshots, logs) {
        Ok(marks) => tell_marks(alloc, marks.as_slice(), output, faults),
        Err(fault) => tell_fault(alloc, &fault, faults),
    }
}
