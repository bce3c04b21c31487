//! The command `mend`: writes a log of 3.4, and a report on it.
ghost use Rattle.std.specs.Prelude.{◌≡◌, ◌+◌, ◌-◌, ◌<◌, ◌^◌, Ok};
ghost use Rattle.std.specs.String.{string_bytes};
ghost use Rattle.zk_records.specs.Sinks.{write_failures_of};
ghost use Rattle.zk_log.specs.Devices.{reads_of, read_failures_of};
ghost use Rattle.zk_records.specs.Written.{log_of};
ghost use Rattle.zk_commands.specs.Mends.{MendsLog, OutputsBoth};
ghost use Rattle.zk_commands.specs.Reports.{mend_report};

use crate::fault_lines::tell_mend_fault;
use crate::report::mend_report;
use std::alloc::Global;
use std::io::{Read, Write};
use std::mem::forget;
use zk_log::{LogFault, Sink, Source, write_log};
use zk_log_commands::{TURNS, put_answers, tell};
use zk_mend::{MendFault, Mended, mend};
use zk_path::NoMemory;

/// Converts the log of a 3.5 to 3.8 server: writes the log of 3.4 with the same transactions, after
/// the whole log was read, and then reports what changed. Returns the exit status.
pub fn mend_log<F: Read, O: Write, R: Write, E: Write>(
    alloc: Global,
    file: &mut Source<F>,
    output: &mut Sink<O>,
    report: &mut Sink<R>,
    faults: &mut Sink<E>,
) -> Result<u8, NoMemory>
    requires reads { reads_of file.old + 1048576 < 2 ^ 64 }
    requires read_failures { read_failures_of file.old < 2 ^ 64 - 1 }
    requires output { write_failures_of output.old < 2 ^ 64 - 1 }
    requires report { write_failures_of report.old < 2 ^ 64 - 1 }
    requires faults { write_failures_of faults.old < 2 ^ 64 - 1 }
    ensures { MendsLog F.remaining O.contents R.contents E.contents file.old file.new
        output.old output.new report.old report.new faults.old faults.new result }
{
    match mend(alloc, file, TURNS) {
        Ok(mended) => {
            let status = put_mended(alloc, &mended, output, report, faults);
            // The program ends after this: to free the memory object by object would cost as much
            // as to write the log.
            forget(mended);
            status
        }
        Err(MendFault::Log(LogFault::NoMemory)) => Err(NoMemory),
        Err(fault) => tell_mend_fault(alloc, fault, faults),
    }
}

/// Writes a converted log, and then the report on it. Returns the exit status.
fn put_mended<O: Write, R: Write, E: Write>(
    alloc: Global,
    mended: &Mended,
    output: &mut Sink<O>,
    report: &mut Sink<R>,
    faults: &mut Sink<E>,
) -> Result<u8, NoMemory>
    requires output { write_failures_of output.old < 2 ^ 64 - 1 }
    requires report { write_failures_of report.old < 2 ^ 64 - 1 }
    requires faults { write_failures_of faults.old < 2 ^ 64 - 1 }
    ensures { OutputsBoth O.contents R.contents E.contents (log_of mended.now.dbid mended.now.journal)
        (mend_report mended.now.told mended.now.ending) output.old output.new report.old report.new
        faults.old faults.new result }
{
    let text = mend_report(alloc, mended)?;
    match write_log(output, mended.dbid, &mended.journal) {
        Ok(()) => Ok(put_answers(text.as_str(), report, faults)),
        Err(_) => {
            tell(faults, "zk: write\n");
            Ok(1)
        }
    }
}
