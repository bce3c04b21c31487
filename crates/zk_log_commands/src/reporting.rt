ghost use Rattle.std.specs.Prelude.{◌+◌, ◌-◌, ◌<◌, ◌^◌, None};
ghost use Rattle.zk_log_commands.specs.Notices.{begins_within, within_epoch};
ghost use Rattle.zk_log_commands.specs.Showing.{notice_of, report_of, show_report};
ghost use Rattle.zk_log_commands.specs.Telling.{TellsLog, TellsWriting};
ghost use Rattle.zk_format.specs.Listings.{listing_of};
ghost use Rattle.zk_records.specs.Sinks.{write_failures_of};
ghost use Rattle.zk_log.specs.Devices.{reads_of, read_failures_of};

use crate::answering::put_answers;
use crate::lines::LineFault;
use crate::list::ListSink;
use crate::notice::tell_notice;
use crate::show::{ShowSink, write_report};
use crate::telling::{TURNS, tell, tell_log_fault};
use std::alloc::Global;
use std::io::{Read, Write};
use zk_log::{LogFault, Sink, Source, load_into};
use zk_path::NoMemory;

/// The report on a log.
#[derive(Clone, Copy, Debug, PartialEq, Eq)]
pub enum Report {
    /// The tree after the transactions up to `upto`, or after all of them, and how the log ends. A
    /// notice follows if the log starts in the middle of a history.
    Tree { upto: Option<i64> },
    Listing,
}

/// Loads a log and writes its report. Returns the exit status.
pub fn tell_log<F: Read, O: Write, E: Write>(
    alloc: Global,
    report: Report,
    file: &mut Source<F>,
    output: &mut Sink<O>,
    faults: &mut Sink<E>,
) -> Result<u8, NoMemory>
    requires reads { reads_of file.old + 1048576 < 2 ^ 64 }
    requires read_failures { read_failures_of file.old < 2 ^ 64 - 1 }
    requires output { write_failures_of output.old < 2 ^ 64 - 1 }
    requires faults { write_failures_of faults.old < 2 ^ 64 - 1 }
    ensures { TellsLog F.remaining O.contents E.contents (report_of report) (notice_of report) file.old file.new
        output.old output.new faults.old faults.new result }
{
    match report {
        Report::Tree { upto } => tell_tree(alloc, upto, file, output, faults),
        Report::Listing => tell_listing(alloc, file, output, faults),
    }
}

/// Loads a log into a table, and writes the report of its tree. Returns the exit status.
fn tell_tree<F: Read, O: Write, E: Write>(
    alloc: Global,
    upto: Option<i64>,
    file: &mut Source<F>,
    output: &mut Sink<O>,
    faults: &mut Sink<E>,
) -> Result<u8, NoMemory>
    requires reads { reads_of file.old + 1048576 < 2 ^ 64 }
    requires read_failures { read_failures_of file.old < 2 ^ 64 - 1 }
    requires output { write_failures_of output.old < 2 ^ 64 - 1 }
    requires faults { write_failures_of faults.old < 2 ^ 64 - 1 }
    ensures { TellsLog F.remaining O.contents E.contents (show_report upto) (λ loaded. begins_within loaded.txns) file.old file.new
        output.old output.new faults.old faults.new result }
{
    let mut shower = ShowSink::new(alloc, upto)?;
    match load_into(alloc, file, TURNS, &mut shower) {
        Ok(head) => {
            let first = shower.first;
            let written = write_report(alloc, shower, head.ending, output);
            tell_written(alloc, written, first, faults)
        }
        Err(LogFault::NoMemory) => Err(NoMemory),
        Err(fault) => tell_log_fault(alloc, fault, faults),
    }
}

/// Loads a log and writes its listing. Returns the exit status.
fn tell_listing<F: Read, O: Write, E: Write>(
    alloc: Global,
    file: &mut Source<F>,
    output: &mut Sink<O>,
    faults: &mut Sink<E>,
) -> Result<u8, NoMemory>
    requires reads { reads_of file.old + 1048576 < 2 ^ 64 }
    requires read_failures { read_failures_of file.old < 2 ^ 64 - 1 }
    requires output { write_failures_of output.old < 2 ^ 64 - 1 }
    requires faults { write_failures_of faults.old < 2 ^ 64 - 1 }
    ensures { TellsLog F.remaining O.contents E.contents (λ loaded. listing_of loaded.txns) (λ loaded. None) file.old file.new
        output.old output.new faults.old faults.new result }
{
    let mut lines = ListSink::new(alloc);
    match load_into(alloc, file, TURNS, &mut lines) {
        Ok(_) => Ok(put_answers(lines.text.as_str(), output, faults)),
        Err(LogFault::NoMemory) => Err(NoMemory),
        Err(fault) => tell_log_fault(alloc, fault, faults),
    }
}

/// Writes a line on standard error if the output failed, and else the notice on a log with this
/// first zxid. Returns the exit status.
fn tell_written<E: Write>(
    alloc: Global,
    written: Result<(), LineFault>,
    first: Option<i64>,
    faults: &mut Sink<E>,
) -> Result<u8, NoMemory>
    requires { write_failures_of faults.old < 2 ^ 64 - 1 }
    ensures { TellsWriting E.contents written (within_epoch first) faults.old faults.new result }
{
    match written {
        Ok(()) => tell_notice(alloc, first, faults),
        Err(LineFault::Write) => {
            tell(faults, "zk: write\n");
            Ok(1)
        }
        Err(LineFault::NoMemory) => Err(NoMemory),
    }
}
