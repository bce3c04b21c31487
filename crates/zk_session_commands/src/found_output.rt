//! The output of a command that looks for something.
ghost use Rattle.std.specs.Prelude.{◌-◌, ◌<◌, ◌^◌, Ok};
ghost use Rattle.zk_directory_state.specs.Notices.{TellsNotices};
ghost use Rattle.zk_records.specs.Sinks.{write_failures_of};
ghost use Rattle.zk_session_commands.specs.FoundOutputs.{OutputsFound, OutputsText};

use std::alloc::Global;
use std::io::Write;
use zk_directory_state::{HistoryFault, Noticed, put_with_notices, tell_fault};
use zk_log::Sink;
use zk_log_commands::tell;
use zk_path::NoMemory;

/// Writes notices, if there are any.
fn tell_notices<E: Write>(notices: &str, faults: &mut Sink<E>)
    requires { write_failures_of faults.old < 2 ^ 64 - 1 }
    ensures { TellsNotices E.contents notices.now faults.old faults.new }
{
    if !notices.is_empty() {
        tell(faults, notices);
    }
}

/// Writes a text and the notices on it, or of an empty text the notices alone. Returns the exit
/// status, which is 1 for an empty text.
fn put_text<O: Write, E: Write>(
    text: &str,
    notices: &str,
    output: &mut Sink<O>,
    faults: &mut Sink<E>,
) -> u8
    requires output { write_failures_of output.old < 2 ^ 64 - 1 }
    requires faults { write_failures_of faults.old < 2 ^ 64 - 1 }
    ensures { OutputsText O.contents E.contents text.now notices.now output.old output.new faults.old faults.new (Ok result) }
{
    if text.is_empty() {
        tell_notices(notices, faults);
        return 1;
    }
    put_with_notices(text, notices, output, faults)
}

/// Writes what was found, or the line of the fault in its place. Returns the exit status, which is 1
/// if nothing was found.
pub(crate) fn put_found<O: Write, E: Write>(
    alloc: Global,
    answer: Result<Noticed, HistoryFault>,
    output: &mut Sink<O>,
    faults: &mut Sink<E>,
) -> Result<u8, NoMemory>
    requires output { write_failures_of output.old < 2 ^ 64 - 1 }
    requires faults { write_failures_of faults.old < 2 ^ 64 - 1 }
    ensures { OutputsFound O.contents E.contents answer output.old output.new faults.old faults.new result }
{
    match answer {
        Ok(Noticed { text, notices }) => {
            Ok(put_text(text.as_str(), notices.as_str(), output, faults))
        }
        Err(fault) => tell_fault(alloc, &fault, faults),
    }
}
