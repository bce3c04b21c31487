//! What a command writes: its text, or the line of its fault.
ghost use Rattle.std.specs.Prelude.{◌-◌, ◌<◌, ◌^◌, Ok};
ghost use Rattle.zk_directory_state.specs.Outcomes.{TellsFault};
ghost use Rattle.zk_log_commands.specs.Telling.{Outputs};
ghost use Rattle.zk_records.specs.Sinks.{write_failures_of};

use crate::fault::HistoryFault;
use crate::line::{beyond_line, fault_line};
use std::alloc::Global;
use std::io::Write;
use zk_log::Sink;
use zk_log_commands::tell;
use zk_path::NoMemory;

/// Writes a text. Returns the exit status.
pub fn put_text<O: Write, E: Write>(text: &str, output: &mut Sink<O>, faults: &mut Sink<E>) -> u8
    requires output { write_failures_of output.old < 2 ^ 64 - 1 }
    requires faults { write_failures_of faults.old < 2 ^ 64 - 1 }
    ensures { Outputs O.contents E.contents text.now output.old output.new faults.old faults.new (Ok result) }
{
    match output.write_all(text.as_bytes()) {
        Ok(()) => 0,
        Err(_) => {
            tell(faults, "zk: write\n");
            1
        }
    }
}

/// Writes the line of a fault. Returns the exit status.
pub fn tell_fault<E: Write>(
    alloc: Global,
    fault: &HistoryFault,
    faults: &mut Sink<E>,
) -> Result<u8, NoMemory>
    requires { write_failures_of faults.old < 2 ^ 64 - 1 }
    ensures { TellsFault E.contents fault.now faults.old faults.new result }
{
    if let HistoryFault::NoMemory = fault {
        return Err(NoMemory);
    }
    if let HistoryFault::Beyond {
        last,
        time: Some(time),
    } = fault
    {
        let line = beyond_line(alloc, *last, *time)?;
        tell(faults, line.as_str());
        return Ok(1);
    }
    let line = fault_line(alloc, fault)?;
    tell(faults, line.as_str());
    Ok(1)
}
