//! The line on standard error for a log that was not converted.
ghost use Rattle.std.specs.Prelude.{◌≡◌, ◌-◌, ◌<◌, ◌^◌, IfOk};
ghost use Rattle.std.specs.String.{string_bytes};
ghost use Rattle.zk_records.specs.Sinks.{write_failures_of};
ghost use Rattle.zk_commands.specs.FaultLines.{line_of_mend_fault, place_line};
ghost use Rattle.zk_log_commands.specs.Telling.{TellsFault};

use std::alloc::Global;
use std::io::Write;
use zk_log::Sink;
use zk_log_commands::{tell, tell_log_fault};
use zk_mend::MendFault;
use zk_path::NoMemory;

/// Writes the line for a log that was not converted. Returns the exit status.
pub(crate) fn tell_mend_fault<E: Write>(
    alloc: Global,
    fault: MendFault,
    faults: &mut Sink<E>,
) -> Result<u8, NoMemory>
    requires { write_failures_of faults.old < 2 ^ 64 - 1 }
    ensures { TellsFault E.contents (line_of_mend_fault fault) faults.old faults.new result }
{
    match fault {
        MendFault::Log(fault) => tell_log_fault(alloc, fault, faults),
        MendFault::Record(at) => tell_place(alloc, "G3", at, faults),
        MendFault::NoReason(at) => tell_place(alloc, "N1", at, faults),
        MendFault::OtherNodes(at) => tell_place(alloc, "N2", at, faults),
        MendFault::TooLong(at) => tell_place(alloc, "N3", at, faults),
    }
}

/// Writes a fault's number and the offset of its entry. Returns the exit status.
fn tell_place<E: Write>(
    alloc: Global,
    number: &str,
    at: u64,
    faults: &mut Sink<E>,
) -> Result<u8, NoMemory>
    requires { write_failures_of faults.old < 2 ^ 64 - 1 }
    ensures { TellsFault E.contents (place_line number.now at) faults.old faults.new result }
{
    match place_line(alloc, number, at) {
        Ok(line) => {
            tell(faults, line.as_str());
            Ok(1)
        }
        Err(NoMemory) => Err(NoMemory),
    }
}

/// The line with a fault's number and the offset of its entry.
fn place_line(alloc: Global, number: &str, at: u64) -> Result<String, NoMemory>
    ensures { IfOk result (λ line. string_bytes line ≡ place_line number.now at) }
{
    let mut line = String::new(alloc);
    write!(line, "zk: {number} {at}\n")?;
    Ok(line)
}
