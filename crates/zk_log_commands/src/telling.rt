ghost use Rattle.std.specs.Prelude.{◌-◌, ◌<◌, ◌^◌};
ghost use Rattle.zk_log_commands.specs.FaultLines.{line_of_log_fault, line_of_asm_fault};
ghost use Rattle.zk_log_commands.specs.Telling.{Told, TellsFault};
ghost use Rattle.zk_records.specs.Sinks.{write_failures_of};

use crate::asm_fault::AsmFault;
use crate::fault_lines::{asm_line, log_line, placeless_asm_line, placeless_log_line};
use std::alloc::Global;
use std::io::Write;
use zk_log::{LogFault, Sink};
use zk_path::NoMemory;

/// The maximum number of reads of an input.
pub const TURNS: u32 = 1_048_576;

/// Writes the line for a rejected log. Returns the exit status.
pub fn tell_log_fault<E: Write>(
    alloc: Global,
    fault: LogFault,
    faults: &mut Sink<E>,
) -> Result<u8, NoMemory>
    requires { write_failures_of faults.old < 2 ^ 64 - 1 }
    ensures { TellsFault E.contents (line_of_log_fault fault) faults.old faults.new result }
{
    if let Some(line) = placeless_log_line(fault) {
        tell(faults, line);
        return Ok(1);
    }
    let line = log_line(alloc, fault)?;
    tell(faults, line.as_str());
    Ok(1)
}

/// Writes the line for a rejected text. Returns the exit status.
pub(crate) fn tell_asm_fault<E: Write>(
    alloc: Global,
    fault: AsmFault,
    faults: &mut Sink<E>,
) -> Result<u8, NoMemory>
    requires { write_failures_of faults.old < 2 ^ 64 - 1 }
    ensures { TellsFault E.contents (line_of_asm_fault fault) faults.old faults.new result }
{
    if let Some(line) = placeless_asm_line(fault) {
        tell(faults, line);
        return Ok(1);
    }
    let line = asm_line(alloc, fault)?;
    tell(faults, line.as_str());
    Ok(1)
}

/// Writes a line for the user. An error in that is ignored, since it cannot be reported.
pub fn tell<E: Write>(faults: &mut Sink<E>, line: &str)
    requires failures { write_failures_of faults.old < 2 ^ 64 - 1 }
    ensures { Told E.contents faults.old faults.new line.now }
{
    let _ = faults.write_all(line.as_bytes());
}
