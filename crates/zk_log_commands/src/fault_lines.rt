ghost use Rattle.std.specs.Prelude.{◌≡◌, IfNone, IfOk, IfSome};
ghost use Rattle.std.specs.String.{string_bytes};
ghost use Rattle.zk_log_commands.specs.FaultLines.{TellsPlace, line_of_log_fault, line_of_list_fault, line_of_asm_fault, number_of_cause};

use crate::asm_fault::AsmFault;
use std::alloc::Global;
use zk_listing::{ListCause, ListFault};
use zk_log::LogFault;
use zk_path::NoMemory;

/// The line for a rejected log, if it has no position. Does not allocate.
pub(crate) fn placeless_log_line(fault: LogFault) -> Option<&'static str>
    ensures line { IfSome result (λ line. line.now ≡ line_of_log_fault fault) }
    ensures place { IfNone result (TellsPlace (line_of_log_fault fault)) }
{
    match fault {
        LogFault::Header => Some("zk: G1\n"),
        LogFault::Read => Some("zk: G6\n"),
        LogFault::Endless => Some("zk: G7\n"),
        LogFault::NoMemory => Some("zk: G8\n"),
        LogFault::Checksum(_) => None,
        LogFault::Record(..) => None,
        LogFault::Order(_) => None,
        LogFault::TooLong(_) => None,
    }
}

/// The line for a rejected text, if it has no position. Does not allocate.
pub(crate) fn placeless_asm_line(fault: AsmFault) -> Option<&'static str>
    ensures line { IfSome result (λ line. line.now ≡ line_of_asm_fault fault) }
    ensures place { IfNone result (TellsPlace (line_of_asm_fault fault)) }
{
    match fault {
        AsmFault::Read => Some("zk: read\n"),
        AsmFault::Utf8 => Some("zk: utf8\n"),
        AsmFault::NoMemory => Some("zk: memory\n"),
        AsmFault::Listing(_) => None,
        AsmFault::Order(_) => None,
        AsmFault::Length(_) => None,
    }
}

/// The line for a rejected log: the fault's number, and the offset of its entry.
pub fn log_line(alloc: Global, fault: LogFault) -> Result<String, NoMemory>
    ensures { IfOk result (λ line. string_bytes line ≡ line_of_log_fault fault) }
{
    let mut line = String::new(alloc);
    match fault {
        LogFault::Header => line.push_str("zk: G1\n")?,
        LogFault::Checksum(at) => write!(line, "zk: G2 {at}\n")?,
        LogFault::Record(at, _) => write!(line, "zk: G3 {at}\n")?,
        LogFault::Order(at) => write!(line, "zk: G4 {at}\n")?,
        LogFault::TooLong(at) => write!(line, "zk: G5 {at}\n")?,
        LogFault::Read => line.push_str("zk: G6\n")?,
        LogFault::Endless => line.push_str("zk: G7\n")?,
        LogFault::NoMemory => line.push_str("zk: G8\n")?,
    }
    Ok(line)
}

/// The line for a rejected text: the fault's number or word, and the number of its line.
pub fn asm_line(alloc: Global, fault: AsmFault) -> Result<String, NoMemory>
    ensures { IfOk result (λ line. string_bytes line ≡ line_of_asm_fault fault) }
{
    let mut line = String::new(alloc);
    match fault {
        AsmFault::Read => line.push_str("zk: read\n")?,
        AsmFault::Utf8 => line.push_str("zk: utf8\n")?,
        AsmFault::Listing(fault) => return list_line(alloc, fault),
        AsmFault::Order(at) => write!(line, "zk: order {at}\n")?,
        AsmFault::Length(at) => write!(line, "zk: length {at}\n")?,
        AsmFault::NoMemory => line.push_str("zk: memory\n")?,
    }
    Ok(line)
}

/// The line for a text that is not a listing.
fn list_line(alloc: Global, fault: ListFault) -> Result<String, NoMemory>
    ensures { IfOk result (λ line. string_bytes line ≡ line_of_list_fault fault) }
{
    let mut line = String::new(alloc);
    let number = number_of_cause(fault.cause);
    let at = fault.line;
    write!(line, "zk: {number} {at}\n")?;
    Ok(line)
}

/// The number of a line's fault.
fn number_of_cause(cause: ListCause) -> &'static str
    ensures { result.now ≡ number_of_cause cause }
{
    match cause {
        ListCause::Fields => "L1",
        ListCause::Number => "L2",
        ListCause::Quote => "L3",
        ListCause::Hex => "L4",
        ListCause::Word => "L5",
        ListCause::Path => "L6",
        ListCause::NoNewline => "L7",
        ListCause::NoMemory => "L8",
    }
}
