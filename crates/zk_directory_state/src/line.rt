//! The line on standard error for a data directory that is rejected.
ghost use Rattle.std.specs.Prelude.{◌≡◌, ◌++◌, IfOk, OnOk, codes};
ghost use Rattle.std.specs.Fmt.{decimal};
ghost use Rattle.std.specs.String.{string_bytes};
ghost use Rattle.zk_directory_state.specs.FaultLines.{IsBeyondLine, beyond_line, fault_line, fault_text, file_text, log_fault_text, passed_word};
ghost use Rattle.zk_directory_state.specs.Names.{log_name, snapshot_name};
ghost use Rattle.zk_format.specs.Spelling.{id_digits};
ghost use Rattle.zk_json.specs.Times.{IsTimeText};

use crate::fault::{HistoryFault, PassedFault};
use crate::{push_log_name, push_snapshot_name};
use std::alloc::Global;
use zk_directory::{FileName, LogFileFault};
use zk_format::push_id;
use zk_json::push_time;
use zk_path::NoMemory;

/// The line for a directory that is rejected.
#[tactic(auto, unfolding(crate::specs::FaultLines::fault_line))]
pub fn fault_line(alloc: Global, fault: &HistoryFault) -> Result<String, NoMemory>
    ensures { IfOk result (λ line. string_bytes line ≡ fault_line fault.now) }
{
    let mut line = String::from_str(alloc, "zk: ")?;
    push_fault(&mut line, fault)?;
    line.push_str("\n")?;
    Ok(line)
}

/// The line of a last transaction, with its time, in milliseconds since 1970.
#[tactic(auto, using(crate::proofs::Told::beyond))]
pub(crate) fn beyond_line(alloc: Global, last: i64, time: i64) -> Result<String, NoMemory>
    ensures { IfOk result (λ line. IsBeyondLine last time (string_bytes line)) }
{
    let clock = clock_text(alloc, time)?;
    line_with(alloc, last, &clock)
}

/// The text of a time.
fn clock_text(alloc: Global, time: i64) -> Result<String, NoMemory>
    ensures { IfOk result (λ clock. IsTimeText time (string_bytes clock)) }
{
    let mut clock = String::new(alloc);
    push_time(&mut clock, time)?;
    Ok(clock)
}

/// The line of a last transaction, with the text of its time.
#[tactic(auto, unfolding(crate::specs::FaultLines::beyond_line))]
fn line_with(alloc: Global, last: i64, clock: &String) -> Result<String, NoMemory>
    ensures { IfOk result (λ line. string_bytes line ≡ beyond_line last (string_bytes clock.now)) }
{
    let mut line = String::from_str(alloc, "zk: ")?;
    push_zxid(&mut line, "D7", last)?;
    line.push_str(" ")?;
    line.push_str(clock.as_str())?;
    line.push_str("\n")?;
    Ok(line)
}

/// Appends a fault's name, the file that it is about, and its numbers.
fn push_fault(line: &mut String, fault: &HistoryFault) -> Result<(), NoMemory>
    ensures { OnOk result (string_bytes line.new ≡ string_bytes line.old ++ fault_text fault.now) }
{
    match fault {
        HistoryFault::Empty => line.push_str("D1")?,
        HistoryFault::Purged { first } => push_zxid(line, "D2", *first)?,
        HistoryFault::Gap { from, to } => {
            push_zxid(line, "D3", *from)?;
            push_zxid(line, "", *to)?;
        }
        HistoryFault::Differs { log, at } => push_place(line, "D4", *log, *at)?,
        HistoryFault::Short { snapshot, exact } => push_exact(line, "D5", *snapshot, *exact)?,
        HistoryFault::Early { snapshot, exact } => push_exact(line, "D6", *snapshot, *exact)?,
        HistoryFault::Beyond { last, .. } => push_zxid(line, "D7", *last)?,
        HistoryFault::NoTransaction => line.push_str("D8")?,
        HistoryFault::Log { log, fault } => push_log_fault(line, *log, *fault)?,
        HistoryFault::Snapshot { snapshot, fault } => push_passed(line, *snapshot, *fault)?,
        HistoryFault::Unreadable(file) => push_unreadable(line, *file)?,
        HistoryFault::Read => line.push_str("read")?,
        HistoryFault::NoMemory => line.push_str("memory")?,
    }
    Ok(())
}

/// Appends a word, a space and a zxid.
fn push_zxid(line: &mut String, word: &str, zxid: i64) -> Result<(), NoMemory>
    ensures { OnOk result (string_bytes line.new ≡ string_bytes line.old ++ (word.now ++ codes " " ++ id_digits zxid)) }
{
    line.push_str(word)?;
    line.push_str(" ")?;
    push_id(line, zxid)
}

/// Appends a word, a log's name and the byte of an entry.
fn push_place(line: &mut String, word: &str, log: i64, at: u64) -> Result<(), NoMemory>
    ensures { OnOk result (string_bytes line.new ≡ string_bytes line.old ++ (word.now ++ codes " " ++ log_name log ++ codes " " ++ decimal at)) }
{
    push_log(line, word, log)?;
    write!(line, " {at}")?;
    Ok(())
}

/// Appends a word and a log's name.
fn push_log(line: &mut String, word: &str, log: i64) -> Result<(), NoMemory>
    ensures { OnOk result (string_bytes line.new ≡ string_bytes line.old ++ (word.now ++ codes " " ++ log_name log)) }
{
    line.push_str(word)?;
    line.push_str(" ")?;
    push_log_name(line, log)
}

/// Appends a word, a snapshot's name and a zxid.
fn push_exact(line: &mut String, word: &str, snapshot: i64, exact: i64) -> Result<(), NoMemory>
    ensures { OnOk result (string_bytes line.new ≡ string_bytes line.old ++ (word.now ++ codes " " ++ snapshot_name snapshot ++ codes " " ++ id_digits exact)) }
{
    line.push_str(word)?;
    line.push_str(" ")?;
    push_snapshot_name(line, snapshot)?;
    push_zxid(line, "", exact)
}

/// Appends a log's fault, its name and the byte of the entry.
fn push_log_fault(line: &mut String, log: i64, fault: LogFileFault) -> Result<(), NoMemory>
    ensures { OnOk result (string_bytes line.new ≡ string_bytes line.old ++ log_fault_text log fault) }
{
    match fault {
        LogFileFault::Header => push_log(line, "G1", log),
        LogFileFault::Checksum(at) => push_place(line, "G2", log, at),
        LogFileFault::Record(at) => push_place(line, "G3", log, at),
        LogFileFault::Order(at) => push_place(line, "G4", log, at),
        LogFileFault::TooLong(at) => push_place(line, "G5", log, at),
    }
}

/// Appends why a snapshot does not serve, and its name.
fn push_passed(line: &mut String, snapshot: i64, fault: PassedFault) -> Result<(), NoMemory>
    ensures { OnOk result (string_bytes line.new ≡ string_bytes line.old ++ (passed_word fault ++ codes " " ++ snapshot_name snapshot)) }
{
    line.push_str(passed_word(fault))?;
    line.push_str(" ")?;
    push_snapshot_name(line, snapshot)
}

/// Appends the fault of a file that could not be read, and its name.
fn push_unreadable(line: &mut String, file: FileName) -> Result<(), NoMemory>
    ensures { OnOk result (string_bytes line.new ≡ string_bytes line.old ++ (codes "G6 " ++ file_text file)) }
{
    line.push_str("G6 ")?;
    match file {
        FileName::Snapshot { zxid } => push_snapshot_name(line, zxid),
        FileName::Log { zxid } => push_log_name(line, zxid),
    }
}

/// The name of a snapshot's fault.
pub fn passed_word(fault: PassedFault) -> &'static str
    ensures { result.now ≡ passed_word fault }
{
    match fault {
        PassedFault::Header => "S1",
        PassedFault::Short => "S2",
        PassedFault::Field => "S3",
        PassedFault::Checksum => "S4",
        PassedFault::Trailing => "S5",
        PassedFault::Compressed => "S6",
        PassedFault::Tree => "S7",
        PassedFault::Access => "S8",
    }
}
