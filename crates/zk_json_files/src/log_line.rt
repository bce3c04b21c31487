//! The object of a log.
ghost use Rattle.std.specs.Prelude.{◌≡◌, OnOk, IfOk};
ghost use Rattle.std.specs.String.{string_bytes};
ghost use Rattle.zk_directory_state.specs.Names.{log_name};
ghost use Rattle.zk_json.specs.Json.{AppendsLineOf, object_of};
ghost use Rattle.zk_json.specs.Objects.{value_of};
ghost use Rattle.zk_json_files.specs.Logs.{end_of, fault_at, fault_by, first_of, head_fields, last_of, log_fields, torn_at};

use std::alloc::Global;
use zk_directory::{FileEntry, LogFile, LogFileFault};
use zk_directory_state::push_log_name;
use zk_json::{Value, push_object_line};
use zk_log::Ending;
use zk_path::NoMemory;

/// The name of the log of this zxid.
pub(crate) fn name_of_log(alloc: Global, zxid: i64) -> Result<String, NoMemory>
    ensures { IfOk result (λ name. string_bytes name ≡ log_name zxid) }
{
    let mut name = String::new(alloc);
    push_log_name(&mut name, zxid)?;
    Ok(name)
}

/// The zxid of the first entry.
fn first_of(entries: &[FileEntry<'_>]) -> Value<'static>
    ensures { value_of result ≡ first_of entries.now }
{
    match entries.first() {
        Some(entry) => Value::Id(entry.newer.txn.zxid),
        None => Value::Null,
    }
}

/// The zxid of the last entry.
fn last_of(entries: &[FileEntry<'_>]) -> Value<'static>
    ensures { value_of result ≡ last_of entries.now }
{
    match entries.last() {
        Some(entry) => Value::Id(entry.newer.txn.zxid),
        None => Value::Null,
    }
}

/// How a log ends, unless it is rejected.
fn end_of(outcome: Result<Ending, LogFileFault>) -> Value<'static>
    ensures { value_of result ≡ end_of outcome }
{
    match outcome {
        Ok(Ending::Whole) => Value::Text("whole"),
        Ok(Ending::Padding) => Value::Text("padding"),
        Ok(Ending::Torn(_)) => Value::Text("torn"),
        Err(_) => Value::Null,
    }
}

/// Where the end of a log is torn.
fn torn_at(outcome: Result<Ending, LogFileFault>) -> Value<'static>
    ensures { value_of result ≡ torn_at outcome }
{
    match outcome {
        Ok(Ending::Torn(at)) => Value::Count(at),
        _ => Value::Null,
    }
}

/// Why a log is rejected.
fn fault_by(outcome: Result<Ending, LogFileFault>) -> Value<'static>
    ensures { value_of result ≡ fault_by outcome }
{
    match outcome {
        Ok(_) => Value::Null,
        Err(LogFileFault::Header) => Value::Text("G1"),
        Err(LogFileFault::Checksum(_)) => Value::Text("G2"),
        Err(LogFileFault::Record(_)) => Value::Text("G3"),
        Err(LogFileFault::Order(_)) => Value::Text("G4"),
        Err(LogFileFault::TooLong(_)) => Value::Text("G5"),
    }
}

/// Where the entry is for which a log is rejected.
fn fault_at(outcome: Result<Ending, LogFileFault>) -> Value<'static>
    ensures { value_of result ≡ fault_at outcome }
{
    match outcome {
        Ok(_) => Value::Null,
        Err(LogFileFault::Header) => Value::Null,
        Err(LogFileFault::Checksum(at)) => Value::Count(at),
        Err(LogFileFault::Record(at)) => Value::Count(at),
        Err(LogFileFault::Order(at)) => Value::Count(at),
        Err(LogFileFault::TooLong(at)) => Value::Count(at),
    }
}

/// Appends the object of a log of this name with `records` records.
fn push_log_fields<'a>(
    text: &mut String,
    name: &'a str,
    records: usize,
    first: Value<'a>,
    last: Value<'a>,
    outcome: Result<Ending, LogFileFault>,
) -> Result<(), NoMemory>
    ensures { OnOk result (AppendsLineOf (object_of (head_fields name.now records (value_of first.entry) (value_of last.entry) outcome)) (string_bytes text.old) (string_bytes text.new)) }
{
    let fields = [
        ("log", Value::Text(name)),
        ("records", Value::Count(records as u64)),
        ("first", first),
        ("last", last),
        ("end", end_of(outcome)),
        ("tornAt", torn_at(outcome)),
        ("fault", fault_by(outcome)),
        ("at", fault_at(outcome)),
    ];
    push_object_line(text, &fields)
}

/// Appends the object of a log of this name.
pub(crate) fn push_log_line(
    text: &mut String,
    name: &str,
    file: &LogFile<'_>,
) -> Result<(), NoMemory>
    ensures { OnOk result (AppendsLineOf (object_of (log_fields name.now file.now)) (string_bytes text.old) (string_bytes text.new)) }
{
    let entries = file.entries.as_slice();
    let first = first_of(entries);
    let last = last_of(entries);
    push_log_fields(text, name, entries.len(), first, last, file.outcome)
}
