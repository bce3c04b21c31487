//! The objects of the gaps among the records of logs.
ghost use Rattle.std.specs.Prelude.{◌≡◌, OnOk, IfOk};
ghost use Rattle.std.specs.String.{string_bytes};
ghost use Rattle.zk_directory_state.specs.Files.{has_gap, last_after, later_of};
ghost use Rattle.zk_json.specs.Json.{AppendsLineOf, object_of};
ghost use Rattle.zk_json_files.specs.Logs.{AppendsGaps, AppendsLog, gap_after, gap_before, gap_fields, gaps_in};

use crate::log_line::push_log_line;
use zk_directory::{FileEntry, LogFile, continues};
use zk_json::{Value, push_object_line};
use zk_path::NoMemory;

/// Appends the objects of a log of this name: its own, and one for each gap. The records of earlier
/// logs end with `last`. Returns the last zxid so far.
pub(crate) fn push_log_lines(
    text: &mut String,
    name: &str,
    file: &LogFile<'_>,
    last: Option<i64>,
) -> Result<Option<i64>, NoMemory>
    ensures lines { OnOk result (AppendsLog name.now last file.now (string_bytes text.old) (string_bytes text.new)) }
    ensures last { IfOk result (λ after. after ≡ last_after last file.now.entries.items) }
{
    push_log_line(text, name, file)?;
    push_gaps(text, name, last, file.entries.as_slice())
}

/// Appends the object of each gap before these entries and among them. Returns the last zxid so
/// far.
fn push_gaps(
    text: &mut String,
    name: &str,
    last: Option<i64>,
    entries: &[FileEntry<'_>],
) -> Result<Option<i64>, NoMemory>
    ensures gaps { OnOk result (AppendsGaps name.now (gaps_in last entries.now) (string_bytes text.old) (string_bytes text.new)) }
    ensures last { IfOk result (λ after. after ≡ last_after last entries.now) }
{
    let mut last = last;
    for entry in entries {
        push_gap_before(text, name, last, entry)?;
        last = later_than(last, entry);
    }
    Ok(last)
}

/// Appends the object of the gap before an entry, if there is one.
fn push_gap_before(
    text: &mut String,
    name: &str,
    last: Option<i64>,
    entry: &FileEntry<'_>,
) -> Result<(), NoMemory>
    ensures { OnOk result (AppendsGaps name.now (gap_before last entry.now.newer.txn.zxid) (string_bytes text.old) (string_bytes text.new)) }
{
    push_gap(text, name, last, entry.newer.txn.zxid)
}

/// The last zxid, with that of an entry.
fn later_than(last: Option<i64>, entry: &FileEntry<'_>) -> Option<i64>
    ensures { result ≡ later_of last entry.now.newer.txn.zxid }
{
    later_of(last, entry.newer.txn.zxid)
}

/// Appends the object of the gap between two zxids, if there is one.
#[tactic(auto, using(crate::proofs::Lines::no_gap))]
fn push_gap(text: &mut String, name: &str, last: Option<i64>, zxid: i64) -> Result<(), NoMemory>
    ensures { OnOk result (AppendsGaps name.now (gap_before last zxid) (string_bytes text.old) (string_bytes text.new)) }
{
    match last {
        Some(last) => push_gap_after(text, name, last, zxid),
        None => Ok(()),
    }
}

/// Appends the object of the gap after a zxid, if there is one.
#[tactic(auto, using(crate::proofs::Lines::without_gap, crate::proofs::Lines::with_gap))]
fn push_gap_after(text: &mut String, name: &str, last: i64, zxid: i64) -> Result<(), NoMemory>
    ensures { OnOk result (AppendsGaps name.now (gap_after last zxid) (string_bytes text.old) (string_bytes text.new)) }
{
    if has_gap(last, zxid) {
        push_between(text, name, last, zxid)?;
    }
    Ok(())
}

/// Appends the object of a gap between two zxids.
fn push_between(text: &mut String, name: &str, last: i64, zxid: i64) -> Result<(), NoMemory>
    ensures { OnOk result (AppendsLineOf (object_of (gap_fields name.now (last, zxid))) (string_bytes text.old) (string_bytes text.new)) }
{
    let fields = [
        ("gap", Value::Text(name)),
        ("from", Value::Id(last)),
        ("to", Value::Id(zxid)),
    ];
    push_object_line(text, &fields)
}

/// Whether transactions are missing before `zxid`.
fn has_gap(last: i64, zxid: i64) -> bool
    ensures { result ≡ has_gap last zxid }
{
    last < zxid && !continues(last, zxid)
}

/// The last zxid, with one more.
fn later_of(last: Option<i64>, zxid: i64) -> Option<i64>
    ensures { result ≡ later_of last zxid }
{
    match last {
        Some(last) if zxid < last => Some(last),
        _ => Some(zxid),
    }
}
