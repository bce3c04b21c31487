//! The line of a log.
ghost use Rattle.std.specs.Prelude.{◌≡◌, ◌++◌, ◌∷◌, OnOk, IfOk};
ghost use Rattle.std.specs.String.{string_bytes};
ghost use Rattle.zk_directory_state.specs.Files.{between_text, ends_text, gap_text, gaps_text, has_gap, last_after, later_of, log_head, log_line, outcome_text, span_text};
ghost use Rattle.zk_format.specs.Spelling.{id_digits};

use crate::names::push_log_name;
use zk_directory::{FileEntry, LogFile, LogFileFault, continues};
use zk_format::push_id;
use zk_log::Ending;
use zk_path::NoMemory;

/// Appends the line of the log of this zxid: its name, the number of its records, the zxids of the
/// first and the last of them, how it ends, and each gap. The records of earlier logs end with
/// `last`. Returns the last zxid so far.
#[tactic(auto, unfolding(crate::specs::Files::log_line))]
pub fn push_log_line(
    text: &mut String,
    zxid: i64,
    file: &LogFile<'_>,
    last: Option<i64>,
) -> Result<Option<i64>, NoMemory>
    ensures line { OnOk result (string_bytes text.new ≡ string_bytes text.old ++ log_line zxid last file.now) }
    ensures last { IfOk result (λ after. after ≡ last_after last file.now.entries.items) }
{
    push_head(text, zxid, file)?;
    let last = push_gaps(text, last, file.entries.as_slice())?;
    text.push_str("\n")?;
    Ok(last)
}

/// Appends the line without its gaps.
#[tactic(auto, unfolding(crate::specs::Files::log_head))]
fn push_head(text: &mut String, zxid: i64, file: &LogFile<'_>) -> Result<(), NoMemory>
    ensures { OnOk result (string_bytes text.new ≡ string_bytes text.old ++ log_head zxid file.now) }
{
    push_log_name(text, zxid)?;
    push_span(text, file.entries.as_slice())?;
    push_outcome(text, file.outcome)?;
    Ok(())
}

/// Appends the number of records, and the first and the last zxid.
fn push_span(text: &mut String, entries: &[FileEntry<'_>]) -> Result<(), NoMemory>
    ensures { OnOk result (string_bytes text.new ≡ string_bytes text.old ++ span_text entries.now) }
{
    let records = entries.len();
    write!(text, " records {records}")?;
    push_ends(text, entries)?;
    Ok(())
}

/// Appends the first and the last zxid, if there are any.
fn push_ends(text: &mut String, entries: &[FileEntry<'_>]) -> Result<(), NoMemory>
    ensures { OnOk result (string_bytes text.new ≡ string_bytes text.old ++ ends_text entries.now) }
{
    let Some(first) = entries.first() else {
        return Ok(());
    };
    let Some(last) = entries.last() else {
        return Ok(());
    };
    push_zxid(text, first)?;
    push_zxid(text, last)?;
    Ok(())
}

/// Appends a space and the zxid of an entry.
fn push_zxid(text: &mut String, entry: &FileEntry<'_>) -> Result<(), NoMemory>
    ensures { OnOk result (string_bytes text.new ≡ string_bytes text.old ++ 32 ∷ id_digits entry.now.newer.txn.zxid) }
{
    push_next_id(text, entry.newer.txn.zxid)
}

/// Appends a space and a zxid.
fn push_next_id(text: &mut String, zxid: i64) -> Result<(), NoMemory>
    ensures { OnOk result (string_bytes text.new ≡ string_bytes text.old ++ 32 ∷ id_digits zxid) }
{
    text.push_str(" ")?;
    push_id(text, zxid)?;
    Ok(())
}

/// Appends how a log ends, or why it is rejected.
fn push_outcome(text: &mut String, outcome: Result<Ending, LogFileFault>) -> Result<(), NoMemory>
    ensures { OnOk result (string_bytes text.new ≡ string_bytes text.old ++ outcome_text outcome) }
{
    match outcome {
        Ok(Ending::Whole) => text.push_str(" end whole")?,
        Ok(Ending::Padding) => text.push_str(" end padding")?,
        Ok(Ending::Torn(at)) => write!(text, " end torn {at}")?,
        Err(LogFileFault::Header) => text.push_str(" G1")?,
        Err(LogFileFault::Checksum(at)) => write!(text, " G2 {at}")?,
        Err(LogFileFault::Record(at)) => write!(text, " G3 {at}")?,
        Err(LogFileFault::Order(at)) => write!(text, " G4 {at}")?,
        Err(LogFileFault::TooLong(at)) => write!(text, " G5 {at}")?,
    }
    Ok(())
}

/// Appends each gap before these entries and among them. Returns the last zxid so far.
fn push_gaps(
    text: &mut String,
    last: Option<i64>,
    entries: &[FileEntry<'_>],
) -> Result<Option<i64>, NoMemory>
    ensures gaps { OnOk result (string_bytes text.new ≡ string_bytes text.old ++ gaps_text last entries.now) }
    ensures last { IfOk result (λ after. after ≡ last_after last entries.now) }
{
    let mut last = last;
    for entry in entries {
        push_gap_before(text, last, entry)?;
        last = later_than(last, entry);
    }
    Ok(last)
}

/// Appends the gap before an entry, if there is one.
fn push_gap_before(
    text: &mut String,
    last: Option<i64>,
    entry: &FileEntry<'_>,
) -> Result<(), NoMemory>
    ensures { OnOk result (string_bytes text.new ≡ string_bytes text.old ++ gap_text last entry.now.newer.txn.zxid) }
{
    push_gap(text, last, entry.newer.txn.zxid)
}

/// The last zxid, with that of an entry.
fn later_than(last: Option<i64>, entry: &FileEntry<'_>) -> Option<i64>
    ensures { result ≡ later_of last entry.now.newer.txn.zxid }
{
    later_of(last, entry.newer.txn.zxid)
}

/// Appends the gap between two zxids, if there is one.
fn push_gap(text: &mut String, last: Option<i64>, zxid: i64) -> Result<(), NoMemory>
    ensures { OnOk result (string_bytes text.new ≡ string_bytes text.old ++ gap_text last zxid) }
{
    let Some(last) = last else {
        return Ok(());
    };
    if has_gap(last, zxid) {
        push_both(text, last, zxid)?;
    }
    Ok(())
}

/// Appends a gap between two zxids.
fn push_both(text: &mut String, last: i64, zxid: i64) -> Result<(), NoMemory>
    ensures { OnOk result (string_bytes text.new ≡ string_bytes text.old ++ between_text last zxid) }
{
    text.push_str(" gap")?;
    push_next_id(text, last)?;
    push_next_id(text, zxid)?;
    Ok(())
}

/// Whether transactions are missing before `zxid`.
fn has_gap(last: i64, zxid: i64) -> bool
    ensures { result ≡ has_gap last zxid }
{
    last < zxid && !continues(last, zxid)
}

/// The last zxid, with one more.
fn later_of(last: Option<i64>, zxid: i64) -> Option<i64>
    ensures { result ≡ later_of last zxid }
{
    match last {
        Some(last) if zxid < last => Some(last),
        _ => Some(zxid),
    }
}
