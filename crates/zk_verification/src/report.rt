//! The report on a data directory.
ghost use Rattle.std.specs.Prelude.{◌≡◌, ◌++◌, IfOk, OnOk};
ghost use Rattle.std.specs.List.{flat_map};
ghost use Rattle.std.specs.String.{string_bytes};
ghost use Rattle.zk_directory_state.specs.FaultLines.{fault_line};
ghost use Rattle.zk_directory_state.specs.Files.{exact_text};
ghost use Rattle.zk_verification.specs.Marks.{wrong_in};
ghost use Rattle.zk_verification.specs.Reports.{AppendsMark, AppendsMarks, IsReport, base_text, ending_text, help_text, log_text, other_text, span_text, states_text, stopped_text, verdict_text};

use crate::help::{KINDS, Kind, has_kind, help_line};
use crate::mark::Mark;
use crate::report_lines::{push_gap, push_joint, push_lost, push_mismatch};
use std::alloc::Global;
use zk_directory_state::{HistoryFault, fault_line, push_log_name, push_snapshot_name};
use zk_format::push_id;
use zk_log::Ending;
use zk_path::NoMemory;
use zk_replay::{DigestCount, Exact};

/// How many marks say that something is wrong.
pub fn count_wrong(marks: &[Mark]) -> usize
    ensures { result ≡ wrong_in marks.now }
{
    let mut wrong = 0usize;
    for mark in marks {
        if mark.is_wrong() {
            wrong += 1;
        }
    }
    wrong
}

/// The report: a line for each log and for each snapshot that serves, a line for each fault, what
/// helps, and `well` or how many faults there are.
#[tactic(auto, using(crate::proofs::Written::reported))]
pub fn report_text(alloc: Global, marks: &[Mark]) -> Result<String, NoMemory>
    ensures { IfOk result (λ text. IsReport marks.now (string_bytes text)) }
{
    let mut text = String::new(alloc);
    push_marks(&mut text, marks)?;
    push_helps(&mut text, marks, &KINDS)?;
    push_verdict(&mut text, count_wrong(marks))?;
    Ok(text)
}

#[tactic(auto, using(crate::proofs::Written::none_marked, crate::proofs::Written::all_marked))]
fn push_marks(text: &mut String, marks: &[Mark]) -> Result<(), NoMemory>
    ensures { OnOk result (AppendsMarks marks.now (string_bytes text.old) (string_bytes text.new)) }
{
    for mark in marks {
        push_mark(text, mark)?;
    }
    Ok(())
}

fn push_mark(text: &mut String, mark: &Mark) -> Result<(), NoMemory>
    ensures { OnOk result (AppendsMark mark.now (string_bytes text.old) (string_bytes text.new)) }
{
    match mark {
        Mark::Log {
            zxid,
            records,
            span,
            ending,
        } => push_log(text, *zxid, *records, *span, *ending),
        Mark::States {
            snapshot,
            exact,
            last,
            digests,
        } => push_states(text, *snapshot, *exact, *last, *digests),
        Mark::Stopped { snapshot } => push_stopped(text, *snapshot),
        Mark::Joint { joint, is_missing } => push_joint(text, joint, *is_missing),
        Mark::Lost(damage) => push_lost(text, damage),
        Mark::Gap { before, after } => push_gap(text, *before, after),
        Mark::Digest(mismatch) => push_mismatch(text, mismatch),
        Mark::Wrong(fault) => push_wrong(text, fault),
    }
}

/// Appends the line of a fault.
fn push_wrong(text: &mut String, fault: &HistoryFault) -> Result<(), NoMemory>
    ensures { OnOk result (string_bytes text.new ≡ string_bytes text.old ++ fault_line fault.now) }
{
    let line = fault_line(*text.allocator(), fault)?;
    text.push_str(line.as_str())?;
    Ok(())
}

/// Appends the line of a log.
#[tactic(auto, unfolding(crate::specs::Reports::log_text))]
fn push_log(
    text: &mut String,
    zxid: i64,
    records: usize,
    span: Option<(i64, i64)>,
    ending: Option<Ending>,
) -> Result<(), NoMemory>
    ensures { OnOk result (string_bytes text.new ≡ string_bytes text.old ++ log_text zxid records span ending) }
{
    push_log_name(text, zxid)?;
    write!(text, " records {records}")?;
    push_span(text, span)?;
    push_ending(text, ending)?;
    text.push('\n')?;
    Ok(())
}

/// Appends the first and the last zxid, if there are any.
fn push_span(text: &mut String, span: Option<(i64, i64)>) -> Result<(), NoMemory>
    ensures { OnOk result (string_bytes text.new ≡ string_bytes text.old ++ span_text span) }
{
    let Some((first, last)) = span else {
        return Ok(());
    };
    text.push(' ')?;
    push_id(text, first)?;
    text.push(' ')?;
    push_id(text, last)?;
    Ok(())
}

/// Appends how a log ends, if it is not broken.
fn push_ending(text: &mut String, ending: Option<Ending>) -> Result<(), NoMemory>
    ensures { OnOk result (string_bytes text.new ≡ string_bytes text.old ++ ending_text ending) }
{
    match ending {
        Some(Ending::Whole) => text.push_str(" end whole")?,
        Some(Ending::Padding) => text.push_str(" end padding")?,
        Some(Ending::Torn(at)) => write!(text, " end torn {at}")?,
        None => {}
    }
    Ok(())
}

/// Appends the line of states that can be restored.
#[tactic(auto, unfolding(crate::specs::Reports::states_text))]
fn push_states(
    text: &mut String,
    snapshot: Option<i64>,
    exact: Exact,
    last: i64,
    digests: DigestCount,
) -> Result<(), NoMemory>
    ensures { OnOk result (string_bytes text.new ≡ string_bytes text.old ++ states_text snapshot exact last digests) }
{
    push_base(text, snapshot)?;
    text.push_str(" to ")?;
    push_id(text, last)?;
    let equal = digests.equal;
    write!(text, " digest {equal}")?;
    push_other(text, digests.other, digests.first)?;
    text.push_str(" exact ")?;
    push_exact(text, exact)
}

/// Appends the line of a snapshot that leads to no state.
#[tactic(auto, unfolding(crate::specs::Reports::stopped_text))]
fn push_stopped(text: &mut String, snapshot: Option<i64>) -> Result<(), NoMemory>
    ensures { OnOk result (string_bytes text.new ≡ string_bytes text.old ++ stopped_text snapshot) }
{
    push_base(text, snapshot)?;
    text.push_str(" to none\n")?;
    Ok(())
}

/// Appends the name of the snapshot that states begin at.
fn push_base(text: &mut String, snapshot: Option<i64>) -> Result<(), NoMemory>
    ensures { OnOk result (string_bytes text.new ≡ string_bytes text.old ++ base_text snapshot) }
{
    match snapshot {
        Some(zxid) => push_snapshot_name(text, zxid),
        None => {
            text.push_str("empty")?;
            Ok(())
        }
    }
}

/// Appends from which zxid on a replay is exact.
fn push_exact(text: &mut String, exact: Exact) -> Result<(), NoMemory>
    ensures { OnOk result (string_bytes text.new ≡ string_bytes text.old ++ exact_text exact) }
{
    push_id(text, exact.zxid)?;
    if exact.is_told {
        text.push_str("\n")?;
    } else {
        text.push_str(" or later\n")?;
    }
    Ok(())
}

/// Appends how many digests are not those of the trees, if any is not.
fn push_other(text: &mut String, other: u64, first: Option<i64>) -> Result<(), NoMemory>
    ensures { OnOk result (string_bytes text.new ≡ string_bytes text.old ++ other_text other first) }
{
    if first.is_some() {
        write!(text, " otherDigest {other}")?;
    }
    Ok(())
}

/// Appends what helps against each of these kinds.
fn push_helps(text: &mut String, marks: &[Mark], kinds: &[Kind]) -> Result<(), NoMemory>
    ensures { OnOk result (string_bytes text.new ≡ string_bytes text.old ++ flat_map (help_text marks.now) kinds.now) }
{
    for kind in kinds {
        push_help(text, marks, *kind)?;
    }
    Ok(())
}

/// Appends what helps against this kind, if something of it is wrong.
fn push_help(text: &mut String, marks: &[Mark], kind: Kind) -> Result<(), NoMemory>
    ensures { OnOk result (string_bytes text.new ≡ string_bytes text.old ++ help_text marks.now kind) }
{
    if has_kind(kind, marks) {
        text.push_str(help_line(kind))?;
    }
    Ok(())
}

/// Appends the last line.
#[tactic(auto, unfolding(crate::specs::Reports::verdict_text))]
fn push_verdict(text: &mut String, wrong: usize) -> Result<(), NoMemory>
    ensures { OnOk result (string_bytes text.new ≡ string_bytes text.old ++ verdict_text wrong) }
{
    if wrong == 0 {
        text.push_str("well\n")?;
        return Ok(());
    }
    write!(text, "wrong {wrong}\n")?;
    Ok(())
}
