//! The lines of `zk compare`.
ghost use Rattle.std.specs.Prelude.{◌≡◌, ◌++◌, IfOk, OnOk, Some};
ghost use Rattle.std.specs.Option.{option_copied};
ghost use Rattle.std.specs.String.{string_bytes};
ghost use Rattle.zk_comparison.specs.Lines.{AppendsFinding, AppendsFindings, AppendsStretch, AreLines, IsFindingText, IsSideText, IsSpanText, IsTimeBy, count_text, differing_text, holder_word, node_text, path_text, side_text, span_text, stretch_text, tree_text};
ghost use Rattle.zk_comparison.specs.declared.finding.Finding.TheVariants as said;

use crate::finding::{Directory, Finding, Occurrence, Stretch};
use std::alloc::Global;
use zk_format::{push_id, push_quoted};
use zk_incidents::op_word;
use zk_newer_records::NewerRecord;
use zk_path::{NoMemory, Path};
use zk_verification::{path_of, time_text};

/// The lines of findings.
#[tactic(auto, using(crate::proofs::Written::text_alone))]
pub(crate) fn findings_text(alloc: Global, findings: &[Finding]) -> Result<String, NoMemory>
    ensures { IfOk result (λ text. AreLines IsFindingText findings.now (string_bytes text)) }
{
    let mut text = String::new(alloc);
    push_findings(&mut text, findings)?;
    Ok(text)
}

#[tactic(auto, using(crate::proofs::Written::none_written, crate::proofs::Written::all_written))]
fn push_findings(text: &mut String, findings: &[Finding]) -> Result<(), NoMemory>
    ensures { OnOk result (AppendsFindings findings.now (string_bytes text.old) (string_bytes text.new)) }
{
    for finding in findings {
        push_finding(text, finding)?;
    }
    Ok(())
}

fn push_finding(text: &mut String, finding: &Finding) -> Result<(), NoMemory>
    ensures { OnOk result (AppendsFinding finding.now (string_bytes text.old) (string_bytes text.new)) }
{
    match finding {
        Finding::Before { directory, stretch } => push_before(text, *directory, *stretch),
        Finding::Same(stretch) => push_stretch(text, "same", *stretch),
        Finding::Lost(count) => push_count(text, "lost", *count),
        Finding::Differing {
            zxid,
            first,
            second,
        } => push_differing(text, *zxid, first, second),
        Finding::Differences(count) => push_count(text, "differences", *count),
        Finding::After { directory, stretch } => push_after(text, *directory, *stretch),
        Finding::Node { path, directory } => push_node(text, path, *directory),
        Finding::Tree { zxid, count } => push_tree(text, *zxid, *count),
    }
}

/// Appends the line of a node at which the trees differ.
#[tactic(auto, unfolding(crate::specs::Lines::node_text))]
fn push_node(text: &mut String, path: &Path, directory: Option<Directory>) -> Result<(), NoMemory>
    ensures { OnOk result (string_bytes text.new ≡ string_bytes text.old ++ node_text (holder_word directory) path.now) }
{
    text.push_str("node ")?;
    text.push_str(holder_word(directory))?;
    text.push_str(" ")?;
    push_quoted(text, path.text())?;
    text.push_str("\n")?;
    Ok(())
}

fn holder_word(directory: Option<Directory>) -> &'static str
    ensures { result.now ≡ holder_word directory }
{
    match directory {
        None => "both",
        Some(Directory::First) => "first",
        Some(Directory::Second) => "second",
    }
}

/// Appends the line of the number of nodes at which the trees differ.
#[tactic(auto, unfolding(crate::specs::Lines::tree_text))]
fn push_tree(text: &mut String, zxid: i64, count: usize) -> Result<(), NoMemory>
    ensures { OnOk result (string_bytes text.new ≡ string_bytes text.old ++ tree_text zxid count) }
{
    text.push_str("tree ")?;
    push_id(text, zxid)?;
    write!(text, " {count}\n")?;
    Ok(())
}

/// Appends the line of transactions before the other directory begins.
fn push_before(text: &mut String, directory: Directory, stretch: Stretch) -> Result<(), NoMemory>
    ensures { OnOk result (AppendsFinding (said.Before directory stretch) (string_bytes text.old) (string_bytes text.new)) }
{
    match directory {
        Directory::First => push_stretch(text, "before first", stretch),
        Directory::Second => push_stretch(text, "before second", stretch),
    }
}

/// Appends the line of transactions after the other directory ends.
fn push_after(text: &mut String, directory: Directory, stretch: Stretch) -> Result<(), NoMemory>
    ensures { OnOk result (AppendsFinding (said.After directory stretch) (string_bytes text.old) (string_bytes text.new)) }
{
    match directory {
        Directory::First => push_stretch(text, "after first", stretch),
        Directory::Second => push_stretch(text, "after second", stretch),
    }
}

/// Appends the line of a number.
#[tactic(auto, unfolding(crate::specs::Lines::count_text))]
fn push_count(text: &mut String, word: &str, count: usize) -> Result<(), NoMemory>
    ensures { OnOk result (string_bytes text.new ≡ string_bytes text.old ++ count_text word.now count) }
{
    text.push_str(word)?;
    write!(text, " {count}\n")?;
    Ok(())
}

/// Appends the line of transactions in a row.
fn push_stretch(text: &mut String, word: &str, stretch: Stretch) -> Result<(), NoMemory>
    ensures { OnOk result (AppendsStretch word.now stretch (string_bytes text.old) (string_bytes text.new)) }
{
    let span = span_of(*text.allocator(), stretch.span)?;
    push_row(text, word, stretch.count, span.as_str())
}

#[tactic(auto, unfolding(crate::specs::Lines::stretch_text))]
fn push_row(text: &mut String, word: &str, count: usize, span: &str) -> Result<(), NoMemory>
    ensures { OnOk result (string_bytes text.new ≡ string_bytes text.old ++ stretch_text word.now count span.now) }
{
    text.push_str(word)?;
    write!(text, " {count}")?;
    text.push_str(span)?;
    text.push_str("\n")?;
    Ok(())
}

/// The zxids of the first and the last transaction, and their times, if there are any.
fn span_of(alloc: Global, span: Option<(Occurrence, Occurrence)>) -> Result<String, NoMemory>
    ensures { IfOk result (λ text. IsSpanText span (string_bytes text)) }
{
    let Some((first, last)) = span else {
        return Ok(String::new(alloc));
    };
    let time = time_by(alloc, first.time)?;
    let end = time_by(alloc, last.time)?;
    span_with(alloc, first.zxid, last.zxid, time.as_str(), end.as_str())
}

#[tactic(auto, unfolding(crate::specs::Lines::span_text))]
fn span_with(alloc: Global, from: i64, to: i64, time: &str, end: &str) -> Result<String, NoMemory>
    ensures { IfOk result (λ text. string_bytes text ≡ span_text from to time.now end.now) }
{
    let mut text = String::from_str(alloc, " ")?;
    push_id(&mut text, from)?;
    text.push_str(" ")?;
    push_id(&mut text, to)?;
    text.push_str(" ")?;
    text.push_str(time)?;
    text.push_str(" ")?;
    text.push_str(end)?;
    Ok(text)
}

/// The text of a time, if it is known.
fn time_by(alloc: Global, time: Option<i64>) -> Result<String, NoMemory>
    ensures { IfOk result (λ text. IsTimeBy time (string_bytes text)) }
{
    match time {
        Some(time) => time_text(alloc, time),
        None => Ok(String::from_str(alloc, "-")?),
    }
}

/// Appends the line of a difference.
fn push_differing(
    text: &mut String,
    zxid: i64,
    first: &Option<NewerRecord>,
    second: &Option<NewerRecord>,
) -> Result<(), NoMemory>
    ensures { OnOk result (AppendsFinding (said.Differing zxid first.now second.now) (string_bytes text.old) (string_bytes text.new)) }
{
    let alloc = *text.allocator();
    let ours = side_of(alloc, first)?;
    let theirs = side_of(alloc, second)?;
    push_sides(text, zxid, ours.as_str(), theirs.as_str())
}

#[tactic(auto, unfolding(crate::specs::Lines::differing_text))]
fn push_sides(text: &mut String, zxid: i64, ours: &str, theirs: &str) -> Result<(), NoMemory>
    ensures { OnOk result (string_bytes text.new ≡ string_bytes text.old ++ differing_text zxid ours.now theirs.now) }
{
    text.push_str("differ ")?;
    push_id(text, zxid)?;
    text.push_str(ours)?;
    text.push_str(theirs)?;
    text.push_str("\n")?;
    Ok(())
}

/// What a directory has of a zxid, if it has a transaction.
fn side_of(alloc: Global, newer: &Option<NewerRecord>) -> Result<String, NoMemory>
    ensures { IfOk result (λ text. IsSideText newer.now (string_bytes text)) }
{
    match newer {
        Some(newer) => side_in(alloc, newer),
        None => Ok(String::from_str(alloc, " - - - -")?),
    }
}

fn side_in(alloc: Global, newer: &NewerRecord) -> Result<String, NoMemory>
    ensures { IfOk result (λ text. IsSideText (Some newer.now) (string_bytes text)) }
{
    let time = time_text(alloc, newer.txn.time)?;
    side_with(alloc, newer, time.as_str())
}

#[tactic(auto, unfolding(crate::specs::Lines::side_text))]
fn side_with(alloc: Global, newer: &NewerRecord, time: &str) -> Result<String, NoMemory>
    ensures { IfOk result (λ text. string_bytes text ≡ side_text newer.now time.now) }
{
    let mut text = String::from_str(alloc, " ")?;
    text.push_str(time)?;
    text.push_str(" ")?;
    text.push_str(op_word(&newer.txn.op, &newer.form))?;
    text.push_str(" ")?;
    push_id(&mut text, newer.txn.session)?;
    text.push_str(" ")?;
    push_path(&mut text, path_of(&newer.txn.op))?;
    Ok(text)
}

fn push_path(text: &mut String, path: Option<&Path>) -> Result<(), NoMemory>
    ensures { OnOk result (string_bytes text.new ≡ string_bytes text.old ++ path_text (option_copied path.entry)) }
{
    match path {
        Some(path) => push_quoted(text, path.text()),
        None => {
            text.push_str("-")?;
            Ok(())
        }
    }
}
