//! What is said of two directories.
ghost use Rattle.std.specs.Prelude.{◌≡◌, ◌++◌, ◌∷◌, [], IfOk, OnOk, length, map, option_map, take};
ghost use Rattle.std.specs.List.{list_any};
ghost use Rattle.zk_comparison.specs.Comparisons.{of_kind, shown};
ghost use Rattle.zk_comparison.specs.Findings.{after_by, alone_of, before_by, differing_of, directory_by, either_record, findings_of, is_disagreement, last_after, lost_by, occurrence_of, record_in, span_of, stretch_of, time_by};
ghost use Rattle.zk_comparison.specs.Pairs.{both_of};
ghost use Rattle.zk_comparison.specs.declared.finding.Finding.TheVariants as said;
ghost use Rattle.zk_comparison.specs.declared.judgement.Kind.TheVariants as kinds;
ghost use Rattle.zk_directory.specs.Chains.{told};

use crate::judgement::{Judgement, Kind, of_kind};
use crate::meaning::read_record;
use crate::pair::Pair;
use std::alloc::Global;
use zk_directory::LogEntry;
use zk_newer_records::NewerRecord;
use zk_path::{NoMemory, Path};

/// The most differences that have findings of their own.
pub(crate) const MOST_DIFFERING: usize = 1_000;

/// One of two directories that are compared.
#[derive(Clone, Copy, Debug)]
pub(crate) enum Directory {
    First,
    Second,
}

/// A transaction.
#[derive(Clone, Copy, Debug)]
pub(crate) struct Occurrence {
    pub zxid: i64,
    /// Milliseconds since 1970.
    pub time: Option<i64>,
}

/// Transactions in a row.
#[derive(Clone, Copy, Debug)]
pub(crate) struct Stretch {
    pub count: usize,
    /// The first and the last one, if there are any.
    pub span: Option<(Occurrence, Occurrence)>,
}

/// What is said of two directories.
#[derive(Debug, Drop)]
pub(crate) enum Finding {
    /// This directory has these transactions, and the other begins after them.
    Before {
        directory: Directory,
        stretch: Stretch,
    },
    /// Both have these transactions.
    Same(Stretch),
    /// The number of transactions of one directory alone, where the other lost some.
    Lost(usize),
    /// The directories have different transactions of this zxid, or one has none.
    Differing {
        zxid: i64,
        first: Option<NewerRecord>,
        second: Option<NewerRecord>,
    },
    /// The number of all differences.
    Differences(usize),
    /// This directory has these transactions, and the other ends before them.
    After {
        directory: Directory,
        stretch: Stretch,
    },
    /// The trees differ at this path: the directory alone has the node, or both have it if there is
    /// none.
    Node {
        path: Path,
        directory: Option<Directory>,
    },
    /// The number of nodes at which the trees differ, after this transaction.
    Tree {
        zxid: i64,
        count: usize,
    },
}

impl Finding {
    /// Whether the directories differ, or have no transaction in common.
    pub(crate) fn is_disagreement(&self) -> bool
        ensures { result ≡ is_disagreement self.now }
    {
        match self {
            Finding::Before { .. } => false,
            Finding::Same(stretch) => stretch.count == 0,
            Finding::Lost(_) => false,
            Finding::Differing { .. } => false,
            Finding::Differences(count) => *count > 0,
            Finding::After { .. } => false,
            Finding::Node { .. } => false,
            Finding::Tree { count, .. } => *count > 0,
        }
    }
}

/// Whether one of these findings says that the directories differ, or have nothing in common.
pub(crate) fn disagree(findings: &[Finding]) -> bool
    ensures { result ≡ list_any is_disagreement findings.now }
{
    findings.iter().any(|finding| finding.is_disagreement())
}

/// What is said of two directories that have these entries.
pub(crate) fn findings_of(alloc: Global, judged: &[Judgement<'_>]) -> Result<Vec<Finding>, NoMemory>
    ensures { IfOk result (λ found. found.items ≡ findings_of (map shown judged.now)) }
{
    let mut findings = Vec::new(alloc);
    push_before(&mut findings, judged)?;
    push_same(&mut findings, judged)?;
    push_lost(&mut findings, judged)?;
    push_all_differing(&mut findings, judged)?;
    push_after(&mut findings, judged)?;
    Ok(findings)
}

/// Appends what one directory has before the other begins.
fn push_before(findings: &mut Vec<Finding>, judged: &[Judgement<'_>]) -> Result<(), NoMemory>
    ensures { OnOk result (findings.new.items ≡ findings.old.items ++ before_by (alone_of (of_kind kinds.Before (map shown judged.now)))) }
{
    let pairs = of_kind(*findings.allocator(), judged, Kind::Before)?;
    let alone = alone_of(*findings.allocator(), pairs.as_slice())?;
    if let Some((directory, stretch)) = alone {
        findings.push(Finding::Before { directory, stretch })?;
    }
    Ok(())
}

/// Appends what one directory has after the other ends.
fn push_after(findings: &mut Vec<Finding>, judged: &[Judgement<'_>]) -> Result<(), NoMemory>
    ensures { OnOk result (findings.new.items ≡ findings.old.items ++ after_by (alone_of (of_kind kinds.After (map shown judged.now)))) }
{
    let pairs = of_kind(*findings.allocator(), judged, Kind::After)?;
    let alone = alone_of(*findings.allocator(), pairs.as_slice())?;
    if let Some((directory, stretch)) = alone {
        findings.push(Finding::After { directory, stretch })?;
    }
    Ok(())
}

/// Appends what both directories have.
fn push_same(findings: &mut Vec<Finding>, judged: &[Judgement<'_>]) -> Result<(), NoMemory>
    ensures { OnOk result (findings.new.items ≡ findings.old.items ++ said.Same (stretch_of (of_kind kinds.Same (map shown judged.now))) ∷ []) }
{
    let pairs = of_kind(*findings.allocator(), judged, Kind::Same)?;
    let stretch = stretch_of(*findings.allocator(), pairs.as_slice())?;
    findings.push(Finding::Same(stretch))?;
    Ok(())
}

/// Appends how many transactions of one directory the other may have lost, if there are any.
#[tactic(auto, using(crate::proofs::Listed::as_many))]
fn push_lost(findings: &mut Vec<Finding>, judged: &[Judgement<'_>]) -> Result<(), NoMemory>
    ensures { OnOk result (findings.new.items ≡ findings.old.items ++ lost_by (length (of_kind kinds.Lost (map shown judged.now)))) }
{
    let pairs = of_kind(*findings.allocator(), judged, Kind::Lost)?;
    let count = pairs.len();
    if count > 0 {
        findings.push(Finding::Lost(count))?;
    }
    Ok(())
}

/// Appends the first differences, and the number of all.
fn push_all_differing(findings: &mut Vec<Finding>, judged: &[Judgement<'_>]) -> Result<(), NoMemory>
    ensures { OnOk result (findings.new.items ≡ findings.old.items
        ++ map differing_of (take 1000 (of_kind kinds.Differing (map shown judged.now)))
        ++ said.Differences (length (of_kind kinds.Differing (map shown judged.now))) ∷ []) }
{
    let pairs = of_kind(*findings.allocator(), judged, Kind::Differing)?;
    push_differing(findings, most_of(pairs.as_slice()))?;
    findings.push(Finding::Differences(pairs.len()))?;
    Ok(())
}

/// The first of these, up to the number of those that have findings of their own.
fn most_of<'r, 'a>(pairs: &'r [Pair<'a>]) -> &'r [Pair<'a>]
    ensures { result.now ≡ take 1000 pairs.now }
{
    if pairs.len() <= MOST_DIFFERING {
        pairs
    } else {
        &pairs[..MOST_DIFFERING]
    }
}

/// Appends these differences.
fn push_differing(findings: &mut Vec<Finding>, pairs: &[Pair<'_>]) -> Result<(), NoMemory>
    ensures { OnOk result (findings.new.items ≡ findings.old.items ++ map differing_of (map both_of pairs.now)) }
{
    for pair in pairs {
        let finding = differing_of(*findings.allocator(), pair)?;
        findings.push(finding)?;
    }
    Ok(())
}

fn differing_of(alloc: Global, pair: &Pair<'_>) -> Result<Finding, NoMemory>
    ensures { IfOk result (λ finding. finding ≡ differing_of (both_of pair.now)) }
{
    let first = record_in(alloc, &pair.first)?;
    let second = record_in(alloc, &pair.second)?;
    Ok(Finding::Differing {
        zxid: pair.zxid(),
        first,
        second,
    })
}

/// The record of an entry, if there is one.
fn record_in(alloc: Global, entry: &Option<LogEntry<'_>>) -> Result<Option<NewerRecord>, NoMemory>
    ensures { IfOk result (λ newer. newer ≡ record_in (option_map told entry.now)) }
{
    match entry {
        Some(entry) => read_record(alloc, entry.bytes),
        None => Ok(None),
    }
}

/// These transactions in a row.
#[tactic(auto, using(crate::proofs::Listed::as_many))]
fn stretch_of(alloc: Global, pairs: &[Pair<'_>]) -> Result<Stretch, NoMemory>
    ensures { IfOk result (λ stretch. stretch ≡ stretch_of (map both_of pairs.now)) }
{
    let span = span_of(alloc, pairs)?;
    Ok(Stretch {
        count: pairs.len(),
        span,
    })
}

/// The first and the last of these.
fn span_of(alloc: Global, pairs: &[Pair<'_>]) -> Result<Option<(Occurrence, Occurrence)>, NoMemory>
    ensures { IfOk result (λ span. span ≡ span_of (map both_of pairs.now)) }
{
    let [pair, rest @ ..] = pairs else {
        return Ok(None);
    };
    let last = last_after(pair, rest);
    let first = occurrence_of(alloc, pair)?;
    let last = occurrence_of(alloc, &last)?;
    Ok(Some((first, last)))
}

/// The last of these after one.
fn last_after<'a>(pair: &Pair<'a>, rest: &[Pair<'a>]) -> Pair<'a>
    ensures { both_of result ≡ last_after (both_of pair.now) (map both_of rest.now) }
{
    let mut last = *pair;
    for other in rest {
        last = *other;
    }
    last
}

/// The directory that has these transactions alone, if there are any.
fn alone_of(alloc: Global, pairs: &[Pair<'_>]) -> Result<Option<(Directory, Stretch)>, NoMemory>
    ensures { IfOk result (λ alone. alone ≡ alone_of (map both_of pairs.now)) }
{
    let [pair, ..] = pairs else {
        return Ok(None);
    };
    let stretch = stretch_of(alloc, pairs)?;
    Ok(Some((directory_by(&pair.first), stretch)))
}

fn occurrence_of(alloc: Global, pair: &Pair<'_>) -> Result<Occurrence, NoMemory>
    ensures { IfOk result (λ occurrence. occurrence ≡ occurrence_of (both_of pair.now)) }
{
    let time = time_of(alloc, pair)?;
    Ok(Occurrence {
        zxid: pair.zxid(),
        time,
    })
}

/// The time of the first record that there is.
fn time_of(alloc: Global, pair: &Pair<'_>) -> Result<Option<i64>, NoMemory>
    ensures { IfOk result (λ time. time ≡ time_by (either_record (record_in (option_map told pair.now.first)) (record_in (option_map told pair.now.second)))) }
{
    let first = record_in(alloc, &pair.first)?;
    let second = record_in(alloc, &pair.second)?;
    Ok(time_by(&first, &second))
}

fn time_by(first: &Option<NewerRecord>, second: &Option<NewerRecord>) -> Option<i64>
    ensures { result ≡ time_by (either_record first.now second.now) }
{
    match (first, second) {
        (Some(newer), _) => Some(newer.txn.time),
        (None, Some(newer)) => Some(newer.txn.time),
        (None, None) => None,
    }
}

fn directory_by(first: &Option<LogEntry<'_>>) -> Directory
    ensures { result ≡ directory_by (option_map told first.now) }
{
    match first {
        Some(_) => Directory::First,
        None => Directory::Second,
    }
}
