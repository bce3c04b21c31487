//! What two directories have of each zxid.
ghost use Rattle.std.specs.Prelude.{◌≡◌, ◌++◌, ◌∷◌, [], IfOk, None, OnOk, Some, map, option_map};
ghost use Rattle.zk_comparison.specs.Comparisons.{end_of, first_of, is_below, is_beyond, is_kind, judged_of, kind_by, kind_of, last_from, limits_of, lost_or_differing, of_kind, same_or_differing, shown, start_of, with_kind};
ghost use Rattle.zk_comparison.specs.Pairs.{both_of};
ghost use Rattle.zk_directory.specs.Chains.{told};

use crate::loss::{Loss, is_lost};
use crate::meaning::is_same_record;
use crate::pair::{Pair, pair_entries};
use std::alloc::Global;
use zk_directory::LogEntry;
use zk_path::NoMemory;

/// What two directories have of a zxid.
#[derive(Clone, Copy, Debug)]
pub(crate) enum Kind {
    /// One has a transaction of it, and the other begins later.
    Before,
    /// Both have the same transaction.
    Same,
    /// One has a transaction, and the other lost those around this zxid.
    Lost,
    /// They have different transactions, or one has none.
    Differing,
    /// One has a transaction, and the other ends earlier.
    After,
}

/// A zxid's entries, and what they are.
#[derive(Clone, Copy, Debug)]
pub(crate) struct Judgement<'a> {
    pub kind: Kind,
    pub pair: Pair<'a>,
}

/// The zxids between which both directories have transactions.
#[derive(Clone, Copy, Debug)]
pub(crate) struct Limits {
    /// The greater one of their first zxids.
    pub start: Option<i64>,
    /// The lesser one of their last ones.
    pub end: Option<i64>,
}

/// Compares the entries of two directories, each with what it lost: for each zxid, what they have.
pub(crate) fn judge<'a>(
    alloc: Global,
    first: &[LogEntry<'a>],
    second: &[LogEntry<'a>],
    losses: &[Loss],
    others: &[Loss],
) -> Result<Vec<Judgement<'a>>, NoMemory>
    ensures { IfOk result (λ judged. map shown judged.items ≡ judged_of (map told first.now) (map told second.now) losses.now others.now) }
{
    let limits = limits_of(first, second);
    let pairs = pair_entries(alloc, first, second)?;
    judge_pairs(alloc, limits, losses, others, pairs.as_slice())
}

/// Compares what both have of each zxid.
fn judge_pairs<'a>(
    alloc: Global,
    limits: Limits,
    losses: &[Loss],
    others: &[Loss],
    pairs: &[Pair<'a>],
) -> Result<Vec<Judgement<'a>>, NoMemory>
    ensures { IfOk result (λ judged. map shown judged.items ≡ map (with_kind limits losses.now others.now) (map both_of pairs.now)) }
{
    let mut judged = Vec::new(alloc);
    for pair in pairs {
        push_judged(&mut judged, limits, losses, others, pair)?;
    }
    Ok(judged)
}

fn push_judged<'a>(
    judged: &mut Vec<Judgement<'a>>,
    limits: Limits,
    losses: &[Loss],
    others: &[Loss],
    pair: &Pair<'a>,
) -> Result<(), NoMemory>
    ensures { OnOk result (map shown judged.new.items ≡ map shown judged.old.items ++ with_kind limits losses.now others.now (both_of pair.now) ∷ []) }
{
    let kind = kind_of(*judged.allocator(), limits, losses, others, pair)?;
    judged.push(Judgement { kind, pair: *pair })?;
    Ok(())
}

fn kind_of(
    alloc: Global,
    limits: Limits,
    losses: &[Loss],
    others: &[Loss],
    pair: &Pair<'_>,
) -> Result<Kind, NoMemory>
    ensures { IfOk result (λ kind. kind ≡ kind_of limits losses.now others.now (both_of pair.now)) }
{
    if is_below(limits.start, pair.zxid()) {
        return Ok(Kind::Before);
    }
    if is_beyond(limits.end, pair.zxid()) {
        return Ok(Kind::After);
    }
    kind_by(alloc, losses, others, pair)
}

/// What two directories have of a zxid in the range of both.
fn kind_by(
    alloc: Global,
    losses: &[Loss],
    others: &[Loss],
    pair: &Pair<'_>,
) -> Result<Kind, NoMemory>
    ensures { IfOk result (λ kind. kind ≡ kind_by losses.now others.now (both_of pair.now)) }
{
    match (&pair.first, &pair.second) {
        (Some(first), Some(second)) => {
            let same = is_same_record(alloc, first.bytes, second.bytes)?;
            Ok(same_or_differing(same))
        }
        (Some(first), None) => Ok(lost_or_differing(is_lost(others, first.zxid))),
        (None, Some(second)) => Ok(lost_or_differing(is_lost(losses, second.zxid))),
        (None, None) => Ok(Kind::Differing),
    }
}

fn same_or_differing(same: bool) -> Kind
    ensures { result ≡ same_or_differing same }
{
    if same { Kind::Same } else { Kind::Differing }
}

fn lost_or_differing(lost: bool) -> Kind
    ensures { result ≡ lost_or_differing lost }
{
    if lost { Kind::Lost } else { Kind::Differing }
}

/// Those of a kind, in order.
#[tactic(auto, using(crate::proofs::Judged::kind_first))]
pub(crate) fn of_kind<'a>(
    alloc: Global,
    judged: &[Judgement<'a>],
    kind: Kind,
) -> Result<Vec<Pair<'a>>, NoMemory>
    ensures { IfOk result (λ pairs. map both_of pairs.items ≡ of_kind kind (map shown judged.now)) }
{
    let mut pairs = Vec::new(alloc);
    for one in judged {
        push_of_kind(&mut pairs, kind, one)?;
    }
    Ok(pairs)
}

fn push_of_kind<'a>(
    pairs: &mut Vec<Pair<'a>>,
    kind: Kind,
    judged: &Judgement<'a>,
) -> Result<(), NoMemory>
    ensures { OnOk result (map both_of pairs.new.items ≡ map both_of pairs.old.items ++ of_kind kind (shown judged.now ∷ [])) }
{
    if is_kind(kind, judged.kind) {
        pairs.push(judged.pair)?;
    }
    Ok(())
}

fn is_kind(kind: Kind, other: Kind) -> bool
    ensures { result ≡ is_kind kind other }
{
    match (kind, other) {
        (Kind::Before, Kind::Before) => true,
        (Kind::Same, Kind::Same) => true,
        (Kind::Lost, Kind::Lost) => true,
        (Kind::Differing, Kind::Differing) => true,
        (Kind::After, Kind::After) => true,
        _ => false,
    }
}

pub(crate) fn limits_of(first: &[LogEntry<'_>], second: &[LogEntry<'_>]) -> Limits
    ensures { result ≡ limits_of (map told first.now) (map told second.now) }
{
    Limits {
        start: start_of(first_of(first), first_of(second)),
        end: end_of(last_of(first), last_of(second)),
    }
}

/// The zxid of the first entry.
fn first_of(entries: &[LogEntry<'_>]) -> Option<i64>
    ensures { result ≡ first_of (map told entries.now) }
{
    match entries {
        [entry, ..] => Some(entry.zxid),
        [] => None,
    }
}

/// The zxid of the last entry.
fn last_of(entries: &[LogEntry<'_>]) -> Option<i64>
    ensures { result ≡ last_from None (map told entries.now) }
{
    let mut last = None;
    for entry in entries {
        last = Some(entry.zxid);
    }
    last
}

/// The greater of two zxids, if there are both.
fn start_of(first: Option<i64>, second: Option<i64>) -> Option<i64>
    ensures { result ≡ start_of first second }
{
    match (first, second) {
        (Some(first), Some(second)) => Some(if first < second { second } else { first }),
        _ => None,
    }
}

/// The lesser of two zxids, if there are both.
fn end_of(first: Option<i64>, second: Option<i64>) -> Option<i64>
    ensures { result ≡ end_of first second }
{
    match (first, second) {
        (Some(first), Some(second)) => Some(if first < second { first } else { second }),
        _ => None,
    }
}

fn is_below(start: Option<i64>, zxid: i64) -> bool
    ensures { result ≡ is_below start zxid }
{
    match start {
        Some(start) => zxid < start,
        None => false,
    }
}

fn is_beyond(last: Option<i64>, zxid: i64) -> bool
    ensures { result ≡ is_beyond last zxid }
{
    match last {
        Some(last) => last < zxid,
        None => false,
    }
}
