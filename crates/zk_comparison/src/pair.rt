//! The transactions of two directories, joined by zxid.
ghost use Rattle.std.specs.Prelude.{◌≡◌, ◌++◌, ◌∷◌, [], IfOk, OnOk, Some, map, option_map};
ghost use Rattle.zk_comparison.specs.Pairs.{after_front, at_front, below, both_of, paired, second_alone, since, with_below, zxid_of};
ghost use Rattle.zk_directory.specs.Chains.{told};

use std::alloc::Global;
use zk_directory::LogEntry;
use zk_path::NoMemory;

/// What each of two directories has of one zxid.
#[derive(Clone, Copy, Debug)]
pub(crate) struct Pair<'a> {
    pub first: Option<LogEntry<'a>>,
    pub second: Option<LogEntry<'a>>,
}

impl Pair<'_> {
    /// The zxid of its entries.
    pub(crate) fn zxid(&self) -> i64
        ensures { result ≡ zxid_of (both_of self.now) }
    {
        match (&self.first, &self.second) {
            (Some(entry), _) => entry.zxid,
            (None, Some(entry)) => entry.zxid,
            (None, None) => 0,
        }
    }
}

/// Joins the entries of two directories by zxid, in order. In each directory zxids rise.
pub(crate) fn pair_entries<'a>(
    alloc: Global,
    first: &[LogEntry<'a>],
    second: &[LogEntry<'a>],
) -> Result<Vec<Pair<'a>>, NoMemory>
    ensures { IfOk result (λ pairs. map both_of pairs.items ≡ paired (map told first.now) (map told second.now)) }
{
    let mut pairs = Vec::new(alloc);
    let mut rest = second;
    for entry in first {
        push_entry(&mut pairs, entry, rest)?;
        rest = others_after(entry.zxid, rest);
    }
    push_second(&mut pairs, rest)?;
    Ok(pairs)
}

/// Appends the entries of the second directory that are below one of the first, and that one.
fn push_entry<'a>(
    pairs: &mut Vec<Pair<'a>>,
    entry: &LogEntry<'a>,
    second: &[LogEntry<'a>],
) -> Result<(), NoMemory>
    ensures { OnOk result (map both_of pairs.new.items ≡ map both_of pairs.old.items ++ with_below (told entry.now) (map told second.now)) }
{
    push_below(pairs, entry.zxid, second)?;
    push_pair(
        pairs,
        entry,
        at_front(entry.zxid, since(entry.zxid, second)),
    )
}

/// The entries of the second directory that come after one of the first.
fn others_after<'r, 'a>(zxid: i64, second: &'r [LogEntry<'a>]) -> &'r [LogEntry<'a>]
    ensures { map told result.now ≡ after_front zxid (since zxid (map told second.now)) }
{
    after_front(zxid, since(zxid, second))
}

/// Appends the entries of the second directory that are below a zxid.
fn push_below<'a>(
    pairs: &mut Vec<Pair<'a>>,
    zxid: i64,
    second: &[LogEntry<'a>],
) -> Result<(), NoMemory>
    ensures { OnOk result (map both_of pairs.new.items ≡ map both_of pairs.old.items ++ map second_alone (below zxid (map told second.now))) }
{
    let mut rest = second;
    while let [entry, more @ ..] = rest {
        if entry.zxid >= zxid {
            return Ok(());
        }
        push_alone(pairs, entry)?;
        rest = more;
    }
    Ok(())
}

/// The entries from the first one on that is not below a zxid.
fn since<'r, 'a>(zxid: i64, entries: &'r [LogEntry<'a>]) -> &'r [LogEntry<'a>]
    ensures { map told result.now ≡ since zxid (map told entries.now) }
{
    let mut rest = entries;
    while let [entry, more @ ..] = rest {
        if entry.zxid >= zxid {
            return rest;
        }
        rest = more;
    }
    rest
}

/// Appends these entries of the second directory.
fn push_second<'a>(pairs: &mut Vec<Pair<'a>>, second: &[LogEntry<'a>]) -> Result<(), NoMemory>
    ensures { OnOk result (map both_of pairs.new.items ≡ map both_of pairs.old.items ++ map second_alone (map told second.now)) }
{
    for entry in second {
        push_alone(pairs, entry)?;
    }
    Ok(())
}

/// Appends an entry that the second directory alone has.
fn push_alone<'a>(pairs: &mut Vec<Pair<'a>>, entry: &LogEntry<'a>) -> Result<(), NoMemory>
    ensures { OnOk result (map both_of pairs.new.items ≡ map both_of pairs.old.items ++ second_alone (told entry.now) ∷ []) }
{
    pairs.push(Pair {
        first: None,
        second: Some(*entry),
    })?;
    Ok(())
}

/// Appends an entry of the first directory, with what the second has.
fn push_pair<'a>(
    pairs: &mut Vec<Pair<'a>>,
    entry: &LogEntry<'a>,
    other: Option<LogEntry<'a>>,
) -> Result<(), NoMemory>
    ensures { OnOk result (map both_of pairs.new.items ≡ map both_of pairs.old.items ++ (Some (told entry.now), option_map told other.entry) ∷ []) }
{
    pairs.push(Pair {
        first: Some(*entry),
        second: other,
    })?;
    Ok(())
}

/// The entry at the front, if it has this zxid.
fn at_front<'a>(zxid: i64, entries: &[LogEntry<'a>]) -> Option<LogEntry<'a>>
    ensures { option_map told result ≡ at_front zxid (map told entries.now) }
{
    match entries {
        [entry, ..] if entry.zxid == zxid => Some(*entry),
        _ => None,
    }
}

/// The entries after that one.
fn after_front<'r, 'a>(zxid: i64, entries: &'r [LogEntry<'a>]) -> &'r [LogEntry<'a>]
    ensures { map told result.now ≡ after_front zxid (map told entries.now) }
{
    match entries {
        [entry, rest @ ..] if entry.zxid == zxid => rest,
        _ => entries,
    }
}
