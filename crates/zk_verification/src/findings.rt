//! What the digests of records say of the logs.
ghost use Rattle.std.specs.Prelude.{◌≡◌, ◌++◌, ◌∷◌, [], IfOk, OnOk, None, filter, find, map, option_map};
ghost use Rattle.std.specs.List.{list_any};
ghost use Rattle.std.specs.Option.{option_copied};
ghost use Rattle.zk_directory.specs.Chains.{history_of, is_zxid, told};
ghost use Rattle.zk_directory.specs.Joints.{is_proved, joints_of};
ghost use Rattle.zk_table.specs.Parts.{path_of as part_path};
ghost use Rattle.zk_verification.specs.Findings.{AreFactsAt, AreFactsOf, AddsTree, AreFound, cause_of, covers, doubt_after, doubt_by, doubt_of, earlier_doubt, explains, facts_of, first_doubt, first_path, has_zxid, is_above, is_cause, is_open, joint_mark, known_before, path_of, proves};

use crate::mark::{Facts, Mark, Mismatch};
use std::alloc::Global;
use zk_directory::{Chain, Joint, LogEntry};
use zk_newer_records::{NewerFault, read_newer};
use zk_path::{NoMemory, Path};
use zk_table::{Op, Sub, Txn};

/// The first record whose digest is not that of its tree.
#[derive(Clone, Copy, Debug, PartialEq, Eq)]
pub(crate) struct Doubt {
    /// Up to here the digests are those of the trees; `None` for the empty tree.
    known: Option<i64>,
    zxid: i64,
}

/// What the digests say: each place at which the end of an epoch may be missing, and a tree that is
/// not the leader's. `states` are the marks of what the snapshots lead to.
pub(crate) fn findings(
    alloc: Global,
    chain: &Chain<'_>,
    states: &[Mark],
) -> Result<Vec<Mark>, NoMemory>
    ensures { IfOk result (λ found. AreFound (history_of chain.now) states.now found.items) }
{
    let joints = chain.joints(alloc, None)?;
    let unproved = open_among(alloc, states, joints.as_slice())?;
    let doubt = first_doubt(states);
    let cause = cause_of(doubt, unproved.as_slice());
    let mut found = joint_marks(alloc, cause, unproved.as_slice())?;
    add_tree(alloc, &mut found, chain, doubt, cause)?;
    Ok(found)
}

/// Those of these places after which no digest is that of its tree.
fn open_among(alloc: Global, states: &[Mark], joints: &[Joint]) -> Result<Vec<Joint>, NoMemory>
    ensures { IfOk result (λ kept. kept.items ≡ filter (is_open states.now) joints.now) }
{
    let mut kept = Vec::new(alloc);
    for joint in joints {
        push_open(&mut kept, states, joint)?;
    }
    Ok(kept)
}

#[tactic(auto, using(crate::proofs::Found::is_kept, crate::proofs::Found::is_left))]
fn push_open(kept: &mut Vec<Joint>, states: &[Mark], joint: &Joint) -> Result<(), NoMemory>
    ensures { OnOk result (kept.new.items ≡ kept.old.items ++ filter (is_open states.now) (joint.now ∷ [])) }
{
    if is_open(states, joint) {
        kept.push(*joint)?;
    }
    Ok(())
}

fn is_open(states: &[Mark], joint: &Joint) -> bool
    ensures { result ≡ is_open states.now joint.now }
{
    is_covered(states, joint) && !is_settled(states, joint)
}

fn is_covered(states: &[Mark], joint: &Joint) -> bool
    ensures { result ≡ list_any (covers joint.now) states.now }
{
    states.iter().any(|mark| covers(joint, mark))
}

fn is_settled(states: &[Mark], joint: &Joint) -> bool
    ensures { result ≡ list_any (proves joint.now) states.now }
{
    states.iter().any(|mark| proves(joint, mark))
}

/// Whether states lead from an epoch to the next.
fn covers(joint: &Joint, mark: &Mark) -> bool
    ensures { result ≡ covers joint.now mark.now }
{
    match mark {
        Mark::States { snapshot, last, .. } => is_above(*snapshot, joint.next)
            && joint.next <= *last,
        _ => false,
    }
}

/// Whether a digest after the place is that of its tree, and that of the first record is not another.
fn proves(joint: &Joint, mark: &Mark) -> bool
    ensures { result ≡ proves joint.now mark.now }
{
    match mark {
        Mark::States { digests, .. } => covers(joint, mark)
            && is_proved(digests.last, joint.next)
            && !is_zxid(digests.first, joint.next),
        _ => false,
    }
}

fn is_zxid(first: Option<i64>, zxid: i64) -> bool
    ensures { result ≡ is_zxid first zxid }
{
    match first {
        Some(first) => first == zxid,
        None => false,
    }
}

fn is_above(before: Option<i64>, zxid: i64) -> bool
    ensures { result ≡ is_above before zxid }
{
    match before {
        Some(before) => before < zxid,
        None => true,
    }
}

fn is_proved(proved: Option<i64>, zxid: i64) -> bool
    ensures { result ≡ is_proved proved zxid }
{
    match proved {
        Some(proved) => zxid <= proved,
        None => false,
    }
}

/// The first doubt of all states.
fn first_doubt(states: &[Mark]) -> Option<Doubt>
    ensures { result ≡ first_doubt states.now }
{
    let mut doubt = None;
    for mark in states {
        doubt = earlier_doubt(doubt, doubt_of(mark));
    }
    doubt
}

fn doubt_of(mark: &Mark) -> Option<Doubt>
    ensures { result ≡ doubt_of mark.now }
{
    match mark {
        Mark::States {
            snapshot,
            digests,
            ..
        } => doubt_by(*snapshot, digests.first, digests.last),
        _ => None,
    }
}

fn doubt_by(snapshot: Option<i64>, first: Option<i64>, proved: Option<i64>) -> Option<Doubt>
    ensures { result ≡ doubt_by snapshot first proved }
{
    match first {
        Some(first) => Some(Doubt {
            known: known_before(snapshot, first, proved),
            zxid: first,
        }),
        None => None,
    }
}

fn known_before(snapshot: Option<i64>, first: i64, proved: Option<i64>) -> Option<i64>
    ensures { result ≡ known_before snapshot first proved }
{
    match proved {
        Some(proved) if proved < first => Some(proved),
        _ => snapshot,
    }
}

fn earlier_doubt(doubt: Option<Doubt>, other: Option<Doubt>) -> Option<Doubt>
    ensures { result ≡ earlier_doubt doubt other }
{
    match (doubt, other) {
        (None, other) => other,
        (Some(doubt), None) => Some(doubt),
        (Some(doubt), Some(other)) => Some(if other.zxid < doubt.zxid {
            other
        } else {
            doubt
        }),
    }
}

/// The place whose missing transactions explain the digest.
fn cause_of(doubt: Option<Doubt>, joints: &[Joint]) -> Option<Joint>
    ensures { result ≡ cause_of doubt joints.now }
{
    match doubt {
        Some(doubt) => first_cause(&doubt, joints).copied(),
        None => None,
    }
}

fn first_cause<'a>(doubt: &Doubt, joints: &'a [Joint]) -> Option<&'a Joint>
    ensures { option_copied result ≡ find (explains doubt.now) joints.now }
{
    joints.iter().find(|joint| explains(doubt, joint))
}

/// Whether a place comes after all that is known and before the doubt.
fn explains(doubt: &Doubt, joint: &Joint) -> bool
    ensures { result ≡ explains doubt.now joint.now }
{
    is_above(doubt.known, joint.next) && joint.next <= doubt.zxid
}

fn joint_marks(alloc: Global, cause: Option<Joint>, joints: &[Joint]) -> Result<Vec<Mark>, NoMemory>
    ensures { IfOk result (λ marks. marks.items ≡ map (joint_mark cause) joints.now) }
{
    let mut marks = Vec::new(alloc);
    for joint in joints {
        marks.push(joint_mark(cause, joint))?;
    }
    Ok(marks)
}

fn joint_mark(cause: Option<Joint>, joint: &Joint) -> Mark
    ensures { result ≡ joint_mark cause joint.now }
{
    Mark::Joint {
        joint: *joint,
        is_missing: is_cause(cause, joint),
    }
}

fn is_cause(cause: Option<Joint>, joint: &Joint) -> bool
    ensures { result ≡ is_cause cause joint.now }
{
    match cause {
        Some(cause) => cause.next == joint.next,
        None => false,
    }
}

/// Adds the record whose digest is not that of its tree, unless missing transactions explain it.
fn add_tree(
    alloc: Global,
    found: &mut Vec<Mark>,
    chain: &Chain<'_>,
    doubt: Option<Doubt>,
    cause: Option<Joint>,
) -> Result<(), NoMemory>
    ensures { OnOk result (AddsTree (history_of chain.now) doubt cause found.old.items found.new.items) }
{
    let (Some(doubt), None) = (doubt, cause) else {
        return Ok(());
    };
    let facts = facts_at(alloc, chain, doubt.zxid)?;
    found.push(Mark::Digest(Mismatch {
        zxid: doubt.zxid,
        facts,
    }))?;
    Ok(())
}

/// What the record of this zxid says.
fn facts_at(alloc: Global, chain: &Chain<'_>, zxid: i64) -> Result<Option<Facts>, NoMemory>
    ensures { IfOk result (λ facts. AreFactsAt (history_of chain.now) zxid facts) }
{
    facts_in(alloc, entry_at(chain.taken.as_slice(), zxid))
}

fn entry_at<'a>(taken: &[LogEntry<'a>], zxid: i64) -> Option<LogEntry<'a>>
    ensures { option_map told result ≡ find (has_zxid zxid) (map told taken.now) }
{
    for entry in taken {
        if entry.zxid == zxid {
            return Some(*entry);
        }
    }
    None
}

fn facts_in(alloc: Global, entry: Option<LogEntry<'_>>) -> Result<Option<Facts>, NoMemory>
    ensures { IfOk result (λ facts. AreFactsOf (option_map told entry.entry) facts) }
{
    let Some(entry) = entry else {
        return Ok(None);
    };
    match read_newer(alloc, &mut None, entry.bytes) {
        Ok(newer) => Ok(Some(facts_of(&newer.txn)?)),
        Err(NewerFault::NoMemory) => Err(NoMemory),
        Err(NewerFault::Record) => Ok(None),
        Err(NewerFault::Reasonless) => Ok(None),
    }
}

fn facts_of(txn: &Txn) -> Result<Facts, NoMemory>
    ensures { IfOk result (λ facts. facts ≡ facts_of txn.now) }
{
    let path = match path_of(&txn.op) {
        Some(path) => Some(path.copy()?),
        None => None,
    };
    Ok(Facts {
        time: txn.time,
        session: txn.session,
        path,
    })
}

/// The path that an operation names; of a multi, that of the first part.
pub fn path_of(op: &Op) -> Option<&Path>
    ensures { option_copied result ≡ path_of op.now }
{
    match op {
        Op::Create { path, .. } => Some(path),
        Op::CreateOld { path, .. } => Some(path),
        Op::Delete { path } => Some(path),
        Op::SetData { path, .. } => Some(path),
        Op::SetAcl { path, .. } => Some(path),
        Op::OpenSession { .. } => None,
        Op::CloseSession => None,
        Op::Multi { parts } => first_path(parts.as_slice()),
        Op::Error { .. } => None,
    }
}

/// The path that the first part names.
fn first_path(parts: &[Sub]) -> Option<&Path>
    ensures { option_copied result ≡ first_path parts.now }
{
    match parts.first() {
        Some(part) => part_path(part),
        None => None,
    }
}

fn part_path(part: &Sub) -> Option<&Path>
    ensures { option_copied result ≡ part_path part.now }
{
    match part {
        Sub::Create { path, .. } => Some(path),
        Sub::Delete { path } => Some(path),
        Sub::SetData { path, .. } => Some(path),
        Sub::Check { path, .. } => Some(path),
        Sub::Error { .. } => None,
    }
}
