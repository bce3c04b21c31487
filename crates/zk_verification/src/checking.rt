//! What is said of a directory.
ghost use Rattle.std.specs.Prelude.{◌≡◌, IfOk, None, OnOk, reverse};
ghost use Rattle.zk_verification.specs.Surveys.{surveyed_by};
ghost use Rattle.zk_verification.specs.Verifications.{AreMarked, AreStates, FindsMarks, FollowsEmpty, FollowsOn, IsSettled, IsVerdict, next_after};

use crate::breaks::Break;
use crate::files::{load_logs, read_snapshot_bytes, slices_of};
use crate::findings::findings;
use crate::following::{follow_empty, follow_snapshot, settled};
use crate::{LogBytes, Mark, Survey, survey_logs};
use std::alloc::Global;
use zk_directory::FileName;
use zk_directory_state::{Folder, HistoryFault, logs_in, snapshots_in};
use zk_path::NoMemory;

/// What the snapshot of this zxid leads to.
fn verdict_of<S: Folder>(
    alloc: Global,
    snapshots: &S,
    zxid: i64,
    breaks: &[Break],
    next: Option<i64>,
    logged: &[i64],
    logs: &[&[u8]],
) -> Result<Mark, NoMemory>
    ensures { IfOk result (λ mark. IsVerdict (S.bytes_in snapshots.now) breaks.now logged.now logs.now zxid next mark) }
{
    match read_snapshot_bytes(alloc, snapshots, zxid)? {
        Some(bytes) => follow_snapshot(alloc, bytes.as_slice(), zxid, breaks, next, logged, logs),
        None => Ok(Mark::Wrong(HistoryFault::Unreadable(FileName::Snapshot { zxid }))),
    }
}

/// What the snapshot of this zxid leads to, unless the marks of the logs say what keeps it from a
/// state.
fn settled_of<S: Folder>(
    alloc: Global,
    said: &[Mark],
    snapshots: &S,
    zxid: i64,
    breaks: &[Break],
    next: Option<i64>,
    logged: &[i64],
    logs: &[&[u8]],
) -> Result<Mark, NoMemory>
    ensures { IfOk result (λ mark. IsSettled said.now (S.bytes_in snapshots.now) breaks.now logged.now logs.now zxid next mark) }
{
    let verdict = verdict_of(alloc, snapshots, zxid, breaks, next, logged, logs)?;
    Ok(settled(said, Some(zxid), verdict))
}

/// The zxid from which the states of this mark are exact, or else `next`.
fn next_after(next: Option<i64>, mark: &Mark) -> Option<i64>
    ensures { result ≡ next_after next mark.now }
{
    match mark {
        Mark::States { exact, .. } => Some(exact.zxid),
        _ => next,
    }
}

/// Adds what these snapshots lead to, the latest first.
fn follow_all<S: Folder>(
    alloc: Global,
    marks: &mut Vec<Mark>,
    said: &[Mark],
    snapshots: &S,
    zxids: &[i64],
    breaks: &[Break],
    logged: &[i64],
    logs: &[&[u8]],
) -> Result<(), NoMemory>
    ensures { OnOk result (FollowsOn said.now (S.bytes_in snapshots.now) breaks.now logged.now logs.now zxids.now None marks.old.items marks.new.items) }
{
    let mut next = None;
    for zxid in zxids {
        let mark = settled_of(alloc, said, snapshots, *zxid, breaks, next, logged, logs)?;
        next = next_after(next, &mark);
        marks.push(mark)?;
    }
    Ok(())
}

/// Adds what the logs lead to from the empty tree, if there is no snapshot.
fn add_empty(
    alloc: Global,
    marks: &mut Vec<Mark>,
    said: &[Mark],
    held: &[i64],
    breaks: &[Break],
    logged: &[i64],
    logs: &[&[u8]],
) -> Result<(), NoMemory>
    ensures { OnOk result (FollowsEmpty said.now held.now breaks.now logged.now logs.now marks.old.items marks.new.items) }
{
    if !held.is_empty() {
        return Ok(());
    }
    let verdict = follow_empty(alloc, breaks, logged, logs)?;
    marks.push(settled(said, None, verdict))?;
    Ok(())
}

/// What the snapshots lead to, the latest first, or else the logs from the empty tree.
fn states_of<S: Folder>(
    alloc: Global,
    survey: &Survey<'_>,
    snapshots: &S,
    held: &[i64],
    logged: &[i64],
    logs: &[LogBytes],
) -> Result<Vec<Mark>, NoMemory>
    ensures { IfOk result (λ states. AreStates (surveyed_by survey.now) (S.bytes_in snapshots.now) held.now logged.now logs.now states.items) }
{
    let slices = slices_of(alloc, logs)?;
    let zxids = reversed(alloc, held)?;
    let said = survey.marks.as_slice();
    let breaks = survey.breaks.as_slice();
    let slices = slices.as_slice();
    let mut states = Vec::new(alloc);
    let latest = zxids.as_slice();
    follow_all(
        alloc,
        &mut states,
        said,
        snapshots,
        latest,
        breaks,
        logged,
        slices,
    )?;
    add_empty(alloc, &mut states, said, held, breaks, logged, slices)?;
    Ok(states)
}

/// What is said of these snapshots and logs.
fn check<S: Folder>(
    alloc: Global,
    snapshots: &S,
    held: &[i64],
    logged: &[i64],
    logs: &[LogBytes],
) -> Result<Vec<Mark>, NoMemory>
    ensures { IfOk result (λ marks. AreMarked (S.bytes_in snapshots.now) held.now logged.now logs.now marks.items) }
{
    let survey = survey_logs(alloc, logs)?;
    let mut states = states_of(alloc, &survey, snapshots, held, logged, logs)?;
    let mut found = findings(alloc, &survey.chain, states.as_slice())?;
    let mut marks = survey.marks;
    marks.append(&mut states)?;
    marks.append(&mut found)?;
    Ok(marks)
}

/// These zxids, the last one first.
fn reversed(alloc: Global, zxids: &[i64]) -> Result<Vec<i64>, NoMemory>
    ensures { IfOk result (λ latest. latest.items ≡ reverse zxids.now) }
{
    let mut latest = zxids.iter().copied().collect::<Vec<_>>(alloc)?;
    latest.reverse();
    Ok(latest)
}

/// What is said of a directory: of each log, and of each snapshot, the latest first.
///
/// Fails with
/// - [`HistoryFault::Empty`] if there is no snapshot and no log;
/// - [`HistoryFault::Read`] if a folder cannot be read.
#[tactic(auto, using(crate::proofs::Unlisted::snapshots_unlisted, crate::proofs::Unlisted::logs_unlisted, crate::proofs::Unlisted::none_held))]
pub fn marks_of<S: Folder, L: Folder>(
    alloc: Global,
    snapshots: &S,
    logs: &L,
) -> Result<Vec<Mark>, HistoryFault>
    ensures { FindsMarks (S.names_in snapshots.now) (S.bytes_in snapshots.now) (L.names_in logs.now) (L.bytes_in logs.now) result }
{
    let held = snapshots_in(alloc, snapshots)?;
    let logged = logs_in(alloc, logs)?;
    if held.is_empty() && logged.is_empty() {
        return Err(HistoryFault::Empty);
    }
    let loaded = load_logs(alloc, logs, logged.as_slice())?;
    let marks = check(
        alloc,
        snapshots,
        held.as_slice(),
        logged.as_slice(),
        loaded.as_slice(),
    )?;
    Ok(marks)
}
