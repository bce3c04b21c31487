//! A walk over the logs of a directory, on both sides of damaged places.
ghost use Rattle.std.specs.Prelude.{◌≡◌, ◌++◌, IfOk, OnOk};
ghost use Rattle.zk_directory_state.specs.Walks.{Folds, FoldsLog, FoldsLogs, ResumesBy, Steps, begins, is_next, is_resumed, is_whole_by, last_loss, last_of, losses_by, losses_of, noted, outcome_of, start_walk, walk_entries, walk_entry, walk_log, walk_run, walk_runs, walked_by, walked_to, with_damage, with_record};

use crate::fault_causes::{fault_by, log_at};
use crate::span::{Moment, Span, moment_of, span_after};
use crate::{HistoryFault, RestoreFault, take_entry, take_on};
use std::alloc::Global;
use zk_directory::{
    Chain, FileEntry, IntactLog, LogFileFault, Resumption, Turn, read_intact_log, starts_history,
};
use zk_log::Ending;
use zk_newer_records::RecordFold;
use zk_path::NoMemory;

/// The transactions around a damaged place.
#[derive(Clone, Copy, Debug, PartialEq, Eq)]
pub struct Loss {
    /// The zxid in the name of the log.
    pub log: i64,
    /// The last one before the place; `None` if no log has one.
    pub before: Option<Moment>,
    /// The first one after it; `None` if no log has one.
    pub after: Option<Moment>,
}

/// The logs so far.
#[derive(Drop)]
pub(crate) struct Walk<'a> {
    chain: Chain<'a>,
    /// Whether no transaction was before the first record.
    pub(crate) is_whole: bool,
    /// The first and the last record.
    pub(crate) span: Option<Span>,
    /// The zxid in the name of the log in which a damaged place comes after the last record.
    damaged: Option<i64>,
    losses: Vec<Loss>,
    /// The last fault of a log, and the zxid in the name of that log.
    pub(crate) fault: Option<(i64, LogFileFault)>,
}

/// Whether nothing is missing before an entry, which comes after this zxid.
fn is_next(position: Option<i64>, zxid: i64) -> bool
    ensures { result ≡ is_next position zxid }
{
    match position {
        Some(position) => position < zxid && zxid - 1 == position,
        None => starts_history(zxid),
    }
}

fn last_of(span: Option<Span>) -> Option<Moment>
    ensures { result ≡ last_of span }
{
    Some(span?.last)
}

/// Whether nothing was before the first record, an entry of a log that may be damaged before it.
fn begins(log: i64, damaged: Option<i64>, zxid: i64) -> bool
    ensures { result ≡ begins log damaged zxid }
{
    starts_history(zxid) || (damaged.is_none() && starts_history(log))
}

/// Whether nothing was before the first record; `is_first` says so of the next one.
fn is_whole_by(span: Option<Span>, is_whole: bool, is_first: bool) -> bool
    ensures { result ≡ is_whole_by span is_whole is_first }
{
    match span {
        Some(_) => is_whole,
        None => is_first,
    }
}

/// Whether an entry that does not continue the history is a record all the same.
fn is_resumed(damaged: Option<i64>, fault: RestoreFault) -> bool
    ensures { result ≡ is_resumed damaged fault }
{
    match (damaged, fault) {
        (_, RestoreFault::Purged { .. }) => true,
        (Some(_), RestoreFault::Gap { .. }) => true,
        _ => false,
    }
}

impl<'a> Walk<'a> {
    /// No log yet.
    pub(crate) fn new(alloc: Global) -> Walk<'a>
        ensures { walked_by result ≡ start_walk }
    {
        Walk {
            chain: Chain::new(alloc, None, None),
            is_whole: false,
            span: None,
            damaged: None,
            losses: Vec::new(alloc),
            fault: None,
        }
    }

    /// Takes the next entry of a log. Returns whether it is a record: an earlier log may have it.
    #[tactic(auto, using(crate::proofs::Stepping::takes, crate::proofs::Stepping::skips, crate::proofs::Stepping::stops, crate::proofs::Stepping::resumes))]
    fn take(&mut self, log: i64, entry: &FileEntry<'a>) -> Result<bool, HistoryFault>
        ensures { Steps log (walked_by self.old) entry.now (walked_by self.new) result }
    {
        let position = self.chain.position;
        match take_entry(&mut self.chain, entry) {
            Ok(Turn::Take) => {
                self.note_record(log, position, entry)?;
                Ok(true)
            }
            Ok(Turn::Skip) => Ok(false),
            Ok(Turn::Stop) => Ok(false),
            Err(fault) => self.resume(log, entry, fault),
        }
    }

    /// Takes an entry that does not continue the history, if it is a record all the same.
    #[tactic(auto, using(crate::proofs::Stepping::resumed, crate::proofs::Stepping::not_resumed))]
    fn resume(
        &mut self,
        log: i64,
        entry: &FileEntry<'a>,
        fault: RestoreFault,
    ) -> Result<bool, HistoryFault>
        ensures { ResumesBy log (walked_by self.old) entry.now fault (walked_by self.new) result }
    {
        if !is_resumed(self.damaged, fault) {
            return Err(fault_by(fault, 0, log));
        }
        self.take_on(log, entry)?;
        Ok(true)
    }

    /// Takes a record that does not continue the history.
    #[tactic(auto, using(crate::proofs::Stepping::taken_on))]
    fn take_on(&mut self, log: i64, entry: &FileEntry<'a>) -> Result<(), NoMemory>
        ensures { OnOk result (walked_by self.new ≡ with_record log (walked_by self.old) entry.now) }
    {
        let position = self.chain.position;
        take_on(&mut self.chain, entry)?;
        self.note_record(log, position, entry)
    }

    /// Notes a record, which comes after the zxid `position`.
    fn note_record(
        &mut self,
        log: i64,
        position: Option<i64>,
        entry: &FileEntry<'a>,
    ) -> Result<(), NoMemory>
        ensures { OnOk result (walked_by self.new ≡ noted log position (walked_by self.old) entry.now) }
    {
        let zxid = entry.newer.txn.zxid;
        let is_next = is_next(position, zxid);
        let before = last_of(self.span);
        let after = moment_of(&entry.newer);
        push_loss_by(&mut self.losses, is_next, self.damaged, before, after)?;
        let is_first = begins(log, self.damaged, zxid);
        self.is_whole = is_whole_by(self.span, self.is_whole, is_first);
        self.span = Some(span_after(self.span, &entry.newer));
        self.damaged = None;
        Ok(())
    }
}

/// Appends what a damaged place lost before a record, if something is missing there.
fn push_loss_by(
    losses: &mut Vec<Loss>,
    is_next: bool,
    damaged: Option<i64>,
    before: Option<Moment>,
    after: Moment,
) -> Result<(), NoMemory>
    ensures { OnOk result (losses.new.items ≡ losses.old.items ++ losses_by is_next damaged before after) }
{
    if let Some(log) = damaged
        && !is_next
    {
        losses.push(Loss {
            log,
            before,
            after: Some(after),
        })?;
    }
    Ok(())
}

/// Appends what a damaged place after the last record lost, if there is one.
fn push_last_loss(
    losses: &mut Vec<Loss>,
    damaged: Option<i64>,
    before: Option<Moment>,
) -> Result<(), NoMemory>
    ensures { OnOk result (losses.new.items ≡ losses.old.items ++ last_loss damaged before) }
{
    if let Some(log) = damaged {
        losses.push(Loss {
            log,
            before,
            after: None,
        })?;
    }
    Ok(())
}

impl Walk<'_> {
    /// Notes that a damaged place of a log comes after the last record.
    fn note_damage(&mut self, log: i64)
        ensures { walked_by self.new ≡ with_damage log (walked_by self.old) }
    {
        self.damaged = Some(log);
    }

    /// Notes how a log ends.
    fn note_end(&mut self, log: i64, outcome: Result<Ending, LogFileFault>)
        ensures { walked_by self.new ≡ walked_to log outcome (walked_by self.old) }
    {
        if let Err(fault) = outcome {
            self.damaged = Some(log);
            self.fault = Some((log, fault));
        }
    }

    /// What damaged places lost, the end of all logs included.
    pub(crate) fn losses(&self, alloc: Global) -> Result<Vec<Loss>, NoMemory>
        ensures { IfOk result (λ losses. losses.items ≡ losses_of (walked_by self.now)) }
    {
        let mut losses = Vec::new(alloc);
        losses.extend_from_slice(self.losses.as_slice())?;
        push_last_loss(&mut losses, self.damaged, last_of(self.span))?;
        Ok(losses)
    }
}

// ---- folds

/// Folds the next entry of a log, if it is a record.
#[tactic(auto, using(crate::proofs::Walking::taken_folds, crate::proofs::Walking::skipped_folds, crate::proofs::Walking::rejected_folds))]
fn fold_entry<'a, F: RecordFold>(
    fold: &mut F,
    walk: &mut Walk<'a>,
    log: i64,
    entry: &FileEntry<'a>,
) -> Result<(), HistoryFault>
    ensures { Folds F.follows (λ walk. walk_entry log walk entry.now) (walked_by walk.old) fold.old (walked_by walk.new) fold.new result }
{
    if !walk.take(log, entry)? {
        return Ok(());
    }
    fold.take(&entry.newer)?;
    Ok(())
}

/// Folds entries of a log.
#[tactic(auto, using(crate::proofs::Walking::none_folded, crate::proofs::Walking::next_folded, crate::proofs::Walking::all_folded, crate::proofs::Walking::breaks_folding))]
fn fold_entries<'a, F: RecordFold>(
    fold: &mut F,
    walk: &mut Walk<'a>,
    log: i64,
    entries: &[FileEntry<'a>],
) -> Result<(), HistoryFault>
    ensures { Folds F.follows (λ walk. walk_entries log walk entries.now) (walked_by walk.old) fold.old (walked_by walk.new) fold.new result }
{
    for entry in entries {
        fold_entry(fold, walk, log, entry)?;
    }
    Ok(())
}

/// Folds what is intact after a damaged place.
#[tactic(auto, using(crate::proofs::Walking::run_folds))]
fn fold_run<'a, F: RecordFold>(
    fold: &mut F,
    walk: &mut Walk<'a>,
    log: i64,
    run: &Resumption<'a>,
) -> Result<(), HistoryFault>
    ensures { Folds F.follows (λ walk. walk_run log walk run.now) (walked_by walk.old) fold.old (walked_by walk.new) fold.new result }
{
    walk.note_damage(log);
    fold_entries(fold, walk, log, run.file.entries.as_slice())
}

/// Folds what is intact after damaged places.
#[tactic(auto, using(crate::proofs::Walking::none_runs, crate::proofs::Walking::next_runs, crate::proofs::Walking::all_runs, crate::proofs::Walking::breaks_runs))]
fn fold_runs<'a, F: RecordFold>(
    fold: &mut F,
    walk: &mut Walk<'a>,
    log: i64,
    runs: &[Resumption<'a>],
) -> Result<(), HistoryFault>
    ensures { Folds F.follows (λ walk. walk_runs log walk runs.now) (walked_by walk.old) fold.old (walked_by walk.new) fold.new result }
{
    for run in runs {
        fold_run(fold, walk, log, run)?;
    }
    Ok(())
}

/// How a log ends after its last intact entry.
fn outcome_of(file: &IntactLog<'_>) -> Result<Ending, LogFileFault>
    ensures { result ≡ outcome_of file.now }
{
    match file.later.last() {
        Some(run) => run.file.outcome,
        None => file.first.outcome,
    }
}

/// Folds the records of a log.
#[tactic(auto, using(crate::proofs::Walking::file_folds, crate::proofs::Walking::entries_break, crate::proofs::Walking::runs_break))]
fn fold_file<'a, F: RecordFold>(
    fold: &mut F,
    walk: &mut Walk<'a>,
    log: i64,
    file: &IntactLog<'a>,
) -> Result<(), HistoryFault>
    ensures { Folds F.follows (λ walk. walk_log log walk file.now) (walked_by walk.old) fold.old (walked_by walk.new) fold.new result }
{
    fold_entries(fold, walk, log, file.first.entries.as_slice())?;
    fold_runs(fold, walk, log, file.later.as_slice())?;
    walk.note_end(log, outcome_of(file));
    Ok(())
}

/// Folds the records of the log of these bytes.
#[tactic(auto, using(crate::proofs::Walking::log_folds))]
fn fold_log<'a, F: RecordFold>(
    alloc: Global,
    fold: &mut F,
    walk: &mut Walk<'a>,
    log: i64,
    bytes: &'a [u8],
) -> Result<(), HistoryFault>
    ensures { FoldsLog F.follows log bytes.now (walked_by walk.old) fold.old (walked_by walk.new) fold.new result }
{
    let file = read_intact_log(alloc, bytes)?;
    fold_file(fold, walk, log, &file)
}

/// Folds the records of these logs, which have these zxids in their names.
#[tactic(auto, using(crate::proofs::Walking::no_log, crate::proofs::Walking::next_log, crate::proofs::Walking::all_logs, crate::proofs::Walking::log_fails))]
pub(crate) fn fold_logs<'a, F: RecordFold>(
    alloc: Global,
    fold: &mut F,
    walk: &mut Walk<'a>,
    logged: &[i64],
    logs: &[&'a [u8]],
) -> Result<(), HistoryFault>
    ensures { FoldsLogs F.follows logged.now logs.now (walked_by walk.old) fold.old (walked_by walk.new) fold.new result }
{
    let mut place = 0usize;
    for bytes in logs {
        fold_log(alloc, fold, walk, log_at(logged, place), *bytes)?;
        place += 1;
    }
    Ok(())
}
