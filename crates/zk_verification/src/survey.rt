//! The logs of a directory, each by itself, and where the history that they hold is broken.
ghost use Rattle.std.specs.Prelude.{◌≡◌, ◌∷◌, IfOk, OnOk, map, true};
ghost use Rattle.std.specs.Option.{option_copied};
ghost use Rattle.zk_directory.specs.Chains.{told};
ghost use Rattle.zk_verification.specs.Surveys.{AreSurveyed, Surveys, break_by, damage_of, is_damaged, is_differing, is_marked, last_after, run_from, start_survey, survey_end, survey_entries, survey_entry, survey_file, survey_rest, survey_resumed, survey_run, survey_runs, surveyed_by, told_of, with_break, with_different, with_gap, with_mark, with_taken, with_wrong, zxid_of};

use crate::breaks::Break;
use crate::log_bytes::LogBytes;
use crate::mark::{Damage, Mark, Moment, log_mark, moment_of};
use std::alloc::Global;
use zk_directory::{
    Chain, ChainFault, FileEntry, FileName, IntactLog, LogEntry, LogFileFault, Resumption, Turn,
    read_intact_log,
};
use zk_directory_state::{HistoryFault, take_on};
use zk_log::Ending;
use zk_path::NoMemory;

/// The logs so far.
#[derive(Drop)]
pub struct Survey<'a> {
    /// The entries so far. One that does not continue the one before is taken all the same.
    pub(crate) chain: Chain<'a>,
    /// The last entry that was taken.
    last: Option<Moment>,
    /// What is said of the logs.
    pub marks: Vec<Mark>,
    /// Where the history is broken.
    pub breaks: Vec<Break>,
}

/// Surveys the logs of a directory, which are in order of name.
pub fn survey_logs(alloc: Global, logs: &[LogBytes]) -> Result<Survey<'_>, NoMemory>
    ensures { IfOk result (λ survey. AreSurveyed start_survey logs.now (surveyed_by survey)) }
{
    let mut survey = Survey::new(alloc);
    for log in logs {
        survey.add_log(alloc, log)?;
    }
    Ok(survey)
}

impl<'a> Survey<'a> {
    /// The entries of the logs, joined. One before which transactions are missing is there too.
    pub fn entries(&self) -> &[LogEntry<'a>]
        ensures { map told result.now ≡ (surveyed_by self.now).history.taken }
    {
        self.chain.taken.as_slice()
    }

    /// No log yet.
    fn new(alloc: Global) -> Survey<'a>
        ensures { surveyed_by result ≡ start_survey }
    {
        Survey {
            chain: Chain::new(alloc, None, None),
            last: None,
            marks: Vec::new(alloc),
            breaks: Vec::new(alloc),
        }
    }

    /// Adds a log.
    fn add_log(&mut self, alloc: Global, log: &'a LogBytes) -> Result<(), NoMemory>
        ensures { OnOk result (Surveys (surveyed_by self.old) log.now (surveyed_by self.new)) }
    {
        if !log.is_read {
            return self.add_wrong(HistoryFault::Unreadable(FileName::Log { zxid: log.zxid }));
        }
        let file = read_intact_log(alloc, log.bytes.as_slice())?;
        self.add_file(log, &file)
    }

    /// Adds a log that was read.
    fn add_file(&mut self, log: &LogBytes, file: &IntactLog<'a>) -> Result<(), NoMemory>
        ensures { OnOk result (surveyed_by self.new ≡ survey_file log.now.zxid (surveyed_by self.old) file.now) }
    {
        self.add_mark(log_mark(log.zxid, &file.first))?;
        self.add_entries(log, file.first.entries.as_slice())?;
        self.add_rest(log, file)
    }

    /// Adds the entries of a log.
    fn add_entries(&mut self, log: &LogBytes, entries: &[FileEntry<'a>]) -> Result<(), NoMemory>
        ensures { OnOk result (surveyed_by self.new ≡ survey_entries log.now.zxid (surveyed_by self.old) entries.now) }
    {
        for entry in entries {
            self.add_entry(log, entry)?;
        }
        Ok(())
    }

    /// Adds an entry of a log.
    fn add_entry(&mut self, log: &LogBytes, entry: &FileEntry<'a>) -> Result<(), NoMemory>
        ensures { OnOk result (surveyed_by self.new ≡ survey_entry log.now.zxid (surveyed_by self.old) entry.now) }
    {
        match self.chain.take(entry_of(entry)) {
            Ok(turn) => {
                self.note_turn(entry, turn);
                Ok(())
            }
            Err(ChainFault::Purged { .. }) => self.add_taken(entry),
            Err(ChainFault::Gap { from, to }) => {
                self.add_gap(from, to, entry)?;
                self.add_taken(entry)
            }
            Err(ChainFault::Differs) => self.add_different(log, entry.at),
            Err(ChainFault::NoMemory) => Err(NoMemory),
        }
    }

    /// Adds the first intact entry after a damaged place.
    fn add_resumed(&mut self, log: &LogBytes, entry: &FileEntry<'a>) -> Result<(), NoMemory>
        ensures { OnOk result (surveyed_by self.new ≡ survey_resumed log.now.zxid (surveyed_by self.old) entry.now) }
    {
        match self.chain.take(entry_of(entry)) {
            Ok(turn) => {
                self.note_turn(entry, turn);
                Ok(())
            }
            Err(ChainFault::Purged { .. }) => self.add_taken(entry),
            Err(ChainFault::Gap { .. }) => self.add_taken(entry),
            Err(ChainFault::Differs) => self.add_different(log, entry.at),
            Err(ChainFault::NoMemory) => Err(NoMemory),
        }
    }

    /// Keeps an entry that the chain took as the last one.
    fn note_turn(&mut self, entry: &FileEntry<'a>, turn: Turn)
        ensures { self.new ≡ record self.old { last = last_after self.old.last entry.now turn } }
    {
        if let Turn::Take = turn {
            self.last = Some(moment_of(entry));
        }
    }

    /// Takes an entry that does not continue the one before.
    fn add_taken(&mut self, entry: &FileEntry<'a>) -> Result<(), NoMemory>
        ensures { OnOk result (surveyed_by self.new ≡ with_taken (surveyed_by self.old) entry.now) }
    {
        take_on(&mut self.chain, entry)?;
        self.last = Some(moment_of(entry));
        Ok(())
    }

    /// Adds that transactions are missing before an entry.
    fn add_gap(&mut self, from: i64, to: i64, entry: &FileEntry<'a>) -> Result<(), NoMemory>
        ensures { OnOk result (surveyed_by self.new ≡ with_gap (surveyed_by self.old) from to entry.now) }
    {
        let before = self.last;
        self.add_mark(Mark::Gap {
            before,
            after: moment_of(entry),
        })?;
        self.add_break(Break::Missing { from, to })
    }

    /// Adds that the entry at this byte of a log differs from an earlier one, if it is the log's
    /// first.
    fn add_different(&mut self, log: &LogBytes, at: u64) -> Result<(), NoMemory>
        ensures { OnOk result (surveyed_by self.new ≡ with_different (surveyed_by self.old) log.now.zxid at) }
    {
        if is_marked(self.marks.as_slice(), log.zxid) {
            return Ok(());
        }
        self.add_wrong(HistoryFault::Differs { log: log.zxid, at })
    }

    /// Adds what is intact after damaged places, and where the log is broken.
    fn add_rest(&mut self, log: &LogBytes, file: &IntactLog<'a>) -> Result<(), NoMemory>
        ensures { OnOk result (surveyed_by self.new ≡ survey_rest log.now.zxid (surveyed_by self.old) file.now) }
    {
        let from = self.last;
        self.add_runs(log, file.first.outcome, file.later.as_slice())?;
        if is_damaged(file.first.outcome, file.later.as_slice()) {
            self.add_damaged(from)?;
        }
        Ok(())
    }

    /// Adds the entries after damaged places, and how the log ends.
    fn add_runs(
        &mut self,
        log: &LogBytes,
        first: Result<Ending, LogFileFault>,
        runs: &[Resumption<'a>],
    ) -> Result<(), NoMemory>
        ensures { OnOk result (surveyed_by self.new ≡ survey_runs log.now.zxid first runs.now (surveyed_by self.old)) }
    {
        let mut stop = first;
        for run in runs {
            self.add_run(log, stop, run)?;
            stop = run.file.outcome;
        }
        self.add_outcome(log, stop)
    }

    /// Adds the entries after a damaged place.
    #[tactic(auto, using(crate::proofs::Surveying::run_first, crate::proofs::Surveying::run_none))]
    fn add_run(
        &mut self,
        log: &LogBytes,
        stop: Result<Ending, LogFileFault>,
        run: &Resumption<'a>,
    ) -> Result<(), NoMemory>
        ensures { OnOk result (surveyed_by self.new ≡ survey_run log.now.zxid stop (surveyed_by self.old) run.now) }
    {
        match run.file.entries.as_slice() {
            [entry, rest @ ..] => self.add_run_from(log, stop, run, entry, rest),
            [] => Ok(()),
        }
    }

    /// Adds the first entry after a damaged place, and the others.
    fn add_run_from(
        &mut self,
        log: &LogBytes,
        stop: Result<Ending, LogFileFault>,
        run: &Resumption<'a>,
        entry: &FileEntry<'a>,
        rest: &[FileEntry<'a>],
    ) -> Result<(), NoMemory>
        ensures { OnOk result (surveyed_by self.new ≡ run_from log.now.zxid stop (surveyed_by self.old) run.now (entry.now ∷ rest.now)) }
    {
        self.add_mark(Mark::Lost(damage_of(log.zxid, stop, run, self.last, entry)))?;
        self.add_resumed(log, entry)?;
        self.add_entries(log, rest)
    }

    /// Adds how a log ends.
    fn add_outcome(
        &mut self,
        log: &LogBytes,
        outcome: Result<Ending, LogFileFault>,
    ) -> Result<(), NoMemory>
        ensures { OnOk result (surveyed_by self.new ≡ survey_end log.now.zxid outcome (surveyed_by self.old)) }
    {
        match outcome {
            Ok(_) => Ok(()),
            Err(fault) => self.add_wrong(HistoryFault::Log {
                log: log.zxid,
                fault,
            }),
        }
    }

    /// Adds that a log is damaged after an entry.
    fn add_damaged(&mut self, from: Option<Moment>) -> Result<(), NoMemory>
        ensures { OnOk result (surveyed_by self.new ≡ break_by true from (surveyed_by self.old)) }
    {
        let last = zxid_of(self.last);
        self.add_break(Break::Damaged {
            from: zxid_of(from),
            last,
        })
    }

    fn add_wrong(&mut self, fault: HistoryFault) -> Result<(), NoMemory>
        ensures { OnOk result (surveyed_by self.new ≡ with_wrong (surveyed_by self.old) fault) }
    {
        self.add_mark(Mark::Wrong(fault))
    }

    fn add_mark(&mut self, mark: Mark) -> Result<(), NoMemory>
        ensures { OnOk result (surveyed_by self.new ≡ with_mark (surveyed_by self.old) mark) }
    {
        self.marks.push(mark)?;
        Ok(())
    }

    fn add_break(&mut self, place: Break) -> Result<(), NoMemory>
        ensures { OnOk result (surveyed_by self.new ≡ with_break (surveyed_by self.old) place) }
    {
        self.breaks.push(place)?;
        Ok(())
    }
}

/// An entry, as a chain takes it.
fn entry_of<'a>(entry: &FileEntry<'a>) -> LogEntry<'a>
    ensures { told result ≡ told_of entry.now }
{
    LogEntry {
        zxid: entry.newer.txn.zxid,
        bytes: entry.bytes,
    }
}

/// The damaged place before the first entry of what is intact after it.
fn damage_of(
    log: i64,
    stop: Result<Ending, LogFileFault>,
    run: &Resumption<'_>,
    before: Option<Moment>,
    entry: &FileEntry<'_>,
) -> Damage
    ensures { result ≡ damage_of log stop run.now before entry.now }
{
    Damage {
        log,
        stop,
        at: run.from,
        to: run.to,
        before,
        after: moment_of(entry),
    }
}

/// Whether a log has a damaged place.
fn is_damaged(stop: Result<Ending, LogFileFault>, later: &[Resumption<'_>]) -> bool
    ensures { result ≡ is_damaged stop later.now }
{
    stop.is_err() || !later.is_empty()
}

/// The zxid of a transaction, or 0.
fn zxid_of(moment: Option<Moment>) -> i64
    ensures { result ≡ zxid_of moment }
{
    match moment {
        Some(moment) => moment.zxid,
        None => 0,
    }
}

/// Whether an entry of this log was the last to differ from an earlier one.
fn is_marked(marks: &[Mark], log: i64) -> bool
    ensures { result ≡ is_marked marks.now log }
{
    is_differing(marks.last(), log)
}

/// Whether a mark says that an entry of this log differs from an earlier one.
pub(crate) fn is_differing(mark: Option<&Mark>, log: i64) -> bool
    ensures { result ≡ is_differing (option_copied mark.entry) log }
{
    match mark {
        Some(Mark::Wrong(HistoryFault::Differs { log: marked, .. })) => *marked == log,
        _ => false,
    }
}
