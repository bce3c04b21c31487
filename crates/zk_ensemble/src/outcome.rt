//! The outcome of a call or a sync at a server, and a session's new events there.

ghost use Rattle.std.specs.Prelude.{◌≡◌, ◌==◌, drop, map, option_map, IfOk};
ghost use Rattle.std.specs.List.{filter};
ghost use Rattle.zk_ensemble.specs.Outcomes.{answered_with, caught_with, change_in, is_for, mark, news_of};

use crate::ensemble::Ensemble;
use std::alloc::Global;
use zab_world::Caught;
use zk_machine::Change;
use zk_model::Answered;
use zk_path::NoMemory;
use zk_watch::Fired;

/// The outcome of a call or a sync at a server, and a session's new events there.
#[derive(Debug, Drop)]
pub struct Outcome {
    /// The result of the call with the tag, once the server has delivered it.
    pub answered: Option<Answered>,
    /// The number of entries that the sync with the tag waited for, once it has completed.
    pub caught: Option<u64>,
    /// The session's events after the mark, in order.
    pub events: Vec<Change>,
    /// All that the server has now.
    pub mark: Mark,
}

/// How many of a server's results, completed syncs and events were looked at since it started.
#[derive(Clone, Copy, Debug, Drop, PartialEq, Eq)]
pub struct Mark {
    pub answers: usize,
    pub syncs: usize,
    pub events: usize,
}

impl Mark {
    /// Nothing looked at yet.
    pub fn new() -> Mark
        ensures { result ≡ mark 0 0 0 }
    {
        Mark {
            answers: 0,
            syncs: 0,
            events: 0,
        }
    }
}

impl Ensemble {
    ghost use Rattle.std.specs.Prelude.{◌≡◌, length, option_map, IfOk};
    ghost use Rattle.zab_model.specs.Runs.{syncs_of};
    ghost use Rattle.zk_model.specs.Ensembles.{replica_at};
    ghost use Rattle.zk_ensemble.specs.Views.{answers_in, events_in};
    ghost use Rattle.zk_ensemble.specs.Outcomes.{answered_with, caught_with, news_of, IsOutcome};

    /// Returns the outcome of the call or sync with this tag at a server, and the session's events
    /// there, among all that is new since the mark. Nothing for an unknown number. The cost is that
    /// of what is new.
    pub fn outcome(
        &self,
        number: usize,
        tag: u64,
        session: i64,
        from: Mark,
    ) -> Result<Outcome, NoMemory>
        ensures { IfOk result (λ outcome. IsOutcome (answers_in (replica_at self.now.shown number))
            (syncs_of self.now.below.world number) (events_in (replica_at self.now.shown number)) tag session from outcome) }
    {
        let answers = self.answers(number);
        let syncs = self.syncs(number);
        let answered = copied(answered_with(behind(answers, from.answers), tag))?;
        Ok(Outcome {
            answered,
            caught: caught_with(behind(syncs, from.syncs), tag),
            events: self.news(number, session, from.events)?,
            mark: Mark {
                answers: answers.len(),
                syncs: syncs.len(),
                events: self.events_of(number).len(),
            },
        })
    }

    /// Borrows the result of the call with this tag at a server.
    pub fn answered(&self, number: usize, tag: u64) -> Option<&Answered>
        ensures { option_map (λ it. it.now) result ≡ answered_with tag (answers_in (replica_at self.now.shown number)) }
    {
        answered_with(self.answers(number), tag)
    }

    /// Returns the number of entries that the sync with this tag waited for, once it has completed.
    pub fn caught(&self, number: usize, tag: u64) -> Option<u64>
        ensures { result ≡ caught_with tag (syncs_of self.now.below.world number) }
    {
        caught_with(self.syncs(number), tag)
    }

    /// Returns a session's events at a server after the first `from` of all, in order.
    pub fn news(&self, number: usize, session: i64, from: usize) -> Result<Vec<Change>, NoMemory>
        ensures { IfOk result (λ news. news.items ≡ news_of session from (events_in (replica_at self.now.shown number))) }
    {
        let alloc = self.allocator();
        news_of(
            alloc,
            behind(self.events_of(number), from),
            session.cast_unsigned(),
        )
    }
}

/// Finds the last result with this tag: the result of a call whose client waits is among the last.
fn answered_with(answers: &[Answered], tag: u64) -> Option<&Answered>
    ensures { option_map (λ it. it.now) result ≡ answered_with tag answers.now }
{
    answers.iter().rev().find(|it| it.tag == tag)
}

fn copied(answered: Option<&Answered>) -> Result<Option<Answered>, NoMemory>
    ensures { IfOk result (λ copy. copy ≡ option_map (λ it. it.now) answered.entry) }
{
    match answered {
        Some(answered) => Ok(Some(answered.copy()?)),
        None => Ok(None),
    }
}

fn caught_with(syncs: &[Caught], tag: u64) -> Option<u64>
    ensures { result ≡ caught_with tag syncs.now }
{
    match syncs.iter().rev().find(|it| it.tag == tag) {
        Some(it) => Some(it.length),
        None => None,
    }
}

/// Borrows the elements after the first `from`.
fn behind<T>(all: &[T], from: usize) -> &[T]
    ensures { result.now ≡ drop from all.now }
{
    match all.get(from..) {
        Some(rest) => rest,
        None => &[],
    }
}

/// Selects a session's events.
fn news_of(alloc: Global, fired: &[Fired], session: u64) -> Result<Vec<Change>, NoMemory>
    ensures { IfOk result (λ news. news.items ≡ map change_in (filter (λ it. it.session == session) fired.now)) }
{
    let mut news = Vec::new(alloc);
    for event in fired {
        if event.session == session {
            let path = event.path.copy()?;
            news.push(Change {
                path,
                kind: event.kind,
            })?;
        }
    }
    Ok(news)
}
