//! Ensembles: the outcomes of a call, a sync and a session, copies, and the execution of a script's
//! parts.

use crate::events::{Calls, Look, event_of, read_of};
use crate::happenings::{Story, event_at};
use std::alloc::Global;
use std::fmt::Debug;
use zk_ensemble::{Answered, Ensemble, Event, Mark, Outcome};
use zk_listing::ListCause;
use zk_machine::{Change, ChangeKind};
use zk_path::NoMemory;

/// A query for an outcome: the server, the tag, the session, and the numbers of results, syncs and
/// events that were read already.
#[derive(Clone, Copy)]
pub struct Ask(pub usize, pub u64, pub i64, pub (usize, usize, usize));

/// An outcome: the session and the transaction of the call's result, the sync's length, the
/// session's events, and the server's numbers of results, syncs and events then.
#[derive(Clone, Copy)]
pub struct Told(
    pub Option<(i64, i64)>,
    pub Option<u64>,
    pub &'static [(ChangeKind, &'static str)],
    pub (usize, usize, usize),
);

/// A part of a script.
#[derive(Clone, Copy)]
pub enum Part {
    /// Events, all of which succeed.
    All(Story),
    /// Reads, each of which has a reply.
    Reads(&'static [Look]),
    /// The outcome of a tag, and a session's events.
    Comes(Ask, Told),
}

/// Whether two values have the same debug format, which has all fields.
fn are_spelled_alike<T: Debug>(alloc: Global, value: &T, copy: &T) -> Result<bool, NoMemory> {
    let spelled = format!(in alloc; "{value:?}")?;
    Ok(format!(in alloc; "{copy:?}")?.as_str() == spelled.as_str())
}

/// Whether there is a copy, with the same debug format as the original.
pub fn is_copied<T: Debug>(alloc: Global, value: &T, copy: &Result<T, NoMemory>) -> bool {
    match copy {
        Ok(copy) => are_spelled_alike(alloc, value, copy) == Ok(true),
        Err(_) => false,
    }
}

/// Returns a copy of the event.
fn copied(event: Event) -> Result<Event, ListCause> {
    Ok(event.copy()?)
}

/// Whether a copy of an event succeeds, with an answer that can be copied.
fn happens(alloc: Global, ensemble: &mut Ensemble, event: Result<Event, ListCause>) -> bool {
    match event.and_then(copied) {
        Ok(event) => match ensemble.step(event) {
            Ok(answer) => is_copied(alloc, &answer, &answer.copy()),
            Err(_) => false,
        },
        Err(_) => false,
    }
}

/// Whether all events of a story succeed.
fn all_happen(alloc: Global, ensemble: &mut Ensemble, calls: Calls, story: Story) -> bool {
    for number in 0..usize::MAX {
        let Some(moment) = event_at(story, number) else {
            break;
        };
        if !happens(alloc, ensemble, event_of(alloc, calls, moment)) {
            return false;
        }
    }
    true
}

/// Whether each read has a reply.
fn all_are_told(alloc: Global, ensemble: &mut Ensemble, looks: &[Look]) -> bool {
    for look in looks {
        if !happens(alloc, ensemble, read_of(alloc, *look)) {
            return false;
        }
    }
    true
}

/// Whether a call with a tag has this result, or none.
fn is_answered(answered: Option<&Answered>, tag: u64, expected: Option<(i64, i64)>) -> bool {
    match (answered, expected) {
        (Some(it), Some((session, zxid))) => {
            it.tag == tag && it.session == session && it.result.zxid == zxid
        }
        (None, None) => true,
        _ => false,
    }
}

/// Whether events are these.
fn are(events: &[Change], expected: &[(ChangeKind, &str)]) -> bool {
    events.len() == expected.len()
        && events.iter().zip(expected).all(|(event, (kind, path))| event.kind == *kind
            && event.path.text() == *path)
}

fn mark_of(counts: (usize, usize, usize)) -> Mark {
    let (answers, syncs, events) = counts;
    Mark {
        answers,
        syncs,
        events,
    }
}

/// Whether an outcome is this.
fn is_outcome(outcome: &Outcome, tag: u64, told: &Told) -> bool {
    let Told(answered, caught, events, mark) = told;
    is_answered(outcome.answered.as_ref(), tag, *answered)
        && outcome.caught == *caught
        && are(outcome.events.as_slice(), events)
        && outcome.mark == mark_of(*mark)
}

/// Whether this is the outcome after a mark.
fn comes(ensemble: &Ensemble, ask: &Ask, told: &Told) -> bool {
    let Ask(server, tag, session, from) = ask;
    match ensemble.outcome(*server, *tag, *session, mark_of(*from)) {
        Ok(outcome) => is_outcome(&outcome, *tag, told),
        Err(_) => false,
    }
}

/// Whether this is the outcome of the call, of the sync and of the session, each queried alone.
fn comes_apart(ensemble: &Ensemble, ask: &Ask, told: &Told) -> bool {
    let Ask(server, tag, session, _) = ask;
    let Told(answered, caught, expected, _) = told;
    let is_news = match ensemble.news(*server, *session, 0) {
        Ok(events) => are(events.as_slice(), expected),
        Err(_) => false,
    };
    is_news
        && ensemble.caught(*server, *tag) == *caught
        && is_answered(ensemble.answered(*server, *tag), *tag, *answered)
}

/// Returns the index, from 0 on, of the first part with another result.
pub fn walk(alloc: Global, ensemble: &mut Ensemble, calls: Calls, parts: &[Part]) -> Option<usize> {
    for (place, part) in parts.iter().enumerate() {
        let is_so = match part {
            Part::All(story) => all_happen(alloc, ensemble, calls, story),
            Part::Reads(looks) => all_are_told(alloc, ensemble, looks),
            Part::Comes(ask, told) => {
                // single queries start from the beginning
                comes(ensemble, ask, told)
                    && (mark_of(ask.3) != Mark::new() || comes_apart(ensemble, ask, told))
            }
        };
        if !is_so {
            return Some(place);
        }
    }
    None
}
