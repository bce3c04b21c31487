//! The outcome of a tag, and a session's events, after a mark.

use crate::ensembles::Part::{All, Comes, Reads};
use crate::ensembles::{Ask, Part, Told, walk};
use crate::events::{Calls, Look};
use crate::happenings::Happening::{Arrive, Crash, Submit, Sync};
use crate::happenings::{COMMIT, FIRST, JOINED, SUBMIT};
use std::alloc::Global;
use zk_ensemble::Ensemble;
use zk_machine::ChangeKind::{self, ChildrenChanged, Deleted};
use zk_path::NoMemory;

/// Executes a script in a new ensemble of three servers. Returns the index of the first part with
/// another result.
fn play(alloc: Global, calls: Calls, parts: &[Part]) -> Result<Option<usize>, NoMemory> {
    let mut ensemble = Ensemble::new(alloc, 3)?;
    Ok(walk(alloc, &mut ensemble, calls, parts))
}

/// The session that the second call opens.
const SECOND: i64 = 0x1_0000_0002;

/// The start: nothing was read, or nothing exists.
const START: (usize, usize, usize) = (0, 0, 0);

/// The empty outcome.
const NOTHING: Told = Told(None, None, &[], START);

/// Two sessions, an ephemeral node of the first, and its end.
static OWNING: [(i64, &str); 4] = [
    (0, "open 30000"),
    (0, "open 30000"),
    (FIRST, "create -e \"/e\" x 1 31 \"world\" \"anyone\""),
    (FIRST, "close"),
];

/// The second session watches the node, its children and those of the root.
const WATCHES: &[Look] = &[
    Look(1, SECOND, 0, "stat -w \"/e\""),
    Look(1, SECOND, 0, "ls -w \"/e\""),
    Look(1, SECOND, 0, "ls -w \"/\""),
];

/// The session and the transaction of two results.
const THIRD: Option<(i64, i64)> = Some((FIRST, 0x1_0000_0003));

const FOURTH: Option<(i64, i64)> = Some((FIRST, 0x1_0000_0004));

/// Both events are the second session's.
const FIRED: &[(ChangeKind, &str)] = &[(ChildrenChanged, "/"), (Deleted, "/e")];

const LAST: &[(ChangeKind, &str)] = &[(Deleted, "/e")];

/// The numbers of results, syncs and events that server 1 has then.
const ALL: (usize, usize, usize) = (4, 0, 2);

/// A mark after the results of tags 1 to 3 and the first of two events.
const BEHIND: (usize, usize, usize) = (3, 0, 1);

/// A call has no result before the server has delivered it. A crash makes all lists shorter than
/// the mark.
static CALLS: [Part; 15] = [
    All(&[JOINED, SUBMIT]),
    Comes(Ask(1, 1, 0, START), NOTHING),
    Comes(Ask(9, 1, 0, START), NOTHING),
    All(&[
        COMMIT,
        &[Submit(1, 2), Arrive(&[10, 11, 12])],
        &[Submit(1, 3), Arrive(&[13, 14, 15])],
    ]),
    Reads(WATCHES),
    All(&[&[Submit(1, 4), Arrive(&[16, 17, 18])]]),
    Comes(Ask(1, 4, SECOND, START), Told(FOURTH, None, FIRED, ALL)),
    Comes(Ask(1, 4, FIRST, START), Told(FOURTH, None, &[], ALL)),
    Comes(Ask(1, 3, SECOND, START), Told(THIRD, None, FIRED, ALL)),
    Comes(Ask(1, 4, SECOND, BEHIND), Told(FOURTH, None, LAST, ALL)),
    Comes(Ask(1, 3, SECOND, BEHIND), Told(None, None, LAST, ALL)),
    // at the end of all lists, and after it
    Comes(Ask(1, 4, SECOND, (4, 7, 9)), Told(None, None, &[], ALL)),
    Comes(Ask(1, 5, SECOND, START), Told(None, None, FIRED, ALL)),
    All(&[&[Crash(1)]]),
    Comes(Ask(1, 4, SECOND, BEHIND), NOTHING),
];

#[test]
fn outcomes_stand_behind_the_mark(rt: HostRuntime) {
    assert_eq!(rt; play(rt.alloc(), &OWNING, &CALLS), Ok(None));
}

/// A session, and its end.
static ENDING: [(i64, &str); 2] = [(0, "open 30000"), (FIRST, "close")];

/// The session and the transaction of the first two results at server 2.
const OPEN: Option<(i64, i64)> = Some((FIRST, FIRST));

const END: Option<(i64, i64)> = Some((FIRST, SECOND));

const ONE: (usize, usize, usize) = (0, 1, 0);

/// Server 2 syncs twice: after one entry, and after two. The tags differ from those of calls.
static SYNCS: [Part; 8] = [
    All(&[JOINED, SUBMIT, COMMIT, &[Sync(2, 1)]]),
    Comes(Ask(2, 1, FIRST, START), Told(OPEN, None, &[], (1, 0, 0))),
    All(&[&[Arrive(&[10, 11])]]),
    Comes(Ask(2, 1, FIRST, START), Told(OPEN, Some(1), &[], (1, 1, 0))),
    Comes(Ask(2, 1, FIRST, ONE), Told(OPEN, None, &[], (1, 1, 0))),
    All(&[
        &[Submit(1, 2), Arrive(&[12, 13])],
        &[Sync(2, 7), Arrive(&[15, 16])],
    ]),
    Comes(Ask(2, 7, FIRST, ONE), Told(None, Some(2), &[], (2, 2, 0))),
    Comes(Ask(2, 2, FIRST, ONE), Told(END, None, &[], (2, 2, 0))),
];

#[test]
fn outcomes_of_syncs_stand_behind_the_mark(rt: HostRuntime) {
    assert_eq!(rt; play(rt.alloc(), &ENDING, &SYNCS), Ok(None));
}
