//! Copies of each kind of event, of call, of answer and of reply, compared with the original.

use crate::ensembles::Part::{All, Reads};
use crate::ensembles::{Part, is_copied, walk};
use crate::events::{Look, event_of, read_of};
use crate::happenings::Happening::{Arrive, Crash, Expire, Follow, Lead, Restart, Submit, Sync};
use crate::happenings::{FIRST, JOINED, SUBMIT, Story};
use std::alloc::Global;
use zab_epoch::{WeightFault, Weighted};
use zk_ensemble::{Ensemble, Event};
use zk_listing::ListCause;
use zk_path::NoMemory;

/// Each kind of call. First a session creates a node, and everyone loses the permission to change
/// its list. Then changing the list back fails; a multi, with a part of each kind, raises the
/// node's version; and the node is deleted, by its new version alone.
static CALLS: [(i64, &str); 12] = [
    (0, "open 30000"),
    (FIRST, "create \"/q\" x 1 31 \"world\" \"anyone\""),
    (FIRST, "setacl \"/q\" 1 15 \"world\" \"anyone\" 0"),
    (
        FIRST,
        "multi ; create \"/q/m\" x 1 31 \"world\" \"anyone\" ; set \"/q\" x 0 ; check \"/q/m\" 0 ; delete \"/q/m\" 0",
    ),
    (FIRST, "setacl \"/q\" 1 31 \"world\" \"anyone\" 1"),
    (FIRST, "delete \"/q\" 0"),
    (FIRST, "delete \"/q\" 1"),
    (3, "close"),
    (3, "create -e \"/q\" x 1 31 \"world\" \"anyone\""),
    (3, "set \"/q\" x -1"),
    (3, "multi"),
    (3, "delete \"/q\" 4"),
];

/// Each kind of event except a read, and a submit for each kind of call.
const EVENTS: Story = &[
    &[Lead(1), Follow(2, 1), Arrive(&[3]), Crash(4)],
    &[Restart(5), Expire(6, 7), Sync(8, 9)],
    &[Submit(1, 1), Submit(1, 2), Submit(1, 3)],
    &[Submit(1, 4), Submit(1, 5), Submit(1, 6)],
    &[Submit(1, 7), Submit(1, 8), Submit(1, 9)],
    &[Submit(1, 10), Submit(1, 11), Submit(1, 12)],
];

/// Each kind of read, and one that fails, by the first session, which has seen a transaction.
const READS: &[Look] = &[
    Look(1, FIRST, 5, "get -w \"/q\""),
    Look(1, FIRST, 5, "stat -w \"/q\""),
    Look(1, FIRST, 5, "ls -w \"/q\""),
    Look(1, FIRST, 5, "getacl \"/q\""),
    Look(1, FIRST, 5, "get \"/none\""),
];

/// Whether an event that can be built is copied.
fn is_made_and_copied(alloc: Global, event: Result<Event, ListCause>) -> bool {
    match event {
        Ok(event) => is_copied(alloc, &event, &event.copy()),
        Err(_) => false,
    }
}

#[test]
fn copies_of_events_equal_what_they_copy(rt: HostRuntime) {
    for line in EVENTS {
        for happening in *line {
            let event = event_of(rt.alloc(), &CALLS, (*happening, 0));
            assert!(rt; is_made_and_copied(rt.alloc(), event));
        }
    }
    for look in READS {
        assert!(rt; is_made_and_copied(rt.alloc(), read_of(rt.alloc(), *look)));
    }
}

/// Whether an event has this debug format.
fn is_spelled(
    alloc: Global,
    event: Result<Event, ListCause>,
    expected: &str,
) -> Result<bool, NoMemory> {
    Ok(format!(in alloc; "{event:?}")?.as_str() == expected)
}

// the comparison depends on this: an event's debug format has each of its fields
#[test]
fn a_delete_is_spelled_whole(rt: HostRuntime) {
    let event = event_of(rt.alloc(), &CALLS, (Submit(1, 12), 0));
    let expected =
        "Ok(World(Submit { server: 1, call: Call { tag: 12, session: 3, cxid: 11, auths: Ids { ids: [] }, now: 2000, request: Delete { path: Text { text: \"/q\" }, version: 4 } } }))";
    assert_eq!(rt; is_spelled(rt.alloc(), event, expected), Ok(true));
}

/// Calls of every kind, which server 1 commits at once, and reads of the nodes that they created.
static CALLED: [Part; 3] = [
    All(&[
        JOINED,
        SUBMIT,
        &[Submit(1, 2), Submit(1, 3), Submit(1, 4)],
        &[Submit(1, 5), Submit(1, 6)],
    ]),
    Reads(READS),
    All(&[&[Submit(1, 7)]]),
];

/// Whether server 1 has results for `count` calls, each equal to its copy.
fn are_answered_as_copied(alloc: Global, ensemble: &Ensemble) -> bool {
    let answers = ensemble.answers(1);
    answers.len() == 7
        && answers
            .iter()
            .all(|answered| is_copied(alloc, answered, &answered.copy()))
}

/// Whether copies equal their originals in a new ensemble in which server 1 outweighs the others.
fn are_copied(alloc: Global) -> Result<bool, WeightFault> {
    let mut ensemble = Ensemble::with(alloc, Weighted::read(alloc, &[3, 1, 1])?)?;
    Ok(
        walk(alloc, &mut ensemble, &CALLS, &CALLED).is_none()
            && are_answered_as_copied(alloc, &ensemble),
    )
}

#[test]
fn answers_are_copied(rt: HostRuntime) {
    assert_eq!(rt; are_copied(rt.alloc()), Ok(true));
}
