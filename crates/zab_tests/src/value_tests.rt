//! Numbers, quorums, lists and tables, and how faults are displayed.

use crate::asked::{are_shown, entry, has_zxids, push};
use std::alloc::Global;
use std::fmt::Display;
use zab_broadcast::{Echo, EchoCall, Primary, Tags, commit_count, next_zxid};
use zab_epoch::{
    Body, Entries, History, Majority, Messages, Payload, Quorums, RuleFault, Table, WeightFault,
    Weighted, next_epoch,
};
use zk_path::NoMemory;

/// Epochs, the number of entries of each, and the zxid of the next one.
static NEXT: [(u32, u64, Option<i64>); 5] = [
    (1, 0, Some(0x1_0000_0001)),
    (1, 4_294_967_294, Some(0x1_ffff_ffff)),
    (1, 4_294_967_295, None),
    (2_147_483_647, 4_294_967_294, Some(i64::MAX)),
    (2_147_483_648, 0, None),
];

#[test]
fn limits_of_numbers_and_deadlines(rt: HostRuntime) {
    for (epoch, made, zxid) in &NEXT {
        assert!(rt; next_zxid(*epoch, *made) == *zxid, "{epoch} {made}");
    }
    assert_eq!(rt; next_epoch(0), Some(1));
    assert_eq!(rt; next_epoch(2_147_483_646), Some(2_147_483_647));
    assert_eq!(rt; next_epoch(2_147_483_647), None);
}

/// Numbers of servers, marks, and whether those are a quorum: marks for another number of servers
/// are none.
static MARKS: [(usize, &[bool], bool); 4] = [
    (4, &[true, true, false, false], false),
    (4, &[true, false, true, true], true),
    (3, &[false, true, true], true),
    (3, &[true, true, true, true], false),
];

/// Whether marks are a quorum if each server has weight 1, by a copy of the weights.
fn outweigh(alloc: Global, servers: usize, marks: &[bool]) -> Result<bool, NoMemory> {
    let even = Weighted::even(alloc, servers)?;
    Ok(even.servers() == servers && matches!(even.copy(), Ok(copy) if copy.is_quorum(marks)))
}

#[test]
fn more_than_half_is_a_quorum(rt: HostRuntime) {
    for (servers, marks, is_quorum) in &MARKS {
        let majority = Majority { servers: *servers };
        assert!(rt; majority.is_quorum(marks) == *is_quorum, "{servers}");
        assert_eq!(rt;
            outweigh(rt.alloc(), *servers, marks),
            Ok(*is_quorum),
            "{servers}"
        );
    }
}

/// Weights, and the number of the fault with which they are rejected.
static WEIGHTS: [(&[u32], &str); 6] = [
    (&[1], "Q1"),
    (&[1; 16], "Q1"),
    (&[0], "Q1"),
    (&[0, 0], "Q2"),
    (&[1; 15], "taken"),
    (&[0, 1], "taken"),
];

/// Each fault of a rule, and its number: that of a world's fault.
static FAULTS: [(RuleFault, &str); 3] = [
    (RuleFault::NotServing, "Z5"),
    (RuleFault::EpochFull, "Z7"),
    (RuleFault::NoMemory, "Z8"),
];

/// Whether a fault is displayed as `shown`.
fn is_shown_as<F: Display>(alloc: Global, fault: &F, shown: &str) -> bool {
    matches!(format!(in alloc; "{fault}"), Ok(text) if text.as_str() == shown)
}

/// Whether weights are accepted, or rejected with the fault of this number.
fn are_read(alloc: Global, weights: &[u32], shown: &str) -> bool {
    match Weighted::read(alloc, weights) {
        Ok(_) => shown == "taken",
        Err(fault) => is_shown_as(alloc, &fault, shown),
    }
}

#[test]
fn faults_are_shown_by_their_numbers(rt: HostRuntime) {
    // weights_are_refused: of fewer than two servers or more than 15, and that are all 0
    for (weights, shown) in &WEIGHTS {
        assert!(rt; are_read(rt.alloc(), weights, shown), "{shown}");
    }
    assert!(rt; is_shown_as(rt.alloc(), &WeightFault::NoMemory, "Q3"));
    for (fault, shown) in &FAULTS {
        assert!(rt; is_shown_as(rt.alloc(), fault, shown), "{shown}");
    }
}

/// The number of entries of each of three servers, of the leader, and of a quorum.
static COUNTS: [(&[Option<u64>], u64, u64); 5] = [
    (&[Some(5), None, None], 5, 0),
    (&[Some(5), Some(3), None], 5, 3),
    (&[Some(5), Some(3), Some(4)], 5, 4),
    (&[Some(5), Some(9), None], 5, 5),
    (&[None, None, None], 0, 0),
];

fn count_of(alloc: Global, has: &[Option<u64>], length: u64) -> Result<u64, NoMemory> {
    commit_count(alloc, &Majority { servers: 3 }, has, length)
}

#[test]
fn commit_count_of_a_quorum(rt: HostRuntime) {
    for (has, length, count) in &COUNTS {
        assert_eq!(rt; count_of(rt.alloc(), has, *length), Ok(*count), "{count}");
    }
}

/// Whether an echo returns this entry, as the first of a history.
fn is_echoed(alloc: Global, call: &EchoCall, zxid: i64, shown: &str) -> Result<bool, NoMemory> {
    let echo = Echo::start(alloc, &Entries::none())?;
    let entry = echo.make(call, zxid)?;
    Ok(format!(in alloc; "{entry:?}")?.as_str() == shown)
}

#[test]
fn an_echo_is_an_error_with_its_tag(rt: HostRuntime) {
    let call = Echo::closing(rt.alloc(), 7, 1, 1000);
    assert_eq!(rt; Echo::tag(&call), 7);
    let shown =
        "Entry { tag: 7, txn: Txn { session: 0, cxid: 0, zxid: 9, time: 0, op: Error { code: 0 } } }";
    assert_eq!(rt; is_echoed(rt.alloc(), &call, 9, shown), Ok(true));
}

/// Whether these tags are added, and then found.
fn are_found(tags: &mut Tags, taken: &[u64]) -> bool {
    for tag in taken {
        if tags.push(*tag).is_err() {
            return false;
        }
    }
    taken.iter().all(|tag| tags.has(*tag))
}

/// Tags that were added once or twice are found (tags_are_found), and others are not.
#[test]
fn a_tag_that_is_taken_twice_is_found(rt: HostRuntime) {
    let mut tags = Tags::new(rt.alloc());
    assert!(rt; are_found(&mut tags, &[3]) && !tags.has(4));
    assert!(rt; are_found(&mut tags, &[5, 3, 5, u64::MAX, 0]) && !tags.has(1) && !tags.has(4));
}

/// Whether a history's copy has these zxids.
fn is_copied(history: &History, zxids: &[i64]) -> bool {
    matches!(history.copy(), Ok(copy) if has_zxids(&copy, zxids))
}

#[test]
fn histories_are_kept_in_order(rt: HostRuntime) {
    let mut history = History::new(rt.alloc());
    assert_eq!(rt; history.last_zxid(), 0);
    assert_eq!(rt; push(&mut history, entry(1, 7)), Ok(()));
    assert_eq!(rt; push(&mut history, entry(2, 8)), Ok(()));
    assert!(rt; is_copied(&history, &[7, 8]));
    history.truncate(1);
    assert!(rt; is_copied(&history, &[7]) && history.last_zxid() == 7);
}

/// Sends a request.
fn request(alloc: Global, messages: &mut Messages<u64>) -> Result<(), NoMemory> {
    let call = Payload::new(alloc, 4)?;
    messages.send(1, 2, Body::Request { epoch: 3, call })
}

#[test]
fn messages_are_kept_in_order(rt: HostRuntime) {
    let mut messages = Messages::new(rt.alloc());
    assert_eq!(rt; request(rt.alloc(), &mut messages), Ok(()));
    let mut more = Messages::new(rt.alloc());
    let body = Body::Ack {
        epoch: 3,
        length: 5,
    };
    assert_eq!(rt; more.send(2, 1, body), Ok(()));
    assert_eq!(rt; messages.append(more), Ok(()));
    assert_eq!(rt; messages.len(), 2);
    let shown = "[Message { sender: 1, addressee: 2, body: Request { epoch: 3, call: 4 } }, \
         Message { sender: 2, addressee: 1, body: Ack { epoch: 3, length: 5 } }]";
    assert!(rt; are_shown(rt.alloc(), &messages, shown));
}

/// Whether a table of three servers keeps the last vote of each, and no vote of an absent server.
fn keeps_the_last(alloc: Global) -> Result<bool, NoMemory> {
    let mut table = Table::new(alloc, 3)?;
    table.put(2, 5);
    table.put(2, 6);
    table.put(4, 7);
    Ok(
        table.as_slice() == [None, Some(6), None].as_slice()
            && table.said_by(2) == Some(&6)
            && table.said_by(4).is_none()
            && matches!(table.marks(), Ok(marks) if marks.as_slice() == [false, true, false].as_slice()),
    )
}

#[test]
fn a_table_keeps_what_was_said_last(rt: HostRuntime) {
    assert_eq!(rt; keeps_the_last(rt.alloc()), Ok(true));
    let empty: Table<u64> = Table::empty(rt.alloc());
    assert_eq!(rt; empty.as_slice().len(), 0);
}
