//! The records and receipts of a chronicle.

use crate::events::{FIRST, Happening, event_of, is_told};
use std::alloc::Global;
use zk_model::Event;
use zk_path::NoMemory;
use zk_servers::{CallFault, Chronicle, CloseFault};

/// Two of three servers open a session; then events fail, reads have replies, and a server crashes.
/// Each with its number, its answer and the last transaction of its server.
static HAPPENINGS: [(Happening, &str); 20] = [
    (Happening::Lead(1), "1 0 from 0 0000000000000000"),
    (Happening::Follow(2, 1), "2 1 from 1 0000000000000000"),
    (Happening::Arrive(1), "3 1 from 2 0000000000000000"),
    (Happening::Arrive(2), "4 1 from 3 0000000000000000"),
    (Happening::Arrive(3), "5 1 from 4 0000000000000000"),
    (Happening::Arrive(4), "6 1 from 5 0000000000000000"),
    (Happening::Arrive(5), "7 1 from 6 0000000000000000"),
    (Happening::Open(1), "8 1 from 7 0000000000000000"),
    (Happening::Arrive(7), "9 1 from 8 0000000000000000"),
    (Happening::Arrive(8), "10 1 from 9 0000000100000001"),
    // the second server is the last to learn that its entry is committed
    (Happening::Stat(2, FIRST), "11 E1 0000000000000000"),
    (Happening::Arrive(9), "12 0 from 0 0000000100000001"),
    (Happening::Stat(2, FIRST), "13 told 0000000100000001"),
    (Happening::Lead(4), "14 E2 0000000000000000"),
    // server 1 exists, but this event names no server
    (Happening::Follow(1, 1), "15 E2 0000000000000000"),
    (Happening::Arrive(99), "16 E3 0000000000000000"),
    (Happening::Open(1), "17 E7 0000000100000001"),
    (Happening::Stat(3, 0), "18 told 0000000000000000"),
    (Happening::Crash(2), "19 0 from 0 0000000000000000"),
    (Happening::Lead(2), "20 E4 0000000000000000"),
];

/// Whether an event has this receipt.
fn is_added(alloc: Global, chronicle: &mut Chronicle, event: Event, expected: &str) -> bool {
    match chronicle.add(event) {
        Ok(it) => is_told(alloc, it.number as usize, &it.answer, it.zxid, expected),
        Err(_) => false,
    }
}

/// Does the same with a happening.
fn happens(alloc: Global, chronicle: &mut Chronicle, it: Happening, expected: &str) -> bool {
    match event_of(alloc, it) {
        Ok(event) => is_added(alloc, chronicle, event, expected),
        Err(_) => false,
    }
}

/// Returns the index, from 0 on, of the first event with another receipt.
fn add_all(alloc: Global, chronicle: &mut Chronicle) -> Option<usize> {
    for (place, (happening, expected)) in HAPPENINGS.iter().enumerate() {
        if !happens(alloc, chronicle, *happening, expected) {
            return Some(place);
        }
    }
    None
}

/// Whether the record at an index, from 0 on, is this one.
fn is_recorded(alloc: Global, chronicle: &Chronicle, place: usize, expected: &str) -> bool {
    match chronicle.records().get(place) {
        Some(it) => is_told(alloc, place + 1, &it.answer, it.zxid, expected),
        None => false,
    }
}

/// Returns the index of the first record that differs, or is missing.
fn records_differ(alloc: Global, chronicle: &Chronicle) -> Option<usize> {
    for (place, (_, expected)) in HAPPENINGS.iter().enumerate() {
        if !is_recorded(alloc, chronicle, place, expected) {
            return Some(place);
        }
    }
    None
}

/// Whether each event has its receipt and its record, and the servers have delivered the expected
/// transactions.
fn are_recorded(alloc: Global, chronicle: &mut Chronicle) -> bool {
    add_all(alloc, chronicle).is_none()
        && records_differ(alloc, chronicle).is_none()
        && chronicle.records().len() == 20
        // the second server lost what it had delivered, the third never delivered any
        && chronicle.delivered(1).len() == 1
        && chronicle.delivered(2).len() == 0
        && chronicle.delivered(3).len() == 0
}

/// Does the same with a new chronicle of three servers.
fn are_recorded_from_the_start(alloc: Global) -> bool {
    match Chronicle::new(alloc, 3) {
        Ok(mut chronicle) => are_recorded(alloc, &mut chronicle),
        Err(_) => false,
    }
}

#[test]
fn each_event_is_recorded_with_its_answer(rt: HostRuntime) {
    assert!(rt; are_recorded_from_the_start(rt.alloc()));
}

/// Returns the texts of the faults of calls, and of closing.
fn refusals(alloc: Global) -> Result<String, NoMemory> {
    let (memory, full) = (CallFault::NoMemory, CallFault::Full);
    let (count, receipt) = (CloseFault::Count, CloseFault::Receipt(7));
    let unclosed = CloseFault::NoMemory;
    Ok(format!(in alloc; "{memory} {full}, {count} {receipt} {unclosed}")?)
}

#[test]
fn refusals_have_numbers(rt: HostRuntime) {
    assert!(rt; matches!(refusals(rt.alloc()), Ok(text) if text.as_str() == "S1 S2, C1 C2 7 C3"));
}
