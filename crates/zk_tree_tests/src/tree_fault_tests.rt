//! How the faults of records and of listings are displayed. (`zk` formats its own lines for them.)

use std::alloc::Global;
use zk_jute::JuteFault;
use zk_listing::{ListCause, ListFault};

/// Each fault of a record, and its number.
static FAULTS: [(JuteFault, &str); 8] = [
    (JuteFault::Short, "J1"),
    (JuteFault::Length, "J2"),
    (JuteFault::Text, "J3"),
    (JuteFault::Boolean, "J4"),
    (JuteFault::Kind, "J5"),
    (JuteFault::Trailing, "J6"),
    (JuteFault::Path, "J7"),
    (JuteFault::NoMemory, "J8"),
];

/// Whether the fault of a record is displayed as `shown`.
fn is_shown_as(alloc: Global, fault: JuteFault, shown: &str) -> bool {
    matches!(format!(in alloc; "{fault}"), Ok(text) if text.as_str() == shown)
}

#[test]
fn faults_are_shown_by_their_numbers(rt: HostRuntime) {
    for (fault, shown) in &FAULTS {
        assert!(rt; is_shown_as(rt.alloc(), *fault, shown), "{shown}");
    }
}

/// Each error in the third line of a listing, and how it is displayed.
static CAUSES: [(ListCause, &str); 8] = [
    (ListCause::Fields, "L1 3"),
    (ListCause::Number, "L2 3"),
    (ListCause::Quote, "L3 3"),
    (ListCause::Hex, "L4 3"),
    (ListCause::Word, "L5 3"),
    (ListCause::Path, "L6 3"),
    (ListCause::NoNewline, "L7 3"),
    (ListCause::NoMemory, "L8 3"),
];

/// Whether the fault is displayed with the third line's number.
fn tells_its_line(alloc: Global, cause: ListCause, shown: &str) -> bool {
    let fault = ListFault { line: 3, cause };
    matches!(format!(in alloc; "{fault}"), Ok(text) if text.as_str() == shown)
}

#[test]
fn faults_of_listings_tell_their_line(rt: HostRuntime) {
    for (cause, shown) in &CAUSES {
        assert!(rt; tells_its_line(rt.alloc(), *cause, shown), "{shown}");
    }
}
