//! The server of an event, that server's last transaction, and the replies to reads.

use crate::events::{FIRST, Happening, event_of, is_told, question};
use std::alloc::Global;
use zk_servers::Ensemble;

/// Two of three servers open a session. Each event with its server, and that server's last
/// transaction after it.
static ABOUT: [(Happening, usize, i64); 13] = [
    (Happening::Lead(1), 1, 0),
    (Happening::Follow(2, 1), 2, 0),
    (Happening::Arrive(1), 1, 0),
    (Happening::Arrive(2), 2, 0),
    (Happening::Arrive(3), 1, 0),
    (Happening::Arrive(4), 2, 0),
    (Happening::Arrive(5), 1, 0),
    (Happening::Open(1), 1, 0),
    (Happening::Arrive(7), 2, 0),
    (Happening::Arrive(8), 1, FIRST),
    (Happening::Arrive(9), 2, FIRST),
    (Happening::Stat(3, 0), 3, 0),
    // there is no such message
    (Happening::Arrive(99), 0, 0),
];

/// Whether an event is at this server, whose last transaction is then this.
fn happens(alloc: Global, ensemble: &mut Ensemble, it: (Happening, usize, i64)) -> bool {
    let (happening, server, last) = it;
    let Ok(event) = event_of(alloc, happening) else {
        return false;
    };
    let about = ensemble.server_of(&event);
    let answer = ensemble.step(event);
    drop(answer);
    about == server && ensemble.last(server) == last
}

/// Returns the index of the first event at another server.
fn walk(alloc: Global, ensemble: &mut Ensemble) -> Option<usize> {
    for (place, it) in ABOUT.iter().enumerate() {
        if !happens(alloc, ensemble, *it) {
            return Some(place);
        }
    }
    None
}

/// The reply of each server, and of an absent one, to the first session, which has seen its own
/// opening. The server's number comes before it, and no transaction after it.
static PEEKED: [(usize, &str); 3] = [
    (2, "2 told 0000000000000000"),
    (3, "3 E1 0000000000000000"),
    (4, "4 E2 0000000000000000"),
];

/// Whether this is a server's reply to the session.
fn is_peeked(alloc: Global, ensemble: &Ensemble, server: usize, expected: &str) -> bool {
    match question(alloc, server, FIRST) {
        Ok(question) => {
            let answer = ensemble.peek(&question);
            is_told(alloc, question.server, &answer, 0, expected)
        }
        Err(_) => false,
    }
}

/// Returns the first server with another reply.
fn first_wrong(alloc: Global, ensemble: &Ensemble) -> Option<usize> {
    for (server, expected) in &PEEKED {
        if !is_peeked(alloc, ensemble, *server, expected) {
            return Some(*server);
        }
    }
    None
}

/// Whether all hold for a new ensemble of three servers, first the events and then the reads.
fn all_hold_from_the_start(alloc: Global) -> bool {
    match Ensemble::new(alloc, 3) {
        Ok(mut ensemble) => {
            walk(alloc, &mut ensemble).is_none() && first_wrong(alloc, &ensemble).is_none()
        }
        Err(_) => false,
    }
}

#[test]
fn events_are_about_servers(rt: HostRuntime) {
    assert!(rt; all_hold_from_the_start(rt.alloc()));
}
