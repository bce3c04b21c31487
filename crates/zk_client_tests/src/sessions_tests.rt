//! Two sessions, of which one moves to another connection.

use std::alloc::Global;
use zk_connections::{ClientSessions, Session};

fn is_expired(alloc: Global, sessions: &ClientSessions, now: i64, id: i64) -> bool {
    match sessions.expired(alloc, now) {
        Ok(ids) => matches!(ids.as_slice(), [one] if *one == id),
        Err(_) => false,
    }
}

fn is_none_expired(alloc: Global, sessions: &ClientSessions, now: i64) -> bool {
    match sessions.expired(alloc, now) {
        Ok(ids) => ids.is_empty(),
        Err(_) => false,
    }
}

/// Opens session 5 at time 100 and session 6 at time 200, with 4 s each, at connections 1 and 2.
fn opens(sessions: &mut ClientSessions) -> bool {
    let opened = sessions.open(5, 4000, 100).is_ok() && sessions.open(6, 4000, 200).is_ok();
    sessions.attach(5, 1, 4000, 100);
    sessions.attach(6, 2, 4000, 200);
    opened
}

#[test]
fn a_session_moves_and_outlives_its_connection(rt: HostRuntime) {
    let mut sessions = ClientSessions::new(rt.alloc());
    assert!(rt; opens(&mut sessions));
    sessions.attach(5, 3, 6000, 1000);
    // The old connection ends: the session stays at the new one.
    sessions.detach(1);
    let moved = Session {
        id: 5,
        timeout: 6000,
        deadline: 7000,
        connection: Some(3),
    };
    assert!(rt; sessions.session(5) == Some(&moved));
    sessions.detach(3);
    let alone = Session {
        id: 5,
        timeout: 6000,
        deadline: 7000,
        connection: None,
    };
    assert!(rt; sessions.session(5) == Some(&alone));
}

#[test]
fn a_silent_session_expires(rt: HostRuntime) {
    let mut sessions = ClientSessions::new(rt.alloc());
    assert!(rt; opens(&mut sessions));
    sessions.touch(6, 1000);
    assert!(rt; is_none_expired(rt.alloc(), &sessions, 4099));
    assert!(rt; is_expired(rt.alloc(), &sessions, 4100, 5));
    sessions.end(5);
    assert!(rt; sessions.session(5).is_none());
    assert!(rt; is_expired(rt.alloc(), &sessions, 5000, 6));
}
