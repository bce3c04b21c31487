//! What inputs ask, and what outcomes write.

use crate::frames::CONNECTED;
use std::alloc::Global;
use zk_client_port::{
    Admission, Attachment, Demand, Expected, Opening, PortOutput, demand_of, write_outcome,
    write_outputs,
};
use zk_connections::{ClientSessions, Connection, Taken, Word};
use zk_frames::ConnectRequest;
use zk_hub::Outcome;

const SESSION: i64 = 0x1_0000_0001;

const OPENING: Opening = Opening {
    timeout: 6000,
    seen: 0,
    read_only: Some(false),
};

/// A session that was opened at time 100.
fn admission(alloc: Global) -> Admission {
    let mut admission = Admission {
        sessions: ClientSessions::new(alloc),
        secret: [7; 16],
    };
    let _ = admission.adopt(&[(0x1_0000_0001, 4000)], 100);
    admission
}

/// Whether the session expires at this time.
fn expires(admission: &Admission, deadline: i64) -> bool {
    matches!(admission.sessions.session(SESSION), Some(session) if session.deadline == deadline)
}

#[test]
fn sessions_are_adopted_and_renewed(rt: HostRuntime) {
    let mut admission = admission(rt.alloc());
    assert!(rt; expires(&admission, 4100));
    admission.renew(&[(0x1_0000_0001, 4000)], 200);
    assert!(rt; expires(&admission, 4200));
}

/// What a client asks that has seen a transaction, at a server whose last one is 9.
fn asked(alloc: Global, admission: &Admission, seen: i64) -> Demand {
    let request = ConnectRequest {
        protocol_version: 0,
        last_zxid_seen: seen,
        timeout: 6000,
        session: 0,
        password: None,
        read_only: None,
    };
    demand_of(alloc, admission, 9, 0, Taken::Connects(request))
}

#[test]
fn inputs_have_their_demands(rt: HostRuntime) {
    let admission = admission(rt.alloc());
    assert!(rt; matches!(asked(rt.alloc(), &admission, 10), Demand::CutOff));
    assert!(rt;
        matches!(
            asked(rt.alloc(), &admission, 9),
            Demand::Submit { session: 0, .. }
        )
    );
    let word = demand_of(rt.alloc(), &admission, 9, 0, Taken::Word(Word::Ruok));
    assert!(rt; matches!(word, Demand::Print(Word::Ruok)));
}

#[test]
fn a_session_is_attached(rt: HostRuntime) {
    let admission = admission(rt.alloc());
    let mut connection = Connection::new(rt.alloc(), 8);
    let expected = Expected::Attached {
        session: SESSION,
        opening: OPENING,
    };
    let gained = write_outcome(
        rt.alloc(),
        &admission,
        9,
        &mut connection,
        expected,
        Outcome::Synced,
    );
    let attachment = Attachment {
        session: SESSION,
        connection: 8,
        timeout: 6000,
    };
    assert!(rt; matches!(gained, Ok(Some(gained)) if gained == attachment));
    assert!(rt; connection.unsent() == CONNECTED);
}

/// The end of a connection.
fn ends(alloc: Global, connection: u64) -> Vec<PortOutput> {
    let mut outputs = Vec::new(alloc);
    let _ = outputs.push(PortOutput::Reply {
        connection,
        expected: Expected::Closed,
        outcome: Outcome::Known,
    });
    outputs
}

/// Whether these outputs give no connection a session.
fn writes(alloc: Global, connections: &mut Vec<Connection>, outputs: Vec<PortOutput>) -> bool {
    let admission = admission(alloc);
    match write_outputs(alloc, &admission, 9, connections, outputs) {
        Ok(gained) => gained.is_empty(),
        Err(_) => false,
    }
}

#[test]
fn an_output_is_written_to_its_connection(rt: HostRuntime) {
    let mut connections = Vec::new(rt.alloc());
    let _ = connections.push(Connection::new(rt.alloc(), 1));
    let _ = connections.push(Connection::new(rt.alloc(), 2));
    let outputs = ends(rt.alloc(), 2);
    assert!(rt; writes(rt.alloc(), &mut connections, outputs));
    assert!(rt; matches!(connections.as_slice(), [one, two] if !one.is_over() && two.is_over()));
}
