//! The event of an ask at server 1, and the reply for the event's result.

use crate::session_tests::{read_of, write_of};
use std::test::Fail;
use zk_front::{
    Ask, HOME, Reply, ReplyKind, ServiceFault, caught_by, event_of, looked_by, next_tag,
    service_fault_of, session_of, sought_by,
};
use zk_model::{Answer, EnsembleFault, Event};
use zk_path::NoMemory;
use zk_requests::Request;
use zk_table::{ReadCall, ReadReply};

/// Whether an event is that of an ask with this kind of reply, with this tag and at time 1000.
fn is_event(event: &Event, sought: ReplyKind, tag: u64) -> bool {
    match (event, sought) {
        (Event::World(zab_model::Event::Submit { server, call }), ReplyKind::Written) => {
            *server == HOME
                && call.tag == tag
                && call.session == 7
                && call.cxid == 2
                && call.now == 1000
                && matches!(&call.request, Request::CloseSession)
        }
        (Event::Read(question), ReplyKind::Looked) => {
            question.server == HOME
                && question.session == 8
                && question.seen == 5
                && question.watch
                && matches!(&question.call, ReadCall::GetData { .. })
        }
        (Event::World(zab_model::Event::Sync { server, tag: own }), ReplyKind::Caught) => {
            *server == HOME && *own == tag
        }
        _ => false,
    }
}

/// Whether an ask is of this session, has this kind of reply, and has its event.
fn happens(ask: Ask, session: i64, sought: ReplyKind, tag: u64) -> bool {
    let is_known = session_of(&ask) == session && sought_by(&ask) == sought;
    let event = event_of(ask, tag, 1000);
    let has_happened = is_event(&event, sought, tag);
    drop(event);
    is_known && has_happened
}

#[test]
fn asks_happen_at_server_1(rt: HostRuntime) -> Result<(), Fail> {
    let looking = read_of(rt.alloc(), 8, 5, "get -w \"/a\"")?;
    assert!(rt; happens(looking, 8, ReplyKind::Looked, 4));
    let closing = write_of(rt.alloc(), 7, 2, "close")?;
    assert!(rt; happens(closing, 7, ReplyKind::Written, 3));
    assert!(rt; happens(Ask::Sync { session: 9 }, 9, ReplyKind::Caught, 5));
    assert_eq!(rt; next_tag(5), 6);
    assert_eq!(rt; next_tag(u64::MAX), 0);
    Ok(())
}

fn is_caught(caught: Option<u64>) -> bool {
    let told = caught_by(caught);
    let is_it = matches!(&told, Ok(Reply::Caught));
    drop(told);
    is_it
}

/// Whether a reply is a read's error with this code, at a server that has seen this transaction.
fn is_refusal(told: &Result<Reply, ServiceFault>, code: i32, seen: i64) -> bool {
    match told {
        Ok(Reply::Looked { reply, zxid }) => {
            *zxid == seen && matches!(reply, ReadReply::Refused(told) if *told == code)
        }
        _ => false,
    }
}

fn is_looked(code: i32, seen: i64) -> bool {
    let told = looked_by(Answer::Looked(ReadReply::Refused(code)), seen);
    let is_it = is_refusal(&told, code, seen);
    drop(told);
    is_it
}

/// Faults of an ensemble, and the fault that a client gets for each.
static FAULTS: [(EnsembleFault, ServiceFault); 10] = [
    (
        EnsembleFault::Behind { seen: 2, at: 1 },
        ServiceFault::Behind,
    ),
    (EnsembleFault::NoServer, ServiceFault::Server),
    (EnsembleFault::NoMessage, ServiceFault::Server),
    (EnsembleFault::Down, ServiceFault::Server),
    (EnsembleFault::NotDown, ServiceFault::Server),
    (EnsembleFault::NotServing, ServiceFault::Server),
    (EnsembleFault::DuplicateCall, ServiceFault::Server),
    (EnsembleFault::EpochFull, ServiceFault::Server),
    (EnsembleFault::NoMemory, ServiceFault::Memory),
    (EnsembleFault::Died(1), ServiceFault::Memory),
];

#[test]
fn asks_are_told_what_came_of_them(rt: HostRuntime) {
    assert!(rt; is_caught(Some(3)));
    assert!(rt; !is_caught(None));
    assert!(rt; is_looked(-101, 5));
    for (fault, told) in &FAULTS {
        assert_eq!(rt; service_fault_of(*fault), *told);
    }
    assert_eq!(rt; ServiceFault::from(NoMemory), ServiceFault::Memory);
}
