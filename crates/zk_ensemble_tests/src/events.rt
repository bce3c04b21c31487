//! The events of ensembles. A client's request is read from a line, as in a run script.

use crate::happenings::{Moment, event_with, tag_of};
use std::alloc::Global;
use zk_acl::Ids;
use zk_ensemble::{Event, Question};
use zk_listing::ListCause;
use zk_prepare::Call;
use zk_request_syntax::{Lookup, read_lookup, read_request};

/// A read: the server, the session, the last transaction that it has seen, and the line.
#[derive(Clone, Copy)]
pub struct Look(pub usize, pub i64, pub i64, pub &'static str);

/// The session and the request of each call, that of tag 1 first.
pub type Calls = &'static [(i64, &'static str)];

/// Returns the call with a tag. The first call's time is 1000 milliseconds, and that of the others
/// 2000.
fn call_of(alloc: Global, calls: Calls, tag: u64) -> Result<Call, ListCause> {
    let place = (tag as usize).wrapping_sub(1);
    let (session, line) = calls.get(place).copied().unwrap_or((0, "close"));
    let request = read_request(alloc, line)?;
    Ok(Call {
        tag,
        session,
        cxid: ((tag % 100) as i32) - 1,
        auths: Ids::new(Vec::new(alloc)),
        now: if tag == 1 { 1000 } else { 2000 },
        request,
    })
}

/// Returns the event of an ensemble, with the call of its tag if one is submitted.
pub fn event_of(alloc: Global, calls: Calls, moment: Moment) -> Result<Event, ListCause> {
    let call = call_of(alloc, calls, tag_of(moment))?;
    Ok(Event::World(event_with(moment, call)))
}

/// Returns the event of a read.
pub fn read_of(alloc: Global, look: Look) -> Result<Event, ListCause> {
    let Look(server, session, seen, line) = look;
    match read_lookup(alloc, line)? {
        Lookup::Asks { call, watch } => Ok(Event::Read(Question {
            server,
            session,
            seen,
            auths: Ids::new(Vec::new(alloc)),
            call,
            watch,
        })),
        Lookup::BadPath => Err(ListCause::Quote),
    }
}
