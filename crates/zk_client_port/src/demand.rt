ghost use Rattle.std.specs.Prelude.{◌≡◌};
ghost use Rattle.zk_client_port.specs.Demands.{demand_of, demand_by, demand_at, ask_of, opening_of};

use crate::admission::Admission;
use crate::expected::{Expected, Opening};
use std::alloc::Global;
use zk_acl::Ids;
use zk_client_session::{Action, Ask, ExpectedReply};
use zk_connections::{Taken, Word};
use zk_frames::ConnectRequest;
use zk_requests::Request;

/// What the input of a connection asks of its server.
#[derive(Debug, Drop)]
pub enum Demand {
    /// To submit a request, and to reply when its transaction is delivered.
    Submit {
        session: i64,
        cxid: i32,
        auths: Ids,
        request: Request,
        expected: Expected,
    },
    /// To catch up with the leader, and then to reply.
    Sync(Expected),
    /// To read, once the requests before have their replies.
    Read(Expected),
    /// To reply, once the requests before have their replies.
    Reply(Expected),
    /// To reply to a four-letter word.
    Print(Word),
    /// To write that there is no such session.
    Reject {
        read_only: Option<bool>,
    },
    /// To close the connection without a reply: its client is to try another server.
    CutOff,
}

/// What was taken of a connection asks this of a server whose last transaction is `last`, at the
/// time `now`.
pub fn demand_of(alloc: Global, admission: &Admission, last: i64, now: i64, taken: Taken) -> Demand
    ensures { result ≡ demand_of admission.now last now taken }
{
    match taken {
        Taken::Word(word) => Demand::Print(word),
        Taken::Connects(request) => demand_at(alloc, admission, last, request),
        Taken::Acts(action) => demand_by(now, action),
        Taken::Breaks => Demand::Reply(Expected::Closed),
    }
}

/// What a connect request asks of a server whose last transaction is `last`.
fn demand_at(alloc: Global, admission: &Admission, last: i64, request: ConnectRequest) -> Demand
    ensures { result ≡ demand_at admission.now last request }
{
    let opening = opening_of(&request);
    if last < request.last_zxid_seen {
        return Demand::CutOff;
    }
    if request.session == 0 {
        return Demand::Submit {
            session: 0,
            cxid: 0,
            auths: Ids::new(Vec::new(alloc)),
            request: Request::OpenSession {
                timeout: request.timeout,
            },
            expected: Expected::Opened(opening),
        };
    }
    if !admission.admits(request.session, &request.password) {
        return Demand::Reject {
            read_only: opening.read_only,
        };
    }
    Demand::Sync(Expected::Attached {
        session: request.session,
        opening,
    })
}

fn opening_of(request: &ConnectRequest) -> Opening
    ensures { result ≡ opening_of request.now }
{
    Opening {
        timeout: request.timeout,
        seen: request.last_zxid_seen,
        read_only: match request.read_only {
            Some(_) => Some(false),
            None => None,
        },
    }
}

/// What a frame's action asks of the server, at the time `now`.
fn demand_by(now: i64, action: Action) -> Demand
    ensures { result ≡ demand_by now action }
{
    match action {
        Action::Replies(immediate) => Demand::Reply(Expected::Known(immediate)),
        Action::Asks { ask, expected } => ask_of(now, ask, expected),
        Action::Closes => Demand::Reply(Expected::Closed),
    }
}

fn ask_of(now: i64, ask: Ask, expected: ExpectedReply) -> Demand
    ensures { result ≡ ask_of now ask expected }
{
    match ask {
        Ask::Write {
            session,
            cxid,
            auths,
            request,
        } => Demand::Submit {
            session,
            cxid,
            auths,
            request,
            expected: Expected::Replied {
                expected,
                time: now,
            },
        },
        Ask::Sync { session: _ } => Demand::Sync(Expected::Replied {
            expected,
            time: now,
        }),
        ask => Demand::Read(Expected::Read { ask, expected }),
    }
}
