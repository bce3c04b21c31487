use crate::ExpectedReply;
use zk_acl::Ids;
use zk_requests::Request;
use zk_table::ReadCall;

/// A line's request to the service.
#[derive(Debug, Drop)]
pub enum Ask {
    /// A request, with its session, its number in that session, and the identities that the session
    /// has proved. Session 0 requests a new session.
    Write {
        session: i64,
        cxid: i32,
        auths: Ids,
        request: Request,
    },
    /// A read, with its session, the last transaction that the client has seen, the identities that
    /// the session has proved, and whether to set a watch on what is read.
    Read {
        session: i64,
        seen: i64,
        auths: Ids,
        call: ReadCall,
        watch: bool,
    },
    /// Waits until the server has caught up with its leader.
    Sync {
        session: i64,
    },
}

/// A reply that needs no service.
#[derive(Clone, Copy, Debug, PartialEq, Eq)]
pub enum Immediate {
    /// No reply.
    Nothing,
    /// The line was executed.
    Done,
    /// The server is well.
    Well,
    /// An error, with this code.
    Refused(i32),
}

/// What a line does.
#[derive(Debug, Drop)]
pub enum Action {
    /// Replies at once.
    Says(Immediate),
    /// Asks the service, and waits for this kind of reply.
    Asks { ask: Ask, wish: ExpectedReply },
}
