use zk_client_session::{Ask, ExpectedReply, Immediate};

/// What a client asked of its session when it connected.
#[derive(Clone, Copy, Debug, PartialEq, Eq)]
pub struct Opening {
    /// In milliseconds, as it asked.
    pub timeout: i32,
    /// The last transaction that it has seen.
    pub seen: i64,
    /// Whether the server is read-only, for a client that wants to know: it is not.
    pub read_only: Option<bool>,
}

/// What the reply to a request needs beside its outcome.
#[derive(Debug, Drop)]
pub enum Expected {
    /// The connect response of a new session.
    Opened(Opening),
    /// The connect response of a session that the client has.
    Attached { session: i64, opening: Opening },
    /// The reply to a write or a sync. `time` is that of the call.
    Replied { expected: ExpectedReply, time: i64 },
    /// The reply to a read, which is made once it is the connection's first request.
    Read { ask: Ask, expected: ExpectedReply },
    /// A reply that needs no service.
    Known(Immediate),
    /// The end of the connection.
    Closed,
}
