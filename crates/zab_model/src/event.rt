/// An event of a world; `C` is the type of a client call.
///
/// Servers and messages are numbered from 1.
#[derive(Debug, Drop)]
pub enum Event<C> {
    /// Makes a server lead.
    Lead {
        server: usize,
    },
    /// Makes a server follow another.
    Follow {
        server: usize,
        leader: usize,
    },
    /// Delivers a message to its addressee.
    Arrive {
        message: usize,
    },
    /// A client submits a call at a server.
    Submit {
        server: usize,
        call: C,
    },
    /// A session expires: its closing is submitted at a server; `now` in milliseconds.
    Expire {
        server: usize,
        tag: u64,
        session: i64,
        now: i64,
    },
    /// A client starts a sync at a server. Tags of syncs and of calls are independent.
    Sync {
        server: usize,
        tag: u64,
    },
    /// Stops a server; only its stable part survives.
    Crash {
        server: usize,
    },
    /// Restarts a server that has crashed.
    Restart {
        server: usize,
    },
}

/// The messages that an event sent: the number of the first, and how many. Both are 0 for none.
#[derive(Clone, Copy, Debug, Drop, PartialEq, Eq)]
pub struct Moved {
    pub first: usize,
    pub count: usize,
}
