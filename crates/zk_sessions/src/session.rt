//! What is known of a session.
ghost use Rattle.std.specs.Prelude.{◌≡◌};
ghost use Rattle.zk_sessions.specs.Sessions.{expires, unknown, with_created, with_deleted, with_ending, with_left, with_opening, with_timeout, with_writes};

use crate::moment::Moment;

/// How a session ended.
#[derive(Clone, Copy, Debug, PartialEq, Eq)]
pub struct Ending {
    pub moment: Moment,
    /// Whether the server closed it, because its client was not heard within the timeout; else its
    /// client closed it.
    pub expired: bool,
}

/// What records show of a session.
#[derive(Clone, Copy, Debug, PartialEq, Eq)]
pub struct Session {
    /// `None` if no record opens it.
    pub opened: Option<Moment>,
    /// In milliseconds; `None` if no file has it.
    pub timeout: Option<i32>,
    /// How many nodes its requests created, changed or deleted.
    pub writes: u64,
    /// How many ephemeral nodes it created.
    pub created: u64,
    /// How many of its ephemeral nodes were deleted, by itself, by others or by its end.
    pub deleted: u64,
    /// How many of its ephemeral nodes are left.
    pub left: u64,
    /// `None` while it is open.
    pub ended: Option<Ending>,
}

/// Whether the end of a session is that of an expired one, by the number of the request that closes
/// it.
pub fn expires(cxid: i32) -> bool
    ensures { result ≡ expires cxid }
{
    cxid == 0
}

impl Session {
    /// A session of which nothing is known.
    pub fn unknown() -> Session
        ensures { result ≡ unknown }
    {
        Session {
            opened: None,
            timeout: None,
            writes: 0,
            created: 0,
            deleted: 0,
            left: 0,
            ended: None,
        }
    }

    /// With a timeout that a snapshot has.
    pub(crate) fn with_timeout(self, timeout: i32) -> Session
        ensures { result ≡ with_timeout timeout self }
    {
        Session {
            timeout: Some(timeout),
            ..self
        }
    }

    /// After it is opened.
    pub(crate) fn with_opening(self, moment: Moment, timeout: i32) -> Session
        ensures { result ≡ with_opening moment timeout self }
    {
        Session {
            opened: Some(moment),
            timeout: Some(timeout),
            ended: None,
            ..self
        }
    }

    /// After it is closed.
    pub(crate) fn with_ending(self, moment: Moment, expired: bool) -> Session
        ensures { result ≡ with_ending moment expired self }
    {
        Session {
            ended: Some(Ending { moment, expired }),
            ..self
        }
    }

    /// With `more` writes.
    pub(crate) fn with_writes(self, more: u64) -> Session
        ensures { result ≡ with_writes more self }
    {
        Session {
            writes: self.writes.saturating_add(more),
            ..self
        }
    }

    /// With one more node that it owns.
    pub(crate) fn with_left(self) -> Session
        ensures { result ≡ with_left self }
    {
        Session {
            left: self.left.saturating_add(1),
            ..self
        }
    }

    /// After it creates an ephemeral node.
    pub(crate) fn with_created(self) -> Session
        ensures { result ≡ with_created self }
    {
        Session {
            created: self.created.saturating_add(1),
            left: self.left.saturating_add(1),
            ..self
        }
    }

    /// After one of its ephemeral nodes is deleted.
    pub(crate) fn with_deleted(self) -> Session
        ensures { result ≡ with_deleted self }
    {
        Session {
            deleted: self.deleted.saturating_add(1),
            left: self.left.saturating_sub(1),
            ..self
        }
    }
}
