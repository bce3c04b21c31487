ghost use Rattle.std.specs.Prelude.{◌≡◌};
ghost use Rattle.zk_connections.specs.Sessions.{deadline_of, new_session, touched, attached, detached, is_at, has_expired};

/// A client's session.
#[derive(Clone, Copy, Debug, Drop, PartialEq, Eq)]
pub struct Session {
    pub id: i64,
    /// In milliseconds, as negotiated.
    pub timeout: i32,
    /// The time, in milliseconds, at which it expires if nothing is heard of it.
    pub deadline: i64,
    /// The number of the connection that has it.
    pub connection: Option<u64>,
}

/// Adds a timeout to the time; the nearest `i64` on overflow.
fn deadline_of(now: i64, timeout: i32) -> i64
    ensures { result ≡ deadline_of now timeout }
{
    now.saturating_add(i64::from(timeout))
}

impl Session {
    /// A session that no connection has yet.
    pub(crate) fn new(id: i64, timeout: i32, now: i64) -> Session
        ensures { result ≡ new_session id timeout now }
    {
        Session {
            id,
            timeout,
            deadline: deadline_of(now, timeout),
            connection: None,
        }
    }

    /// Records that its client was heard of now.
    pub(crate) fn touch(&mut self, now: i64)
        ensures { self.new ≡ touched now self.old }
    {
        self.deadline = deadline_of(now, self.timeout);
    }

    /// Gives it to a connection.
    pub(crate) fn attach(&mut self, connection: u64, timeout: i32, now: i64)
        ensures { self.new ≡ attached connection timeout now self.old }
    {
        self.timeout = timeout;
        self.deadline = deadline_of(now, timeout);
        self.connection = Some(connection);
    }

    /// Takes it from its connection.
    pub(crate) fn detach(&mut self)
        ensures { self.new ≡ detached self.old }
    {
        self.connection = None;
    }

    /// Whether this connection has it.
    pub(crate) fn is_at(&self, connection: u64) -> bool
        ensures { result ≡ is_at connection self.now }
    {
        match self.connection {
            Some(other) => other == connection,
            None => false,
        }
    }

    /// Whether it has expired; it has at its very deadline.
    pub(crate) fn has_expired(&self, now: i64) -> bool
        ensures { result ≡ has_expired now self.now }
    {
        self.deadline <= now
    }
}
