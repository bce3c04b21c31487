/// What a notice says of a session.
#[derive(Clone, Copy, Debug, Drop, PartialEq, Eq)]
pub enum SessionNews {
    /// No session: the sender runs. ZooKeeper: a `PING` without sessions.
    Ping,
    /// The session's client was heard of since the sender's last report.
    Touched,
    /// A connection of the sender has the session from now on. ZooKeeper: `REVALIDATE`.
    Attached,
}

/// A server's notice to another about its clients' sessions. ZooKeeper, `Learner`: `ping`,
/// `validateSession`.
#[derive(Clone, Copy, Debug, Drop, PartialEq, Eq)]
pub struct SessionNotice {
    pub sender: usize,
    pub addressee: usize,
    pub news: SessionNews,
    /// 0 in a ping.
    pub session: i64,
    /// In milliseconds, as negotiated; 0 in a ping.
    pub timeout: i32,
}
