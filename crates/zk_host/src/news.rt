use zk_model::Answered;
use zk_watch::Fired;

/// A client's connection that has set a watch, and its session.
#[derive(Clone, Copy, Debug, Drop, PartialEq, Eq)]
pub struct Connection {
    /// The caller's number for it. No other connection since the host's start has it.
    pub number: u64,
    /// The unsigned number that the session's sixteen digits represent.
    pub session: u64,
}

/// What a host has for its clients, in the order of delivered entries. The events of an entry come
/// before its result.
#[derive(Debug, Drop)]
pub enum News {
    /// A watch event. Its `session` is the number of the connection that set the watch.
    Event(Fired),
    /// The result of a delivered entry's transaction, for the client that made the call with this
    /// tag.
    Answer(Answered),
}
