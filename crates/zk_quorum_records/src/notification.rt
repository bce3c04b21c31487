use zk_table::Content;

/// What a server does: `QuorumPeer.ServerState`, in the order of its numbers.
#[derive(Clone, Copy, Debug)]
pub enum ServerState {
    Looking,
    Following,
    Leading,
    Observing,
}

/// A notification of an election: `FastLeaderElection.Notification`.
#[derive(Debug, Drop)]
pub struct Notification {
    pub state: ServerState,
    /// The server that the sender votes for.
    pub leader: i64,
    /// The last zxid of that server.
    pub zxid: i64,
    /// The sender's round: `electionEpoch`.
    pub round: i64,
    /// The epoch of that server: `peerEpoch`.
    pub epoch: i64,
    /// 1 of 3.4.6 on, 2 of 3.5 on.
    pub version: i32,
    /// The sender's configuration, a text, from version 2 on.
    pub configuration: Option<Content>,
}
