/// What a server does, as ZooKeeper's `QuorumPeer.ServerState`.
#[derive(Clone, Copy, Debug, Drop, PartialEq, Eq)]
pub enum PeerState {
    /// It is not up.
    Down,
    /// It is up, and does not serve clients: it has no leader with a quorum that it can hear, or
    /// has not taken its leader's history yet.
    Looking,
    /// It serves clients and follows the leader.
    Following,
    /// It serves clients and leads.
    Leading,
}
