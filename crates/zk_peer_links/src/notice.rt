use zab_host::Vote;

/// A server's notice to its peers in an election. ZooKeeper, `FastLeaderElection`: `Notification`.
#[derive(Clone, Copy, Debug, Drop, PartialEq, Eq)]
pub struct Notice {
    /// Rises with each election that an operator decides. ZooKeeper: `electionEpoch`.
    pub round: u64,
    /// The sender's vote for itself.
    pub vote: Vote,
    /// The leader that the sender follows, or its own number if it leads; 0 if it has none.
    pub leader: usize,
}

impl Notice {
    ghost use Rattle.std.specs.Prelude.{◌≡◌};
    ghost use Rattle.zk_peer_links.specs.Notices.{is_from, is_leaders, beats, is_same};

    /// Whether a server has sent it.
    pub fn is_from(&self, server: usize) -> bool
        ensures { result ≡ is_from server self.now }
    {
        self.vote.server == server
    }

    /// Whether its sender leads.
    pub fn is_leaders(&self) -> bool
        ensures { result ≡ is_leaders self.now }
    {
        self.leader == self.vote.server
    }

    /// Whether it is of a later round; or of the same round, and its vote wins.
    pub fn beats(&self, other: &Notice) -> bool
        ensures { result ≡ beats self.now other.now }
    {
        if self.round != other.round {
            return other.round < self.round;
        }
        self.vote.wins_over(&other.vote)
    }

    /// Whether the two are equal.
    pub fn is_same(&self, other: &Notice) -> bool
        ensures { result ≡ is_same self.now other.now }
    {
        self.round == other.round
            && self.vote.epoch == other.vote.epoch
            && self.vote.zxid == other.vote.zxid
            && self.vote.server == other.vote.server
            && self.leader == other.leader
    }
}
