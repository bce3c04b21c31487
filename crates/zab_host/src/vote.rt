/// A server's vote for itself, as the leader election compares votes.
#[derive(Clone, Copy, Debug, Drop, PartialEq, Eq)]
pub struct Vote {
    /// The epoch of its history; 0 at first.
    pub epoch: u32,
    /// The last zxid of its history; 0 if it has no entries.
    pub zxid: i64,
    /// Its number.
    pub server: usize,
}

impl Vote {
    ghost use Rattle.std.specs.Prelude.{◌≡◌};
    ghost use Rattle.zab_host.specs.Votes.{total_order_predicate};

    /// Whether it wins over another vote: its epoch is greater; or the same, and its zxid greater;
    /// or both are the same, and the server's number is greater.
    ///
    /// ZooKeeper, `FastLeaderElection`: `totalOrderPredicate`.
    pub fn wins_over(&self, other: &Vote) -> bool
        ensures { result ≡ total_order_predicate self.now other.now }
    {
        if self.epoch != other.epoch {
            return other.epoch < self.epoch;
        }
        if self.zxid != other.zxid {
            return other.zxid < self.zxid;
        }
        other.server < self.server
    }
}
