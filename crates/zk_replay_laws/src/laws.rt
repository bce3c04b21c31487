ghost use Rattle.zk_replay_laws.specs.Windows.{ReplayIsExact, ReplayIsExactButPzxids};

/// The state that a snapshot and the records after it restore is the one after all transactions, if
/// the snapshot was written while the first of these went on, and the table rejects none. A
/// closeSession lists its session's nodes, as servers log it since 3.6.
pub fn replay_is_exact()
    ensures { ReplayIsExact }
{}

/// Where a closeSession lists none, as before 3.6, it is that state but for the zxids of children.
pub fn replay_is_exact_but_pzxids()
    ensures { ReplayIsExactButPzxids }
{}
