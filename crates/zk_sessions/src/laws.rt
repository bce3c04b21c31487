ghost use Rattle.zk_sessions.specs.WriteSums.{WritesAddUp};

/// The writes of all sessions add up to those of the records.
#[tactic(auto, using(crate::proofs::Sums::add_up))]
pub fn session_writes_add_up()
    ensures { WritesAddUp }
{}
