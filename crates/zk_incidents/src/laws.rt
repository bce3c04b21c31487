ghost use Rattle.zk_incidents.specs.CountSums.{CountsAddUp};
ghost use Rattle.zk_incidents.specs.Listings.{EachChangeHasALine};

/// The counts of all paths, or of all sessions, add up to the number of writes.
#[tactic(auto, using(crate::proofs::Sums::add_up))]
pub fn counts_add_up()
    ensures { CountsAddUp }
{}

/// The history of all nodes has one line for each transaction that changes the tree.
#[tactic(auto, using(crate::proofs::Listed::listed))]
pub fn each_change_has_a_line()
    ensures { EachChangeHasALine }
{}
