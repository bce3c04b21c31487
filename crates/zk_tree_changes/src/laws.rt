//! What differences mean.
ghost use Rattle.zk_tree_changes.specs.Laws.{EmptyWhereSame, LineWhereDiffer, LinesWhereDiffering, TurnsOneIntoOther};

/// There is no difference exactly where both trees have the same nodes.
#[tactic(auto, using(crate::proofs::Differing::same_lines, crate::proofs::Differing::no_differences))]
pub fn empty_where_same()
    ensures { EmptyWhereSame }
{}

/// The lines of a difference turn the one tree into the other.
#[tactic(auto, using(crate::proofs::Applying::turned))]
pub fn turns_one_into_other()
    ensures { TurnsOneIntoOther }
{}

/// The lines of a difference are those at the paths of what differs.
#[tactic(auto, using(crate::proofs::DifferingPaths::lines_where_differing))]
pub fn lines_where_differing()
    ensures { LinesWhereDiffering }
{}

/// At each path of what differs there is a line.
#[tactic(auto, using(crate::proofs::DifferingPaths::line_where_differ))]
pub fn line_where_differ()
    ensures { LineWhereDiffer }
{}
