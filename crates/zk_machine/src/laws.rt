//! Laws of the changes of every transaction: a function without code, whose contract is a theorem.
ghost use Rattle.zk_machine.specs.ChangeLaws.{InstructionsAreTheTransaction, InstructionsChangeInOneWay};

/// A transaction's changes are those of its instructions in order. An instruction's changes are
/// sorted by path, at most one at each path: on a node that remains it changes the content or the
/// children, not both.
pub fn instructions_change_in_one_way()
    ensures whole { InstructionsAreTheTransaction }
    ensures one_way { InstructionsChangeInOneWay }
{}
