ghost use Rattle.std.specs.Prelude.{List};
ghost use Rattle.zk_prepare_laws.specs.Consequences.{HasOpenOwners, IsRefusedOnlyAsError, IsWholeOrNothing};
ghost use Rattle.zk_prepare_laws.specs.Prepared.{ArePrepared, HaveSessions, IsPrepared, OfEach};
ghost use Rattle.zk_table.specs.declared.txn.Txn.{Txn};
ghost use Rattle.zk_table.specs.Histories.{tree_of};
ghost use Rattle.zk_table.specs.States.{State};

/// The table rejects a prepared transaction only if it is an error, or a multi that holds one.
pub fn refused_only_as_errors()
    ensures one { (state : State) (txn : Txn) → IsPrepared state txn → IsRefusedOnlyAsError state txn }
    ensures each { (txns : List Txn) → ArePrepared txns
        → OfEach (λ before txn. IsRefusedOnlyAsError (tree_of before) txn) txns }
{}

/// A prepared multi is applied whole, or has an error and leaves nodes and sessions unchanged.
pub fn multis_are_whole_or_nothing()
    ensures one { (state : State) (txn : Txn) → IsPrepared state txn → IsWholeOrNothing state txn }
    ensures each { (txns : List Txn) → ArePrepared txns
        → OfEach (λ before txn. IsWholeOrNothing (tree_of before) txn) txns }
{}

/// In the tree of prepared transactions, whose sessions are numbers of 64 bits, a node's owner is
/// an open session.
pub fn owners_are_open()
    ensures { (txns : List Txn) → ArePrepared txns → HaveSessions txns → HasOpenOwners (tree_of txns) }
{}
