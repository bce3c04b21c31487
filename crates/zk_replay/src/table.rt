ghost use Rattle.std.specs.Prelude.{◌≡◌, false, Some, IfOk, OnOk, map};
ghost use Rattle.std.specs.FinMap as finite;
ghost use Rattle.zk_replay.specs.Drafts.{entry_of};
ghost use Rattle.zk_replay.specs.Bases.{settled, list_fault, node_fault, root_fault, tree_fault, draft_fault, FailsBy, IsSettled};

use crate::draft::Draft;
use crate::draft_node::DraftNode;
use crate::fault::BaseFault;
use std::alloc::Global;
use zk_fold::{Fold, Sessions};
use zk_table::Node;

/// The node of a draft, whose access control list is known.
fn node_of(draft: &DraftNode) -> Result<Node, BaseFault>
    ensures node { IfOk result (λ node. node ≡ draft.now.node) }
    ensures known { OnOk result (draft.now.lacks_acl ≡ false) }
    ensures exact { FailsBy (list_fault draft.now) result }
{
    if draft.lacks_acl {
        return Err(BaseFault::Access);
    }
    Ok(draft.node.copy()?)
}

/// Inserts a node of a draft into the table.
fn insert(table: &mut Fold, draft: &DraftNode) -> Result<(), BaseFault>
    ensures known { OnOk result (draft.now.lacks_acl ≡ false) }
    ensures nodes { OnOk result (table.new.state.nodes ≡ finite.insert table.old.state.nodes draft.now.path draft.now.node) }
    ensures sessions { table.new.state.sessions ≡ table.old.state.sessions }
    ensures last { table.new.state.last ≡ table.old.state.last }
    ensures failed { table.new.failed ≡ table.old.failed }
    ensures exact { FailsBy (node_fault table.old.state.nodes draft.now) result }
{
    let node = node_of(draft)?;
    if !table.can_insert(&draft.path) {
        return Err(BaseFault::Tree);
    }
    Ok(table.insert(&draft.path, node)?)
}

/// Returns the table with the root alone.
fn rooted(
    alloc: Global,
    draft: &DraftNode,
    sessions: Sessions,
    last: i64,
) -> Result<Fold, BaseFault>
    ensures known { OnOk result (draft.now.lacks_acl ≡ false) }
    ensures nodes { IfOk result (λ table. table.state.nodes ≡ finite.insert finite.empty draft.now.path draft.now.node) }
    ensures sessions { IfOk result (λ table. table.state.sessions ≡ sessions) }
    ensures last { IfOk result (λ table. table.state.last ≡ last) }
    ensures failed { IfOk result (λ table. table.failed ≡ false) }
    ensures exact { FailsBy (root_fault draft.now) result }
{
    let node = node_of(draft)?;
    if draft.path.text() != "/" || node.owner != 0 {
        return Err(BaseFault::Tree);
    }
    Ok(Fold::from_root(alloc, node, sessions, last)?)
}

/// The table of a draft's nodes, which are in order.
fn table_of(
    alloc: Global,
    entries: &[(&str, &DraftNode)],
    sessions: Sessions,
    last: i64,
) -> Result<Fold, BaseFault>
    ensures nodes { IfOk result (λ table. settled finite.empty (map entry_of entries.now) ≡ Some table.state.nodes) }
    ensures sessions { IfOk result (λ table. table.state.sessions ≡ sessions) }
    ensures last { IfOk result (λ table. table.state.last ≡ last) }
    ensures failed { IfOk result (λ table. table.failed ≡ false) }
    ensures exact { FailsBy (tree_fault (map entry_of entries.now)) result }
{
    let Some((root, others)) = entries.split_first() else {
        return Err(BaseFault::Tree);
    };
    let mut table = rooted(alloc, root.1, sessions, last)?;
    for one in others {
        insert(&mut table, one.1)?;
    }
    Ok(table)
}

/// The table in the state of a draft whose window ends at the zxid `last`.
///
/// Fails with [`BaseFault::Access`] if a node's access control list is not known, and with
/// [`BaseFault::Tree`] if the nodes are not a tree: by the first such node in the order of paths.
pub fn settle(alloc: Global, draft: Draft, last: i64) -> Result<Fold, BaseFault>
    ensures settled { IfOk result (λ table. IsSettled draft last table.state) }
    ensures failed { IfOk result (λ table. table.failed ≡ false) }
    ensures exact { FailsBy (draft_fault draft) result }
{
    let Draft { nodes, sessions } = draft;
    let entries = nodes.entries()?;
    table_of(alloc, entries.as_slice(), sessions, last)
}
