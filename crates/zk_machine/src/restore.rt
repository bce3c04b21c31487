//! Restoring preimages into a tree.

ghost use Rattle.std.specs.Prelude.{◌≡◌, pos, ℕ, List, Option, true, Some, OnOk, IsTrue, IsSome, length, codes, option_map};
ghost use Rattle.std.specs.FinMap as finite;
ghost use Rattle.zk_path.specs.Paths.{parent_of};
ghost use Rattle.zk_table.specs.declared.node.Node.{Node};
ghost use Rattle.zk_table.specs.States.{NodeMap, path_cmp, children_of};
ghost use Rattle.zk_machine.specs.Restoring.{must_go, cleared_at, cleared, filled_at, filled, all_begin};
ghost use Rattle.zk_tree.specs.Trees.{owner_at};
ghost use Rattle.zk_machine.specs.Undoing.{IsState, KeepsRoot, nodes_before, all_put_back};

use crate::preimages::Preimages;
use zk_path::{NoMemory, Path};
use zk_table::Node;
use zk_tree::Tree;

/// Restores all preimages. Children are removed before their parents and put back after them.
pub(crate) fn restore(tree: &mut Tree, touched: &Preimages) -> Result<(), NoMemory>
    requires root { KeepsRoot touched.now }
    requires state { IsState (nodes_before touched.now tree.old) }
    ensures { OnOk result (tree.new ≡ nodes_before touched.now tree.old) }
{
    let notes = touched.as_slice();
    clear(tree, notes);
    fill(tree, notes)?;
    Ok(())
}

/// Removes, from the last path to the first, the nodes that did not exist or had another owner.
fn clear(tree: &mut Tree, notes: &[(Path, Option<Node>)])
    requires sorted { IsTrue (finite.is_sorted path_cmp notes.now) }
    requires slashes { IsTrue (all_begin notes.now) }
    requires root { (before : Option Node) → finite.find path_cmp (codes "/") notes.now ≡ Some before → option_map (λ node. node.owner) before ≡ Some (pos 0) }
    requires state { IsState (all_put_back notes.now tree.old) }
    ensures { tree.new ≡ cleared notes.now tree.old }
{
    tree.stands();
    let mut at = notes.len();
    while at > 0 {
        at -= 1;
        let (path, before) = &notes[at];
        tree.stands();
        clear_at(tree, path, before);
    }
}

/// Removes the node at a path if it did not exist or had another owner.
fn clear_at(tree: &mut Tree, path: &Path, before: &Option<Node>)
    requires childless { must_go before.now (finite.get tree.old path.now) ≡ true → length (children_of tree.old path.now) ≡ 0 }
    requires below { must_go before.now (finite.get tree.old path.now) ≡ true → IsSome (parent_of path.now) }
    ensures { tree.new ≡ cleared_at path.now before.now tree.old }
{
    if must_go(tree, path, before) {
        tree.take(path);
    }
}

/// Whether a node must be removed before the old one is put back.
fn must_go(tree: &Tree, path: &Path, before: &Option<Node>) -> bool
    ensures { result ≡ must_go before.now (finite.get tree.now path.now) }
{
    match (before, tree.get(path)) {
        (_, None) => false,
        (None, Some(_)) => true,
        (Some(before), Some(now)) => before.owner != now.owner,
    }
}

/// Puts the old nodes back, from the first path to the last.
fn fill(tree: &mut Tree, notes: &[(Path, Option<Node>)]) -> Result<(), NoMemory>
    requires sorted { IsTrue (finite.is_sorted path_cmp notes.now) }
    requires slashes { IsTrue (all_begin notes.now) }
    requires clear { (now : NodeMap) × (tree.old ≡ cleared notes.now now) × IsState (all_put_back notes.now now) }
    ensures { OnOk result (tree.new ≡ filled notes.now tree.old) }
{
    for (path, before) in notes {
        fill_at(tree, path, before)?;
    }
    Ok(())
}

/// Puts the old node of a path back, if there was one.
fn fill_at(tree: &mut Tree, path: &Path, before: &Option<Node>) -> Result<(), NoMemory>
    requires below { (node : Node) → before.now ≡ Some node → (parent : List ℕ) → parent_of path.now ≡ Some parent → owner_at tree.old parent ≡ Some (pos 0) }
    requires owner { (node old : Node) → before.now ≡ Some node → finite.get tree.old path.now ≡ Some old → owner_at tree.old path.now ≡ Some node.owner }
    ensures { OnOk result (tree.new ≡ filled_at path.now before.now tree.old) }
{
    let Some(node) = before else {
        return Ok(());
    };
    let node = node.copy()?;
    if tree.get(path).is_some() {
        tree.change(path, node);
        return Ok(());
    }
    let place = path.copy()?;
    let Ok(()) = tree.put(place, node) else {
        return Err(NoMemory);
    };
    Ok(())
}
