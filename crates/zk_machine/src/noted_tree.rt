ghost use Rattle.std.specs.Prelude.{◌≡◌, pos, IfOk, OnOk, Some, true, false, length, IsSome, None};
ghost use Rattle.std.specs.FinMap as finite;
ghost use Rattle.std.specs.Option.{ForSome};
ghost use Rattle.zk_path.specs.Paths.{parent_of};
ghost use Rattle.zk_table.specs.Nodes.{with_child, without_child};
ghost use Rattle.zk_table.specs.States.{children_of, parent_changed};
ghost use Rattle.zk_tree.specs.Trees.{owner_at};
ghost use Rattle.zk_machine.specs.Changes.{changes_between};
ghost use Rattle.zk_machine.specs.Undoing.{nodes_before};

use crate::change::{Change, compare};
use crate::preimages::Preimages;
use std::alloc::Global;
use zk_path::{NoMemory, Path};
use zk_table::Node;
use zk_tree::Tree;

/// A tree with the preimages of a transaction. After an allocation failure the tree may have
/// changes without preimages, which cannot be undone.
#[derive(Drop)]
pub(crate) struct NotedTree {
    pub(crate) alloc: Global,
    pub(crate) tree: Tree,
    pub(crate) touched: Preimages,
}

impl NotedTree {
    /// A copy without preimages.
    pub(crate) fn copy(&self) -> Result<NotedTree, NoMemory>
        ensures { IfOk result (λ copy. copy.tree ≡ self.now.tree) }
    {
        Ok(NotedTree {
            alloc: self.alloc,
            tree: self.tree.copy()?,
            touched: Preimages::new(self.alloc),
        })
    }

    /// Clears the preimages.
    pub(crate) fn begin(&mut self)
        ensures tree { self.new.tree ≡ self.old.tree }
        ensures idle { self.new.touched ≡ finite.empty }
    {
        self.touched.clear();
    }

    /// Puts a node at a free path, below a parent that exists and has no owner.
    pub(crate) fn put(&mut self, path: &Path, node: Node) -> Result<(), NoMemory>
        requires free { finite.get self.old.tree path.now ≡ None }
        requires below { ForSome (parent_of path.now) (λ parent. owner_at self.old.tree parent ≡ Some (pos 0)) }
        ensures tree { OnOk result (self.new.tree ≡ finite.insert self.old.tree path.now node) }
        ensures before { OnOk result (nodes_before self.new.touched self.new.tree ≡ nodes_before self.old.touched self.old.tree) }
    {
        let noted = path.copy()?;
        self.touched.note(noted, None)?;
        let place = path.copy()?;
        let Ok(()) = self.tree.put(place, node) else {
            return Err(NoMemory);
        };
        Ok(())
    }

    /// Removes the node at a path. It must exist, have no children and not be the root.
    pub(crate) fn take(&mut self, path: &Path) -> Result<(), NoMemory>
        requires there { finite.contains_key self.old.tree path.now ≡ true }
        requires childless { length (children_of self.old.tree path.now) ≡ 0 }
        requires below { IsSome (parent_of path.now) }
        ensures tree { OnOk result (self.new.tree ≡ finite.remove self.old.tree path.now) }
        ensures before { OnOk result (nodes_before self.new.touched self.new.tree ≡ nodes_before self.old.touched self.old.tree) }
    {
        let node = self.tree.take(path);
        let noted = path.copy()?;
        self.touched.note(noted, Some(node))?;
        Ok(())
    }

    /// Replaces the node at a path by one of the same owner.
    pub(crate) fn change(&mut self, path: Path, node: Node) -> Result<(), NoMemory>
        requires { owner_at self.old.tree path ≡ Some node.owner }
        ensures tree { OnOk result (self.new.tree ≡ finite.insert self.old.tree path node) }
        ensures before { OnOk result (nodes_before self.new.touched self.new.tree ≡ nodes_before self.old.touched self.old.tree) }
    {
        let old = self.tree.change(&path, node);
        self.touched.note(path, Some(old))?;
        Ok(())
    }

    /// Counts a created child of the parent of a path.
    pub(crate) fn parent_gains(
        &mut self,
        path: &Path,
        zxid: i64,
        count: i32,
    ) -> Result<(), NoMemory>
        ensures tree { OnOk result (self.new.tree ≡ parent_changed self.old.tree path.now (with_child zxid count)) }
        ensures before { OnOk result (nodes_before self.new.touched self.new.tree ≡ nodes_before self.old.touched self.old.tree) }
    {
        let Some(parent) = path.parent() else {
            return Ok(());
        };
        let Some((parent, node)) = self.tree.entry_by_text(parent) else {
            return Ok(());
        };
        let parent = parent.copy()?;
        let mut node = node.copy()?;
        node.add_child(zxid, count);
        self.change(parent, node)?;
        Ok(())
    }

    /// Records that a child of the parent of a path was deleted.
    pub(crate) fn parent_loses(&mut self, path: &Path, zxid: i64) -> Result<(), NoMemory>
        ensures tree { OnOk result (self.new.tree ≡ parent_changed self.old.tree path.now (without_child zxid)) }
        ensures before { OnOk result (nodes_before self.new.touched self.new.tree ≡ nodes_before self.old.touched self.old.tree) }
    {
        let Some(parent) = path.parent() else {
            return Ok(());
        };
        let Some((parent, node)) = self.tree.entry_by_text(parent) else {
            return Ok(());
        };
        let parent = parent.copy()?;
        let mut node = node.copy()?;
        node.lose_child(zxid);
        self.change(parent, node)?;
        Ok(())
    }

    /// The changes since the preimages were cleared.
    pub(crate) fn changes(&self) -> Result<Vec<Change>, NoMemory>
        ensures { IfOk result (λ changes. changes.items ≡ changes_between (nodes_before self.now.touched self.now.tree) self.now.tree) }
    {
        let mut changes = Vec::new(self.alloc);
        for (path, before) in self.touched.as_slice() {
            compare(&mut changes, path, before, &self.tree)?;
        }
        Ok(changes)
    }
}
