ghost use Rattle.std.specs.Prelude.{◌≡◌, IfOk, IfErr, IfSome, option_map, OnOk, OnErr, None, Some, IsSome, true, length, map, List, ℕ};
ghost use Rattle.std.specs.FinMap as finite;
ghost use Rattle.std.specs.Option.{option_copied, ForSome};
ghost use Rattle.zk_path.specs.Paths.{parent_of};
ghost use Rattle.zk_table.specs.States.{children_of};
ghost use Rattle.zk_tree.specs.Entries.{lent, entries_of};

use crate::entry::Entry;
use crate::paths::PathSet;
use crate::refused::Refused;
use crate::slots::{Slot, Slots};
use std::alloc::Global;
use std::marker::Model;
use zk_path::{NoMemory, Path};
use zk_table::Node;

/// Nodes, each with the paths of its children.
pub(crate) struct Branches {
    alloc: Global,
    slots: Slots,
}

impl Drop for Branches {
    fn drop(self) {
        let Branches { alloc: _, slots: _ } = self;
    }
}

impl Model for Branches {
    ghost use Rattle.std.specs.Coded.{coded_list, coded_ℕ};
    ghost use Rattle.std.specs.FinMap as finite;
    ghost use Rattle.zk_table.specs.contracts.node.Node as node;
    ghost use Rattle.zk_table.specs.States.{NodeMap};
    ghost use Rattle.zk_tree.specs.Branches.{nodes_of, IsBranching};

    ghost Value = { NodeMap };

    ghost coded = { finite.code (coded_list coded_ℕ) node.the_row.coded };

    ghost view = { λ branches. nodes_of branches.slots };

    ghost invariant = { λ branches. IsBranching branches.slots };
}

impl Branches {
    /// A single node, which has no parent.
    pub(crate) fn new(alloc: Global, root: Path, node: Node) -> Result<Branches, NoMemory>
        requires { parent_of root ≡ None }
        ensures { IfOk result (λ branches. branches ≡ finite.insert finite.empty root node) }
    {
        let key = String::from_str(alloc, root.text())?;
        let slot = Slot {
            path: root,
            node,
            children: PathSet::new(alloc),
        };
        let mut slots = Slots::new(alloc);
        let Ok(()) = slots.insert(key, slot) else {
            return Err(NoMemory);
        };
        Ok(Branches { alloc, slots })
    }

    pub(crate) fn copy(&self) -> Result<Branches, NoMemory>
        ensures { IfOk result (λ copy. copy ≡ self.now) }
    {
        Ok(Branches {
            alloc: self.alloc,
            slots: self.slots.copy()?,
        })
    }

    pub(crate) fn get(&self, path: &str) -> Option<&Node>
        ensures { option_copied result ≡ finite.get self.now path.now }
    {
        match self.slots.get(path) {
            Some(slot) => Some(&slot.node),
            None => None,
        }
    }

    /// The path of a text and its node.
    pub(crate) fn entry(&self, text: &str) -> Option<(&Path, &Node)>
        ensures node { option_map (λ found. found.1.now) result ≡ finite.get self.now text.now }
        ensures path { IfSome result (λ found. found.0.now ≡ text.now) }
    {
        match self.slots.get(text) {
            Some(slot) => Some((&slot.path, &slot.node)),
            None => None,
        }
    }

    pub(crate) fn child_count(&self, path: &str) -> usize
        ensures { result ≡ length (children_of self.now path.now) }
    {
        match self.slots.get(path) {
            Some(slot) => slot.children.len(),
            None => 0,
        }
    }

    /// The node at a path, and the number of its children.
    pub(crate) fn counted(&self, path: &str) -> Option<(&Node, usize)>
        ensures node { option_map (λ found. found.0.now) result ≡ finite.get self.now path.now }
        ensures count { IfSome result (λ found. found.1 ≡ length (children_of self.now path.now)) }
    {
        match self.slots.get(path) {
            Some(slot) => Some((&slot.node, slot.children.len())),
            None => None,
        }
    }

    pub(crate) fn children(&self, path: &str) -> Result<Vec<Path>, NoMemory>
        ensures { IfOk result (λ paths. paths.items ≡ children_of self.now path.now) }
    {
        match self.slots.get(path) {
            Some(slot) => self.slots.paths_of(self.alloc, &slot.children),
            None => Ok(Vec::new(self.alloc)),
        }
    }

    /// The nodes, each with its path and the number of its children, sorted by path.
    pub(crate) fn entries(&self) -> Result<Vec<Entry<'_>>, NoMemory>
        ensures { IfOk result (λ entries. map lent entries.items ≡ entries_of self.now) }
    {
        let slots = self.slots.entries(self.alloc)?;
        let mut entries = Vec::with_capacity(self.alloc, slots.len())?;
        for place in slots.as_slice() {
            let (_, slot) = *place;
            entries.push(Entry {
                path: &slot.path,
                node: &slot.node,
                child_count: slot.children.len(),
            })?;
        }
        Ok(entries)
    }

    /// All paths, in order.
    pub(crate) fn paths(&self) -> Result<Vec<Path>, NoMemory>
        ensures { IfOk result (λ paths. paths.items ≡ finite.keys self.now) }
    {
        let entries = self.entries()?;
        let mut paths = Vec::with_capacity(self.alloc, entries.len())?;
        for entry in entries.as_slice() {
            paths.push(entry.path.copy()?)?;
        }
        Ok(paths)
    }

    /// The paths of a set, in order. Each must have a node.
    pub(crate) fn paths_of(&self, set: &PathSet) -> Result<Vec<Path>, NoMemory>
        requires { (path : List ℕ) → finite.contains_key set.now path ≡ true → finite.contains_key self.now path ≡ true }
        ensures { IfOk result (λ paths. paths.items ≡ finite.keys set.now) }
    {
        self.slots.paths_of(self.alloc, set)
    }

    /// Puts a node at a free path whose parent exists. If an allocation fails, nothing is changed
    /// and the error returns both.
    pub(crate) fn put(&mut self, path: Path, node: Node) -> Result<(), Refused>
        requires free { finite.get self.old path ≡ None }
        requires below { ForSome (parent_of path) (λ parent. finite.contains_key self.old parent ≡ true) }
        requires parent { IsSome (parent_of path) }
        ensures there { OnOk result (self.new ≡ finite.insert self.old path node) }
        ensures unchanged { OnErr result (self.new ≡ self.old) }
        ensures back { IfErr result (λ refused. refused ≡ record { path = path; node = node }) }
    {
        let (Ok(key), Ok(child)) = (
            String::from_str(self.alloc, path.text()),
            String::from_str(self.alloc, path.text()),
        ) else {
            return Err(Refused { path, node });
        };
        let Some(parent) = path.parent() else {
            unreachable!()
        };
        let Ok(()) = self.slots.add_child(parent, child) else {
            return Err(Refused { path, node });
        };
        let slot = Slot {
            path,
            node,
            children: PathSet::new(self.alloc),
        };
        let Err((_, slot)) = self.slots.insert(key, slot) else {
            return Ok(());
        };
        let Slot { path, node, .. } = slot;
        let Some(above) = path.parent() else {
            unreachable!()
        };
        self.slots.lose_child(above, path.text());
        Err(Refused { path, node })
    }

    /// Removes and returns the node at a path. It must have no children, and a parent.
    pub(crate) fn take(&mut self, path: &Path) -> Node
        requires there { finite.contains_key self.old path.now ≡ true }
        requires childless { length (children_of self.old path.now) ≡ 0 }
        requires below { IsSome (parent_of path.now) }
        ensures was { finite.get self.old path.now ≡ Some result }
        ensures gone { self.new ≡ finite.remove self.old path.now }
    {
        let Some(parent) = path.parent() else {
            unreachable!()
        };
        self.slots.lose_child(parent, path.text());
        let Some(slot) = self.slots.remove(path.text()) else {
            unreachable!()
        };
        let Slot { node, .. } = slot;
        node
    }

    /// Replaces the node at a path and returns the old one.
    pub(crate) fn change(&mut self, path: &str, node: Node) -> Node
        requires { finite.contains_key self.old path.now ≡ true }
        ensures was { finite.get self.old path.now ≡ Some result }
        ensures changed { self.new ≡ finite.insert self.old path.now node }
    {
        self.slots.change(path, node)
    }
}
