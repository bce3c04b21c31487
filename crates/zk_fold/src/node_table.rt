ghost use Rattle.std.specs.Prelude.{◌≡◌, ◌≤◌, ◌<◌, ◌+◌, ◌^◌, ℕ, List, true, false, IfOk, OnOk, OnErr, IsTrue, Some, None, map};
ghost use Rattle.std.specs.FinMap as finite;
ghost use Rattle.std.specs.Option.{option_copied, ForSome};
ghost use Rattle.zk_path.specs.Paths.{parent_of};
ghost use Rattle.zk_table.specs.Nodes.{written, guarded};
ghost use Rattle.zk_fold.specs.Slots.{IsCounted, AreKept, new_place, with_child, without_child, with_node, place_changed, is_fit, made};

use crate::paths::PathSet;
use std::alloc::Global;
use std::collections::HashMap;
use std::marker::Model;
use zk_acl::Acls;
use zk_path::{NoMemory, Path};
use zk_table::{Content, Node, Txn};

/// A node, its path, and the number of its children.
#[derive(Drop)]
pub(crate) struct Slot {
    pub(crate) path: Path,
    pub(crate) node: Node,
    pub(crate) children: usize,
}

/// Slots by the texts of their paths.
#[derive(Drop)]
pub(crate) struct NodeTable {
    map: HashMap<String, Slot>,
}

impl Model for NodeTable {
    ghost use Rattle.std.specs.Prelude.{ℕ};
    ghost use Rattle.std.specs.Coded.{coded_list, coded_ℕ};
    ghost use Rattle.std.specs.FinMap as finite;
    ghost use Rattle.zk_table.specs.States.{path_cmp};
    ghost use Rattle.zk_tree.specs.Views.{map_of};
    ghost use Rattle.zk_fold.specs.declared.node_table.Slot.{Slot};
    ghost use Rattle.zk_fold.specs.contracts.node_table.Slot as place;

    ghost Value = { finite.FinMap path_cmp Slot };

    ghost coded = { finite.code (coded_list coded_ℕ) place.the_row.coded };

    ghost view = { λ places. map_of places.map.entries };
}

impl NodeTable {
    pub(crate) fn new(alloc: Global) -> NodeTable
        ensures { result ≡ finite.empty }
    {
        NodeTable {
            map: HashMap::new(alloc),
        }
    }

    /// The slot at a path.
    pub(crate) fn get(&self, path: &str) -> Option<&Slot>
        ensures { option_copied result ≡ finite.get self.now path.now }
    {
        self.map.get(path)
    }

    /// A law: the number of all nodes fits 64 bits.
    fn counts(&self)
        ensures { finite.len self.now < 2 ^ 64 }
    {
        let _count = self.map.len();
    }

    /// Puts a node without children at a path. Returns the slot that was there. After [`NoMemory`]
    /// nothing is changed.
    pub(crate) fn put(
        &mut self,
        alloc: Global,
        path: Path,
        node: Node,
    ) -> Result<Option<Slot>, NoMemory>
        ensures before { IfOk result (λ before. before ≡ finite.get self.old path) }
        ensures there { OnOk result (self.new ≡ finite.insert self.old path (new_place path node)) }
        ensures unchanged { OnErr result (self.new ≡ self.old) }
    {
        let text = String::from_str(alloc, path.text())?;
        let place = Slot {
            path,
            node,
            children: 0,
        };
        match self.map.insert(text, place) {
            Ok(before) => Ok(before),
            Err(_) => Err(NoMemory),
        }
    }

    /// Replaces an existing slot.
    fn put_back(&mut self, path: &str, place: Slot)
        requires { finite.contains_key self.old path.now ≡ true }
        ensures { self.new ≡ finite.insert self.old path.now place }
    {
        let Some(there) = self.map.get_mut(path) else {
            unreachable!()
        };
        *there = place;
    }

    /// Removes and returns the slot at a path.
    pub(crate) fn remove(&mut self, path: &str) -> Option<Slot>
        ensures gone { result ≡ finite.get self.old path.now }
        ensures rest { self.new ≡ finite.remove self.old path.now }
    {
        self.map.remove(path)
    }

    /// Creates a node at a free path, below a parent that exists and has no owner. Otherwise, and
    /// after [`NoMemory`], nothing is changed. Needs two look-ups.
    pub(crate) fn create(
        &mut self,
        alloc: Global,
        path: &Path,
        node: Node,
        zxid: i64,
        count: i32,
    ) -> Result<(), NoMemory>
        requires { IsCounted self.old }
        ensures made { OnOk result (self.new ≡ made self.old path.now node zxid count) }
        ensures unchanged { OnErr result (self.new ≡ self.old) }
    {
        let key = path.text();
        let Some(parent) = path.parent() else {
            return Ok(());
        };
        if let Some(stood) = self.put(alloc, path.copy()?, node)? {
            self.put_back(key, stood);
            return Ok(());
        }
        self.counts();
        if !self.add_child(parent, zxid, count) {
            self.remove(key);
        }
        Ok(())
    }

    /// Counts a created child of the node at a path, if it exists and has no owner. Returns whether
    /// it did.
    fn add_child(&mut self, path: &str, zxid: i64, count: i32) -> bool
        requires { ForSome (finite.get self.old path.now) (λ place. place.children + 1 < 2 ^ 64) }
        ensures fit { result ≡ is_fit (finite.get self.old path.now) }
        ensures counted { IsTrue result → self.new ≡ place_changed self.old path.now (with_child zxid count) }
        ensures unchanged { result ≡ false → self.new ≡ self.old }
    {
        let Some(place) = self.map.get_mut(path) else {
            return false;
        };
        if place.node.owner != 0 {
            return false;
        }
        place.node.add_child(zxid, count);
        place.children += 1;
        true
    }

    /// Counts one child less for the node at a path, which must have one.
    pub(crate) fn lose_child(&mut self, path: &str, zxid: i64)
        requires { ForSome (finite.get self.old path.now) (λ place. 0 < place.children) }
        ensures { self.new ≡ place_changed self.old path.now (without_child zxid) }
    {
        let Some(place) = self.map.get_mut(path) else {
            return;
        };
        place.node.lose_child(zxid);
        place.children -= 1;
    }

    /// Sets the content of the node at a path.
    pub(crate) fn write(&mut self, path: &str, txn: &Txn, content: Option<Content>, version: i32)
        ensures { self.new ≡ place_changed self.old path.now (with_node (written txn.now content version)) }
    {
        let Some(place) = self.map.get_mut(path) else {
            return;
        };
        place.node.write(txn, content, version);
    }

    /// Sets the access control list of the node at a path.
    pub(crate) fn guard(&mut self, path: &str, acl: Acls, version: i32)
        ensures { self.new ≡ place_changed self.old path.now (with_node (guarded acl version)) }
    {
        let Some(place) = self.map.get_mut(path) else {
            return;
        };
        place.node.guard(acl, version);
    }

    /// The paths of a set, in order.
    pub(crate) fn paths_of(&self, alloc: Global, set: &PathSet) -> Result<Vec<Path>, NoMemory>
        requires { AreKept self.now set.now }
        ensures { IfOk result (λ paths. paths.items ≡ finite.keys set.now) }
    {
        let mut paths = Vec::new(alloc);
        for text in set.texts.iter() {
            let Some(place) = self.get(text) else {
                unreachable!()
            };
            paths.push(place.path.copy()?)?;
        }
        Ok(paths)
    }

    /// The slots with the texts of their paths, sorted by path.
    pub(crate) fn entries(&self, alloc: Global) -> Result<Vec<(&str, &Slot)>, NoMemory>
        ensures { IfOk result (λ entries. map (λ entry. (entry.0.now, entry.1.now)) entries.items ≡ finite.entries self.now) }
    {
        let mut entries = Vec::with_capacity(alloc, self.map.len())?;
        for (text, place) in self.map.iter() {
            entries.push((text.as_str(), place))?;
        }
        // The text is beside each slot, so that a comparison does not follow the reference to the
        // slot.
        entries.sort_unstable_by(|left, right| left.0.cmp(right.0));
        Ok(entries)
    }
}
