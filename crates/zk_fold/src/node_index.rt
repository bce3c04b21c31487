ghost use Rattle.std.specs.Prelude.{◌≡◌, true, false, IfOk, OnOk, IsSome, IsTrue, Some, length, map, pos, is_none, codes};
ghost use Rattle.std.specs.FinMap as finite;
ghost use Rattle.std.specs.Option.{ForSome, option_copied};
ghost use Rattle.zk_path.specs.Paths.{parent_of};
ghost use Rattle.zk_table.specs.Nodes.{written, guarded};
ghost use Rattle.zk_table.specs.Operations.{create_fault, delete_fault, without};
ghost use Rattle.zk_table.specs.States.{start_state, children_of, owned_by, changed};
ghost use Rattle.zk_tree.specs.Entries.{lent, entries_of};
ghost use Rattle.zk_tree.specs.Trees.{IsTree, owner_at};
ghost use Rattle.zk_fold.specs.NodeIndexes.{put_below, CanInsert, can_insert};

use crate::node_table::NodeTable;
use crate::owners::Owners;
use std::alloc::Global;
use std::marker::Model;
use zk_acl::Acls;
use zk_path::{NoMemory, Path};
use zk_table::{Content, Node, Txn};
use zk_tree::{Entry, Tree};

/// The nodes of a server by path, each with the number of its children, and the paths of each
/// session's nodes.
#[derive(Drop)]
pub(crate) struct NodeIndex {
    pub(crate) alloc: Global,
    places: NodeTable,
    owners: Owners,
}

impl Model for NodeIndex {
    ghost use Rattle.std.specs.Coded.{coded_list, coded_ℕ};
    ghost use Rattle.std.specs.FinMap as finite;
    ghost use Rattle.zk_table.specs.contracts.node.Node as node;
    ghost use Rattle.zk_table.specs.States.{NodeMap};
    ghost use Rattle.zk_tree.specs.Owners.{IsOwned};
    ghost use Rattle.zk_fold.specs.Slots.{nodes_at, IsCounted};

    ghost Value = { NodeMap };

    ghost coded = { finite.code (coded_list coded_ℕ) node.the_row.coded };

    ghost view = { λ forest. nodes_at forest.places };

    ghost invariant = { λ forest. IsCounted forest.places × IsOwned (nodes_at forest.places) forest.owners };
}

impl NodeIndex {
    /// The nodes before any transaction: `/`, `/zookeeper` and `/zookeeper/quota`.
    pub(crate) fn new(alloc: Global) -> Result<NodeIndex, NoMemory>
        ensures { IfOk result (λ forest. forest ≡ start_state.nodes) }
    {
        let root = fixed_path(alloc, "/")?;
        let mut forest = NodeIndex::rooted(alloc, root, Node::first(alloc)?)?;
        // Counted as children that always existed.
        forest.put(&fixed_path(alloc, "/zookeeper")?, Node::first(alloc)?, 0, 0)?;
        forest.put(
            &fixed_path(alloc, "/zookeeper/quota")?,
            Node::first(alloc)?,
            0,
            0,
        )?;
        Ok(forest)
    }

    /// The root alone.
    pub(crate) fn of_root(alloc: Global, node: Node) -> Result<NodeIndex, NoMemory>
        requires free { node.owner ≡ pos 0 }
        ensures { IfOk result (λ forest. forest ≡ finite.insert finite.empty (codes "/") node) }
    {
        let root = fixed_path(alloc, "/")?;
        NodeIndex::rooted(alloc, root, node)
    }

    /// A single node without owner or parent.
    fn rooted(alloc: Global, root: Path, node: Node) -> Result<NodeIndex, NoMemory>
        requires root { root ≡ codes "/" }
        requires free { node.owner ≡ pos 0 }
        ensures { IfOk result (λ forest. forest ≡ finite.insert finite.empty root node) }
    {
        let mut places = NodeTable::new(alloc);
        places.put(alloc, root, node)?;
        Ok(NodeIndex {
            alloc,
            places,
            owners: Owners::new(alloc),
        })
    }

    /// Creates a node at a free path, below a parent that exists and has no owner, and counts it
    /// there. If it cannot be created, nothing is changed.
    pub(crate) fn put(
        &mut self,
        path: &Path,
        node: Node,
        zxid: i64,
        count: i32,
    ) -> Result<(), NoMemory>
        ensures { OnOk result (self.new ≡ put_below self.old path.now node zxid count) }
    {
        let owner = node.owner;
        if owner == 0 {
            return self.places.create(self.alloc, path, node, zxid, count);
        }
        if !self.is_open(path) {
            return Ok(());
        }
        self.owners.add(owner, path.text())?;
        let Ok(()) = self.places.create(self.alloc, path, node, zxid, count) else {
            self.owners.lose(owner, path.text());
            return Err(NoMemory);
        };
        Ok(())
    }

    /// Whether the path is free and its parent takes children: it has no owner, and does not count
    /// -1 of them.
    pub(crate) fn can_insert(&self, path: &Path) -> bool
        ensures room { IsTrue result → CanInsert self.now path.now }
        ensures exact { result ≡ can_insert self.now path.now }
    {
        if self.places.get(path.text()).is_some() {
            return false;
        }
        let Some(above) = path.parent() else {
            return false;
        };
        let Some(place) = self.places.get(above) else {
            return false;
        };
        place.node.owner == 0 && place.node.creates != -1
    }

    /// Inserts a node that was there all along: its parent keeps its `pzxid` and `creates`.
    pub(crate) fn insert(&mut self, path: &Path, node: Node) -> Result<(), NoMemory>
        requires { CanInsert self.old path.now }
        ensures { OnOk result (self.new ≡ finite.insert self.old path.now node) }
    {
        let Some(above) = path.parent() else {
            unreachable!()
        };
        let Some(place) = self.places.get(above) else {
            unreachable!()
        };
        let zxid = place.node.pzxid;
        let count = place.node.creates;
        self.put(path, node, zxid, count)
    }

    /// Whether a node can be created at a path.
    fn is_open(&self, path: &Path) -> bool
        ensures { result ≡ is_none (create_fault self.now path.now) }
    {
        if self.places.get(path.text()).is_some() {
            return false;
        }
        let Some(parent) = path.parent() else {
            return false;
        };
        match self.places.get(parent) {
            Some(place) => place.node.owner == 0,
            None => false,
        }
    }

    /// Whether a node can be deleted: it exists, has no children and is not the root.
    pub(crate) fn is_loose(&self, path: &Path) -> bool
        ensures { result ≡ is_none (delete_fault self.now path.now) }
    {
        let Some(_parent) = path.parent() else {
            return false;
        };
        match self.places.get(path.text()) {
            Some(place) => place.children == 0,
            None => false,
        }
    }

    /// Deletes the node at a path and updates its parent. It must exist, have no children and not
    /// be the root.
    pub(crate) fn take(&mut self, txn: &Txn, path: &Path)
        requires there { finite.contains_key self.old path.now ≡ true }
        requires childless { length (children_of self.old path.now) ≡ 0 }
        requires below { IsSome (parent_of path.now) }
        ensures { self.new ≡ without txn.now self.old path.now }
    {
        let Some(place) = self.places.remove(path.text()) else {
            unreachable!()
        };
        let Some(parent) = path.parent() else {
            unreachable!()
        };
        self.places.lose_child(parent, txn.zxid);
        self.owners.lose(place.node.owner, path.text());
    }

    /// Sets the content of the node at a path, if there is one.
    pub(crate) fn write(&mut self, path: &Path, txn: &Txn, content: Option<Content>, version: i32)
        ensures { self.new ≡ changed self.old path.now (written txn.now content version) }
    {
        self.places.write(path.text(), txn, content, version);
    }

    /// Sets the access control list of the node at a path, if there is one.
    pub(crate) fn guard(&mut self, path: &Path, acl: Acls, version: i32)
        ensures { self.new ≡ changed self.old path.now (guarded acl version) }
    {
        self.places.guard(path.text(), acl, version);
    }

    /// The node at a path.
    pub(crate) fn get(&self, path: &str) -> Option<&Node>
        ensures { option_copied result ≡ finite.get self.now path.now }
    {
        match self.places.get(path) {
            Some(place) => Some(&place.node),
            None => None,
        }
    }

    /// The paths of the nodes that a session owns, in order; none for session 0.
    pub(crate) fn owned_by(&self, session: i64) -> Result<Vec<Path>, NoMemory>
        ensures paths { IfOk result (λ paths. paths.items ≡ owned_by self.now session) }
    {
        match self.owners.get(session) {
            Some(set) => self.places.paths_of(self.alloc, set),
            None => Ok(Vec::new(self.alloc)),
        }
    }

    /// The index satisfies the invariant of a tree at any time: a law.
    pub(crate) fn stands(&self)
        ensures { IsTree self.now }
    {
        let _ = &self.owners;
    }

    /// The same nodes as an indexed tree.
    pub(crate) fn tree(&self) -> Result<Tree, NoMemory>
        ensures { IfOk result (λ tree. tree ≡ self.now) }
    {
        self.stands();
        let Some(root) = self.places.get("/") else {
            unreachable!()
        };
        let entries = self.entries()?;
        let mut tree = Tree::from_root(self.alloc, root.node.copy()?)?;
        for entry in entries.as_slice() {
            if entry.path.text() == "/" {
                continue;
            }
            put_child(&mut tree, entry.path, entry.node)?;
        }
        Ok(tree)
    }

    /// The nodes, each with its path and the number of its children, sorted by path.
    pub(crate) fn entries(&self) -> Result<Vec<Entry<'_>>, NoMemory>
        ensures { IfOk result (λ entries. map lent entries.items ≡ entries_of self.now) }
    {
        let places = self.places.entries(self.alloc)?;
        let mut entries = Vec::with_capacity(self.alloc, places.len())?;
        for at in places.as_slice() {
            let (_, place) = *at;
            entries.push(Entry {
                path: &place.path,
                node: &place.node,
                child_count: place.children,
            })?;
        }
        Ok(entries)
    }
}

/// Puts a copy of a node at a copy of its path.
fn put_child(tree: &mut Tree, path: &Path, node: &Node) -> Result<(), NoMemory>
    requires free { finite.contains_key tree.old path.now ≡ false }
    requires below { ForSome (parent_of path.now) (λ parent. owner_at tree.old parent ≡ Some (pos 0)) }
    ensures { OnOk result (tree.new ≡ finite.insert tree.old path.now node.now) }
{
    let Ok(()) = tree.put(path.copy()?, node.copy()?) else {
        return Err(NoMemory);
    };
    Ok(())
}

/// Parses a text that is a path: the only error is an allocation failure.
fn fixed_path(alloc: Global, text: &str) -> Result<Path, NoMemory>
    ensures { IfOk result (λ path. path ≡ text.now) }
{
    Path::read(alloc, text).map_err(|_| NoMemory)
}
