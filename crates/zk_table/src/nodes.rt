ghost use Rattle.std.specs.Prelude.{◌≡◌, ◌<◌, ◌≤◌, length, MatchResult, IfOk, OnOk, OnErr};
ghost use Rattle.std.specs.FinMap as finite;
ghost use Rattle.std.specs.Option.{option_copied};
ghost use Rattle.zk_table.specs.Nodes.{first_node, with_child, without_child, written, guarded};
ghost use Rattle.zk_table.specs.Places.{position_of};
ghost use Rattle.zk_table.specs.States.{path_cmp, is_child_of, children_of, owned_by, changed};

use crate::{Content, Node, Txn};
use std::alloc::Global;
use std::cmp::Ordering;
use std::marker::Model;
use zk_acl::Acls;
use zk_path::{NoMemory, Path};

/// Nodes by path: a list sorted by path.
#[derive(Debug, Drop)]
pub(crate) struct Nodes {
    entries: Vec<(Path, Node)>,
}

impl Model for Nodes {
    ghost use Rattle.std.specs.Prelude.{List, ℕ, IsTrue};
    ghost use Rattle.std.specs.Coded.{coded_list, coded_ℕ};
    ghost use Rattle.std.specs.FinMap as finite;
    ghost use Rattle.zk_table.specs.contracts.node.Node as node;
    ghost use Rattle.zk_table.specs.States.{NodeMap, path_cmp};

    ghost Value = { NodeMap };

    ghost coded = { finite.code (coded_list coded_ℕ) node.the_row.coded };

    ghost view = { λ nodes. finite.from_sorted nodes.entries.items };

    ghost invariant = { λ nodes. IsTrue (finite.is_sorted path_cmp nodes.entries.items) };
}

/// The position of a path, or else the position at which to insert it.
fn position_of(entries: &[(Path, Node)], path: &str) -> Result<usize, usize>
    ensures place { result ≡ position_of path_cmp path.now entries.now }
    ensures within { MatchResult result (λ at. at < length entries.now) (λ at. at ≤ length entries.now) }
{
    let mut at = 0;
    for (known, _) in entries {
        match path.cmp(known.text()) {
            Ordering::Less => return Err(at),
            Ordering::Equal => return Ok(at),
            Ordering::Greater => at += 1,
        }
    }
    Err(at)
}

/// Whether `path` is a child of `parent`.
pub(crate) fn is_child_of(path: &Path, parent: &str) -> bool
    ensures { result ≡ is_child_of parent.now path.now }
{
    path.parent().is_some_and(|above| above == parent)
}

/// Parses a text that is a path: the only error is an allocation failure.
fn fixed_path(alloc: Global, text: &str) -> Result<Path, NoMemory>
    ensures { IfOk result (λ path. path ≡ text.now) }
{
    Path::read(alloc, text).map_err(|_| NoMemory)
}

impl Nodes {
    pub(crate) fn new(alloc: Global) -> Nodes
        ensures { result ≡ finite.empty }
    {
        Nodes {
            entries: Vec::new(alloc),
        }
    }

    pub(crate) fn copy(&self) -> Result<Nodes, NoMemory>
        ensures { IfOk result (λ copy. copy ≡ self.now) }
    {
        let mut entries = Vec::new(self.allocator());
        for (path, node) in self.as_slice() {
            let path = path.copy()?;
            let node = node.copy()?;
            entries.push((path, node))?;
        }
        Ok(Nodes { entries })
    }

    /// The allocator of the nodes.
    pub(crate) fn allocator(&self) -> Global {
        *self.entries.allocator()
    }

    pub(crate) fn as_slice(&self) -> &[(Path, Node)]
        ensures { result.now ≡ finite.entries self.now }
    {
        self.entries.as_slice()
    }

    pub(crate) fn get(&self, path: &str) -> Option<&Node>
        ensures { option_copied result ≡ finite.get self.now path.now }
    {
        match position_of(&self.entries, path) {
            Ok(at) => Some(&self.entries[at].1),
            Err(_) => None,
        }
    }

    /// The number of children of the node at a path.
    pub(crate) fn child_count(&self, path: &str) -> usize
        ensures { result ≡ length (children_of self.now path.now) }
    {
        let mut count = 0;
        for (known, _) in self.as_slice() {
            if is_child_of(known, path) {
                count += 1;
            }
        }
        count
    }

    /// The paths of the nodes that a session owns, in order.
    pub(crate) fn owned_by(&self, session: i64) -> Result<Vec<Path>, NoMemory>
        ensures { IfOk result (λ paths. paths.items ≡ owned_by self.now session) }
    {
        let mut paths = Vec::new(self.allocator());
        if session == 0 {
            return Ok(paths);
        }
        for (path, node) in self.as_slice() {
            if node.owner == session {
                paths.push(path.copy()?)?;
            }
        }
        Ok(paths)
    }

    /// Puts a node at a path and replaces an existing one. After [`NoMemory`] nothing is changed.
    pub(crate) fn insert(&mut self, path: Path, node: Node) -> Result<(), NoMemory>
        ensures inserted { OnOk result (self.new ≡ finite.insert self.old path node) }
        ensures unchanged { OnErr result (self.new ≡ self.old) }
    {
        match position_of(&self.entries, path.text()) {
            Ok(at) => self.entries[at].1 = node,
            Err(at) => self.entries.insert(at, (path, node))?,
        }
        Ok(())
    }

    /// Puts a node that exists before any transaction.
    pub(crate) fn plant(&mut self, text: &str) -> Result<(), NoMemory>
        ensures { OnOk result (self.new ≡ finite.insert self.old text.now first_node) }
    {
        let path = fixed_path(self.allocator(), text)?;
        let node = Node::first(self.allocator())?;
        self.insert(path, node)
    }

    /// Removes the node at a path, if there is one.
    pub(crate) fn remove(&mut self, path: &str)
        ensures { self.new ≡ finite.remove self.old path.now }
    {
        if let Ok(at) = position_of(&self.entries, path) {
            self.entries.remove(at);
        }
    }

    /// Counts a created child of the node at a path.
    pub(crate) fn add_child(&mut self, path: &str, zxid: i64, count: i32)
        ensures { self.new ≡ changed self.old path.now (with_child zxid count) }
    {
        if let Ok(at) = position_of(&self.entries, path) {
            let (_, node) = &mut self.entries[at];
            node.add_child(zxid, count);
        }
    }

    /// Records that a child of the node at a path was deleted.
    pub(crate) fn lose_child(&mut self, path: &str, zxid: i64)
        ensures { self.new ≡ changed self.old path.now (without_child zxid) }
    {
        if let Ok(at) = position_of(&self.entries, path) {
            let (_, node) = &mut self.entries[at];
            node.lose_child(zxid);
        }
    }

    /// Sets the content of the node at a path.
    pub(crate) fn write(&mut self, path: &str, txn: &Txn, content: Option<Content>, version: i32)
        ensures { self.new ≡ changed self.old path.now (written txn.now content version) }
    {
        if let Ok(at) = position_of(&self.entries, path) {
            let (_, node) = &mut self.entries[at];
            node.write(txn, content, version);
        }
    }

    /// Sets the access control list of the node at a path.
    pub(crate) fn guard(&mut self, path: &str, acl: Acls, version: i32)
        ensures { self.new ≡ changed self.old path.now (guarded acl version) }
    {
        if let Ok(at) = position_of(&self.entries, path) {
            let (_, node) = &mut self.entries[at];
            node.guard(acl, version);
        }
    }
}
