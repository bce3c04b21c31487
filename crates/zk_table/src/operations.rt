//! The effect of each operation on the nodes, alone or as a part of a multi.

ghost use Rattle.std.specs.Prelude.{◌≡◌, IfOk, OnErr, OnOk};
ghost use Rattle.zk_table.specs.Nodes.{with_child, without_child};
ghost use Rattle.zk_table.specs.States.{parent_changed, stat_at, stat_of};
ghost use Rattle.zk_table.specs.Operations.{create, create_fault, delete, delete_fault, missing_fault, set_data, set_acl, without, without_all};

use crate::codes::{BAD_ARGUMENTS, NO_CHILDREN_FOR_EPHEMERALS, NO_NODE, NODE_EXISTS, NOT_EMPTY};
use crate::nodes::Nodes;
use crate::{Content, Node, PartResult, Txn};
use zk_acl::{Acls, Stat};
use zk_path::{NoMemory, Path};

impl Nodes {
    /// Creates a node. After [`NoMemory`] nothing is changed.
    pub(crate) fn create(
        &mut self,
        txn: &Txn,
        path: &Path,
        content: &Option<Content>,
        acl: &Acls,
        ephemeral: bool,
        count: i32,
    ) -> Result<PartResult, NoMemory>
        ensures done { IfOk result (λ answer. create self.old txn.now path.now content.now acl.now ephemeral count ≡ record { nodes = self.new; answer = answer }) }
        ensures unchanged { OnErr result (self.new ≡ self.old) }
    {
        let told = path.copy()?;
        if let Some(code) = self.create_fault(path) {
            return Ok(PartResult::refused(told, code));
        }
        let node = Node::created(txn, content, acl, ephemeral)?;
        self.insert(path.copy()?, node)?;
        self.parent_gains(path, txn.zxid, count);
        Ok(PartResult::done(told, None))
    }

    /// Deletes a node without children. After [`NoMemory`] nothing is changed.
    pub(crate) fn delete(&mut self, txn: &Txn, path: &Path) -> Result<PartResult, NoMemory>
        ensures done { IfOk result (λ answer. delete self.old txn.now path.now ≡ record { nodes = self.new; answer = answer }) }
        ensures unchanged { OnErr result (self.new ≡ self.old) }
    {
        let told = path.copy()?;
        if let Some(code) = self.delete_fault(path) {
            return Ok(PartResult::refused(told, code));
        }
        self.take_away(txn, path);
        Ok(PartResult::done(told, None))
    }

    /// Deletes the nodes at these paths in order.
    pub(crate) fn take_all_away(&mut self, txn: &Txn, paths: &[Path])
        ensures { self.new ≡ without_all txn.now self.old paths.now }
    {
        for gone in paths {
            self.take_away(txn, gone);
        }
    }

    /// Deletes a node and updates its parent.
    fn take_away(&mut self, txn: &Txn, path: &Path)
        ensures { self.new ≡ without txn.now self.old path.now }
    {
        self.remove(path.text());
        self.parent_loses(path, txn.zxid);
    }

    /// Sets a node's content and its version. After [`NoMemory`] nothing is changed.
    pub(crate) fn set_data(
        &mut self,
        txn: &Txn,
        path: &Path,
        content: &Option<Content>,
        version: i32,
    ) -> Result<PartResult, NoMemory>
        ensures done { IfOk result (λ answer. set_data self.old txn.now path.now content.now version ≡ record { nodes = self.new; answer = answer }) }
        ensures unchanged { OnErr result (self.new ≡ self.old) }
    {
        let told = path.copy()?;
        if let Some(code) = self.missing_fault(path) {
            return Ok(PartResult::refused(told, code));
        }
        let content = Content::copy_of(content)?;
        self.write(path.text(), txn, content, version);
        let stat = self.stat_at(path.text());
        Ok(PartResult::done(told, stat))
    }

    /// Sets a node's access control list and the list's version. After [`NoMemory`] nothing is
    /// changed.
    pub(crate) fn set_acl(
        &mut self,
        path: &Path,
        acl: &Acls,
        version: i32,
    ) -> Result<PartResult, NoMemory>
        ensures done { IfOk result (λ answer. set_acl self.old path.now acl.now version ≡ record { nodes = self.new; answer = answer }) }
        ensures unchanged { OnErr result (self.new ≡ self.old) }
    {
        let told = path.copy()?;
        if let Some(code) = self.missing_fault(path) {
            return Ok(PartResult::refused(told, code));
        }
        let acl = acl.copy()?;
        self.guard(path.text(), acl, version);
        let stat = self.stat_at(path.text());
        Ok(PartResult::done(told, stat))
    }

    /// Sets a node's content and its version, if the node exists. After [`NoMemory`] nothing is
    /// changed.
    pub(crate) fn put_data(
        &mut self,
        txn: &Txn,
        path: &Path,
        content: &Option<Content>,
        version: i32,
    ) -> Result<(), NoMemory>
        ensures done { OnOk result (self.new ≡ (set_data self.old txn.now path.now content.now version).nodes) }
        ensures unchanged { OnErr result (self.new ≡ self.old) }
    {
        if self.missing_fault(path).is_some() {
            return Ok(());
        }
        let content = Content::copy_of(content)?;
        self.write(path.text(), txn, content, version);
        Ok(())
    }

    /// Sets a node's access control list and the list's version, if the node exists. After
    /// [`NoMemory`] nothing is changed.
    pub(crate) fn put_acl(&mut self, path: &Path, acl: &Acls, version: i32) -> Result<(), NoMemory>
        ensures done { OnOk result (self.new ≡ (set_acl self.old path.now acl.now version).nodes) }
        ensures unchanged { OnErr result (self.new ≡ self.old) }
    {
        if self.missing_fault(path).is_some() {
            return Ok(());
        }
        let acl = acl.copy()?;
        self.guard(path.text(), acl, version);
        Ok(())
    }

    /// The error code of a create at a path; `None` if it can be applied.
    fn create_fault(&self, path: &Path) -> Option<i32>
        ensures { result ≡ create_fault self.now path.now }
    {
        if self.get(path.text()).is_some() {
            return Some(NODE_EXISTS);
        }
        let Some(parent) = path.parent() else {
            return Some(NO_NODE);
        };
        let Some(node) = self.get(parent) else {
            return Some(NO_NODE);
        };
        if node.owner == 0 {
            None
        } else {
            Some(NO_CHILDREN_FOR_EPHEMERALS)
        }
    }

    /// The error code of a delete of the node at a path; `None` if it can be applied.
    fn delete_fault(&self, path: &Path) -> Option<i32>
        ensures { result ≡ delete_fault self.now path.now }
    {
        if path.parent().is_none() {
            return Some(BAD_ARGUMENTS);
        }
        if self.get(path.text()).is_none() {
            return Some(NO_NODE);
        }
        if self.child_count(path.text()) > 0 {
            Some(NOT_EMPTY)
        } else {
            None
        }
    }

    /// The error code of a change of the node at a path; `None` if the node exists.
    fn missing_fault(&self, path: &Path) -> Option<i32>
        ensures { result ≡ missing_fault self.now path.now }
    {
        if self.get(path.text()).is_some() {
            None
        } else {
            Some(NO_NODE)
        }
    }

    /// Counts a created child of the parent of a path.
    fn parent_gains(&mut self, path: &Path, zxid: i64, count: i32)
        ensures { self.new ≡ parent_changed self.old path.now (with_child zxid count) }
    {
        if let Some(parent) = path.parent() {
            self.add_child(parent, zxid, count);
        }
    }

    /// Records that a child of the parent of a path was deleted.
    fn parent_loses(&mut self, path: &Path, zxid: i64)
        ensures { self.new ≡ parent_changed self.old path.now (without_child zxid) }
    {
        if let Some(parent) = path.parent() {
            self.lose_child(parent, zxid);
        }
    }

    /// The stat of the node at a path.
    fn stat_at(&self, path: &str) -> Option<Stat>
        ensures { result ≡ stat_at self.now path.now }
    {
        self.get(path).map(|node| self.stat_of(path, node))
    }

    /// The stat of `node` at `path`.
    pub(crate) fn stat_of(&self, path: &str, node: &Node) -> Stat
        ensures { result ≡ stat_of self.now path.now node.now }
    {
        node.stat(self.child_count(path))
    }
}
