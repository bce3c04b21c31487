//! The effect of each operation on the tree, alone or as a part of a multi, with preimages.

ghost use Rattle.std.specs.Prelude.{◌≡◌, IfOk, OnOk};
ghost use Rattle.zk_table.specs.Multis.{apply_part};
ghost use Rattle.zk_table.specs.Operations.{create, create_fault, delete, delete_fault, set_data, set_acl, without, without_all};
ghost use Rattle.zk_table.specs.States.{owned_by};
ghost use Rattle.zk_machine.specs.Undoing.{nodes_before};

use crate::noted_tree::NotedTree;
use zk_acl::Acls;
use zk_path::{NoMemory, Path};
use zk_table::codes::{BAD_ARGUMENTS, NO_CHILDREN_FOR_EPHEMERALS, NO_NODE, NODE_EXISTS, NOT_EMPTY};
use zk_table::{Content, Node, PartResult, Sub, Txn};

impl NotedTree {
    pub(crate) fn create(
        &mut self,
        txn: &Txn,
        path: &Path,
        content: &Option<Content>,
        acl: &Acls,
        ephemeral: bool,
        count: i32,
    ) -> Result<PartResult, NoMemory>
        ensures done { IfOk result (λ answer. create self.old.tree txn.now path.now content.now acl.now ephemeral count ≡ record { nodes = self.new.tree; answer = answer }) }
        ensures before { OnOk result (nodes_before self.new.touched self.new.tree ≡ nodes_before self.old.touched self.old.tree) }
    {
        let told = path.copy()?;
        if let Some(code) = self.create_fault(path) {
            return Ok(PartResult::refused(told, code));
        }
        let node = Node::created(txn, content, acl, ephemeral)?;
        self.put(path, node)?;
        self.parent_gains(path, txn.zxid, count)?;
        Ok(PartResult::done(told, None))
    }

    /// Deletes a node without children.
    pub(crate) fn delete(&mut self, txn: &Txn, path: &Path) -> Result<PartResult, NoMemory>
        ensures done { IfOk result (λ answer. delete self.old.tree txn.now path.now ≡ record { nodes = self.new.tree; answer = answer }) }
        ensures before { OnOk result (nodes_before self.new.touched self.new.tree ≡ nodes_before self.old.touched self.old.tree) }
    {
        let told = path.copy()?;
        if let Some(code) = self.delete_fault(path) {
            return Ok(PartResult::refused(told, code));
        }
        self.take(path)?;
        self.parent_loses(path, txn.zxid)?;
        Ok(PartResult::done(told, None))
    }

    /// Sets a node's content and its version.
    pub(crate) fn set_data(
        &mut self,
        txn: &Txn,
        path: &Path,
        content: &Option<Content>,
        version: i32,
    ) -> Result<PartResult, NoMemory>
        ensures done { IfOk result (λ answer. set_data self.old.tree txn.now path.now content.now version ≡ record { nodes = self.new.tree; answer = answer }) }
        ensures before { OnOk result (nodes_before self.new.touched self.new.tree ≡ nodes_before self.old.touched self.old.tree) }
    {
        let told = path.copy()?;
        let Some(node) = self.tree.get(path) else {
            return Ok(PartResult::refused(told, NO_NODE));
        };
        let mut node = node.copy()?;
        node.write(txn, Content::copy_of(content)?, version);
        self.change(path.copy()?, node)?;
        Ok(PartResult::done(told, self.tree.stat(path)))
    }

    /// Sets a node's access control list and the list's version.
    pub(crate) fn set_acl(
        &mut self,
        path: &Path,
        acl: &Acls,
        version: i32,
    ) -> Result<PartResult, NoMemory>
        ensures done { IfOk result (λ answer. set_acl self.old.tree path.now acl.now version ≡ record { nodes = self.new.tree; answer = answer }) }
        ensures before { OnOk result (nodes_before self.new.touched self.new.tree ≡ nodes_before self.old.touched self.old.tree) }
    {
        let told = path.copy()?;
        let Some(node) = self.tree.get(path) else {
            return Ok(PartResult::refused(told, NO_NODE));
        };
        let mut node = node.copy()?;
        node.guard(acl.copy()?, version);
        self.change(path.copy()?, node)?;
        Ok(PartResult::done(told, self.tree.stat(path)))
    }

    /// Applies one part of a multi.
    pub(crate) fn apply_part(&mut self, txn: &Txn, part: &Sub) -> Result<PartResult, NoMemory>
        ensures done { IfOk result (λ answer. apply_part txn.now self.old.tree part.now ≡ record { nodes = self.new.tree; answer = answer }) }
        ensures before { OnOk result (nodes_before self.new.touched self.new.tree ≡ nodes_before self.old.touched self.old.tree) }
    {
        match part {
            Sub::Create {
                path,
                content,
                acl,
                ephemeral,
                count,
            } => self.create(txn, path, content, acl, *ephemeral, *count),
            Sub::Delete { path } => self.delete(txn, path),
            Sub::SetData {
                path,
                content,
                version,
            } => self.set_data(txn, path, content, *version),
            Sub::Check { path, .. } => Ok(PartResult::done(path.copy()?, None)),
            Sub::Error { code } => Ok(PartResult::plain(*code)),
        }
    }

    /// Deletes the nodes that a session owns and updates their parents.
    pub(crate) fn take_owned(&mut self, txn: &Txn) -> Result<(), NoMemory>
        ensures tree { OnOk result (self.new.tree ≡ without_all txn.now self.old.tree (owned_by self.old.tree txn.now.session)) }
        ensures before { OnOk result (nodes_before self.new.touched self.new.tree ≡ nodes_before self.old.touched self.old.tree) }
    {
        let owned = self.tree.owned_by(txn.session)?;
        for path in owned.as_slice() {
            self.tree.stands();
            self.take(path)?;
            self.parent_loses(path, txn.zxid)?;
        }
        Ok(())
    }

    /// The error code of a create at a path; `None` if it can be applied.
    fn create_fault(&self, path: &Path) -> Option<i32>
        ensures { result ≡ create_fault self.now.tree path.now }
    {
        if self.tree.get(path).is_some() {
            return Some(NODE_EXISTS);
        }
        let Some(parent) = path.parent() else {
            return Some(NO_NODE);
        };
        let Some(node) = self.tree.get_by_text(parent) else {
            return Some(NO_NODE);
        };
        if node.owner == 0 {
            None
        } else {
            Some(NO_CHILDREN_FOR_EPHEMERALS)
        }
    }

    /// The error code of a delete of the node at a path; `None` if it can be applied.
    fn delete_fault(&self, path: &Path) -> Option<i32>
        ensures { result ≡ delete_fault self.now.tree path.now }
    {
        if path.parent().is_none() {
            return Some(BAD_ARGUMENTS);
        }
        if self.tree.get(path).is_none() {
            return Some(NO_NODE);
        }
        if self.tree.child_count(path) > 0 {
            Some(NOT_EMPTY)
        } else {
            None
        }
    }
}
