//! The effect of each operation on the nodes, alone or as a part of a multi.

ghost use Rattle.std.specs.Prelude.{◌≡◌, OnOk};
ghost use Rattle.zk_table.specs.Multis.{apply_part, nodes_after};
ghost use Rattle.zk_table.specs.Operations.{create, delete, set_data, set_acl, without_all};
ghost use Rattle.zk_table.specs.States.{owned_by};

use crate::node_index::NodeIndex;
use zk_acl::Acls;
use zk_path::{NoMemory, Path};
use zk_table::{Content, Node, Sub, Txn};

impl NodeIndex {
    pub(crate) fn create(
        &mut self,
        txn: &Txn,
        path: &Path,
        content: &Option<Content>,
        acl: &Acls,
        ephemeral: bool,
        count: i32,
    ) -> Result<(), NoMemory>
        ensures { OnOk result (self.new ≡ (create self.old txn.now path.now content.now acl.now ephemeral count).nodes) }
    {
        let node = Node::created(txn, content, acl, ephemeral)?;
        self.put(path, node, txn.zxid, count)
    }

    /// Deletes a node without children.
    pub(crate) fn delete(&mut self, txn: &Txn, path: &Path)
        ensures { self.new ≡ (delete self.old txn.now path.now).nodes }
    {
        if self.is_loose(path) {
            self.take(txn, path);
        }
    }

    /// Sets a node's content and its version.
    pub(crate) fn set_data(
        &mut self,
        txn: &Txn,
        path: &Path,
        content: &Option<Content>,
        version: i32,
    ) -> Result<(), NoMemory>
        ensures { OnOk result (self.new ≡ (set_data self.old txn.now path.now content.now version).nodes) }
    {
        let content = Content::copy_of(content)?;
        self.write(path, txn, content, version);
        Ok(())
    }

    /// Sets a node's access control list and the list's version.
    pub(crate) fn set_acl(&mut self, path: &Path, acl: &Acls, version: i32) -> Result<(), NoMemory>
        ensures { OnOk result (self.new ≡ (set_acl self.old path.now acl.now version).nodes) }
    {
        let acl = acl.copy()?;
        self.guard(path, acl, version);
        Ok(())
    }

    /// Applies one part of a multi.
    pub(crate) fn apply_part(&mut self, txn: &Txn, part: &Sub) -> Result<(), NoMemory>
        ensures { OnOk result (self.new ≡ (apply_part txn.now self.old part.now).nodes) }
    {
        match part {
            Sub::Create {
                path,
                content,
                acl,
                ephemeral,
                count,
            } => self.create(txn, path, content, acl, *ephemeral, *count)?,
            Sub::Delete { path } => self.delete(txn, path),
            Sub::SetData {
                path,
                content,
                version,
            } => self.set_data(txn, path, content, *version)?,
            Sub::Check { .. } | Sub::Error { .. } => {}
        }
        Ok(())
    }

    /// Applies the parts of a multi in order. After [`NoMemory`] some of them are applied.
    pub(crate) fn apply_parts(&mut self, txn: &Txn, parts: &[Sub]) -> Result<(), NoMemory>
        ensures { OnOk result (self.new ≡ nodes_after txn.now self.old parts.now) }
    {
        for part in parts {
            self.apply_part(txn, part)?;
        }
        Ok(())
    }

    /// Deletes the nodes that a session owns and updates their parents.
    pub(crate) fn take_owned(&mut self, txn: &Txn) -> Result<(), NoMemory>
        ensures { OnOk result (self.new ≡ without_all txn.now self.old (owned_by self.old txn.now.session)) }
    {
        let owned = self.owned_by(txn.session)?;
        for path in owned.as_slice() {
            self.stands();
            self.take(txn, path);
        }
        Ok(())
    }
}
