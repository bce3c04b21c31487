ghost use Rattle.std.specs.Prelude.{◌≡◌, None, Some, true, IfOk, length, is_some, option_map};
ghost use Rattle.std.specs.FinMap as finite;
ghost use Rattle.std.specs.Option.{option_copied};
ghost use Rattle.zk_table.specs.Nodes.{with_child, without_child};
ghost use Rattle.zk_table.specs.Multis.{apply_part};
ghost use Rattle.zk_table.specs.Operations.{create, create_fault, delete, delete_fault, set_data, without};
ghost use Rattle.zk_table.specs.States.{children_of, parent_changed};
ghost use Rattle.zk_requests.specs.Overlays.{placed, IsRecount};

use crate::deltas::{Delta, Deltas};
use std::alloc::Global;
use std::marker::Model;
use zk_acl::Acls;
use zk_path::{NoMemory, Path};
use zk_table::{Content, Node, Sub, Txn};
use zk_tree::Tree;

/// The nodes of a tree with changes on top, which leave the tree unchanged. An allocation failure
/// consumes the overlay.
#[derive(Drop)]
pub struct Overlay<'a> {
    alloc: Global,
    tree: &'a Tree,
    shades: Deltas,
}

impl<'a> Model for Overlay<'a> {
    ghost use Rattle.std.specs.Coded.{coded_list, coded_ℕ};
    ghost use Rattle.std.specs.FinMap as finite;
    ghost use Rattle.zk_table.specs.contracts.node.Node as node;
    ghost use Rattle.zk_table.specs.States.{NodeMap};
    ghost use Rattle.zk_requests.specs.Overlays.{nodes_over, IsCounted};

    ghost Value = { NodeMap };

    ghost coded = { finite.code (coded_list coded_ℕ) node.the_row.coded };

    ghost view = { λ overlay. nodes_over overlay.shades overlay.tree.now };

    ghost invariant = { λ overlay. IsCounted overlay.shades overlay.tree.now };
}

/// The number of children of a path in a tree.
fn count_in(tree: &Tree, path: &str) -> usize
    ensures { result ≡ length (children_of tree.now path.now) }
{
    tree.stands();
    match tree.entry_by_text(path) {
        Some((path, _)) => tree.child_count(path),
        None => 0,
    }
}

impl<'a> Overlay<'a> {
    /// An overlay without changes.
    pub fn new(alloc: Global, tree: &'a Tree) -> Overlay<'a>
        ensures { result ≡ tree.now }
    {
        Overlay {
            alloc,
            tree,
            shades: Deltas::new(alloc),
        }
    }

    /// The allocator of the changes.
    pub fn allocator(&self) -> Global {
        self.alloc
    }

    pub fn get(&self, path: &str) -> Option<&Node>
        ensures { option_copied result ≡ finite.get self.now path.now }
    {
        match self.shades.get(path) {
            Some(shade) => shade.node.as_ref(),
            None => self.tree.get_by_text(path),
        }
    }

    /// The number of children of the node at a path.
    pub fn child_count(&self, path: &str) -> usize
        ensures { result ≡ length (children_of self.now path.now) }
    {
        match self.shades.get(path) {
            Some(shade) => shade.children,
            None => count_in(self.tree, path),
        }
    }

    /// The nodes after a part of a multi.
    pub fn with_part(self, txn: &Txn, part: &Sub) -> Result<Overlay<'a>, NoMemory>
        ensures { IfOk result (λ after. after ≡ (apply_part txn.now self.entry part.now).nodes) }
    {
        match part {
            Sub::Create {
                path,
                content,
                acl,
                ephemeral,
                count,
            } => self.with_create(txn, path, content, acl, *ephemeral, *count),
            Sub::Delete { path } => self.with_delete(txn, path),
            Sub::SetData {
                path,
                content,
                version,
            } => self.with_set_data(txn, path, content, *version),
            Sub::Check { .. } | Sub::Error { .. } => Ok(self),
        }
    }

    fn with_create(
        self,
        txn: &Txn,
        path: &Path,
        content: &Option<Content>,
        acl: &Acls,
        ephemeral: bool,
        count: i32,
    ) -> Result<Overlay<'a>, NoMemory>
        ensures { IfOk result (λ after. after ≡ (create self.entry txn.now path.now content.now acl.now ephemeral count).nodes) }
    {
        if self.refuses_create(path) {
            return Ok(self);
        }
        let node = Node::created(txn, content, acl, ephemeral)?;
        self.with_node(path, node, txn.zxid, count)
    }

    fn with_delete(self, txn: &Txn, path: &Path) -> Result<Overlay<'a>, NoMemory>
        ensures { IfOk result (λ after. after ≡ (delete self.entry txn.now path.now).nodes) }
    {
        if self.refuses_delete(path) {
            return Ok(self);
        }
        self.without_node(path, txn.zxid)
    }

    fn with_set_data(
        self,
        txn: &Txn,
        path: &Path,
        content: &Option<Content>,
        version: i32,
    ) -> Result<Overlay<'a>, NoMemory>
        ensures { IfOk result (λ after. after ≡ (set_data self.entry txn.now path.now content.now version).nodes) }
    {
        let Some(node) = self.get(path.text()) else {
            return Ok(self);
        };
        let mut node = node.copy()?;
        node.write(txn, Content::copy_of(content)?, version);
        self.with_other_node(path, node)
    }

    /// Whether a create at a path is rejected.
    fn refuses_create(&self, path: &Path) -> bool
        ensures { result ≡ is_some (create_fault self.now path.now) }
    {
        if self.get(path.text()).is_some() {
            return true;
        }
        let Some(parent) = path.parent() else {
            return true;
        };
        let Some(node) = self.get(parent) else {
            return true;
        };
        node.owner != 0
    }

    /// Whether a delete of the node at a path is rejected.
    fn refuses_delete(&self, path: &Path) -> bool
        ensures { result ≡ is_some (delete_fault self.now path.now) }
    {
        path.parent().is_none()
            || self.get(path.text()).is_none()
            || self.child_count(path.text()) > 0
    }

    /// Adds a node and counts it in its parent.
    fn with_node(
        self,
        path: &Path,
        node: Node,
        zxid: i64,
        count: i32,
    ) -> Result<Overlay<'a>, NoMemory>
        requires { create_fault self path.now ≡ None }
        ensures { IfOk result (λ after. after ≡ parent_changed (finite.insert self.entry path.now node) path.now (with_child zxid count)) }
    {
        let Some(parent) = path.parent() else {
            unreachable!()
        };
        let above = self.with_child(parent, zxid, count)?;
        let Some(children) = self.child_count(parent).checked_add(1) else {
            return Err(NoMemory);
        };
        let own = Delta {
            children: self.child_count(path.text()),
            node: Some(node),
        };
        self.shaded(
            path.text(),
            own,
            parent,
            Delta {
                node: above,
                children,
            },
        )
    }

    /// Removes a node and updates its parent.
    fn without_node(self, path: &Path, zxid: i64) -> Result<Overlay<'a>, NoMemory>
        requires { delete_fault self path.now ≡ None }
        ensures { IfOk result (λ after. after ≡ parent_changed (finite.remove self.entry path.now) path.now (without_child zxid)) }
    {
        let Some(parent) = path.parent() else {
            unreachable!()
        };
        let above = self.without_child(parent, zxid)?;
        let children = self.child_count(parent).saturating_sub(1);
        let own = Delta {
            node: None,
            children: 0,
        };
        self.shaded(
            path.text(),
            own,
            parent,
            Delta {
                node: above,
                children,
            },
        )
    }

    /// The node at a path, if there is one, with one child more.
    fn with_child(&self, path: &str, zxid: i64, count: i32) -> Result<Option<Node>, NoMemory>
        ensures { IfOk result (λ node. node ≡ option_map (with_child zxid count) (finite.get self.now path.now)) }
    {
        let Some(node) = self.get(path) else {
            return Ok(None);
        };
        let mut node = node.copy()?;
        node.add_child(zxid, count);
        Ok(Some(node))
    }

    /// The node at a path, if there is one, with one child less.
    fn without_child(&self, path: &str, zxid: i64) -> Result<Option<Node>, NoMemory>
        ensures { IfOk result (λ node. node ≡ option_map (without_child zxid) (finite.get self.now path.now)) }
    {
        let Some(node) = self.get(path) else {
            return Ok(None);
        };
        let mut node = node.copy()?;
        node.lose_child(zxid);
        Ok(Some(node))
    }

    /// Replaces an existing node.
    fn with_other_node(self, path: &Path, node: Node) -> Result<Overlay<'a>, NoMemory>
        requires { finite.contains_key self path.now ≡ true }
        ensures { IfOk result (λ after. after ≡ finite.insert self.entry path.now node) }
    {
        let children = self.child_count(path.text());
        let Overlay {
            alloc,
            tree,
            mut shades,
        } = self;
        let shade = Delta {
            node: Some(node),
            children,
        };
        shades.set(alloc, path.text(), shade)?;
        Ok(Overlay {
            alloc,
            tree,
            shades,
        })
    }

    /// Sets the changes at a path and at its parent's, with their numbers of children.
    fn shaded(
        self,
        path: &str,
        own: Delta,
        parent: &str,
        above: Delta,
    ) -> Result<Overlay<'a>, NoMemory>
        requires { IsRecount self (placed parent.now above.node (placed path.now own.node self)) path.now parent.now own.children above.children }
        ensures { IfOk result (λ after. after ≡ placed parent.now above.node (placed path.now own.node self.entry)) }
    {
        let Overlay {
            alloc,
            tree,
            mut shades,
        } = self;
        shades.set(alloc, path, own)?;
        shades.set(alloc, parent, above)?;
        Ok(Overlay {
            alloc,
            tree,
            shades,
        })
    }
}
