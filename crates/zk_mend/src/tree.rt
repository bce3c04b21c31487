ghost use Rattle.std.specs.Prelude.{◌≡◌, IfOk, OnOk, IsTrue};
ghost use Rattle.std.specs.FinMap as finite;
ghost use Rattle.std.specs.Option.{option_copied};
ghost use Rattle.zk_table.specs.States.{start_state, path_cmp};
ghost use Rattle.zk_machine.specs.Undoing.{nodes_before};
ghost use Rattle.zk_mend.specs.Digests.{Owners as ServerOwners};
ghost use Rattle.zk_mend.specs.Following.{IsDigestOf, no_owners, owner_after, owners_after};
ghost use Rattle.zk_mend.specs.Stepping.{counted, sum_stepped, sum_over, owners_step, owners_stepped};

use crate::node::node_digest;
use crate::owners::Owners;
use std::alloc::Global;
use zk_machine::Undo;
use zk_path::{NoMemory, Path};
use zk_table::Node;
use zk_tree::Tree;

/// The digest of a tree, which servers from 3.6 on write after a transaction: a sum, read as
/// unsigned.
pub struct TreeDigest {
    alloc: Global,
    sum: u64,
    owners: Owners,
}

impl Drop for TreeDigest {
    fn drop(self) {
        let TreeDigest {
            alloc: _,
            sum: _,
            owners: _,
        } = self;
    }
}

impl TreeDigest {
    /// The digest of the tree before any transaction.
    pub fn new(alloc: Global) -> Result<TreeDigest, NoMemory>
        ensures { IfOk result (λ digest. IsDigestOf no_owners start_state.nodes digest) }
    {
        let node = Node::first(alloc)?;
        let root = u64::from(node_digest("/", &node, node.owner));
        let zookeeper = u64::from(node_digest("/zookeeper", &node, node.owner));
        let quota = u64::from(node_digest("/zookeeper/quota", &node, node.owner));
        Ok(TreeDigest {
            alloc,
            sum: root + zookeeper + quota,
            owners: Owners::new(alloc),
        })
    }

    /// Updates the digest after a transaction that led to `tree`. The undo record names the touched
    /// paths, so the cost does not depend on the size of the tree. `given` are the owners, on the
    /// 3.5 to 3.8 server, of the nodes that the record created, in its order. The last entry of a
    /// path counts, and 0 represents the table's own owner. Nothing is specified of the digest
    /// after an allocation failure.
    pub fn follow(
        &mut self,
        undo: &Undo,
        tree: &Tree,
        given: &[(Path, i64)],
    ) -> Result<(), NoMemory>
        ensures { OnOk result ((owners : ServerOwners) → IsDigestOf owners (nodes_before undo.now.touched tree.now) self.old → IsDigestOf (owners_after (nodes_before undo.now.touched tree.now) tree.now given.now owners) tree.now self.new) }
    {
        let given = Owners::given(self.alloc, given)?;
        self.follow_notes(undo.notes(), tree, &given)?;
        Ok(())
    }

    /// The digest: the sum over all nodes, modulo 2^64.
    pub fn sum(&self) -> u64
        ensures { result ≡ self.now.sum }
    {
        self.sum
    }

    /// Updates the digest for the touched paths in order.
    fn follow_notes(
        &mut self,
        notes: &[(Path, Option<Node>)],
        tree: &Tree,
        given: &Owners,
    ) -> Result<(), NoMemory>
        requires sorted { IsTrue (finite.is_sorted path_cmp notes.now) }
        ensures sum { OnOk result (self.new.sum ≡ sum_over notes.now tree.now given.now self.old.owners self.old.sum) }
        ensures owners { OnOk result (self.new.owners ≡ owners_stepped notes.now tree.now given.now self.old.owners) }
    {
        for (path, before) in notes {
            self.step(path, before, tree, given)?;
        }
        Ok(())
    }

    /// Updates the digest for one touched path: subtracts the digest of the node before and adds
    /// that of the node now.
    fn step(
        &mut self,
        path: &Path,
        before: &Option<Node>,
        tree: &Tree,
        given: &Owners,
    ) -> Result<(), NoMemory>
        ensures sum { OnOk result (self.new.sum ≡ sum_stepped path.now before.now tree.now given.now self.old.owners self.old.sum) }
        ensures owners { OnOk result (self.new.owners ≡ owners_step path.now before.now tree.now given.now self.old.owners) }
    {
        let after = tree.get(path);
        let owner = self.owners.get(path);
        let next = owner_after(before.as_ref(), after, given.get(path), owner);
        let out = counted(path, before.as_ref(), owner);
        let comes = counted(path, after, next);
        self.owners.set(path, next)?;
        self.sum = self.sum.wrapping_sub(out).wrapping_add(comes);
        Ok(())
    }
}

/// The owner at a path on the 3.5 to 3.8 server, from the nodes before and after, the given owner
/// and the owner before.
fn owner_after(
    before: Option<&Node>,
    after: Option<&Node>,
    given: Option<i64>,
    owner: Option<i64>,
) -> Option<i64>
    ensures { result ≡ owner_after (option_copied before.entry) (option_copied after.entry) given owner }
{
    match (before, after) {
        (None, None) => owner,
        (None, Some(_)) => given,
        (Some(_), None) => None,
        (Some(before), Some(after)) => {
            if before.czxid == after.czxid {
                owner
            } else {
                given
            }
        }
    }
}

/// The digest of a node with this owner, or else its own; 0 for `None`.
fn counted(path: &Path, node: Option<&Node>, owner: Option<i64>) -> u64
    ensures { result ≡ counted path.now (option_copied node.entry) owner }
{
    match node {
        Some(node) => u64::from(node_digest(path.text(), node, owner.unwrap_or(node.owner))),
        None => 0,
    }
}
