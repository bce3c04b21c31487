ghost use Rattle.std.specs.Prelude.{◌≡◌};
ghost use Rattle.zk_replay.specs.Drafts.{later, fresh, with_child, without_child, written, guarded, as_parent};

use zk_acl::Acls;
use zk_path::Path;
use zk_table::{Content, Node, Txn};

/// A node of a snapshot while the snapshot's window is replayed.
#[derive(Debug, Drop)]
pub struct DraftNode {
    pub path: Path,
    pub node: Node,
    /// `ephemeralOwner` as servers store it: -2^63 for a container, above -2^56 and negative with a
    /// time to live.
    pub raw_owner: i64,
    /// The file lacks the access control list that the node refers to.
    pub lacks_acl: bool,
    /// A node was put below this one.
    pub had_children: bool,
}

/// The greater zxid.
pub(crate) fn later(one: i64, other: i64) -> i64
    ensures { result ≡ later one other }
{
    if one < other { other } else { one }
}

impl DraftNode {
    /// A node that a transaction of the window creates.
    pub fn fresh(path: Path, node: Node) -> DraftNode
        ensures { result ≡ fresh path node }
    {
        let raw_owner = node.owner;
        DraftNode {
            path,
            node,
            raw_owner,
            lacks_acl: false,
            had_children: false,
        }
    }

    /// Counts a child.
    pub(crate) fn add_child(&mut self, zxid: i64, count: i32)
        ensures { self.new ≡ with_child zxid count self.old }
    {
        let pzxid = later(self.node.pzxid, zxid);
        self.node.add_child(pzxid, count);
        self.had_children = true;
    }

    /// Records that a child is deleted.
    pub(crate) fn lose_child(&mut self, zxid: i64)
        ensures { self.new ≡ without_child zxid self.old }
    {
        let pzxid = later(self.node.pzxid, zxid);
        self.node.lose_child(pzxid);
    }

    /// Sets the content.
    pub(crate) fn write(&mut self, txn: &Txn, content: Option<Content>, version: i32)
        ensures { self.new ≡ written txn.now content version self.old }
    {
        self.node.write(txn, content, version);
    }

    /// Sets the access control list.
    pub(crate) fn guard(&mut self, acl: Acls, version: i32)
        ensures { self.new ≡ guarded acl version self.old }
    {
        self.node.guard(acl, version);
        self.lacks_acl = false;
    }

    /// Records that a node is put below this one.
    pub(crate) fn mark_parent(&mut self)
        ensures { self.new ≡ as_parent self.old }
    {
        self.had_children = true;
    }
}
