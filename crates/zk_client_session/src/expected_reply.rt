ghost use Rattle.std.specs.Prelude.{◌≡◌};
ghost use Rattle.zk_client_session.specs.Replies.{closes_by, is_begun};

use std::marker::Model;
use zk_acl::Text;

/// The reply that a request expects.
#[derive(Debug, Drop)]
pub struct ExpectedReply {
    /// The request's number, which its reply repeats.
    pub xid: i32,
    pub kind: ReplyKind,
}

impl ExpectedReply {
    /// Whether the connection closes after this reply.
    pub fn closes(&self) -> bool
        ensures { result ≡ closes_by self.now.kind }
    {
        matches!(self.kind, ReplyKind::Closed)
    }

    /// Whether a later part of the request has the reply.
    pub(crate) fn is_begun(&self) -> bool
        ensures { result ≡ is_begun self.now.kind }
    {
        matches!(self.kind, ReplyKind::WatchesBegun)
    }
}

/// The content of a reply to a request that succeeds.
#[derive(Debug, Drop)]
pub enum ReplyKind {
    /// The path of the new node.
    Created,
    /// The path of the new node, and the stat of a node of this owner and with this many bytes.
    CreatedWithStat { owner: i64, length: i32 },
    /// Nothing.
    Deleted,
    /// The node's stat.
    Changed,
    /// The result of each part of a multi.
    Multi(PartKinds),
    /// Nothing; the connection closes after it.
    Closed,
    /// The node's stat.
    Existence,
    /// The node's content and stat.
    Data,
    /// The node's access control list and stat.
    Acl,
    /// The names of the node's children.
    Children,
    /// The names of the node's children, and its stat.
    ChildrenWithStat,
    /// The path as it was sent: the server has caught up.
    Synced(Text),
    /// Nothing: the watches are set, or have fired.
    WatchesSet,
    /// None at all: the first watches of a `setWatches` are set, or have fired, and the others have
    /// the reply.
    WatchesBegun,
    /// Nothing: the watches are removed.
    WatchesRemoved,
    /// The paths of ephemeral nodes.
    Paths,
    /// A number of nodes.
    Count,
}

/// The kind of a part of a multi.
#[derive(Clone, Copy, Debug, PartialEq, Eq)]
pub enum PartKind {
    Create,
    Delete,
    SetData,
    Check,
}

/// The kinds of a multi's parts, modelled as a list.
#[derive(Debug, Drop)]
pub struct PartKinds {
    kinds: Vec<PartKind>,
}

impl Model for PartKinds {
    ghost use Rattle.std.specs.Prelude.{List};
    ghost use Rattle.zk_client_session.specs.declared.expected_reply.PartKind.{PartKind};

    ghost Value = { List PartKind };

    ghost view = { λ it. it.kinds.items };
}

impl PartKinds {
    /// Allocates nothing.
    pub fn new(kinds: Vec<PartKind>) -> PartKinds
        ensures { result ≡ kinds.items }
    {
        PartKinds { kinds }
    }

    pub(crate) fn as_slice(&self) -> &[PartKind]
        ensures { result.now ≡ self.now }
    {
        self.kinds.as_slice()
    }
}
