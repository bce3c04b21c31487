ghost use Rattle.std.specs.Prelude.{◌≡◌};
ghost use Rattle.zk_client_session.specs.Links.{watcher_type};
ghost use Rattle.zk_client_session.specs.Replies.{closes_after};

use crate::expected_reply::ExpectedReply;
use crate::saved_watch::SavedWatches;
use zk_acl::{Ids, Text};
use zk_path::Path;
use zk_requests::Request;
use zk_table::ReadCall;

/// A frame's request to the service.
#[derive(Debug, Drop)]
pub enum Ask {
    /// A request, with its session, its number in that session, and the identities that the
    /// connection has proved.
    Write {
        session: i64,
        cxid: i32,
        auths: Ids,
        request: Request,
    },
    /// A read, with its session, the last transaction that the client has seen, the identities that
    /// the connection has proved, and whether to set a watch on what is read.
    Read {
        session: i64,
        seen: i64,
        auths: Ids,
        call: ReadCall,
        watch: bool,
    },
    /// Waits until the server has caught up with its leader.
    Sync {
        session: i64,
    },
    /// Fires or sets the watches that the client had at another connection, in order.
    SetWatches {
        session: i64,
        relative_zxid: i64,
        auths: Ids,
        watches: SavedWatches,
    },
    /// Removes the connection's watches of a type at a path.
    RemoveWatches {
        path: Path,
        kind: WatcherType,
    },
    /// The paths of the session's ephemeral nodes that have a prefix: [`ephemerals`].
    ///
    /// [`ephemerals`]: crate::ephemerals
    Ephemerals {
        session: i64,
        prefix: Text,
    },
    /// The number of nodes below a path, for a caller who may read its children:
    /// [`descendant_count`].
    ///
    /// [`descendant_count`]: crate::descendant_count
    CountDescendants {
        session: i64,
        seen: i64,
        auths: Ids,
        path: Path,
    },
}

/// Which watches a client removes. `Watcher.WatcherType`.
#[derive(Clone, Copy, Debug, PartialEq, Eq)]
pub enum WatcherType {
    /// Those of reads of children.
    Children,
    /// Those of reads of content or existence.
    Data,
    Any,
}

impl WatcherType {
    pub(crate) fn of(number: i32) -> Option<WatcherType>
        ensures { result ≡ watcher_type number }
    {
        match number {
            1 => Some(WatcherType::Children),
            2 => Some(WatcherType::Data),
            3 => Some(WatcherType::Any),
            _ => None,
        }
    }
}

/// A reply that needs no service.
#[derive(Clone, Copy, Debug, PartialEq, Eq)]
pub enum Immediate {
    /// To a ping.
    Ping,
    /// The identity is proved.
    Authenticated { xid: i32 },
    /// It is not; the connection closes.
    NotAuthenticated { xid: i32 },
    /// A request of an unknown type.
    Unimplemented { xid: i32 },
    /// An error, with this code.
    Rejected { xid: i32, code: i32 },
}

impl Immediate {
    /// Whether the connection closes after this reply.
    pub fn closes(&self) -> bool
        ensures { result ≡ closes_after self.now }
    {
        matches!(self, Immediate::NotAuthenticated { .. })
    }
}

/// What a frame does.
#[derive(Debug, Drop)]
pub enum Action {
    /// Replies, once the requests before it have their replies.
    Replies(Immediate),
    /// Asks the service, and waits for this reply.
    Asks { ask: Ask, expected: ExpectedReply },
    /// Closes the connection, without a reply.
    Closes,
}
