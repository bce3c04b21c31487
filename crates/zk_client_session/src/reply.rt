ghost use Rattle.std.specs.Prelude.{◌≡◌};
ghost use Rattle.zk_client_session.specs.Replies.{zxid_in};

use std::marker::Model;
use zk_acl::Text;
use zk_machine::ChangeKind;
use zk_table::{Names, ReadReply, TxnResult};

/// The service's reply to an ask. A `zxid` is the server's last transaction when it replied.
#[derive(Debug, Drop)]
pub enum Reply {
    /// To a write: the result of its transaction, and that transaction's time.
    Wrote { result: TxnResult, time: i64 },
    /// To a read.
    Read { reply: ReadReply, zxid: i64 },
    /// To a sync: the server has caught up.
    CaughtUp { zxid: i64 },
    /// To watches: all are set, but for those that have fired these events.
    WatchesSet { events: WatchEvents, zxid: i64 },
    /// To a removal of watches: whether there were any.
    WatchesRemoved { found: bool, zxid: i64 },
    Paths { paths: Names, zxid: i64 },
    Count { count: i32, zxid: i64 },
}

impl Reply {
    /// The last transaction that a client has seen after this reply.
    pub(crate) fn zxid(&self) -> i64
        ensures { result ≡ zxid_in self.now }
    {
        match self {
            Reply::Wrote { result, .. } => result.zxid,
            Reply::Read { zxid, .. }
            | Reply::CaughtUp { zxid }
            | Reply::WatchesSet { zxid, .. }
            | Reply::WatchesRemoved { zxid, .. }
            | Reply::Paths { zxid, .. }
            | Reply::Count { zxid, .. } => *zxid,
        }
    }
}

/// A fired watch, at the path as the client sent it.
#[derive(Debug, Drop)]
pub struct WatchEvent {
    pub kind: ChangeKind,
    pub path: Text,
}

/// Watch events, modelled as a list.
#[derive(Debug, Drop)]
pub struct WatchEvents {
    events: Vec<WatchEvent>,
}

impl Model for WatchEvents {
    ghost use Rattle.std.specs.Prelude.{List};
    ghost use Rattle.zk_client_session.specs.declared.reply.WatchEvent.{WatchEvent};

    ghost Value = { List WatchEvent };

    ghost view = { λ it. it.events.items };
}

impl WatchEvents {
    /// Allocates nothing.
    pub fn new(events: Vec<WatchEvent>) -> WatchEvents
        ensures { result ≡ events.items }
    {
        WatchEvents { events }
    }

    pub fn as_slice(&self) -> &[WatchEvent]
        ensures { result.now ≡ self.now }
    {
        self.events.as_slice()
    }
}
