ghost use Rattle.std.specs.Prelude.{◌≡◌};

use std::marker::Model;
use zk_acl::{Acls, Stat, Text};
use zk_table::{Content, Names};

/// The result of a part of a multi.
#[derive(Debug, Drop)]
pub enum MultiResult {
    Create(Text),
    Delete,
    SetData(Stat),
    Check,
    /// The multi failed: the error of the part that failed, 0 for those before it, and -2 for
    /// those after it.
    Error(i32),
}

/// The results of a multi, modelled as their list.
#[derive(Debug, Drop)]
pub struct MultiResults {
    results: Vec<MultiResult>,
}

impl Model for MultiResults {
    ghost use Rattle.std.specs.Prelude.{List};
    ghost use Rattle.zk_frames.specs.declared.reply.MultiResult.{MultiResult};

    ghost Value = { List MultiResult };

    ghost view = { λ it. it.results.items };
}

impl MultiResults {
    /// Wraps the results; allocates nothing.
    pub fn new(results: Vec<MultiResult>) -> MultiResults
        ensures { result ≡ results.items }
    {
        MultiResults { results }
    }

    pub fn as_slice(&self) -> &[MultiResult]
        ensures { result.now ≡ self.now }
    {
        self.results.as_slice()
    }
}

/// What follows the header of a reply.
#[derive(Debug, Drop)]
pub enum ReplyBody {
    /// Of an error, delete, ping, auth, setWatches, removeWatches and closeSession.
    Empty,
    /// Of create and sync.
    Path(Text),
    /// Of create2.
    PathAndStat {
        path: Text,
        stat: Stat,
    },
    /// Of exists, setData and setACL.
    Stat(Stat),
    /// Of getData.
    Data {
        content: Option<Content>,
        stat: Stat,
    },
    /// Of getACL.
    Acl {
        acl: Acls,
        stat: Stat,
    },
    /// Of getChildren and getEphemerals.
    Children(Names),
    /// Of getChildren2.
    ChildrenAndStat {
        children: Names,
        stat: Stat,
    },
    /// Of getAllChildrenNumber.
    Count(i32),
    /// Of a multi, also of one that failed.
    Multi(MultiResults),
}

/// The reply to a request: the header's number, transaction and error, and the body.
#[derive(Debug, Drop)]
pub struct ClientReply {
    pub xid: i32,
    pub zxid: i64,
    pub err: i32,
    pub body: ReplyBody,
}

/// A watch event: 1 created, 2 deleted, 3 data changed, 4 children changed.
#[derive(Debug, Drop)]
pub struct WatcherEvent {
    pub kind: i32,
    pub path: Text,
}

/// The reply to a connect request. The session 0 means that there is no such session any more.
#[derive(Clone, Copy, Debug)]
pub struct ConnectResponse {
    pub timeout: i32,
    pub session: i64,
    pub password: [u8; 16],
    /// Only clients of 3.4 and later read it.
    pub read_only: Option<bool>,
}
