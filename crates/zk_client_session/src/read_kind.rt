ghost use Rattle.std.specs.Prelude.{◌≡◌};
ghost use Rattle.zk_client_session.specs.Links.{call_of, reply_kind};

use crate::expected_reply::ReplyKind;
use zk_path::Path;
use zk_table::ReadCall;

/// The type of a read of one node.
#[derive(Clone, Copy, Debug)]
pub(crate) enum ReadKind {
    Exists,
    GetData,
    GetAcl,
    GetChildren,
    GetChildren2,
}

impl ReadKind {
    pub(crate) fn call(self, path: Path) -> ReadCall
        ensures { result ≡ call_of self path }
    {
        match self {
            ReadKind::Exists => ReadCall::Exists { path },
            ReadKind::GetData => ReadCall::GetData { path },
            ReadKind::GetAcl => ReadCall::GetAcl { path },
            ReadKind::GetChildren | ReadKind::GetChildren2 => ReadCall::GetChildren { path },
        }
    }

    pub(crate) fn reply(self) -> ReplyKind
        ensures { result ≡ reply_kind self }
    {
        match self {
            ReadKind::Exists => ReplyKind::Existence,
            ReadKind::GetData => ReplyKind::Data,
            ReadKind::GetAcl => ReplyKind::Acl,
            ReadKind::GetChildren => ReplyKind::Children,
            ReadKind::GetChildren2 => ReplyKind::ChildrenWithStat,
        }
    }
}
