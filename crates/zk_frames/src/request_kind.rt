ghost use Rattle.std.specs.Prelude.{◌≡◌};
ghost use Rattle.zk_frames.specs.Reading.{known_kind};

use crate::op_codes;

/// The types of requests that a server knows.
#[derive(Clone, Copy, Debug)]
pub enum RequestKind {
    Create,
    Delete,
    Exists,
    GetData,
    SetData,
    GetAcl,
    SetAcl,
    GetChildren,
    Sync,
    Ping,
    GetChildren2,
    Multi,
    Create2,
    RemoveWatches,
    Auth,
    SetWatches,
    GetEphemerals,
    GetAllChildrenNumber,
    CloseSession,
}

impl RequestKind {
    /// `None` for other types.
    pub fn read(kind: i32) -> Option<RequestKind>
        ensures { result ≡ known_kind kind }
    {
        match kind {
            op_codes::CREATE => Some(RequestKind::Create),
            op_codes::DELETE => Some(RequestKind::Delete),
            op_codes::EXISTS => Some(RequestKind::Exists),
            op_codes::GET_DATA => Some(RequestKind::GetData),
            op_codes::SET_DATA => Some(RequestKind::SetData),
            op_codes::GET_ACL => Some(RequestKind::GetAcl),
            op_codes::SET_ACL => Some(RequestKind::SetAcl),
            op_codes::GET_CHILDREN => Some(RequestKind::GetChildren),
            op_codes::SYNC => Some(RequestKind::Sync),
            op_codes::PING => Some(RequestKind::Ping),
            op_codes::GET_CHILDREN_2 => Some(RequestKind::GetChildren2),
            op_codes::MULTI => Some(RequestKind::Multi),
            op_codes::CREATE_2 => Some(RequestKind::Create2),
            op_codes::REMOVE_WATCHES => Some(RequestKind::RemoveWatches),
            op_codes::AUTH => Some(RequestKind::Auth),
            op_codes::SET_WATCHES => Some(RequestKind::SetWatches),
            op_codes::GET_EPHEMERALS => Some(RequestKind::GetEphemerals),
            op_codes::GET_ALL_CHILDREN_NUMBER => Some(RequestKind::GetAllChildrenNumber),
            op_codes::CLOSE_SESSION => Some(RequestKind::CloseSession),
            _ => None,
        }
    }
}
