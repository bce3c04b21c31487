use crate::multi::MultiParts;
use crate::records::{
    AuthPacket, CreateRequest, DeleteRequest, PathRequest, RemoveWatchesRequest, SetAclRequest,
    SetDataRequest, SetWatches,
};
use zk_acl::Text;

/// A request, by its type. Records that hold only a path are that path.
#[derive(Debug, Drop)]
pub enum RequestBody {
    Create(CreateRequest),
    Delete(DeleteRequest),
    Exists(PathRequest),
    GetData(PathRequest),
    SetData(SetDataRequest),
    GetAcl(Text),
    SetAcl(SetAclRequest),
    GetChildren(PathRequest),
    Sync(Text),
    Ping,
    GetChildren2(PathRequest),
    Multi(MultiParts),
    Create2(CreateRequest),
    RemoveWatches(RemoveWatchesRequest),
    Auth(AuthPacket),
    SetWatches(SetWatches),
    GetEphemerals(Text),
    GetAllChildrenNumber(Text),
    CloseSession,
}

/// A request, and the number that its reply repeats.
#[derive(Debug, Drop)]
pub struct ClientRequest {
    pub xid: i32,
    pub body: RequestBody,
}
