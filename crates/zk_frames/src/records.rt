//! The records of requests, by the names of `zookeeper.jute`.

use crate::acl_records::AclRecords;
use zk_acl::Text;
use zk_table::{Content, Names};

/// The start of each request: its number, which the reply repeats, and its type.
#[derive(Clone, Copy, Debug)]
pub struct RequestHeader {
    pub xid: i32,
    pub kind: i32,
}

#[derive(Debug, Drop)]
pub struct CreateRequest {
    pub path: Text,
    pub content: Option<Content>,
    pub acl: Option<AclRecords>,
    pub flags: i32,
}

/// `DeleteRequest`, and `CheckVersionRequest` in a multi.
#[derive(Debug, Drop)]
pub struct DeleteRequest {
    pub path: Text,
    pub version: i32,
}

/// `ExistsRequest`, `GetDataRequest`, `GetChildrenRequest` and `GetChildren2Request`.
#[derive(Debug, Drop)]
pub struct PathRequest {
    pub path: Text,
    pub watch: bool,
}

#[derive(Debug, Drop)]
pub struct SetDataRequest {
    pub path: Text,
    pub content: Option<Content>,
    pub version: i32,
}

#[derive(Debug, Drop)]
pub struct SetAclRequest {
    pub path: Text,
    pub acl: Option<AclRecords>,
    pub version: i32,
}

/// Which watches: 1 of children, 2 of data, 3 of both.
#[derive(Debug, Drop)]
pub struct RemoveWatchesRequest {
    pub path: Text,
    pub kind: i32,
}

/// The type is always 0, and servers ignore it.
#[derive(Debug, Drop)]
pub struct AuthPacket {
    pub kind: i32,
    pub scheme: Text,
    pub auth: Option<Content>,
}

/// The watches of a client's earlier connection, and the last transaction that it knows of.
#[derive(Debug, Drop)]
pub struct SetWatches {
    pub relative_zxid: i64,
    pub data_watches: Names,
    pub exist_watches: Names,
    pub child_watches: Names,
}

/// The first frame of a connection. `read_only` is `None` for clients before 3.4.
#[derive(Debug, Drop)]
pub struct ConnectRequest {
    pub protocol_version: i32,
    pub last_zxid_seen: i64,
    pub timeout: i32,
    pub session: i64,
    pub password: Option<Content>,
    pub read_only: Option<bool>,
}
