//! Frames of ZooKeeper's client protocol: requests read from the contents of a frame, and replies,
//! watch events and connect responses written as frames.
//!
//! `zookeeper.jute`, modules `org.apache.zookeeper.proto` and `org.apache.zookeeper.data`; the
//! encoding is Jute's binary one.
#![tactic(auto)]

mod acl_records;
mod fault;
mod field_readers;
mod field_writers;
mod frame;
mod multi;
pub mod op_codes;
mod reading;
mod records;
mod reply;
mod request;
mod request_kind;
mod sizes;
mod writing;

pub use acl_records::{AclRecord, AclRecords};
pub use fault::{FrameFault, RequestFault};
pub use frame::{MOST_BYTES, next_frame};
pub use multi::{MultiPart, MultiParts};
pub use reading::{read_connect_request, read_request};
pub use records::{
    AuthPacket, ConnectRequest, CreateRequest, DeleteRequest, PathRequest, RemoveWatchesRequest,
    SetAclRequest, SetDataRequest, SetWatches,
};
pub use reply::{ClientReply, ConnectResponse, MultiResult, MultiResults, ReplyBody, WatcherEvent};
pub use request::{ClientRequest, RequestBody};
pub use writing::{write_connect_response, write_event, write_reply};
