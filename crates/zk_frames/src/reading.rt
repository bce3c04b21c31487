//! Requests, read from the contents of a frame.

ghost use Rattle.std.specs.Prelude.{◌≡◌, ◌≢◌, ◌++◌, ℕ, List, Ok, Err, [], IfOk};
ghost use Rattle.zk_frames.specs.Requests.{IsRequestOf};
ghost use Rattle.zk_frames.specs.Reading.{header_at, create_at, delete_at, path_request_at, set_data_at, set_acl_at, remove_watches_at, auth_at, set_watches_at, body_at, unreadable, IsRead, request_in, read_only_in, connect_request_in};
ghost use Rattle.zk_jute.specs.Reading.{Gives, Takes, whole};
ghost use Rattle.zk_frames.specs.declared.request.ClientRequest as declared;
ghost use Rattle.zk_frames.specs.declared.fault.RequestFault.TheVariants as faults;
ghost use Rattle.zk_jute.specs.declared.fault.JuteFault.TheVariants as fields;

use crate::fault::RequestFault;
use crate::field_readers::{acl_records_or_null, texts};
use crate::multi::multi;
use crate::records::{
    AuthPacket, ConnectRequest, CreateRequest, DeleteRequest, PathRequest, RemoveWatchesRequest,
    RequestHeader, SetAclRequest, SetDataRequest, SetWatches,
};
use crate::request::{ClientRequest, RequestBody};
use crate::request_kind::RequestKind;
use std::alloc::Global;
use zk_jute::JuteFault;
use zk_jute::fields::{boolean, content, int, long, text};

#[tactic(auto, unfolding(crate::specs::Reading::header_at))]
fn request_header(input: &mut &[u8]) -> Result<RequestHeader, JuteFault>
    ensures { Takes result input.new.now (header_at input.old.now) }
{
    let xid = int(input)?;
    let kind = int(input)?;
    Ok(RequestHeader { xid, kind })
}

#[tactic(auto, unfolding(crate::specs::Reading::create_at))]
pub(crate) fn create(alloc: Global, input: &mut &[u8]) -> Result<CreateRequest, JuteFault>
    ensures { Takes result input.new.now (create_at input.old.now) }
{
    let path = text(alloc, input)?;
    let content = content(alloc, input)?;
    let acl = acl_records_or_null(alloc, input)?;
    let flags = int(input)?;
    Ok(CreateRequest {
        path,
        content,
        acl,
        flags,
    })
}

#[tactic(auto, unfolding(crate::specs::Reading::delete_at))]
pub(crate) fn delete(alloc: Global, input: &mut &[u8]) -> Result<DeleteRequest, JuteFault>
    ensures { Takes result input.new.now (delete_at input.old.now) }
{
    let path = text(alloc, input)?;
    let version = int(input)?;
    Ok(DeleteRequest { path, version })
}

#[tactic(auto, unfolding(crate::specs::Reading::path_request_at))]
fn path_request(alloc: Global, input: &mut &[u8]) -> Result<PathRequest, JuteFault>
    ensures { Takes result input.new.now (path_request_at input.old.now) }
{
    let path = text(alloc, input)?;
    let watch = boolean(input)?;
    Ok(PathRequest { path, watch })
}

#[tactic(auto, unfolding(crate::specs::Reading::set_data_at))]
pub(crate) fn set_data(alloc: Global, input: &mut &[u8]) -> Result<SetDataRequest, JuteFault>
    ensures { Takes result input.new.now (set_data_at input.old.now) }
{
    let path = text(alloc, input)?;
    let content = content(alloc, input)?;
    let version = int(input)?;
    Ok(SetDataRequest {
        path,
        content,
        version,
    })
}

#[tactic(auto, unfolding(crate::specs::Reading::set_acl_at))]
fn set_acl(alloc: Global, input: &mut &[u8]) -> Result<SetAclRequest, JuteFault>
    ensures { Takes result input.new.now (set_acl_at input.old.now) }
{
    let path = text(alloc, input)?;
    let acl = acl_records_or_null(alloc, input)?;
    let version = int(input)?;
    Ok(SetAclRequest { path, acl, version })
}

#[tactic(auto, unfolding(crate::specs::Reading::remove_watches_at))]
fn remove_watches(alloc: Global, input: &mut &[u8]) -> Result<RemoveWatchesRequest, JuteFault>
    ensures { Takes result input.new.now (remove_watches_at input.old.now) }
{
    let path = text(alloc, input)?;
    let kind = int(input)?;
    Ok(RemoveWatchesRequest { path, kind })
}

#[tactic(auto, unfolding(crate::specs::Reading::auth_at))]
fn auth(alloc: Global, input: &mut &[u8]) -> Result<AuthPacket, JuteFault>
    ensures { Takes result input.new.now (auth_at input.old.now) }
{
    let kind = int(input)?;
    let scheme = text(alloc, input)?;
    let auth = content(alloc, input)?;
    Ok(AuthPacket { kind, scheme, auth })
}

#[tactic(auto, unfolding(crate::specs::Reading::set_watches_at))]
fn set_watches(alloc: Global, input: &mut &[u8]) -> Result<SetWatches, JuteFault>
    ensures { Takes result input.new.now (set_watches_at input.old.now) }
{
    let relative_zxid = long(input)?;
    let data_watches = texts(alloc, input)?;
    let exist_watches = texts(alloc, input)?;
    let child_watches = texts(alloc, input)?;
    Ok(SetWatches {
        relative_zxid,
        data_watches,
        exist_watches,
        child_watches,
    })
}

/// The body of a request, by its type.
fn body(alloc: Global, kind: RequestKind, input: &mut &[u8]) -> Result<RequestBody, JuteFault>
    ensures { Takes result input.new.now (body_at kind input.old.now) }
{
    match kind {
        RequestKind::Create => Ok(RequestBody::Create(create(alloc, input)?)),
        RequestKind::Delete => Ok(RequestBody::Delete(delete(alloc, input)?)),
        RequestKind::Exists => Ok(RequestBody::Exists(path_request(alloc, input)?)),
        RequestKind::GetData => Ok(RequestBody::GetData(path_request(alloc, input)?)),
        RequestKind::SetData => Ok(RequestBody::SetData(set_data(alloc, input)?)),
        RequestKind::GetAcl => Ok(RequestBody::GetAcl(text(alloc, input)?)),
        RequestKind::SetAcl => Ok(RequestBody::SetAcl(set_acl(alloc, input)?)),
        RequestKind::GetChildren => Ok(RequestBody::GetChildren(path_request(alloc, input)?)),
        RequestKind::Sync => Ok(RequestBody::Sync(text(alloc, input)?)),
        RequestKind::Ping => Ok(RequestBody::Ping),
        RequestKind::GetChildren2 => Ok(RequestBody::GetChildren2(path_request(alloc, input)?)),
        RequestKind::Multi => Ok(RequestBody::Multi(multi(alloc, input)?)),
        RequestKind::Create2 => Ok(RequestBody::Create2(create(alloc, input)?)),
        RequestKind::RemoveWatches => Ok(RequestBody::RemoveWatches(remove_watches(alloc, input)?)),
        RequestKind::Auth => Ok(RequestBody::Auth(auth(alloc, input)?)),
        RequestKind::SetWatches => Ok(RequestBody::SetWatches(set_watches(alloc, input)?)),
        RequestKind::GetEphemerals => Ok(RequestBody::GetEphemerals(text(alloc, input)?)),
        RequestKind::GetAllChildrenNumber => Ok(RequestBody::GetAllChildrenNumber(text(
            alloc, input,
        )?)),
        RequestKind::CloseSession => Ok(RequestBody::CloseSession),
    }
}

/// The body of a request, which is all of `bytes`.
fn whole_body(alloc: Global, kind: RequestKind, bytes: &[u8]) -> Result<RequestBody, JuteFault>
    ensures { Gives result (whole (body_at kind bytes.now)) }
{
    let mut input = bytes;
    let body = body(alloc, kind, &mut input)?;
    if !input.is_empty() {
        return Err(JuteFault::Trailing);
    }
    Ok(body)
}

/// The fault of a body.
fn unreadable(xid: i32, fault: JuteFault) -> RequestFault
    ensures { result ≡ unreadable xid fault }
{
    match fault {
        JuteFault::NoMemory => RequestFault::NoMemory,
        _ => RequestFault::Body { xid, fault },
    }
}

fn request(alloc: Global, bytes: &[u8]) -> Result<ClientRequest, RequestFault>
    ensures { IsRead result (request_in bytes.now) }
{
    let mut rest = bytes;
    let RequestHeader { xid, kind } = match request_header(&mut rest) {
        Ok(header) => header,
        Err(JuteFault::NoMemory) => return Err(RequestFault::NoMemory),
        Err(_) => return Err(RequestFault::Header),
    };
    let Some(kind) = RequestKind::read(kind) else {
        return Err(RequestFault::Type { xid });
    };
    match whole_body(alloc, kind, rest) {
        Ok(body) => Ok(ClientRequest { xid, body }),
        Err(fault) => Err(unreadable(xid, fault)),
    }
}

/// The request of a connected client: `bytes` are the contents of a frame, without its length.
/// Paths are any text.
///
/// Fails with the first fault: that of the header, of the type, and then the first of the body
/// from the left.
pub fn read_request(alloc: Global, bytes: &[u8]) -> Result<ClientRequest, RequestFault>
    // A request that is returned has these bytes.
    ensures found { IfOk result (λ request. IsRequestOf bytes.now request) }
    // A request that has these bytes is returned, unless an allocation fails.
    ensures only { (request : declared.ClientRequest) → IsRequestOf bytes.now request → IsRead result (Ok request) }
    // Bytes after a whole request are their own fault.
    ensures trailing { (front rest : List ℕ) (request : declared.ClientRequest) → IsRequestOf front request
        → bytes.now ≡ front ++ rest → rest ≢ [] → IsRead result (Err (faults.Body request.xid fields.Trailing)) }
    // An error is the first fault.
    ensures exact { IsRead result (request_in bytes.now) }
{
    request(alloc, bytes)
}

/// Whether a client accepts a read-only server, if it says so.
fn read_only(bytes: &[u8]) -> Option<bool>
    ensures { result ≡ read_only_in bytes.now }
{
    let byte = *bytes.first()?;
    Some(byte != 0)
}

/// The first request of a connection: `bytes` are the contents of its first frame. Bytes after
/// the record are ignored.
///
/// Fails with the first fault from the left.
#[tactic(auto, unfolding(crate::specs::Reading::connect_request_in))]
pub fn read_connect_request(alloc: Global, bytes: &[u8]) -> Result<ConnectRequest, JuteFault>
    ensures { Gives result (connect_request_in bytes.now) }
{
    let mut input = bytes;
    let protocol_version = int(&mut input)?;
    let last_zxid_seen = long(&mut input)?;
    let timeout = int(&mut input)?;
    let session = long(&mut input)?;
    let password = content(alloc, &mut input)?;
    Ok(ConnectRequest {
        protocol_version,
        last_zxid_seen,
        timeout,
        session,
        password,
        read_only: read_only(input),
    })
}
