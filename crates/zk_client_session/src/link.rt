ghost use Rattle.std.specs.Prelude.{◌≡◌, ◌++◌, false, OnOk, IfOk};
ghost use Rattle.zk_frames.specs.AclRecords.{acls_of};
ghost use Rattle.zk_frames.specs.declared.request.RequestBody.TheVariants as bodies;
ghost use Rattle.zk_client_session.specs.Links.{attached, seeing, write, create, created_with_stat, owner_by, multi, rejected, path_in, read, count_at, set_watches, remove_watches, with_identity, authenticated, action_by, action_of};
ghost use Rattle.zk_client_session.specs.declared.ask.Action.TheVariants as actions;
ghost use Rattle.zk_client_session.specs.declared.expected_reply.ReplyKind.TheVariants as kinds;
ghost use Rattle.zk_requests.specs.declared.call.Request.TheVariants as requests;
ghost use Rattle.zk_table.specs.Nodes.{content_length};
ghost use Rattle.zk_client_session.specs.Replies.{immediate_bytes, bytes_of, after_reply, event_frame, reply_frame};

use crate::ask::{Action, Ask, Immediate, WatcherType};
use crate::auth::digest_in;
use crate::expected_reply::{ExpectedReply, ReplyKind};
use crate::identities::Identities;
use crate::multi::{kinds_of, parts_of};
use crate::paths::path_in;
use crate::read_kind::ReadKind;
use crate::reply::Reply;
use crate::replying::{NO_WATCHER, immediate_reply, reply_to};
use crate::saved_watch::SavedWatches;
use crate::tree_reads::wrapped;
use crate::watch_events::{push_event, push_events};
use std::alloc::Global;
use zk_acl::{Id, Text};
use zk_frames::{
    AclRecords, AuthPacket, CreateRequest, DeleteRequest, FrameFault, MultiParts,
    RemoveWatchesRequest, RequestBody, RequestFault, SetAclRequest, SetDataRequest, SetWatches,
    read_request, write_reply,
};
use zk_machine::ChangeKind;
use zk_path::NoMemory;
use zk_requests::Request;
use zk_table::Content;
use zk_table::codes::NO_NODE;

const MARSHALLING_ERROR: i32 = -5;

/// A client's connection that has a session, between two frames.
///
/// ZooKeeper Programmer's Guide, "ZooKeeper Sessions".
#[derive(Debug)]
pub struct Link {
    session: i64,
    /// The greatest transaction that the client has seen.
    seen: i64,
    /// The identities that the client has proved at this connection.
    auths: Identities,
}

impl Drop for Link {
    fn drop(self) {
        let Link {
            session: _,
            seen: _,
            auths: _,
        } = self;
    }
}

impl Link {
    /// A connection whose session was just created, or attached.
    pub fn new(alloc: Global, session: i64, seen: i64) -> Link
        ensures { result ≡ attached session seen }
    {
        Link {
            session,
            seen,
            auths: Identities::new(alloc),
        }
    }

    pub fn session(&self) -> i64
        ensures { result ≡ self.now.session }
    {
        self.session
    }

    /// The greatest transaction that the client has seen.
    pub fn seen(&self) -> i64
        ensures { result ≡ self.now.seen }
    {
        self.seen
    }

    /// Executes a frame. After an allocation failure, the connection is lost.
    pub fn take(&mut self, alloc: Global, frame: &[u8]) -> Result<Action, NoMemory>
        ensures { IfOk result (λ action. action_of self.old frame.now ≡ (self.new, action)) }
    {
        match read_request(alloc, frame) {
            Ok(request) => self.act(alloc, request.xid, request.body),
            Err(RequestFault::Body { xid, .. }) => Ok(rejected(xid, MARSHALLING_ERROR)),
            Err(RequestFault::Type { xid }) => {
                Ok(Action::Replies(Immediate::Unimplemented { xid }))
            }
            Err(RequestFault::Header) => Ok(Action::Closes),
            Err(RequestFault::NoMemory) => Err(NoMemory),
        }
    }

    /// Executes a request.
    fn act(&mut self, alloc: Global, xid: i32, body: RequestBody) -> Result<Action, NoMemory>
        ensures { IfOk result (λ action. action_by self.old xid body ≡ (self.new, action)) }
    {
        match body {
            RequestBody::Create(r) => self.create(alloc, xid, ReplyKind::Created, r),
            RequestBody::Create2(r) => self.create2(alloc, xid, r),
            RequestBody::Delete(r) => self.delete(xid, r),
            RequestBody::SetData(r) => self.set_data(xid, r),
            RequestBody::SetAcl(r) => self.set_acl(alloc, xid, r),
            RequestBody::Multi(parts) => self.multi(alloc, xid, parts),
            RequestBody::CloseSession => self.write(xid, ReplyKind::Closed, Request::CloseSession),
            RequestBody::Exists(r) => self.read(alloc, xid, ReadKind::Exists, &r.path, r.watch),
            RequestBody::GetData(r) => self.read(alloc, xid, ReadKind::GetData, &r.path, r.watch),
            RequestBody::GetAcl(path) => self.read(alloc, xid, ReadKind::GetAcl, &path, false),
            RequestBody::GetChildren(r) => {
                self.read(alloc, xid, ReadKind::GetChildren, &r.path, r.watch)
            }
            RequestBody::GetChildren2(r) => {
                self.read(alloc, xid, ReadKind::GetChildren2, &r.path, r.watch)
            }
            RequestBody::GetEphemerals(prefix) => Ok(self.ephemerals(xid, prefix)),
            RequestBody::GetAllChildrenNumber(path) => self.count(alloc, xid, &path),
            RequestBody::Sync(path) => Ok(self.sync(xid, path)),
            RequestBody::Ping => Ok(Action::Replies(Immediate::Ping)),
            RequestBody::Auth(r) => self.authenticate(alloc, xid, &r),
            RequestBody::SetWatches(r) => self.set_watches(alloc, xid, r),
            RequestBody::RemoveWatches(r) => remove_watches(alloc, xid, &r),
        }
    }

    /// Asks for a write.
    fn write(&self, xid: i32, kind: ReplyKind, request: Request) -> Result<Action, NoMemory>
        ensures { IfOk result (λ action. action ≡ write self.now xid kind request) }
    {
        let ask = Ask::Write {
            session: self.session,
            cxid: xid,
            auths: self.auths.copy()?,
            request,
        };
        Ok(asks(ask, xid, kind))
    }

    fn create(
        &self,
        alloc: Global,
        xid: i32,
        kind: ReplyKind,
        r: CreateRequest,
    ) -> Result<Action, NoMemory>
        ensures { IfOk result (λ action. action ≡ create self.now xid kind r) }
    {
        let acl = AclRecords::acls_of(alloc, r.acl)?;
        self.write(
            xid,
            kind,
            Request::Create {
                path: r.path,
                content: r.content,
                acl,
                flags: r.flags,
            },
        )
    }

    fn create2(&self, alloc: Global, xid: i32, r: CreateRequest) -> Result<Action, NoMemory>
        ensures { IfOk result (λ action. action ≡ create self.now xid (created_with_stat self.now.session r) r) }
    {
        let kind = created_with_stat(self.session, &r);
        self.create(alloc, xid, kind, r)
    }

    fn delete(&self, xid: i32, r: DeleteRequest) -> Result<Action, NoMemory>
        ensures { IfOk result (λ action. action ≡ write self.now xid kinds.Deleted (requests.Delete r.path r.version)) }
    {
        let DeleteRequest { path, version } = r;
        self.write(xid, ReplyKind::Deleted, Request::Delete { path, version })
    }

    fn set_data(&self, xid: i32, r: SetDataRequest) -> Result<Action, NoMemory>
        ensures { IfOk result (λ action. action ≡ write self.now xid kinds.Changed (requests.SetData r.path r.content r.version)) }
    {
        let SetDataRequest {
            path,
            content,
            version,
        } = r;
        self.write(
            xid,
            ReplyKind::Changed,
            Request::SetData {
                path,
                content,
                version,
            },
        )
    }

    fn set_acl(&self, alloc: Global, xid: i32, r: SetAclRequest) -> Result<Action, NoMemory>
        ensures { IfOk result (λ action. action ≡ write self.now xid kinds.Changed (requests.SetAcl r.path (acls_of r.acl) r.version)) }
    {
        let SetAclRequest { path, acl, version } = r;
        let acl = AclRecords::acls_of(alloc, acl)?;
        self.write(
            xid,
            ReplyKind::Changed,
            Request::SetAcl { path, acl, version },
        )
    }

    fn multi(&self, alloc: Global, xid: i32, parts: MultiParts) -> Result<Action, NoMemory>
        ensures { IfOk result (λ action. action ≡ multi self.now xid parts) }
    {
        let kinds = kinds_of(alloc, &parts)?;
        let parts = parts_of(alloc, parts)?;
        self.write(xid, ReplyKind::Multi(kinds), Request::Multi { parts })
    }

    /// Asks for a read of one node. At an invalid path there is none.
    fn read(
        &self,
        alloc: Global,
        xid: i32,
        kind: ReadKind,
        path: &Text,
        watch: bool,
    ) -> Result<Action, NoMemory>
        ensures { IfOk result (λ action. action ≡ read self.now xid kind path.now watch) }
    {
        let Some(path) = path_in(alloc, path.as_str())? else {
            return Ok(rejected(xid, NO_NODE));
        };
        let ask = Ask::Read {
            session: self.session,
            seen: self.seen,
            auths: self.auths.copy()?,
            call: kind.call(path),
            watch,
        };
        Ok(asks(ask, xid, kind.reply()))
    }

    fn ephemerals(&self, xid: i32, prefix: Text) -> Action
        ensures { action_by self.now xid (bodies.GetEphemerals prefix) ≡ (self.now, result) }
    {
        let ask = Ask::Ephemerals {
            session: self.session,
            prefix,
        };
        asks(ask, xid, ReplyKind::Paths)
    }

    fn count(&self, alloc: Global, xid: i32, path: &Text) -> Result<Action, NoMemory>
        ensures { IfOk result (λ action. action ≡ count_at (path_in path.now) self.now xid) }
    {
        let Some(path) = path_in(alloc, path.as_str())? else {
            return Ok(rejected(xid, NO_NODE));
        };
        let ask = Ask::CountDescendants {
            session: self.session,
            seen: self.seen,
            auths: self.auths.copy()?,
            path,
        };
        Ok(asks(ask, xid, ReplyKind::Count))
    }

    fn sync(&self, xid: i32, path: Text) -> Action
        ensures { action_by self.now xid (bodies.Sync path) ≡ (self.now, result) }
    {
        let ask = Ask::Sync {
            session: self.session,
        };
        asks(ask, xid, ReplyKind::Synced(path))
    }

    fn set_watches(&self, alloc: Global, xid: i32, r: SetWatches) -> Result<Action, NoMemory>
        ensures { IfOk result (λ action. action ≡ set_watches self.now xid r) }
    {
        let ask = Ask::SetWatches {
            session: self.session,
            relative_zxid: r.relative_zxid,
            auths: self.auths.copy()?,
            watches: SavedWatches::of(alloc, r)?,
        };
        Ok(asks(ask, xid, ReplyKind::WatchesSet))
    }

    fn authenticate(&mut self, alloc: Global, xid: i32, r: &AuthPacket) -> Result<Action, NoMemory>
        ensures { IfOk result (λ action. authenticated self.old xid r.now ≡ (self.new, action)) }
    {
        match r.scheme.as_str() {
            "ip" => Ok(Action::Replies(Immediate::Authenticated { xid })),
            "digest" => self.add_identity(xid, digest_in(alloc, &r.auth)?),
            _ => Ok(Action::Replies(Immediate::NotAuthenticated { xid })),
        }
    }

    fn add_identity(&mut self, xid: i32, id: Option<Id>) -> Result<Action, NoMemory>
        ensures { IfOk result (λ action. with_identity self.old xid id ≡ (self.new, action)) }
    {
        let Some(id) = id else {
            return Ok(Action::Replies(Immediate::NotAuthenticated { xid }));
        };
        if self.auths.are_all() {
            return Ok(Action::Replies(Immediate::NotAuthenticated { xid }));
        }
        self.auths.add(id)?;
        Ok(Action::Replies(Immediate::Authenticated { xid }))
    }

    /// Appends an immediate reply, when `last` is the server's last transaction. After an error,
    /// part of the frame may have been appended, and the connection is lost.
    pub fn reply(
        &mut self,
        out: &mut Vec<u8>,
        last: i64,
        immediate: Immediate,
    ) -> Result<(), FrameFault>
        ensures link { self.new ≡ seeing self.old last }
        ensures bytes { OnOk result (out.new.items ≡ out.old.items ++ immediate_bytes (seeing self.old last) immediate) }
    {
        self.see(last);
        self.push_immediate(out, immediate)
    }

    fn push_immediate(&self, out: &mut Vec<u8>, immediate: Immediate) -> Result<(), FrameFault>
        ensures { OnOk result (out.new.items ≡ out.old.items ++ immediate_bytes self.now immediate) }
    {
        let reply = immediate_reply(&self.seen, &immediate);
        write_reply(out, &reply)
    }

    /// Appends the reply that the service's reply gives, after the events that come with it. The
    /// header names the greatest transaction that the client has seen with this reply: headers
    /// never fall. After an error, part of the frames may have been appended, and the connection is
    /// lost.
    pub fn tell(
        &mut self,
        alloc: Global,
        out: &mut Vec<u8>,
        expected: ExpectedReply,
        reply: Reply,
    ) -> Result<(), FrameFault>
        ensures link { self.new ≡ after_reply self.old reply }
        ensures bytes { OnOk result (out.new.items ≡ out.old.items ++ bytes_of (after_reply self.old reply) expected reply) }
    {
        self.see(reply.zxid());
        push_events(alloc, out, &reply)?;
        self.push_reply(alloc, out, expected, reply)
    }

    /// Appends the reply, unless a later part of the request has it. Its header has what the client
    /// has seen.
    fn push_reply(
        &self,
        alloc: Global,
        out: &mut Vec<u8>,
        expected: ExpectedReply,
        reply: Reply,
    ) -> Result<(), FrameFault>
        ensures { OnOk result (out.new.items ≡ out.old.items ++ reply_frame self.now expected reply) }
    {
        if expected.is_begun() {
            return Ok(());
        }
        let mut reply = reply_to(alloc, expected, reply)?;
        reply.zxid = self.seen;
        write_reply(out, &reply)
    }

    /// Appends a watch event. After an error, part of the frame may have been appended, and the
    /// connection is lost.
    pub fn notify(
        &self,
        alloc: Global,
        out: &mut Vec<u8>,
        kind: ChangeKind,
        path: &str,
    ) -> Result<(), FrameFault>
        ensures { OnOk result (out.new.items ≡ out.old.items ++ event_frame kind path.now) }
    {
        push_event(alloc, out, kind, path)
    }

    /// Updates the greatest transaction seen, which never decreases.
    fn see(&mut self, zxid: i64)
        ensures { self.new ≡ seeing self.old zxid }
    {
        if zxid > self.seen {
            self.seen = zxid;
        }
    }
}

fn asks(ask: Ask, xid: i32, kind: ReplyKind) -> Action
    ensures { result ≡ actions.Asks ask (record { xid = xid; kind = kind }) }
{
    Action::Asks {
        ask,
        expected: ExpectedReply { xid, kind },
    }
}

fn rejected(xid: i32, code: i32) -> Action
    ensures { result ≡ rejected xid code }
{
    Action::Replies(Immediate::Rejected { xid, code })
}

/// The reply to a create with a stat, for a caller of this session.
fn created_with_stat(session: i64, r: &CreateRequest) -> ReplyKind
    ensures { result ≡ created_with_stat session r.now }
{
    let owner = owner_by(session, r.flags);
    let length = wrapped(content_length(&r.content));
    ReplyKind::CreatedWithStat { owner, length }
}

fn owner_by(session: i64, flags: i32) -> i64
    ensures { result ≡ owner_by session flags }
{
    if flags == 1 || flags == 3 { session } else { 0 }
}

fn content_length(content: &Option<Content>) -> usize
    ensures { result ≡ content_length content.now }
{
    content
        .as_ref()
        .map_or(0, |content| content.as_slice().len())
}

/// Removes watches of a type at a path. At an invalid path there is none.
fn remove_watches(alloc: Global, xid: i32, r: &RemoveWatchesRequest) -> Result<Action, NoMemory>
    ensures { IfOk result (λ action. action ≡ remove_watches xid r.now) }
{
    let Some(kind) = WatcherType::of(r.kind) else {
        return Ok(rejected(xid, MARSHALLING_ERROR));
    };
    let Some(path) = path_in(alloc, r.path.as_str())? else {
        return Ok(rejected(xid, NO_WATCHER));
    };
    let ask = Ask::RemoveWatches { path, kind };
    Ok(asks(ask, xid, ReplyKind::WatchesRemoved))
}
