//! Clients' calls, read.

ghost use Rattle.std.specs.Prelude.{◌≡◌};
ghost use Rattle.zk_jute.specs.Reading.{Takes, many_at};
ghost use Rattle.zab_frames.specs.Reading.{create_at, version_at, set_data_at, set_acl_at, create_part, delete_part, set_data_part, check_part, part_by, part_at, list_at, create_request, delete_request, set_data_request, set_acl_request, request_by, request_at, call_at};

use crate::fields::{acls, content, identities, long_word, text};
use std::alloc::Global;
use zk_acl::{Acls, Text};
use zk_jute::JuteFault;
use zk_jute::fields::{int, long};
use zk_records::kinds;
use zk_requests::{Call, Part, Parts, Request};
use zk_table::Content;

/// What creates a node, alone and in a multi.
#[derive(Debug, Drop)]
pub(crate) struct CreateFields {
    pub path: Text,
    pub content: Option<Content>,
    pub acl: Acls,
    pub flags: i32,
}

/// A path and a version.
#[derive(Debug, Drop)]
pub(crate) struct VersionFields {
    pub path: Text,
    pub version: i32,
}

#[derive(Debug, Drop)]
pub(crate) struct SetDataFields {
    pub path: Text,
    pub content: Option<Content>,
    pub version: i32,
}

#[derive(Debug, Drop)]
pub(crate) struct SetAclFields {
    pub path: Text,
    pub acl: Acls,
    pub version: i32,
}

#[tactic(auto, unfolding(crate::specs::Reading::create_at))]
fn create(alloc: Global, input: &mut &[u8]) -> Result<CreateFields, JuteFault>
    ensures { Takes result input.new.now (create_at input.old.now) }
{
    let path = text(alloc, input)?;
    let content = content(alloc, input)?;
    let acl = acls(alloc, input)?;
    let flags = int(input)?;
    Ok(CreateFields {
        path,
        content,
        acl,
        flags,
    })
}

#[tactic(auto, unfolding(crate::specs::Reading::version_at))]
fn version(alloc: Global, input: &mut &[u8]) -> Result<VersionFields, JuteFault>
    ensures { Takes result input.new.now (version_at input.old.now) }
{
    let path = text(alloc, input)?;
    let version = int(input)?;
    Ok(VersionFields { path, version })
}

#[tactic(auto, unfolding(crate::specs::Reading::set_data_at))]
fn set_data(alloc: Global, input: &mut &[u8]) -> Result<SetDataFields, JuteFault>
    ensures { Takes result input.new.now (set_data_at input.old.now) }
{
    let path = text(alloc, input)?;
    let content = content(alloc, input)?;
    let version = int(input)?;
    Ok(SetDataFields {
        path,
        content,
        version,
    })
}

#[tactic(auto, unfolding(crate::specs::Reading::set_acl_at))]
fn set_acl(alloc: Global, input: &mut &[u8]) -> Result<SetAclFields, JuteFault>
    ensures { Takes result input.new.now (set_acl_at input.old.now) }
{
    let path = text(alloc, input)?;
    let acl = acls(alloc, input)?;
    let version = int(input)?;
    Ok(SetAclFields { path, acl, version })
}

impl CreateFields {
    fn into_part(self) -> Part
        ensures { result ≡ create_part self }
    {
        let CreateFields {
            path,
            content,
            acl,
            flags,
        } = self;
        Part::Create {
            path,
            content,
            acl,
            flags,
        }
    }

    fn into_request(self) -> Request
        ensures { result ≡ create_request self }
    {
        let CreateFields {
            path,
            content,
            acl,
            flags,
        } = self;
        Request::Create {
            path,
            content,
            acl,
            flags,
        }
    }
}

impl VersionFields {
    fn into_delete_part(self) -> Part
        ensures { result ≡ delete_part self }
    {
        let VersionFields { path, version } = self;
        Part::Delete { path, version }
    }

    fn into_check_part(self) -> Part
        ensures { result ≡ check_part self }
    {
        let VersionFields { path, version } = self;
        Part::Check { path, version }
    }

    fn into_request(self) -> Request
        ensures { result ≡ delete_request self }
    {
        let VersionFields { path, version } = self;
        Request::Delete { path, version }
    }
}

impl SetDataFields {
    fn into_part(self) -> Part
        ensures { result ≡ set_data_part self }
    {
        let SetDataFields {
            path,
            content,
            version,
        } = self;
        Part::SetData {
            path,
            content,
            version,
        }
    }

    fn into_request(self) -> Request
        ensures { result ≡ set_data_request self }
    {
        let SetDataFields {
            path,
            content,
            version,
        } = self;
        Request::SetData {
            path,
            content,
            version,
        }
    }
}

impl SetAclFields {
    fn into_request(self) -> Request
        ensures { result ≡ set_acl_request self }
    {
        let SetAclFields { path, acl, version } = self;
        Request::SetAcl { path, acl, version }
    }
}

#[tactic(auto, unfolding(crate::specs::Reading::part_by))]
fn part_by(alloc: Global, kind: i32, input: &mut &[u8]) -> Result<Part, JuteFault>
    ensures { Takes result input.new.now (part_by kind input.old.now) }
{
    match kind {
        kinds::CREATE => Ok(create(alloc, input)?.into_part()),
        kinds::DELETE => Ok(version(alloc, input)?.into_delete_part()),
        kinds::SET_DATA => Ok(set_data(alloc, input)?.into_part()),
        kinds::CHECK => Ok(version(alloc, input)?.into_check_part()),
        _ => Err(JuteFault::Kind),
    }
}

#[tactic(auto, unfolding(crate::specs::Reading::part_at))]
fn part(alloc: Global, input: &mut &[u8]) -> Result<Part, JuteFault>
    ensures { Takes result input.new.now (part_at input.old.now) }
{
    let kind = int(input)?;
    part_by(alloc, kind, input)
}

fn some_parts(alloc: Global, count: u64, input: &mut &[u8]) -> Result<Parts, JuteFault>
    ensures { Takes result input.new.now (many_at part_at count input.old.now) }
{
    let mut parts = Vec::new(alloc);
    for _ in 0..count {
        parts.push(part(alloc, input)?)?;
    }
    Ok(Parts::new(parts))
}

#[tactic(auto, unfolding(crate::specs::Reading::list_at))]
fn parts(alloc: Global, input: &mut &[u8]) -> Result<Parts, JuteFault>
    ensures { Takes result input.new.now (list_at part_at input.old.now) }
{
    let count = long_word(input)?;
    some_parts(alloc, count, input)
}

#[tactic(auto, unfolding(crate::specs::Reading::request_by))]
fn request_by(alloc: Global, kind: i32, input: &mut &[u8]) -> Result<Request, JuteFault>
    ensures { Takes result input.new.now (request_by kind input.old.now) }
{
    match kind {
        kinds::CREATE => Ok(create(alloc, input)?.into_request()),
        kinds::DELETE => Ok(version(alloc, input)?.into_request()),
        kinds::SET_DATA => Ok(set_data(alloc, input)?.into_request()),
        kinds::SET_ACL => Ok(set_acl(alloc, input)?.into_request()),
        kinds::MULTI => Ok(Request::Multi {
            parts: parts(alloc, input)?,
        }),
        kinds::CREATE_SESSION => Ok(Request::OpenSession {
            timeout: int(input)?,
        }),
        kinds::CLOSE_SESSION => Ok(Request::CloseSession),
        _ => Err(JuteFault::Kind),
    }
}

#[tactic(auto, unfolding(crate::specs::Reading::request_at))]
fn request(alloc: Global, input: &mut &[u8]) -> Result<Request, JuteFault>
    ensures { Takes result input.new.now (request_at input.old.now) }
{
    let kind = int(input)?;
    request_by(alloc, kind, input)
}

#[tactic(auto, unfolding(crate::specs::Reading::call_at))]
pub(crate) fn call(alloc: Global, input: &mut &[u8]) -> Result<Call, JuteFault>
    ensures { Takes result input.new.now (call_at input.old.now) }
{
    let tag = long_word(input)?;
    let session = long(input)?;
    let cxid = int(input)?;
    let auths = identities(alloc, input)?;
    let now = long(input)?;
    let request = request(alloc, input)?;
    Ok(Call {
        tag,
        session,
        cxid,
        auths,
        now,
        request,
    })
}
