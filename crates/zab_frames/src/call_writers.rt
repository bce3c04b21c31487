//! Clients' calls, written.

ghost use Rattle.std.specs.Prelude.{◌≡◌, ◌++◌, OnOk};
ghost use Rattle.zab_frames.specs.Messages.{create, with_version, set_data, set_acl, part_kind_of, part_body_of, part_of, counted_list, request_kind_of, request_body_of, request_of, call_of};
ghost use Rattle.zab_frames.specs.Ranges.{IsCreate, IsWithVersion, IsSetData, IsSetAcl, IsPart, AreCounted, IsRequest, IsCall};

use crate::field_writers::{
    put_acls, put_content, put_identities, put_int, put_long, put_long_word, put_text,
};
use zk_acl::{Acls, Text};
use zk_path::NoMemory;
use zk_records::kinds;
use zk_requests::{Call, Part, Parts, Request};
use zk_table::Content;

fn put_create(
    out: &mut Vec<u8>,
    path: &Text,
    content: &Option<Content>,
    acl: &Acls,
    flags: i32,
) -> Result<(), NoMemory>
    ensures written { OnOk result (out.new.items ≡ out.old.items ++ create path.now content.now acl.now flags) }
    ensures fits { OnOk result (IsCreate path.now content.now acl.now flags) }
{
    put_text(out, path)?;
    put_content(out, content)?;
    put_acls(out, acl)?;
    put_int(out, flags)
}

fn put_with_version(out: &mut Vec<u8>, path: &Text, version: i32) -> Result<(), NoMemory>
    ensures written { OnOk result (out.new.items ≡ out.old.items ++ with_version path.now version) }
    ensures fits { OnOk result (IsWithVersion path.now version) }
{
    put_text(out, path)?;
    put_int(out, version)
}

fn put_set_data(
    out: &mut Vec<u8>,
    path: &Text,
    content: &Option<Content>,
    version: i32,
) -> Result<(), NoMemory>
    ensures written { OnOk result (out.new.items ≡ out.old.items ++ set_data path.now content.now version) }
    ensures fits { OnOk result (IsSetData path.now content.now version) }
{
    put_text(out, path)?;
    put_content(out, content)?;
    put_int(out, version)
}

fn put_set_acl(out: &mut Vec<u8>, path: &Text, acl: &Acls, version: i32) -> Result<(), NoMemory>
    ensures written { OnOk result (out.new.items ≡ out.old.items ++ set_acl path.now acl.now version) }
    ensures fits { OnOk result (IsSetAcl path.now acl.now version) }
{
    put_text(out, path)?;
    put_acls(out, acl)?;
    put_int(out, version)
}

fn part_kind(part: &Part) -> i32
    ensures { result ≡ part_kind_of part.now }
{
    match part {
        Part::Create { .. } => kinds::CREATE,
        Part::Delete { .. } => kinds::DELETE,
        Part::SetData { .. } => kinds::SET_DATA,
        Part::Check { .. } => kinds::CHECK,
    }
}

fn put_part_body(out: &mut Vec<u8>, part: &Part) -> Result<(), NoMemory>
    ensures written { OnOk result (out.new.items ≡ out.old.items ++ part_body_of part.now) }
    ensures fits { OnOk result (IsPart part.now) }
{
    match part {
        Part::Create {
            path,
            content,
            acl,
            flags,
        } => put_create(out, path, content, acl, *flags),
        Part::Delete { path, version } => put_with_version(out, path, *version),
        Part::SetData {
            path,
            content,
            version,
        } => put_set_data(out, path, content, *version),
        Part::Check { path, version } => put_with_version(out, path, *version),
    }
}

#[tactic(auto, unfolding(crate::specs::Messages::part_of))]
fn put_part(out: &mut Vec<u8>, part: &Part) -> Result<(), NoMemory>
    ensures written { OnOk result (out.new.items ≡ out.old.items ++ part_of part.now) }
    ensures fits { OnOk result (IsPart part.now) }
{
    put_int(out, part_kind(part))?;
    put_part_body(out, part)
}

fn put_parts(out: &mut Vec<u8>, parts: &Parts) -> Result<(), NoMemory>
    ensures written { OnOk result (out.new.items ≡ out.old.items ++ counted_list part_of parts.now) }
    ensures fits { OnOk result (AreCounted IsPart parts.now) }
{
    put_long_word(out, parts.as_slice().len() as u64)?;
    for part in parts.as_slice() {
        put_part(out, part)?;
    }
    Ok(())
}

fn request_kind(request: &Request) -> i32
    ensures { result ≡ request_kind_of request.now }
{
    match request {
        Request::Create { .. } => kinds::CREATE,
        Request::Delete { .. } => kinds::DELETE,
        Request::SetData { .. } => kinds::SET_DATA,
        Request::SetAcl { .. } => kinds::SET_ACL,
        Request::Multi { .. } => kinds::MULTI,
        Request::OpenSession { .. } => kinds::CREATE_SESSION,
        Request::CloseSession => kinds::CLOSE_SESSION,
    }
}

fn put_request_body(out: &mut Vec<u8>, request: &Request) -> Result<(), NoMemory>
    ensures written { OnOk result (out.new.items ≡ out.old.items ++ request_body_of request.now) }
    ensures fits { OnOk result (IsRequest request.now) }
{
    match request {
        Request::Create {
            path,
            content,
            acl,
            flags,
        } => put_create(out, path, content, acl, *flags),
        Request::Delete { path, version } => put_with_version(out, path, *version),
        Request::SetData {
            path,
            content,
            version,
        } => put_set_data(out, path, content, *version),
        Request::SetAcl { path, acl, version } => put_set_acl(out, path, acl, *version),
        Request::Multi { parts } => put_parts(out, parts),
        Request::OpenSession { timeout } => put_int(out, *timeout),
        Request::CloseSession => Ok(()),
    }
}

fn put_request(out: &mut Vec<u8>, request: &Request) -> Result<(), NoMemory>
    ensures written { OnOk result (out.new.items ≡ out.old.items ++ request_of request.now) }
    ensures fits { OnOk result (IsRequest request.now) }
{
    put_int(out, request_kind(request))?;
    put_request_body(out, request)
}

#[tactic(auto, unfolding(crate::specs::Messages::call_of))]
pub(crate) fn put_call(out: &mut Vec<u8>, call: &Call) -> Result<(), NoMemory>
    ensures written { OnOk result (out.new.items ≡ out.old.items ++ call_of call.exit.now) }
    ensures fits { OnOk result (IsCall call.exit.now) }
{
    put_long_word(out, call.tag)?;
    put_long(out, call.session)?;
    put_int(out, call.cxid)?;
    put_identities(out, &call.auths)?;
    put_long(out, call.now)?;
    put_request(out, &call.request)?;
    Ok(())
}
