//! Multis: the kind of each part, and its operation.

ghost use Rattle.std.specs.Prelude.{◌≡◌, map, IfOk};
ghost use Rattle.zk_frames.specs.AclRecords.{acls_of};
ghost use Rattle.zk_client_session.specs.Links.{kind_of, part_of};
ghost use Rattle.zk_requests.specs.declared.call.Part.TheVariants as asked;

use crate::expected_reply::{PartKind, PartKinds};
use std::alloc::Global;
use zk_frames::{AclRecords, CreateRequest, MultiPart, MultiParts};
use zk_path::NoMemory;
use zk_requests::{Part, Parts};

fn kind_of(part: &MultiPart) -> PartKind
    ensures { result ≡ kind_of part.now }
{
    match part {
        MultiPart::Create(_) | MultiPart::Create2(_) => PartKind::Create,
        MultiPart::Delete(_) => PartKind::Delete,
        MultiPart::SetData(_) => PartKind::SetData,
        MultiPart::Check(_) => PartKind::Check,
    }
}

/// The kinds of a multi's parts.
pub(crate) fn kinds_of(alloc: Global, parts: &MultiParts) -> Result<PartKinds, NoMemory>
    ensures { IfOk result (λ kinds. kinds ≡ map kind_of parts.now) }
{
    let mut kinds = Vec::new(alloc);
    for part in parts.as_slice() {
        kinds.push(kind_of(part))?;
    }
    Ok(PartKinds::new(kinds))
}

fn create_part(alloc: Global, r: CreateRequest) -> Result<Part, NoMemory>
    ensures { IfOk result (λ part. part ≡ asked.Create r.path r.content (acls_of r.acl) r.flags) }
{
    Ok(Part::Create {
        path: r.path,
        content: r.content,
        acl: AclRecords::acls_of(alloc, r.acl)?,
        flags: r.flags,
    })
}

fn part_of(alloc: Global, part: MultiPart) -> Result<Part, NoMemory>
    ensures { IfOk result (λ it. it ≡ part_of part) }
{
    match part {
        MultiPart::Create(r) | MultiPart::Create2(r) => create_part(alloc, r),
        MultiPart::Delete(r) => Ok(Part::Delete {
            path: r.path,
            version: r.version,
        }),
        MultiPart::SetData(r) => Ok(Part::SetData {
            path: r.path,
            content: r.content,
            version: r.version,
        }),
        MultiPart::Check(r) => Ok(Part::Check {
            path: r.path,
            version: r.version,
        }),
    }
}

/// The operations of a multi's parts.
pub(crate) fn parts_of(alloc: Global, parts: MultiParts) -> Result<Parts, NoMemory>
    ensures { IfOk result (λ it. it ≡ map part_of parts) }
{
    let mut operations = Vec::new(alloc);
    for part in parts.into_vec() {
        operations.push(part_of(alloc, part)?)?;
    }
    Ok(Parts::new(operations))
}
