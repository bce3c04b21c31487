//! Errors that kept the body of the request, whose type only the body's shape shows.

ghost use Rattle.std.specs.Prelude.{◌≡◌};
ghost use Rattle.zk_jute.specs.Reading.{Takes, create_part};
ghost use Rattle.zk_newer_records.specs.Reading.{plain_create, part_with, kept_container_at, kept_plain_at, kept_ttl_at, kept_create_at, kept_content_at, kept_path_at, error_at};

use crate::parts::{NewerPart, PartEncoding};
use std::alloc::Global;
use zk_acl::Acls;
use zk_jute::JuteFault;
use zk_jute::acls::acl_vector;
use zk_jute::bodies::{CreateTxn, CreateTxnV0};
use zk_jute::fields::{boolean, content, int, long, path};
use zk_path::Path;
use zk_table::{Content, Sub};

/// The bytes of a 32-bit number: an error's code, a version or a count.
const INT: usize = 4;

/// A container's create has only a count after its access control list.
#[tactic(auto, unfolding(crate::specs::Reading::kept_container_at))]
fn kept_container(front: CreateTxnV0, input: &mut &[u8]) -> Result<NewerPart, JuteFault>
    ensures { Takes result input.new.now (kept_container_at front.path front.content front.acl input.old.now) }
{
    let count = int(input)?;
    Ok(made(front, false, count, PartEncoding::KeptContainer))
}

/// A plain node's create has a boolean before the count.
#[tactic(auto, unfolding(crate::specs::Reading::kept_plain_at))]
fn kept_plain(front: CreateTxnV0, input: &mut &[u8]) -> Result<NewerPart, JuteFault>
    ensures { Takes result input.new.now (kept_plain_at front.path front.content front.acl input.old.now) }
{
    let ephemeral = boolean(input)?;
    let count = int(input)?;
    Ok(made(front, ephemeral, count, PartEncoding::Kept))
}

/// The create of a node with a time to live has the milliseconds after the count.
#[tactic(auto, unfolding(crate::specs::Reading::kept_ttl_at))]
fn kept_ttl(front: CreateTxnV0, input: &mut &[u8]) -> Result<NewerPart, JuteFault>
    ensures { Takes result input.new.now (kept_ttl_at front.path front.content front.acl input.old.now) }
{
    let count = int(input)?;
    let ttl = long(input)?;
    Ok(made(front, false, count, PartEncoding::KeptTtl { ttl }))
}

/// The number of bytes after the list decides which create it is.
#[tactic(auto, unfolding(crate::specs::Reading::kept_create_at))]
fn kept_create(front: CreateTxnV0, input: &mut &[u8]) -> Result<NewerPart, JuteFault>
    ensures { Takes result input.new.now (kept_create_at front.path front.content front.acl input.old.now) }
{
    match input.len() {
        4 => kept_container(front, input),
        5 => kept_plain(front, input),
        _ => kept_ttl(front, input),
    }
}

/// The create of the request.
fn made(front: CreateTxnV0, ephemeral: bool, count: i32, form: PartEncoding) -> NewerPart
    ensures { result ≡ part_with form (create_part (plain_create front.path front.content front.acl ephemeral count)) }
{
    let front = CreateTxnV0 { ephemeral, ..front };
    NewerPart {
        sub: CreateTxn { front, count }.into_part(),
        form,
    }
}

/// After the path of a request: a content, and then a version or an access control list.
#[tactic(auto, unfolding(crate::specs::Reading::kept_content_at))]
fn kept_content(
    alloc: Global,
    earlier: &mut Option<Acls>,
    path: Path,
    content: Option<Content>,
    input: &mut &[u8],
) -> Result<NewerPart, JuteFault>
    ensures { Takes result input.new.now (kept_content_at path content input.old.now) }
{
    if input.len() == INT {
        let version = int(input)?;
        return Ok(NewerPart {
            sub: Sub::SetData {
                path,
                content,
                version,
            },
            form: PartEncoding::Kept,
        });
    }
    let acl = acl_vector(alloc, earlier, input)?;
    let front = CreateTxnV0 {
        path,
        content,
        acl,
        ephemeral: false,
    };
    kept_create(front, input)
}

/// After the path: nothing, a version, or a content.
#[tactic(auto, unfolding(crate::specs::Reading::kept_path_at))]
fn kept_path(
    alloc: Global,
    earlier: &mut Option<Acls>,
    path: Path,
    input: &mut &[u8],
) -> Result<NewerPart, JuteFault>
    ensures { Takes result input.new.now (kept_path_at path input.old.now) }
{
    let form = PartEncoding::Kept;
    if input.is_empty() {
        let sub = Sub::Delete { path };
        return Ok(NewerPart { sub, form });
    }
    if input.len() == INT {
        let version = int(input)?;
        let sub = Sub::Check { path, version };
        return Ok(NewerPart { sub, form });
    }
    let content = content(alloc, input)?;
    kept_content(alloc, earlier, path, content, input)
}

/// An error: its code, or the body of the request. Every kept body is longer than a code, since no
/// path is empty.
#[tactic(auto, unfolding(crate::specs::Reading::error_at))]
pub(crate) fn error(
    alloc: Global,
    earlier: &mut Option<Acls>,
    input: &mut &[u8],
) -> Result<NewerPart, JuteFault>
    ensures { Takes result input.new.now (error_at input.old.now) }
{
    if input.len() == INT {
        let code = int(input)?;
        return Ok(NewerPart {
            sub: Sub::Error { code },
            form: PartEncoding::Own,
        });
    }
    let path = path(alloc, input)?;
    kept_path(alloc, earlier, path, input)
}
