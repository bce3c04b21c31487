//! Reads requests.
ghost use Rattle.std.specs.Prelude.{◌≡◌};
ghost use Rattle.zk_listing.specs.Reading.{Takes, mapped};
ghost use Rattle.zk_request_syntax.specs.Promises.{ReadsAll};
ghost use Rattle.zk_request_syntax.specs.Reading.{created_at, written_at, set_acl_at, request_at, request_created, request_written};
ghost use Rattle.zk_request_syntax.specs.RequestLines.{SpellsRequest};

use crate::fields::{Named, alone};
use crate::parts::{created, named, parts, written};
use crate::spaced::{spaced_acl, spaced_int, spaced_text};
use crate::words::take_word;
use std::alloc::Global;
use zk_listing::ListCause;
use zk_requests::Request;

/// Reads a request: `create [-s] [-e] PATH CONTENT ACL`, `delete PATH VERSION`, `set PATH CONTENT
/// VERSION`, `setacl PATH ACL VERSION`, `open TIMEOUT`, `close`, or `multi` with its parts, each
/// after ` ; `.
pub fn read_request(alloc: Global, text: &str) -> Result<Request, ListCause>
    ensures { ReadsAll SpellsRequest text.now result }
{
    let mut rest = text;
    let read = request(alloc, &mut rest);
    alone(read, rest)
}

/// Reads a request, and leaves what comes after it; a multi takes everything.
#[tactic(auto, unfolding(crate::specs::Reading::request_at))]
pub(crate) fn request(alloc: Global, input: &mut &str) -> Result<Request, ListCause>
    ensures { Takes result input.new.now (request_at input.old.now) }
{
    match take_word(input) {
        "create" => create(alloc, input),
        "delete" => {
            let Named { path, version } = named(alloc, input)?;
            Ok(Request::Delete { path, version })
        }
        "set" => set(alloc, input),
        "setacl" => set_acl(alloc, input),
        "multi" => Ok(Request::Multi {
            parts: parts(alloc, input)?,
        }),
        "open" => Ok(Request::OpenSession {
            timeout: spaced_int(input)?,
        }),
        "close" => Ok(Request::CloseSession),
        _ => Err(ListCause::Word),
    }
}

fn create(alloc: Global, input: &mut &str) -> Result<Request, ListCause>
    ensures { Takes result input.new.now (mapped request_created created_at input.old.now) }
{
    let fields = created(alloc, input)?;
    Ok(Request::Create {
        path: fields.path,
        content: fields.content,
        acl: fields.acl,
        flags: fields.flags,
    })
}

fn set(alloc: Global, input: &mut &str) -> Result<Request, ListCause>
    ensures { Takes result input.new.now (mapped request_written written_at input.old.now) }
{
    let fields = written(alloc, input)?;
    Ok(Request::SetData {
        path: fields.path,
        content: fields.content,
        version: fields.version,
    })
}

#[tactic(auto, unfolding(crate::specs::Reading::set_acl_at))]
fn set_acl(alloc: Global, input: &mut &str) -> Result<Request, ListCause>
    ensures { Takes result input.new.now (set_acl_at input.old.now) }
{
    let path = spaced_text(alloc, input)?;
    let acl = spaced_acl(alloc, input)?;
    let version = spaced_int(input)?;
    Ok(Request::SetAcl { path, acl, version })
}
