//! Texts of requests that need not be paths.

ghost use Rattle.std.specs.Prelude.{◌≡◌, IfOk};
ghost use Rattle.zk_acl.specs.Access.{fix};
ghost use Rattle.zk_table.specs.Codes.{invalid_acl};
ghost use Rattle.zk_requests.specs.Refusals.{Gives, demand, or_refused};
ghost use Rattle.zk_requests.specs.Requests.{path_in, text_above, is_legible, is_first_path};

use crate::refusal::Refusal;
use std::alloc::Global;
use zk_acl::{AclFault, Acls, Id, fix};
use zk_path::{NoMemory, Path, PathFault};
use zk_table::codes::{BAD_ARGUMENTS, INVALID_ACL};

/// Fails with a code unless the test holds.
pub(crate) fn demand(holds: bool, code: i32) -> Result<(), Refusal>
    ensures { Gives result (demand holds code) }
{
    if holds {
        Ok(())
    } else {
        Err(Refusal::Code(code))
    }
}

/// Reads a text as a path.
pub(crate) fn path_in(alloc: Global, text: &str) -> Result<Path, Refusal>
    ensures { Gives result (path_in text.now) }
{
    match Path::read(alloc, text) {
        Ok(path) => Ok(path),
        Err(PathFault::NoMemory) => Err(Refusal::NoMemory),
        Err(_) => Err(Refusal::Code(BAD_ARGUMENTS)),
    }
}

/// Returns the access control list that is stored for the one in a request.
pub(crate) fn kept_acl(acl: &Acls, auths: &[Id]) -> Result<Acls, Refusal>
    ensures { Gives result (or_refused invalid_acl (fix acl.now auths.now)) }
{
    match fix(acl, auths) {
        Ok(kept) => Ok(kept),
        Err(AclFault::Invalid) => Err(Refusal::Code(INVALID_ACL)),
        Err(AclFault::NoMemory) => Err(Refusal::NoMemory),
    }
}

/// Returns the text before the last slash; `/` if it is empty.
pub(crate) fn text_above(text: &str) -> &str
    ensures { result.now ≡ text_above text.now }
{
    let Some((above, _)) = text.rsplit_once('/') else {
        return "/";
    };
    if above.is_empty() { "/" } else { above }
}

/// Whether the text can have a parent: it has a slash, and no NUL.
pub(crate) fn is_legible(text: &str) -> bool
    ensures { result ≡ is_legible text.now }
{
    let bytes = text.as_bytes();
    bytes.contains(&b'/') && !bytes.contains(&b'\0')
}

/// Whether the path is that of a node that exists before any transaction.
pub(crate) fn is_first_path(path: &str) -> bool
    ensures { result ≡ is_first_path path.now }
{
    path == "/" || path == "/zookeeper" || path == "/zookeeper/quota"
}
