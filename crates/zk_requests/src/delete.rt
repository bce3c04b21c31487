//! Deletes.

ghost use Rattle.std.specs.Prelude.{◌≡◌};
ghost use Rattle.zk_requests.specs.Refusals.{Gives};
ghost use Rattle.zk_requests.specs.Requests.{may_go, delete};

use crate::Overlay;
use crate::refusal::Refusal;
use crate::texts::{demand, is_first_path, path_in, text_above};
use crate::versions::matches;
use zk_acl::{DELETE, Id, allows};
use zk_table::Sub;
use zk_table::codes::{BAD_ARGUMENTS, BAD_VERSION, NO_AUTH, NO_NODE, NOT_EMPTY};

/// Fails if the node may not be deleted. The parent's access control list decides.
fn may_go(nodes: &Overlay<'_>, auths: &[Id], path: &str, version: i32) -> Result<(), Refusal>
    ensures { Gives result (may_go nodes.now auths.now path.now version) }
{
    let Some(node) = nodes.get(path) else {
        return Err(Refusal::Code(NO_NODE));
    };
    let Some(parent) = nodes.get(text_above(path)) else {
        return Err(Refusal::Code(NO_NODE));
    };
    demand(allows(parent.acl.as_slice(), DELETE, auths), NO_AUTH)?;
    demand(matches(version, node.version), BAD_VERSION)?;
    demand(nodes.child_count(path) == 0, NOT_EMPTY)
}

/// Prepares a delete.
pub(crate) fn delete(
    nodes: &Overlay<'_>,
    auths: &[Id],
    text: &str,
    version: i32,
) -> Result<Sub, Refusal>
    ensures { Gives result (delete nodes.now auths.now text.now version) }
{
    let path = path_in(nodes.allocator(), text)?;
    demand(!is_first_path(text), BAD_ARGUMENTS)?;
    may_go(nodes, auths, text, version)?;
    Ok(Sub::Delete { path })
}
