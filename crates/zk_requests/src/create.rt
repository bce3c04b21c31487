//! Creates.

ghost use Rattle.std.specs.Prelude.{◌≡◌, IfOk};
ghost use Rattle.std.specs.String.{string_bytes};
ghost use Rattle.zk_requests.specs.Refusals.{Gives};
ghost use Rattle.zk_requests.specs.Requests.{are_flags, is_persistent, is_ephemeral, is_sequential, numbered, path_in, place_below, create_below, create};

use crate::Overlay;
use crate::refusal::Refusal;
use crate::texts::{demand, is_legible, kept_acl, path_in, text_above};
use crate::versions::one_more;
use std::alloc::Global;
use zk_acl::{Acls, CREATE, Id, allows};
use zk_path::{NoMemory, Path, sequence};
use zk_table::codes::{BAD_ARGUMENTS, NO_AUTH, NO_CHILDREN_FOR_EPHEMERALS, NO_NODE, NODE_EXISTS};
use zk_table::{Content, Node, Sub};

/// Whether the flags are 0 to 3.
fn are_flags(flags: i32) -> bool
    ensures { result ≡ are_flags flags }
{
    0 <= flags && flags <= 3
}

fn is_ephemeral(flags: i32) -> bool
    ensures { result ≡ is_ephemeral flags }
{
    flags == 1 || flags == 3
}

fn is_sequential(flags: i32) -> bool
    ensures { result ≡ is_sequential flags }
{
    flags == 2 || flags == 3
}

/// Whether a node has no owner, and may have children.
fn is_persistent(node: &Node) -> bool
    ensures { result ≡ is_persistent node.now }
{
    node.owner == 0
}

/// Returns the text of the node's path: a sequential one ends with the number of its parent's
/// creates.
fn numbered(alloc: Global, text: &str, flags: i32, creates: i32) -> Result<String, NoMemory>
    ensures { IfOk result (λ path. string_bytes path ≡ numbered text.now flags creates) }
{
    let mut path = String::from_str(alloc, text)?;
    if is_sequential(flags) {
        let number = sequence(alloc, creates)?;
        path.push_str(number.as_str())?;
    }
    Ok(path)
}

/// Returns the path of the request's text, below this parent.
fn numbered_path(alloc: Global, text: &str, flags: i32, creates: i32) -> Result<Path, Refusal>
    ensures { Gives result (path_in (numbered text.now flags creates)) }
{
    let path = numbered(alloc, text, flags, creates)?;
    path_in(alloc, path.as_str())
}

/// Returns the path at which the node may be created, below this parent.
fn place_below(
    nodes: &Overlay<'_>,
    auths: &[Id],
    text: &str,
    flags: i32,
    parent: &Node,
) -> Result<Path, Refusal>
    ensures { Gives result (place_below nodes.now auths.now text.now flags parent.now) }
{
    demand(allows(parent.acl.as_slice(), CREATE, auths), NO_AUTH)?;
    demand(are_flags(flags), BAD_ARGUMENTS)?;
    let path = numbered_path(nodes.allocator(), text, flags, parent.creates)?;
    demand(nodes.get(path.text()).is_none(), NODE_EXISTS)?;
    demand(is_persistent(parent), NO_CHILDREN_FOR_EPHEMERALS)?;
    Ok(path)
}

/// Creates the node below this parent, with this access control list.
fn create_below(
    nodes: &Overlay<'_>,
    auths: &[Id],
    text: &str,
    content: &Option<Content>,
    acl: Acls,
    flags: i32,
    parent: &Node,
) -> Result<Sub, Refusal>
    ensures { Gives result (create_below nodes.now auths.now text.now content.now acl flags parent.now) }
{
    let path = place_below(nodes, auths, text, flags, parent)?;
    let content = Content::copy_of(content)?;
    Ok(Sub::Create {
        path,
        content,
        acl,
        ephemeral: is_ephemeral(flags),
        count: one_more(parent.creates),
    })
}

/// Prepares a create.
pub(crate) fn create(
    nodes: &Overlay<'_>,
    auths: &[Id],
    text: &str,
    content: &Option<Content>,
    acl: &Acls,
    flags: i32,
) -> Result<Sub, Refusal>
    ensures { Gives result (create nodes.now auths.now text.now content.now acl.now flags) }
{
    demand(is_legible(text), BAD_ARGUMENTS)?;
    let acl = kept_acl(acl, auths)?;
    let Some(parent) = nodes.get(text_above(text)) else {
        return Err(Refusal::Code(NO_NODE));
    };
    create_below(nodes, auths, text, content, acl, flags, parent)
}
