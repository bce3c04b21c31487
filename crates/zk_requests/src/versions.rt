//! Requests on an existing node, by the version that the caller expects.

ghost use Rattle.std.specs.Prelude.{◌≡◌};
ghost use Rattle.zk_requests.specs.Refusals.{Gives};
ghost use Rattle.zk_requests.specs.Requests.{matches, one_more, next_version, next_aversion, set_data, check, set_acl};

use crate::Overlay;
use crate::refusal::Refusal;
use crate::texts::{demand, kept_acl, path_in};
use zk_acl::{ADMIN, Acls, Id, READ, WRITE, allows};
use zk_table::codes::{BAD_VERSION, NO_AUTH, NO_NODE};
use zk_table::{Content, Op, Sub};

/// Whether a version is the expected one; -1 matches any.
pub(crate) fn matches(wanted: i32, version: i32) -> bool
    ensures { result ≡ matches wanted version }
{
    wanted == -1 || wanted == version
}

/// Adds one, wrapping in 32 bits.
pub(crate) fn one_more(number: i32) -> i32
    ensures { result ≡ one_more number }
{
    number.wrapping_add(1)
}

/// Returns the next version of a node, if the caller has the permission and knows its version.
fn next_version(
    nodes: &Overlay<'_>,
    auths: &[Id],
    path: &str,
    version: i32,
    perm: u32,
) -> Result<i32, Refusal>
    ensures { Gives result (next_version nodes.now auths.now path.now version perm) }
{
    let Some(node) = nodes.get(path) else {
        return Err(Refusal::Code(NO_NODE));
    };
    demand(allows(node.acl.as_slice(), perm, auths), NO_AUTH)?;
    demand(matches(version, node.version), BAD_VERSION)?;
    Ok(one_more(node.version))
}

/// Returns the next version of its access control list.
fn next_aversion(
    nodes: &Overlay<'_>,
    auths: &[Id],
    path: &str,
    version: i32,
) -> Result<i32, Refusal>
    ensures { Gives result (next_aversion nodes.now auths.now path.now version) }
{
    let Some(node) = nodes.get(path) else {
        return Err(Refusal::Code(NO_NODE));
    };
    demand(allows(node.acl.as_slice(), ADMIN, auths), NO_AUTH)?;
    demand(matches(version, node.aversion), BAD_VERSION)?;
    Ok(one_more(node.aversion))
}

/// Prepares a setData.
pub(crate) fn set_data(
    nodes: &Overlay<'_>,
    auths: &[Id],
    text: &str,
    content: &Option<Content>,
    version: i32,
) -> Result<Sub, Refusal>
    ensures { Gives result (set_data nodes.now auths.now text.now content.now version) }
{
    let path = path_in(nodes.allocator(), text)?;
    let version = next_version(nodes, auths, text, version, WRITE)?;
    let content = Content::copy_of(content)?;
    Ok(Sub::SetData {
        path,
        content,
        version,
    })
}

/// Prepares a check.
pub(crate) fn check(
    nodes: &Overlay<'_>,
    auths: &[Id],
    text: &str,
    version: i32,
) -> Result<Sub, Refusal>
    ensures { Gives result (check nodes.now auths.now text.now version) }
{
    let path = path_in(nodes.allocator(), text)?;
    let version = next_version(nodes, auths, text, version, READ)?;
    Ok(Sub::Check { path, version })
}

/// Prepares a setACL.
pub(crate) fn set_acl(
    nodes: &Overlay<'_>,
    auths: &[Id],
    text: &str,
    acl: &Acls,
    version: i32,
) -> Result<Op, Refusal>
    ensures { Gives result (set_acl nodes.now auths.now text.now acl.now version) }
{
    let path = path_in(nodes.allocator(), text)?;
    let acl = kept_acl(acl, auths)?;
    let version = next_aversion(nodes, auths, text, version)?;
    Ok(Op::SetAcl { path, acl, version })
}
