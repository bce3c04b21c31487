//! Replies to reads, by the tree's indexes.

ghost use Rattle.std.specs.Prelude.{◌≡◌, IfOk};
ghost use Rattle.zk_table.specs.declared.read.ReadReply.TheVariants as replies;
ghost use Rattle.zk_table.specs.Replies.{if_readable};
ghost use Rattle.zk_table.specs.Reads.{names_below, reply_from};

use zk_acl::{Id, Stat};
use zk_path::{NoMemory, Path};
use zk_table::codes::{NO_AUTH, NO_NODE};
use zk_table::{Node, ReadCall, ReadReply};
use zk_tree::Tree;

/// The reply to a read of `tree` by a caller who has proved `auths`.
pub(crate) fn reply_from(tree: &Tree, call: &ReadCall, auths: &[Id]) -> Result<ReadReply, NoMemory>
    ensures { IfOk result (λ reply. reply ≡ reply_from tree.now call.now auths.now) }
{
    let path = call.path();
    let Some(node) = tree.get(path) else {
        return Ok(ReadReply::Refused(NO_NODE));
    };
    let stat = node.stat(tree.child_count(path));
    match call {
        ReadCall::GetData { .. } => node.content_reply(stat, auths),
        ReadCall::Exists { .. } => Ok(ReadReply::Found(stat)),
        ReadCall::GetChildren { path } => children_reply(tree, path, node, stat, auths),
        ReadCall::GetAcl { .. } => node.acl_reply(stat),
    }
}

/// The reply to a read of the names of a node's children.
fn children_reply(
    tree: &Tree,
    path: &Path,
    node: &Node,
    stat: Stat,
    auths: &[Id],
) -> Result<ReadReply, NoMemory>
    ensures { IfOk result (λ reply. reply ≡ if_readable node.now auths.now (replies.Children (names_below tree.now path.now) stat)) }
{
    if !node.is_readable(auths) {
        return Ok(ReadReply::Refused(NO_AUTH));
    }
    let names = tree.child_names(path)?;
    Ok(ReadReply::Children { names, stat })
}
