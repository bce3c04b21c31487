//! The effect of one operation on a draft.

ghost use Rattle.std.specs.Prelude.{◌≡◌, OnOk};
ghost use Rattle.zk_replay.specs.Drafts.{fresh, changed, written, guarded};
ghost use Rattle.zk_replay.specs.Rules.{create, delete, delete_all, close, apply_part, apply_parts};

use crate::{DraftNode, DraftNodes};
use zk_acl::Acls;
use zk_path::{NoMemory, Path};
use zk_table::{Content, Node, Sub, Txn};

/// Creates a node, and replaces any node at its path. Changes nothing if its parent is missing.
pub(crate) fn create(
    drafts: &mut DraftNodes,
    zxid: i64,
    path: &Path,
    node: Node,
    count: i32,
) -> Result<(), NoMemory>
    ensures { OnOk result (drafts.new ≡ create drafts.old zxid path.now node count) }
{
    let Some(above) = path.parent() else {
        return Ok(());
    };
    if !drafts.contains(above) {
        return Ok(());
    }
    drafts.remove_tree(path)?;
    drafts.insert(path.text(), DraftNode::fresh(path.copy()?, node))?;
    drafts.add_child(above, zxid, count);
    Ok(())
}

/// Deletes a node with all below it. Its parent records that, even if there was no node.
pub(crate) fn delete(drafts: &mut DraftNodes, zxid: i64, path: &Path) -> Result<(), NoMemory>
    ensures { OnOk result (drafts.new ≡ delete drafts.old zxid path.now) }
{
    let Some(above) = path.parent() else {
        return Ok(());
    };
    drafts.remove_tree(path)?;
    drafts.lose_child(above, zxid);
    Ok(())
}

/// Sets the content of a node.
pub(crate) fn set_data(
    drafts: &mut DraftNodes,
    txn: &Txn,
    path: &Path,
    content: &Option<Content>,
    version: i32,
) -> Result<(), NoMemory>
    ensures { OnOk result (drafts.new ≡ changed drafts.old path.now (written txn.now content.now version)) }
{
    let content = Content::copy_of(content)?;
    drafts.write(path.text(), txn, content, version);
    Ok(())
}

/// Sets the access control list of a node.
pub(crate) fn set_acl(
    drafts: &mut DraftNodes,
    path: &Path,
    acl: &Acls,
    version: i32,
) -> Result<(), NoMemory>
    ensures { OnOk result (drafts.new ≡ changed drafts.old path.now (guarded acl.now version)) }
{
    let acl = acl.copy()?;
    drafts.guard(path.text(), acl, version);
    Ok(())
}

/// Deletes the nodes in order.
fn delete_all(drafts: &mut DraftNodes, zxid: i64, paths: &[Path]) -> Result<(), NoMemory>
    ensures { OnOk result (drafts.new ≡ delete_all drafts.old zxid paths.now) }
{
    for path in paths {
        delete(drafts, zxid, path)?;
    }
    Ok(())
}

/// Deletes the listed nodes, with any owner, and then the nodes of the session.
pub(crate) fn close(drafts: &mut DraftNodes, txn: &Txn, listed: &[Path]) -> Result<(), NoMemory>
    ensures { OnOk result (drafts.new ≡ close drafts.old txn.now listed.now) }
{
    delete_all(drafts, txn.zxid, listed)?;
    let owned = drafts.owned_by(txn.session)?;
    delete_all(drafts, txn.zxid, owned.as_slice())
}

/// Applies a part of a multi.
pub(crate) fn apply_part(drafts: &mut DraftNodes, txn: &Txn, part: &Sub) -> Result<(), NoMemory>
    ensures { OnOk result (drafts.new ≡ apply_part txn.now drafts.old part.now) }
{
    match part {
        Sub::Create {
            path,
            content,
            acl,
            ephemeral,
            count,
        } => {
            let node = Node::created(txn, content, acl, *ephemeral)?;
            create(drafts, txn.zxid, path, node, *count)
        }
        Sub::Delete { path } => delete(drafts, txn.zxid, path),
        Sub::SetData {
            path,
            content,
            version,
        } => set_data(drafts, txn, path, content, *version),
        Sub::Check { .. } | Sub::Error { .. } => Ok(()),
    }
}

/// Applies the parts of a multi in order.
pub(crate) fn apply_parts(drafts: &mut DraftNodes, txn: &Txn, parts: &[Sub]) -> Result<(), NoMemory>
    ensures { OnOk result (drafts.new ≡ apply_parts txn.now drafts.old parts.now) }
{
    for part in parts {
        apply_part(drafts, txn, part)?;
    }
    Ok(())
}
