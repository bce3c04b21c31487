//! The digest of a tree, and of some of its nodes.
ghost use Rattle.std.specs.Prelude.{◌≡◌, IfOk};
ghost use Rattle.std.specs.FinMap as finite;
ghost use Rattle.std.specs.Option.{option_copied};
ghost use Rattle.zk_mend.specs.Digests.{tree_digest};
ghost use Rattle.zk_mend.specs.Stepping.{counted};
ghost use Rattle.zk_replay.specs.Sums.{digest_over, entries_digest};

use crate::owners::Owners;
use crate::paths::PathSet;
use zk_fold::Fold;
use zk_mend::node_digest;
use zk_path::NoMemory;
use zk_table::Node;
use zk_tree::Entry;

/// The digest of a node with this owner, or else its own; 0 for `None`.
fn counted(path: &str, node: Option<&Node>, owner: Option<i64>) -> u64
    ensures { result ≡ counted path.now (option_copied node.entry) owner }
{
    match node {
        Some(node) => u64::from(node_digest(path, node, owner.unwrap_or(node.owner))),
        None => 0,
    }
}

/// The digest of the nodes at these paths.
pub(crate) fn digest_over(table: &Fold, owners: &Owners, paths: &PathSet) -> u64
    ensures { result ≡ digest_over (finite.get owners.now) table.now.state.nodes (finite.keys paths.now) }
{
    let mut sum = 0u64;
    for text in paths.texts.iter() {
        let comes = counted(text, table.get(text), owners.get(text));
        sum = sum.wrapping_add(comes);
    }
    sum
}

/// The digest of these nodes.
fn entries_digest(entries: &[Entry<'_>], owners: &Owners) -> u64
    ensures { result ≡ entries_digest (finite.get owners.now) entries.now }
{
    let mut sum = 0u64;
    for entry in entries {
        let text = entry.path.text();
        let comes = counted(text, Some(entry.node), owners.get(text));
        sum = sum.wrapping_add(comes);
    }
    sum
}

/// The digest of a whole table.
pub(crate) fn table_digest(table: &Fold, owners: &Owners) -> Result<u64, NoMemory>
    ensures { IfOk result (λ sum. sum ≡ tree_digest (finite.get owners.now) table.now.state.nodes) }
{
    let entries = table.entries()?;
    Ok(entries_digest(entries.as_slice(), owners))
}
