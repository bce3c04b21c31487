//! The nodes of a table with the owners that a server stores, and their snapshot.
ghost use Rattle.std.specs.Prelude.{◌≡◌, length, IfOk, map};
ghost use Rattle.std.specs.FinMap as finite;
ghost use Rattle.zk_state_snapshot.specs.StateSnapshots.{placed};
ghost use Rattle.zk_stored_owners.specs.StoredOwners.{node_with, places_of, snapshot_with};

use crate::owners::Owners;
use std::alloc::Global;
use zk_fold::Fold;
use zk_path::NoMemory;
use zk_snapshot::Snapshot;
use zk_state_snapshot::snapshot_from;
use zk_table::Node;
use zk_tree::Entry;

/// A copy of a node, with the owner that a server stores.
fn node_with(owners: &Owners, entry: &Entry<'_>) -> Result<Node, NoMemory>
    ensures { IfOk result (λ node. node ≡ node_with (finite.get owners.now) (placed entry.now)) }
{
    let mut node = entry.node.copy()?;
    if let Some(owner) = owners.get(entry.path.text()) {
        node.owner = owner;
    }
    Ok(node)
}

fn nodes_with(alloc: Global, owners: &Owners, entries: &[Entry<'_>]) -> Result<Vec<Node>, NoMemory>
    ensures { IfOk result (λ nodes. nodes.items ≡ map (node_with (finite.get owners.now)) (map placed entries.now)) }
{
    let mut nodes = Vec::with_capacity(alloc, entries.len())?;
    for entry in entries {
        nodes.push(node_with(owners, entry)?)?;
    }
    Ok(nodes)
}

/// Entries with other nodes at the same paths.
fn entries_with<'a>(
    alloc: Global,
    entries: &[Entry<'a>],
    nodes: &'a [Node],
) -> Result<Vec<Entry<'a>>, NoMemory>
    requires { length entries.now ≡ length nodes.now }
    ensures { IfOk result (λ entries'. map placed entries'.items ≡ places_of (map placed entries.now) nodes.now) }
{
    let mut replaced = Vec::with_capacity(alloc, entries.len())?;
    for index in 0..entries.len() {
        let entry = entries[index];
        replaced.push(Entry {
            path: entry.path,
            node: &nodes[index],
            child_count: entry.child_count,
        })?;
    }
    Ok(replaced)
}

/// The snapshot of a table's state, whose nodes have these owners, or else their own.
pub fn stored_snapshot(alloc: Global, table: &Fold, owners: &Owners) -> Result<Snapshot, NoMemory>
    ensures { IfOk result (λ snapshot. snapshot ≡ snapshot_with (finite.get owners.now) table.now.state) }
{
    let entries = table.entries()?;
    let nodes = nodes_with(alloc, owners, entries.as_slice())?;
    let stored = entries_with(alloc, entries.as_slice(), nodes.as_slice())?;
    let sessions = table.sessions()?;
    snapshot_from(alloc, stored.as_slice(), sessions.as_slice(), table.last())
}
