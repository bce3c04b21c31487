//! The nodes and sessions of a snapshot.

ghost use Rattle.std.specs.Prelude.{◌≡◌, IfOk, map};
ghost use Rattle.zk_state_snapshot.specs.StateSnapshots.{lease_of, placed, stored_in};

use crate::accesses::number_of;
use std::alloc::Global;
use zk_path::NoMemory;
use zk_snapshot::{Access, Kept, Lease, Moments, Stored, Versions};
use zk_table::Content;
use zk_tree::Entry;

/// A node as a snapshot stores it. Its content is shared.
fn stored_of(table: &[Access], entry: &Entry<'_>) -> Result<Stored, NoMemory>
    ensures { IfOk result (λ stored. stored ≡ stored_in table.now (placed entry.now)) }
{
    let node = entry.node;
    Ok(Stored {
        path: entry.path.copy()?,
        kept: Kept {
            content: Content::copy_of(&node.content)?,
            access: number_of(table, node.acl.as_slice()),
            moments: Moments {
                czxid: node.czxid,
                mzxid: node.mzxid,
                ctime: node.ctime,
                mtime: node.mtime,
            },
            versions: Versions {
                version: node.version,
                creates: node.creates,
                aversion: node.aversion,
            },
            owner: node.owner,
            pzxid: node.pzxid,
        },
    })
}

pub(crate) fn nodes_of(
    alloc: Global,
    table: &[Access],
    entries: &[Entry<'_>],
) -> Result<Vec<Stored>, NoMemory>
    ensures { IfOk result (λ nodes. nodes.items ≡ map (stored_in table.now) (map placed entries.now)) }
{
    let mut nodes = Vec::with_capacity(alloc, entries.len())?;
    for entry in entries {
        nodes.push(stored_of(table, entry)?)?;
    }
    Ok(nodes)
}

pub(crate) fn leases_of(alloc: Global, sessions: &[(u64, i32)]) -> Result<Vec<Lease>, NoMemory>
    ensures { IfOk result (λ leases. leases.items ≡ map lease_of sessions.now) }
{
    let mut leases = Vec::with_capacity(alloc, sessions.len())?;
    for one in sessions {
        leases.push(Lease {
            session: one.0.cast_signed(),
            timeout: one.1,
        })?;
    }
    Ok(leases)
}
