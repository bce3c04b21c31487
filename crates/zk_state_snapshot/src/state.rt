ghost use Rattle.std.specs.Prelude.{◌≡◌, IfOk, map};
ghost use Rattle.zk_state_snapshot.specs.StateSnapshots.{placed, snapshot_from, snapshot_of};

use crate::accesses::accesses_of;
use crate::digest::digest_of;
use crate::nodes::{leases_of, nodes_of};
use std::alloc::Global;
use zk_fold::Fold;
use zk_path::NoMemory;
use zk_snapshot::{Accesses, Claim, Contents, Leases, Snapshot, StoredNodes};
use zk_tree::Entry;

/// The database's number, which every snapshot has.
const DBID: i64 = -1;

/// The version of the digest.
const DIGEST_VERSION: i32 = 2;

/// The snapshot of nodes and sessions, whose last transaction has the zxid `last`. Nodes and
/// sessions are in order, as a table and a machine hold them.
///
/// Contents and access control lists are shared. The cost is one pass over the nodes, and a look at
/// each list of the table for each node.
pub fn snapshot_from(
    alloc: Global,
    entries: &[Entry<'_>],
    sessions: &[(u64, i32)],
    last: i64,
) -> Result<Snapshot, NoMemory>
    ensures { IfOk result (λ snapshot. snapshot ≡ snapshot_from (map placed entries.now) sessions.now last) }
{
    let accesses = accesses_of(alloc, entries)?;
    let nodes = nodes_of(alloc, accesses.as_slice(), entries)?;
    let leases = leases_of(alloc, sessions)?;
    let sum = digest_of(entries).cast_signed();
    Ok(Snapshot {
        contents: Contents {
            dbid: DBID,
            leases: Leases::new(leases),
            accesses: Accesses::new(accesses),
            nodes: StoredNodes::new(nodes),
        },
        claim: Some(Claim {
            zxid: last,
            version: DIGEST_VERSION,
            sum,
        }),
    })
}

/// The snapshot of a table's state.
pub fn snapshot_of(alloc: Global, table: &Fold) -> Result<Snapshot, NoMemory>
    ensures { IfOk result (λ snapshot. snapshot ≡ snapshot_of table.now.state) }
{
    let entries = table.entries()?;
    let sessions = table.sessions()?;
    snapshot_from(alloc, entries.as_slice(), sessions.as_slice(), table.last())
}
