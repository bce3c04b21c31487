//! Whole snapshots.

ghost use Rattle.std.specs.Prelude.{◌≡◌, IfOk, Err};
ghost use Rattle.zk_jute.specs.Reading.{Takes, Gives};
ghost use Rattle.zk_snapshot.specs.Faults.{IsAnswer, Refused};
ghost use Rattle.zk_snapshot.specs.Reading.{contents_at, sealed_claim_at, snapshot_at, all_of};
ghost use Rattle.zk_snapshot.specs.Snapshots.{IsSnapshotOf};
ghost use Rattle.zk_snapshot.specs.declared.snapshot.Snapshot as declared;

use crate::fault::{SnapshotFault, fault_of};
use crate::fields::{accesses, before, claim, header, leases, seal};
use crate::nodes::nodes;
use crate::snapshot::{Claim, Contents, Snapshot};
use std::alloc::Global;
use zk_jute::JuteFault;

#[tactic(auto, unfolding(crate::specs::Reading::contents_at))]
fn contents(alloc: Global, input: &mut &[u8]) -> Result<Contents, JuteFault>
    ensures { Takes result input.new.now (contents_at input.old.now) }
{
    let dbid = header(input)?;
    let leases = leases(alloc, input)?;
    let accesses = accesses(alloc, input)?;
    let nodes = nodes(alloc, input)?;
    Ok(Contents {
        dbid,
        leases,
        accesses,
        nodes,
    })
}

/// After the first seal: nothing, or a claim with its own seal.
#[tactic(auto, unfolding(crate::specs::Reading::sealed_claim_at))]
fn sealed_claim(all: &[u8], input: &mut &[u8]) -> Result<Option<Claim>, JuteFault>
    ensures { Takes result input.new.now (sealed_claim_at all.now input.old.now) }
{
    if input.is_empty() {
        return Ok(None);
    }
    let claim = claim(input)?;
    let front = before(all, input);
    let _sum = seal(front, input)?;
    Ok(Some(claim))
}

#[tactic(auto, unfolding(crate::specs::Reading::snapshot_at))]
fn snapshot(alloc: Global, bytes: &[u8], input: &mut &[u8]) -> Result<Snapshot, JuteFault>
    requires whole { input.now.now ≡ bytes.now }
    ensures { Takes result input.new.now (snapshot_at bytes.now) }
{
    let contents = contents(alloc, input)?;
    let front = before(bytes, input);
    let _sum = seal(front, input)?;
    let claim = sealed_claim(bytes, input)?;
    Ok(Snapshot { contents, claim })
}

fn all(alloc: Global, bytes: &[u8]) -> Result<Snapshot, JuteFault>
    ensures { Gives result (all_of bytes.now) }
{
    let mut input = bytes;
    let snapshot = snapshot(alloc, bytes, &mut input)?;
    if !input.is_empty() {
        return Err(JuteFault::Trailing);
    }
    Ok(snapshot)
}

/// Reads a whole snapshot file.
///
/// Fails with the fault of the first field from the left that cannot be read.
pub fn read_snapshot(alloc: Global, bytes: &[u8]) -> Result<Snapshot, SnapshotFault>
    // The bytes are those of the snapshot that is returned.
    ensures found { IfOk result (λ snapshot. IsSnapshotOf bytes.now snapshot) }
    // A snapshot of these bytes is returned, unless allocation fails.
    ensures only { (snapshot : declared.Snapshot) → IsSnapshotOf bytes.now snapshot → IsAnswer result snapshot }
    // The fault is that of the first field that cannot be read.
    ensures exact { Refused bytes.now result (all_of bytes.now) }
{
    match all(alloc, bytes) {
        Ok(snapshot) => Ok(snapshot),
        Err(field) => Err(fault_of(bytes, field)),
    }
}
