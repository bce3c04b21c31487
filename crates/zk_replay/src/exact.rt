ghost use Rattle.std.specs.Prelude.{◌≡◌};
ghost use Rattle.zk_replay.specs.Bases.{exact_from, exact_with, latest_in, latest_of};

use crate::draft_node::later;
use zk_snapshot::{Claim, Snapshot, Stored};

/// From which zxid on the replay of a snapshot is exact.
#[derive(Clone, Copy, Debug, PartialEq, Eq)]
pub struct Exact {
    pub zxid: i64,
    /// Whether the file states it; if not, the replay may be exact only from a later zxid on.
    pub is_told: bool,
}

/// The greatest zxid of a node and this one.
fn latest_in(zxid: i64, stored: &Stored) -> i64
    ensures { result ≡ latest_in zxid stored.now }
{
    let latest = later(zxid, stored.kept.moments.czxid);
    let latest = later(latest, stored.kept.moments.mzxid);
    later(latest, stored.kept.pzxid)
}

/// The greatest zxid of nodes and this one.
fn latest_of(zxid: i64, stored: &[Stored]) -> i64
    ensures { result ≡ latest_of zxid stored.now }
{
    let mut latest = zxid;
    for one in stored {
        latest = latest_in(latest, one);
    }
    latest
}

fn exact_with(zxid: i64, latest: i64, claim: &Option<Claim>) -> Exact
    ensures { result ≡ exact_with zxid latest claim.now }
{
    let Some(claim) = claim else {
        return Exact {
            zxid: latest,
            is_told: false,
        };
    };
    if claim.zxid < zxid {
        return Exact {
            zxid: latest,
            is_told: false,
        };
    }
    Exact {
        zxid: later(latest, claim.zxid),
        is_told: true,
    }
}

/// From which zxid on the replay of a snapshot is exact, if it was begun at `zxid`, the one in its
/// name.
pub fn exact_from(snapshot: &Snapshot, zxid: i64) -> Exact
    ensures { result ≡ exact_from snapshot.now zxid }
{
    let latest = latest_of(zxid, snapshot.contents.nodes.as_slice());
    exact_with(zxid, latest, &snapshot.claim)
}
