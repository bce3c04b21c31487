ghost use Rattle.std.specs.Prelude.{◌≡◌, map};
ghost use Rattle.zk_state_snapshot.specs.StateSnapshots.{digest_of, placed};

use zk_mend::node_digest;
use zk_tree::Entry;

/// The digest of the tree of these nodes.
pub(crate) fn digest_of(entries: &[Entry<'_>]) -> u64
    ensures { result ≡ digest_of (map placed entries.now) }
{
    let mut sum = 0u64;
    for entry in entries {
        let one = node_digest(entry.path.text(), entry.node, entry.node.owner);
        sum = sum.wrapping_add(u64::from(one));
    }
    sum
}
