//! Whether two trees differ at a path.
ghost use Rattle.std.specs.Prelude.{◌≡◌, IfOk, option_map};
ghost use Rattle.std.specs.String.{string_bytes};
ghost use Rattle.zk_tree_changes.specs.Differences.{differ_at, differ_by};

use crate::change::line_at;
use std::alloc::Global;
use zk_path::NoMemory;
use zk_tree::Tree;

/// Whether two trees differ at a path: only one of them has a node there, or their nodes have
/// different lines.
#[tactic(auto, unfolding(crate::specs::Differences::differ_at))]
pub fn differ_at(alloc: Global, old: &Tree, new: &Tree, path: &str) -> Result<bool, NoMemory>
    ensures { IfOk result (λ differ. differ ≡ differ_at old.now new.now path.now) }
{
    let before = line_at(alloc, old, path)?;
    let after = line_at(alloc, new, path)?;
    Ok(differ(&before, &after))
}

fn differ(before: &Option<String>, after: &Option<String>) -> bool
    ensures { result ≡ differ_by (option_map string_bytes before.now) (option_map string_bytes after.now) }
{
    match (before, after) {
        (None, None) => false,
        (Some(_), None) => true,
        (None, Some(_)) => true,
        (Some(before), Some(after)) => before.as_str() != after.as_str(),
    }
}
