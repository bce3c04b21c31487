//! The lines of what differs between two trees.
ghost use Rattle.std.specs.Prelude.{◌≡◌, ◌∷◌, [], IfOk, OnOk, map, option_map, true};
ghost use Rattle.std.specs.String.{string_bytes};
ghost use Rattle.zk_tree_changes.specs.Changes.{stamp_at};
ghost use Rattle.zk_tree_changes.specs.Differences.{differ_at, differing};
ghost use Rattle.zk_json.specs.Changes.{AppendsChangeLine};
ghost use Rattle.zk_json_commands.specs.Differences.{AppendsDifferences, IsDifferenceLine, last_of, side_at};
ghost use Rattle.zk_json_commands.specs.Lines.{AppendsLines};
ghost use Rattle.zk_table.specs.States.{stat_of};

use zk_acl::Stat;
use zk_incidents::Scope;
use zk_json::{Held, LastChange, push_change_line};
use zk_path::{NoMemory, Path};
use zk_table::Node;
use zk_tree::Tree;
use zk_tree_changes::{LastChanges, Paths, Stamp, differ_at};

/// Appends a line for each node of a scope that differs between two trees, in order of path.
#[tactic(auto, unfolding(zk_tree_changes::specs::Differences::differing))]
pub(crate) fn push_difference_lines(
    text: &mut String,
    scope: &Scope,
    changes: &LastChanges,
    old: &Tree,
    new: &Tree,
) -> Result<(), NoMemory>
    ensures { OnOk result (AppendsLines (IsDifferenceLine changes.now old.now new.now)
        (differing (string_bytes scope.now.root) scope.now.below old.now new.now) (string_bytes text.old) (string_bytes text.new)) }
{
    let paths = Paths::of(*text.allocator(), old, new)?;
    let texts = paths.texts()?;
    push_paths(text, scope, changes, old, new, texts.as_slice())
}

/// Appends the lines at these paths.
#[tactic(auto, using(crate::proofs::Differing::none_appended))]
fn push_paths(
    text: &mut String,
    scope: &Scope,
    changes: &LastChanges,
    old: &Tree,
    new: &Tree,
    paths: &[&str],
) -> Result<(), NoMemory>
    ensures { OnOk result (AppendsDifferences (string_bytes scope.now.root) scope.now.below changes.now old.now new.now
        (map (λ path. path.now) paths.now) (string_bytes text.old) (string_bytes text.new)) }
{
    for path in paths {
        push_path(text, scope, changes, old, new, path)?;
    }
    Ok(())
}

/// Appends the line at a path, if the scope covers it and the trees differ there.
#[tactic(auto, using(crate::proofs::Differing::outside, crate::proofs::Differing::alike, crate::proofs::Differing::appended))]
fn push_path(
    text: &mut String,
    scope: &Scope,
    changes: &LastChanges,
    old: &Tree,
    new: &Tree,
    path: &str,
) -> Result<(), NoMemory>
    ensures { OnOk result (AppendsDifferences (string_bytes scope.now.root) scope.now.below changes.now old.now new.now
        (path.now ∷ []) (string_bytes text.old) (string_bytes text.new)) }
{
    if !scope.covers(path) {
        return Ok(());
    }
    if !differ_at(*text.allocator(), old, new, path)? {
        return Ok(());
    }
    push_difference(text, old, new, path, last_change(changes.stamp_at(path)))
}

fn last_change(stamp: Option<Stamp>) -> Option<LastChange>
    ensures { result ≡ option_map last_of stamp }
{
    match stamp {
        Some(stamp) => Some(LastChange {
            zxid: stamp.zxid,
            time: stamp.time,
        }),
        None => None,
    }
}

/// The stat of a node of a tree.
fn stat_in(tree: &Tree, path: &Path, node: &Node) -> Stat
    ensures { result ≡ stat_of tree.now path.now node.now }
{
    node.stat(tree.child_count(path))
}

/// Appends the line at a path at which two trees differ.
#[tactic(auto, using(crate::proofs::Differing::no_nodes))]
fn push_difference(
    text: &mut String,
    old: &Tree,
    new: &Tree,
    path: &str,
    last: Option<LastChange>,
) -> Result<(), NoMemory>
    requires { differ_at old.now new.now path.now ≡ true }
    ensures { OnOk result (AppendsChangeLine path.now last (side_at old.now path.now) (side_at new.now path.now)
        (string_bytes text.old) (string_bytes text.new)) }
{
    match (old.entry_by_text(path), new.entry_by_text(path)) {
        (None, None) => unreachable!(),
        (Some((path, node)), None) => {
            let stat = stat_in(old, path, node);
            let before = Held { node, stat: &stat };
            push_change_line(text, path, last, Some(before), None)
        }
        (None, Some((path, node))) => {
            let stat = stat_in(new, path, node);
            let after = Held { node, stat: &stat };
            push_change_line(text, path, last, None, Some(after))
        }
        (Some((path, node)), Some((_, changed))) => {
            let stat = stat_in(old, path, node);
            let changed_stat = stat_in(new, path, changed);
            let before = Held { node, stat: &stat };
            let after = Held {
                node: changed,
                stat: &changed_stat,
            };
            push_change_line(text, path, last, Some(before), Some(after))
        }
    }
}
