//! The lines of what differs.
ghost use Rattle.std.specs.Prelude.{◌≡◌, ◌++◌, ◌∷◌, [], IfOk, OnOk, map, option_map};
ghost use Rattle.std.specs.List.{filter, flat_map};
ghost use Rattle.std.specs.String.{string_bytes};
ghost use Rattle.zk_tree_changes.specs.Changes.{stamp_at};
ghost use Rattle.zk_tree_changes.specs.Differences.{changed_lines, differences, line_at, line_of, lines_at, lines_by};
ghost use Rattle.zk_tree_changes.specs.Texts.{AppendsLines, AppendsStamp};
ghost use Rattle.zk_format.specs.Spelling.{id_digits};
ghost use Rattle.zk_incidents.specs.Within.{is_within};

use crate::last_changes::LastChanges;
use crate::paths::Paths;
use crate::sign::Sign;
use crate::stamps::Stamp;
use std::alloc::Global;
use zk_format::push_id;
use zk_incidents::Scope;
use zk_json::push_time;
use zk_listing::push_entry_line;
use zk_path::NoMemory;
use zk_tree::{Entry, Tree};

/// Appends the lines of the nodes of a scope that differ between two trees, in order of path: `-`
/// and the node's line for one that the new tree does not have, `+` for one that the old tree does
/// not have, and `<` and `>` for the old and the new line of one that was changed. After its sign a
/// line has the time and the zxid of the last transaction that changed the node, or two dashes. An
/// allocation failure may leave a part.
#[tactic(auto, unfolding(crate::specs::Differences::differences))]
pub fn push_differences(
    text: &mut String,
    scope: &Scope,
    changes: &LastChanges,
    old: &Tree,
    new: &Tree,
) -> Result<(), NoMemory>
    ensures { OnOk result (AppendsLines (stamp_at changes.now)
        (differences (string_bytes scope.now.root) scope.now.below old.now new.now) (string_bytes text.old) (string_bytes text.new)) }
{
    let paths = Paths::of(*text.allocator(), old, new)?;
    let texts = paths.texts()?;
    push_changes(text, scope, changes, old, new, texts.as_slice())
}

/// Appends what differs at these paths.
#[tactic(auto, using(crate::proofs::Lining::no_line, crate::proofs::Lining::next_lines))]
fn push_changes(
    text: &mut String,
    scope: &Scope,
    changes: &LastChanges,
    old: &Tree,
    new: &Tree,
    paths: &[&str],
) -> Result<(), NoMemory>
    ensures { OnOk result (AppendsLines (stamp_at changes.now)
        (flat_map (lines_at old.now new.now) (filter (is_within (string_bytes scope.now.root) scope.now.below) (map (λ path. path.now) paths.now)))
        (string_bytes text.old) (string_bytes text.new)) }
{
    for path in paths {
        push_covered(text, scope, changes, old, new, path)?;
    }
    Ok(())
}

/// Appends what differs at a path, if the scope covers it.
#[tactic(auto, using(crate::proofs::Lining::no_line, crate::proofs::Lining::taken, crate::proofs::Lining::passed))]
fn push_covered(
    text: &mut String,
    scope: &Scope,
    changes: &LastChanges,
    old: &Tree,
    new: &Tree,
    path: &str,
) -> Result<(), NoMemory>
    ensures { OnOk result (AppendsLines (stamp_at changes.now)
        (flat_map (lines_at old.now new.now) (filter (is_within (string_bytes scope.now.root) scope.now.below) (path.now ∷ [])))
        (string_bytes text.old) (string_bytes text.new)) }
{
    if !scope.covers(path) {
        return Ok(());
    }
    push_change(text, changes, old, new, path)
}

/// Appends what differs at a path.
#[tactic(auto, using(crate::proofs::Differing::changed_by))]
fn push_change(
    text: &mut String,
    changes: &LastChanges,
    old: &Tree,
    new: &Tree,
    path: &str,
) -> Result<(), NoMemory>
    ensures { OnOk result (AppendsLines (stamp_at changes.now) (lines_at old.now new.now path.now) (string_bytes text.old) (string_bytes text.new)) }
{
    let alloc = *text.allocator();
    let before = line_at(alloc, old, path)?;
    let after = line_at(alloc, new, path)?;
    push_lines(text, changes, path, &before, &after)
}

/// Appends the lines of a node before and after, if they differ.
#[tactic(auto, using(crate::proofs::Lining::no_line))]
fn push_lines(
    text: &mut String,
    changes: &LastChanges,
    path: &str,
    before: &Option<String>,
    after: &Option<String>,
) -> Result<(), NoMemory>
    ensures { OnOk result (AppendsLines (stamp_at changes.now)
        (lines_by path.now (option_map string_bytes before.now) (option_map string_bytes after.now)) (string_bytes text.old) (string_bytes text.new)) }
{
    match (before, after) {
        (None, None) => Ok(()),
        (Some(before), None) => push_line(text, Sign::Removed, changes, path, before.as_str()),
        (None, Some(after)) => push_line(text, Sign::Added, changes, path, after.as_str()),
        (Some(before), Some(after)) => {
            push_changed(text, changes, path, before.as_str(), after.as_str())
        }
    }
}

/// The line of the node at a path, if there is one.
pub(crate) fn line_at(alloc: Global, tree: &Tree, path: &str) -> Result<Option<String>, NoMemory>
    ensures { IfOk result (λ line. option_map string_bytes line ≡ line_at tree.now path.now) }
{
    let Some((path, node)) = tree.entry_by_text(path) else {
        return Ok(None);
    };
    let entry = Entry {
        path,
        node,
        child_count: tree.child_count(path),
    };
    let mut line = String::new(alloc);
    push_entry_line(&mut line, &entry)?;
    Ok(Some(line))
}

/// Appends both lines, if they differ.
#[tactic(auto, using(crate::proofs::Lining::no_line, crate::proofs::Lining::joined))]
fn push_changed(
    text: &mut String,
    changes: &LastChanges,
    path: &str,
    before: &str,
    after: &str,
) -> Result<(), NoMemory>
    ensures { OnOk result (AppendsLines (stamp_at changes.now) (changed_lines path.now before.now after.now) (string_bytes text.old) (string_bytes text.new)) }
{
    if before == after {
        return Ok(());
    }
    push_line(text, Sign::Before, changes, path, before)?;
    push_line(text, Sign::After, changes, path, after)
}

/// Appends a line.
#[tactic(auto, using(crate::proofs::Lining::one_line))]
fn push_line(
    text: &mut String,
    sign: Sign,
    changes: &LastChanges,
    path: &str,
    node: &str,
) -> Result<(), NoMemory>
    ensures { OnOk result (AppendsLines (stamp_at changes.now) (line_of sign path.now node.now ∷ []) (string_bytes text.old) (string_bytes text.new)) }
{
    text.push_str(sign.text())?;
    push_stamp(text, changes.stamp_at(path))?;
    text.push_str(node)?;
    Ok(())
}

/// Appends the time and the zxid of a transaction, or two dashes.
fn push_stamp(text: &mut String, stamp: Option<Stamp>) -> Result<(), NoMemory>
    ensures { OnOk result (AppendsStamp stamp (string_bytes text.old) (string_bytes text.new)) }
{
    let Some(stamp) = stamp else {
        text.push_str(" - - ")?;
        return Ok(());
    };
    push_space(text)?;
    push_time(text, stamp.time)?;
    push_next_id(text, stamp.zxid)?;
    push_space(text)
}

fn push_space(text: &mut String) -> Result<(), NoMemory>
    ensures { OnOk result (string_bytes text.new ≡ string_bytes text.old ++ 32 ∷ []) }
{
    text.push(' ')?;
    Ok(())
}

/// Appends a space and a zxid.
fn push_next_id(text: &mut String, id: i64) -> Result<(), NoMemory>
    ensures { OnOk result (string_bytes text.new ≡ string_bytes text.old ++ 32 ∷ id_digits id) }
{
    text.push(' ')?;
    push_id(text, id)
}
