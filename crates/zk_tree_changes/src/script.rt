//! The script that restores a node and those below it.
ghost use Rattle.std.specs.Prelude.{◌≡◌, ◌++◌, OnOk, map, true};
ghost use Rattle.std.specs.List.{flat_map};
ghost use Rattle.std.specs.String.{string_bytes};
ghost use Rattle.zk_tree_changes.specs.Scripts.{body, covered_lines, head, moment, node_of, premises_line, script, title, use_line};

use crate::node::push_node;
use zk_fold::Fold;
use zk_format::{push_id, push_quoted};
use zk_incidents::Scope;
use zk_path::NoMemory;
use zk_tree::Entry;

/// Appends the script that restores the node at a path and those below it: the lines of
/// `zkCli.sh` that create them, parents first. The root is set, and comments name what is left out.
/// A node that does not exist has none. An allocation failure may leave a part.
pub fn push_script(text: &mut String, path: &str, table: &Fold) -> Result<(), NoMemory>
    ensures { OnOk result (string_bytes text.new ≡ string_bytes text.old ++ script path.now table.now.state) }
{
    push_head(text, path, table.last())?;
    push_body(text, path, table)
}

/// Appends what the script holds, and what it assumes.
fn push_head(text: &mut String, path: &str, zxid: i64) -> Result<(), NoMemory>
    ensures { OnOk result (string_bytes text.new ≡ string_bytes text.old ++ head path.now zxid) }
{
    push_title(text, path)?;
    push_moment(text, zxid)?;
    push_use(text)?;
    push_premises(text)
}

#[tactic(auto, unfolding(crate::specs::Scripts::use_line))]
fn push_use(text: &mut String) -> Result<(), NoMemory>
    ensures { OnOk result (string_bytes text.new ≡ string_bytes text.old ++ use_line) }
{
    text.push_str(
        "# For zkCli.sh in a UTF-8 locale: zkCli.sh -server HOST:PORT < SCRIPT. The client reports each of these comments.\n",
    )?;
    Ok(())
}

#[tactic(auto, unfolding(crate::specs::Scripts::premises_line))]
fn push_premises(text: &mut String) -> Result<(), NoMemory>
    ensures { OnOk result (string_bytes text.new ≡ string_bytes text.old ++ premises_line) }
{
    text.push_str(
        "# The parent exists, and these nodes do not. Versions, times and zxids are not restored.\n",
    )?;
    Ok(())
}

#[tactic(auto, unfolding(crate::specs::Scripts::title))]
fn push_title(text: &mut String, path: &str) -> Result<(), NoMemory>
    ensures { OnOk result (string_bytes text.new ≡ string_bytes text.old ++ title path.now) }
{
    text.push_str("# Node ")?;
    push_quoted(text, path)?;
    Ok(())
}

#[tactic(auto, unfolding(crate::specs::Scripts::moment))]
fn push_moment(text: &mut String, zxid: i64) -> Result<(), NoMemory>
    ensures { OnOk result (string_bytes text.new ≡ string_bytes text.old ++ moment zxid) }
{
    text.push_str(" and those below it, after transaction ")?;
    push_id(text, zxid)?;
    text.push_str(".\n")?;
    Ok(())
}

/// Appends the lines of the node at a path and those below it.
#[tactic(auto, using(crate::proofs::Borrowed::nodes_borrowed))]
fn push_body(text: &mut String, path: &str, table: &Fold) -> Result<(), NoMemory>
    ensures { OnOk result (string_bytes text.new ≡ string_bytes text.old ++ body path.now table.now.state.nodes) }
{
    let scope = Scope::new(*text.allocator(), path, true)?;
    let entries = table.entries()?;
    push_nodes(text, &scope, entries.as_slice())
}

/// Appends the lines of the nodes that a scope covers.
fn push_nodes(text: &mut String, scope: &Scope, entries: &[Entry<'_>]) -> Result<(), NoMemory>
    requires { scope.now.below ≡ true }
    ensures { OnOk result (string_bytes text.new ≡ string_bytes text.old ++ flat_map (covered_lines (string_bytes scope.now.root)) (map node_of entries.now)) }
{
    for entry in entries {
        push_covered(text, scope, entry)?;
    }
    Ok(())
}

/// Appends the lines of a node, if the scope covers it.
fn push_covered(text: &mut String, scope: &Scope, entry: &Entry<'_>) -> Result<(), NoMemory>
    requires { scope.now.below ≡ true }
    ensures { OnOk result (string_bytes text.new ≡ string_bytes text.old ++ covered_lines (string_bytes scope.now.root) (node_of entry.now)) }
{
    if !scope.covers(entry.path.text()) {
        return Ok(());
    }
    push_node(text, entry.path.text(), entry.node)
}
