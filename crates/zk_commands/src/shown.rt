//! What a session prints besides the output of a script.
ghost use Rattle.std.specs.Prelude.{◌≡◌, ◌++◌, false, OnOk};
ghost use Rattle.std.specs.FinMap as finite;
ghost use Rattle.std.specs.List.{flat_map};
ghost use Rattle.std.specs.String.{string_bytes};
ghost use Rattle.zk_debug.specs.Commands.{breakpoint_text, kind_text};
ghost use Rattle.zk_commands.specs.Shown.{breakpoint_line, breakpoints_text, entry_in, in_words, line_in, or_none, subtree_text};

use indexmap::IndexMap;
use zk_debug::{Breakpoint, Debugger, Kind, is_in};
use zk_format::{push_id, push_quoted};
use zk_listing::push_entry_line;
use zk_machine::Machine;
use zk_path::NoMemory;
use zk_tree::{Entry, Tree};

/// Appends the output of a script's command, a fault in words. An allocation failure may leave a
/// part, as in each function here.
#[tactic(auto, unfolding(crate::specs::Shown::in_words))]
pub fn push_in_words(page: &mut String, answer: &str) -> Result<(), NoMemory>
    ensures { OnOk result (string_bytes page.new ≡ string_bytes page.old ++ in_words answer.now) }
{
    page.push_str(words_of(answer))?;
    Ok(())
}

#[tactic(auto, unfolding(crate::specs::Shown::in_words))]
fn words_of(answer: &str) -> &str
    ensures { result.now ≡ in_words answer.now }
{
    match answer {
        "B1\n" => "end of the log (B1)\n",
        "B2\n" => "no earlier place (B2)\n",
        "B3\n" => "no breakpoint has this number (B3)\n",
        "B4\n" => "out of memory (B4)\n",
        "B5\n" => "an earlier command ran out of memory: reset (B5)\n",
        "B6\n" => "all breakpoint numbers are used (B6)\n",
        _ => answer,
    }
}

/// Appends lines, or that there are none.
pub fn push_or_none(page: &mut String, lines: &str) -> Result<(), NoMemory>
    ensures { OnOk result (string_bytes page.new ≡ string_bytes page.old ++ or_none lines.now) }
{
    if lines.is_empty() {
        page.push_str("none\n")?;
    } else {
        page.push_str(lines)?;
    }
    Ok(())
}

/// Appends the lines of the nodes at and below a path.
pub fn push_subtree(page: &mut String, machine: &Machine, path: &str) -> Result<(), NoMemory>
    requires { machine.now.failed ≡ false }
    ensures { OnOk result (string_bytes page.new ≡ string_bytes page.old ++ subtree_text path.now machine.now.state.nodes) }
{
    let Ok(tree) = machine.tree() else {
        unreachable!()
    };
    let mut lines = String::new(*page.allocator());
    push_nodes_in(&mut lines, tree, path)?;
    push_or_none(page, lines.as_str())
}

fn push_nodes_in(page: &mut String, tree: &Tree, path: &str) -> Result<(), NoMemory>
    ensures { OnOk result (string_bytes page.new ≡ string_bytes page.old
        ++ flat_map (line_in path.now tree.now) (finite.entries tree.now)) }
{
    let entries = tree.entries()?;
    push_entries_in(page, entries.as_slice(), path)
}

fn push_entries_in(page: &mut String, entries: &[Entry], path: &str) -> Result<(), NoMemory>
    ensures { OnOk result (string_bytes page.new ≡ string_bytes page.old ++ flat_map (entry_in path.now) entries.now) }
{
    for entry in entries {
        push_entry_in(page, entry, path)?;
    }
    Ok(())
}

fn push_entry_in(page: &mut String, entry: &Entry, path: &str) -> Result<(), NoMemory>
    ensures { OnOk result (string_bytes page.new ≡ string_bytes page.old ++ entry_in path.now entry.now) }
{
    if is_in(path, true, entry.path.text()) {
        push_entry_line(page, entry)?;
    }
    Ok(())
}

/// Appends the breakpoints that are set, a line each.
pub fn push_breakpoints(page: &mut String, debugger: &Debugger) -> Result<(), NoMemory>
    ensures { OnOk result (string_bytes page.new ≡ string_bytes page.old
        ++ breakpoints_text (finite.entries debugger.now.breakpoints.standing)) }
{
    let mut lines = String::new(*page.allocator());
    push_standing(&mut lines, debugger.breakpoints())?;
    push_or_none(page, lines.as_str())
}

fn push_standing(page: &mut String, standing: &IndexMap<u32, Breakpoint>) -> Result<(), NoMemory>
    ensures { OnOk result (string_bytes page.new ≡ string_bytes page.old ++ flat_map breakpoint_line standing.now.entries) }
{
    for at in 0..standing.len() {
        let Some((number, breakpoint)) = standing.get_index(at) else {
            unreachable!()
        };
        push_breakpoint(page, *number, breakpoint)?;
    }
    Ok(())
}

fn push_breakpoint(page: &mut String, number: u32, breakpoint: &Breakpoint) -> Result<(), NoMemory>
    ensures { OnOk result (string_bytes page.new ≡ string_bytes page.old ++ breakpoint_line (number, breakpoint.now)) }
{
    write!(page, "{number} ")?;
    push_condition(page, breakpoint)?;
    page.push('\n')?;
    Ok(())
}

/// Appends what follows `break` in the line that sets a breakpoint.
fn push_condition(page: &mut String, breakpoint: &Breakpoint) -> Result<(), NoMemory>
    ensures { OnOk result (string_bytes page.new ≡ string_bytes page.old ++ breakpoint_text breakpoint.now) }
{
    match breakpoint {
        Breakpoint::At(zxid) => {
            page.push_str("at ")?;
            push_id(page, *zxid)
        }
        Breakpoint::Path(path) => {
            page.push_str("path ")?;
            push_quoted(page, path.text())
        }
        Breakpoint::Prefix(path) => {
            page.push_str("prefix ")?;
            push_quoted(page, path.text())
        }
        Breakpoint::Session(session) => {
            page.push_str("session ")?;
            push_id(page, *session)
        }
        Breakpoint::Kind(kind) => {
            page.push_str("kind ")?;
            Ok(page.push_str(word_of(*kind))?)
        }
        Breakpoint::Error => Ok(page.push_str("error")?),
    }
}

fn word_of(kind: Kind) -> &'static str
    ensures { result.now ≡ kind_text kind }
{
    match kind {
        Kind::CreateOld => "create0",
        Kind::Create => "create",
        Kind::Delete => "delete",
        Kind::SetData => "setData",
        Kind::SetAcl => "setACL",
        Kind::OpenSession => "createSession",
        Kind::CloseSession => "closeSession",
        Kind::Error => "error",
        Kind::Multi => "multi",
    }
}
