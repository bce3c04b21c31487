//! The report of a tree. Functions named `push` append all of it, or nothing if an allocation
//! fails, except `push_entry_line`.
ghost use Rattle.std.specs.Prelude.{◌≡◌, ◌++◌, false, OnErr, OnOk};
ghost use Rattle.std.specs.FinMap as finite;
ghost use Rattle.std.specs.List.{flat_map};
ghost use Rattle.std.specs.String.{string_bytes};
ghost use Rattle.zk_listing.specs.Reports.{line, entry_line, zxid_line, session_line, tree_report};

use crate::{push_digits, push_id};
use zk_format::spell_node_line;
use zk_machine::Machine;
use zk_path::NoMemory;
use zk_tree::Entry;

/// Appends the report of a machine's state: its last transaction, its open sessions and its nodes.
pub fn push_tree(page: &mut String, machine: &Machine) -> Result<(), NoMemory>
    requires { machine.now.failed ≡ false }
    ensures appended { OnOk result
        (string_bytes page.new ≡ string_bytes page.old ++ tree_report machine.now.state) }
    ensures unchanged { OnErr result (string_bytes page.new ≡ string_bytes page.old) }
{
    let mut report = String::new(*page.allocator());
    spell_tree(&mut report, machine)?;
    page.push_str(report.as_str())?;
    Ok(())
}

/// Like [`push_tree`], but an allocation failure may leave a part, so the caller must discard the
/// text.
#[tactic(auto, unfolding(crate::specs::Reports::tree_report))]
pub fn spell_tree(page: &mut String, machine: &Machine) -> Result<(), NoMemory>
    requires { machine.now.failed ≡ false }
    ensures { OnOk result
        (string_bytes page.new ≡ string_bytes page.old ++ tree_report machine.now.state) }
{
    let Ok(tree) = machine.tree() else {
        unreachable!()
    };
    let entries = tree.entries()?;
    push_head(page, machine)?;
    push_entries(page, entries.as_slice())
}

/// Appends the lines of the last transaction and of the open sessions.
pub fn push_head(page: &mut String, machine: &Machine) -> Result<(), NoMemory>
    requires { machine.now.failed ≡ false }
    ensures appended { OnOk result (string_bytes page.new ≡ string_bytes page.old
        ++ (line (zxid_line machine.now.state.last)
        ++ flat_map (λ session. line (session_line session)) (finite.entries machine.now.state.sessions))) }
    ensures unchanged { OnErr result (string_bytes page.new ≡ string_bytes page.old) }
{
    let Ok(last) = machine.last() else {
        unreachable!()
    };
    let Ok(sessions) = machine.sessions() else {
        unreachable!()
    };
    push_head_of(page, last, sessions)
}

/// Appends the lines of this last transaction and of these open sessions.
pub fn push_head_of(page: &mut String, last: i64, sessions: &[(u64, i32)]) -> Result<(), NoMemory>
    ensures appended { OnOk result (string_bytes page.new ≡ string_bytes page.old
        ++ (line (zxid_line last) ++ flat_map (λ session. line (session_line session)) sessions.now)) }
    ensures unchanged { OnErr result (string_bytes page.new ≡ string_bytes page.old) }
{
    let mut head = String::new(*page.allocator());
    push_zxid_line(&mut head, last)?;
    push_sessions(&mut head, sessions)?;
    page.push_str(head.as_str())?;
    Ok(())
}

/// Appends the line of a tree's last transaction.
#[tactic(auto, unfolding(crate::specs::Reports::zxid_line))]
fn push_zxid_line(page: &mut String, zxid: i64) -> Result<(), NoMemory>
    ensures { OnOk result (string_bytes page.new ≡ string_bytes page.old ++ line (zxid_line zxid)) }
{
    page.push_str("zxid ")?;
    push_id(page, zxid)?;
    page.push('\n')?;
    Ok(())
}

/// Appends the lines of the open sessions.
fn push_sessions(page: &mut String, sessions: &[(u64, i32)]) -> Result<(), NoMemory>
    ensures { OnOk result (string_bytes page.new ≡ string_bytes page.old
        ++ flat_map (λ session. line (session_line session)) sessions.now) }
{
    for session in sessions {
        push_session_line(page, session)?;
    }
    Ok(())
}

/// Appends the line of an open session, by its 64 bits, and its timeout in milliseconds.
#[tactic(auto, unfolding(crate::specs::Reports::session_line))]
fn push_session_line(page: &mut String, session: &(u64, i32)) -> Result<(), NoMemory>
    ensures { OnOk result
        (string_bytes page.new ≡ string_bytes page.old ++ line (session_line session.now)) }
{
    let (id, timeout) = session;
    page.push_str("session ")?;
    push_digits(page, *id)?;
    write!(page, " {timeout}\n")?;
    Ok(())
}

/// Appends the lines of these nodes.
fn push_entries(page: &mut String, entries: &[Entry]) -> Result<(), NoMemory>
    ensures { OnOk result
        (string_bytes page.new ≡ string_bytes page.old ++ flat_map entry_line entries.now) }
{
    for entry in entries {
        push_entry_line(page, entry)?;
    }
    Ok(())
}

/// Appends the line of an entry. An allocation failure may leave a part of it, so the caller must
/// discard the text.
pub fn push_entry_line(page: &mut String, entry: &Entry) -> Result<(), NoMemory>
    ensures { OnOk result (string_bytes page.new ≡ string_bytes page.old ++ entry_line entry.now) }
{
    let stat = entry.node.stat(entry.child_count);
    spell_node_line(page, entry.path, entry.node, &stat)?;
    page.push('\n')?;
    Ok(())
}
