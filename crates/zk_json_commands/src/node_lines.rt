//! The lines of a tree's nodes.
ghost use Rattle.std.specs.Prelude.{OnOk};
ghost use Rattle.std.specs.String.{string_bytes};
ghost use Rattle.zk_json_commands.specs.Lines.{AppendsLines};
ghost use Rattle.zk_json_commands.specs.Nodes.{AppendsEntryLine, IsEntryLine};

use zk_json::push_node_line;
use zk_path::NoMemory;
use zk_tree::Entry;

/// Appends the line of an entry.
fn push_entry(text: &mut String, entry: &Entry<'_>) -> Result<(), NoMemory>
    ensures { OnOk result (AppendsEntryLine entry.now (string_bytes text.old) (string_bytes text.new)) }
{
    let stat = entry.node.stat(entry.child_count);
    push_node_line(text, entry.path, entry.node, &stat)
}

/// Appends the lines of entries.
#[tactic(auto, using(crate::proofs::Written::none_written, crate::proofs::Written::next_written, crate::proofs::Written::all_written))]
pub(crate) fn push_entries(text: &mut String, entries: &[Entry<'_>]) -> Result<(), NoMemory>
    ensures { OnOk result (AppendsLines IsEntryLine entries.now (string_bytes text.old) (string_bytes text.new)) }
{
    for entry in entries {
        push_entry(text, entry)?;
    }
    Ok(())
}
