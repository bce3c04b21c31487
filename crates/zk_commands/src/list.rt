//! The log's lines around a place.
ghost use Rattle.std.specs.Prelude.{◌≡◌, ◌≤◌, ◌++◌, Some, length, OnOk};
ghost use Rattle.std.specs.List.{flat_map};
ghost use Rattle.std.specs.String.{string_bytes};
ghost use Rattle.zk_commands.specs.Lists.{list_text, marked_at, marked_line, unmarked_line};

use zk_format::spell_line;
use zk_path::NoMemory;
use zk_table::Txn;

/// Appends the line of the transaction just before a place, marked, with up to `count` lines of the
/// log before it and after it. An allocation failure may leave a part.
pub fn spell_list(
    page: &mut String,
    txns: &[Txn],
    place: usize,
    count: usize,
) -> Result<(), NoMemory>
    requires { place ≤ length txns.now }
    ensures { OnOk result
        (string_bytes page.new ≡ string_bytes page.old ++ list_text txns.now place count) }
{
    let last = place.saturating_sub(1);
    spell_unmarked(page, &txns[last.saturating_sub(count)..last])?;
    spell_marked(page, txns, place)?;
    let behind = count.min(txns.len() - place);
    spell_unmarked(page, &txns[place..place + behind])
}

/// Appends the line of the transaction just before a place, with its mark.
fn spell_marked(page: &mut String, txns: &[Txn], place: usize) -> Result<(), NoMemory>
    requires { place ≤ length txns.now }
    ensures { OnOk result
        (string_bytes page.new ≡ string_bytes page.old ++ marked_at txns.now place) }
{
    if place == 0 {
        page.push_str("> start\n")?;
        return Ok(());
    }
    spell_marked_line(page, &txns[place - 1])
}

fn spell_marked_line(page: &mut String, txn: &Txn) -> Result<(), NoMemory>
    ensures { OnOk result (string_bytes page.new ≡ string_bytes page.old ++ marked_line (Some txn.now)) }
{
    page.push_str("> ")?;
    spell_line(page, txn)
}

/// Appends the lines of other transactions, without marks.
fn spell_unmarked(page: &mut String, txns: &[Txn]) -> Result<(), NoMemory>
    ensures { OnOk result
        (string_bytes page.new ≡ string_bytes page.old ++ flat_map unmarked_line txns.now) }
{
    for txn in txns {
        spell_unmarked_line(page, txn)?;
    }
    Ok(())
}

fn spell_unmarked_line(page: &mut String, txn: &Txn) -> Result<(), NoMemory>
    ensures { OnOk result (string_bytes page.new ≡ string_bytes page.old ++ unmarked_line txn.now) }
{
    page.push_str("  ")?;
    spell_line(page, txn)
}
