//! The report of a directory's state.
ghost use Rattle.std.specs.Prelude.{◌≡◌, ◌++◌, IfOk, OnOk};
ghost use Rattle.std.specs.List.{flat_map};
ghost use Rattle.std.specs.String.{string_bytes};
ghost use Rattle.zk_directory_state.specs.Reports.{digest_lines, ending_line, equal_line, origin_line, other_line, passed_line, report_of};
ghost use Rattle.zk_directory_state.specs.Files.{exact_text};
ghost use Rattle.zk_listing.specs.Reports.{entry_line, tree_report};

use crate::history::{Broken, Origin, Shown};
use crate::{passed_word, push_snapshot_name};
use std::alloc::Global;
use zk_fold::Fold;
use zk_format::push_id;
use zk_listing::{push_entry_line, push_head_of};
use zk_log::Ending;
use zk_path::NoMemory;
use zk_replay::{DigestCount, Exact};
use zk_tree::Entry;

/// Appends the lines of these nodes.
fn push_nodes(text: &mut String, entries: &[Entry<'_>]) -> Result<(), NoMemory>
    ensures { OnOk result (string_bytes text.new ≡ string_bytes text.old ++ flat_map entry_line entries.now) }
{
    for entry in entries {
        push_entry_line(text, entry)?;
    }
    Ok(())
}

/// Appends the report of a table's state.
#[tactic(auto, unfolding(zk_listing::specs::Reports::tree_report), using(zk_listing::proofs::NodeTexts::lines_lent))]
fn push_state(text: &mut String, table: &Fold) -> Result<(), NoMemory>
    ensures { OnOk result (string_bytes text.new ≡ string_bytes text.old ++ tree_report table.now.state) }
{
    let entries = table.entries()?;
    let sessions = table.sessions()?;
    push_head_of(text, table.last(), sessions.as_slice())?;
    push_nodes(text, entries.as_slice())
}

/// Appends from which zxid on a replay is exact.
fn push_exact(text: &mut String, exact: Exact) -> Result<(), NoMemory>
    ensures { OnOk result (string_bytes text.new ≡ string_bytes text.old ++ exact_text exact) }
{
    push_id(text, exact.zxid)?;
    if exact.is_told {
        text.push_str("\n")?;
    } else {
        text.push_str(" or later\n")?;
    }
    Ok(())
}

/// Appends the line of the snapshot that a state begins at.
#[tactic(auto, unfolding(crate::specs::Reports::origin_line))]
fn push_origin(text: &mut String, origin: Option<Origin>) -> Result<(), NoMemory>
    ensures { OnOk result (string_bytes text.new ≡ string_bytes text.old ++ origin_line origin) }
{
    let Some(origin) = origin else {
        text.push_str("base none\n")?;
        return Ok(());
    };
    text.push_str("base ")?;
    push_snapshot_name(text, origin.zxid)?;
    text.push_str(" ")?;
    push_exact(text, origin.exact)?;
    Ok(())
}

/// Appends the line of a snapshot that was passed over.
#[tactic(auto, unfolding(crate::specs::Reports::passed_line))]
fn push_passed(text: &mut String, broken: &Broken) -> Result<(), NoMemory>
    ensures { OnOk result (string_bytes text.new ≡ string_bytes text.old ++ passed_line broken.now) }
{
    text.push_str("passed ")?;
    push_snapshot_name(text, broken.zxid)?;
    text.push_str(" ")?;
    text.push_str(passed_word(broken.fault))?;
    text.push_str("\n")?;
    Ok(())
}

/// Appends the lines of the snapshots that were passed over.
fn push_all_passed(text: &mut String, broken: &[Broken]) -> Result<(), NoMemory>
    ensures { OnOk result (string_bytes text.new ≡ string_bytes text.old ++ flat_map passed_line broken.now) }
{
    for one in broken {
        push_passed(text, one)?;
    }
    Ok(())
}

/// Appends how many digests of records are those of the trees after them, unless none is.
#[tactic(auto, unfolding(crate::specs::Reports::equal_line))]
fn push_equal(text: &mut String, equal: u64) -> Result<(), NoMemory>
    ensures { OnOk result (string_bytes text.new ≡ string_bytes text.old ++ equal_line equal) }
{
    if equal == 0 {
        return Ok(());
    }
    write!(text, "digest {equal}\n")?;
    Ok(())
}

/// Appends how many are not, and the zxid of the first of these, if there is one.
#[tactic(auto, unfolding(crate::specs::Reports::other_line))]
pub(crate) fn push_other(text: &mut String, other: u64, first: Option<i64>) -> Result<(), NoMemory>
    ensures { OnOk result (string_bytes text.new ≡ string_bytes text.old ++ other_line other first) }
{
    let Some(first) = first else {
        return Ok(());
    };
    write!(text, "otherDigest {other} ")?;
    push_id(text, first)?;
    text.push_str("\n")?;
    Ok(())
}

/// Appends the lines of the digests.
fn push_digests(text: &mut String, digests: DigestCount) -> Result<(), NoMemory>
    ensures { OnOk result (string_bytes text.new ≡ string_bytes text.old ++ digest_lines digests) }
{
    push_equal(text, digests.equal)?;
    push_other(text, digests.other, digests.first)
}

/// Appends the line of the end of the last log.
#[tactic(auto, unfolding(zk_log_commands::specs::Showing::end_line))]
fn push_end(text: &mut String, ending: Option<Ending>) -> Result<(), NoMemory>
    ensures { OnOk result (string_bytes text.new ≡ string_bytes text.old ++ ending_line ending) }
{
    match ending {
        Some(Ending::Whole) => text.push_str("end whole\n")?,
        Some(Ending::Padding) => text.push_str("end padding\n")?,
        Some(Ending::Torn(at)) => write!(text, "end torn {at}\n")?,
        None => text.push_str("end none\n")?,
    }
    Ok(())
}

/// The report of a directory's state.
#[tactic(auto, unfolding(crate::specs::Reports::report_of))]
pub(crate) fn report_text(alloc: Global, shown: &Shown) -> Result<String, NoMemory>
    ensures { IfOk result (λ text. string_bytes text ≡ report_of shown.now) }
{
    let mut text = String::new(alloc);
    push_state(&mut text, &shown.restored.table)?;
    push_origin(&mut text, shown.origin)?;
    push_all_passed(&mut text, shown.broken.as_slice())?;
    push_digests(&mut text, shown.restored.digests)?;
    push_end(&mut text, shown.restored.ending)?;
    Ok(text)
}
