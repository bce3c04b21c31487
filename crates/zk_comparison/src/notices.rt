//! The notices on what a comparison does not cover.
ghost use Rattle.std.specs.Prelude.{◌≡◌, ◌++◌, IfOk, OnOk, codes};
ghost use Rattle.std.specs.String.{string_bytes};
ghost use Rattle.zk_comparison.specs.Notices.{AppendsNotice, AppendsNotices, front_of};
ghost use Rattle.zk_directory_state.specs.FaultLines.{fault_text};
ghost use Rattle.zk_verification.specs.declared.mark.Mark.TheVariants as marks;

use crate::finding::Directory;
use std::alloc::Global;
use zk_directory_state::{HistoryFault, fault_line};
use zk_path::NoMemory;
use zk_verification::{Mark, Moment, push_range};

/// Appends a line for each place at which a directory lost transactions, and for each broken log.
#[tactic(auto, using(crate::proofs::Written::none_noticed, crate::proofs::Written::all_noticed))]
pub(crate) fn push_notices(
    text: &mut String,
    directory: Directory,
    marks: &[Mark],
) -> Result<(), NoMemory>
    ensures { OnOk result (AppendsNotices directory marks.now (string_bytes text.old) (string_bytes text.new)) }
{
    for mark in marks {
        push_notice(text, directory, mark)?;
    }
    Ok(())
}

fn push_notice(text: &mut String, directory: Directory, mark: &Mark) -> Result<(), NoMemory>
    ensures { OnOk result (AppendsNotice directory mark.now (string_bytes text.old) (string_bytes text.new)) }
{
    match mark {
        Mark::Lost(damage) => push_lost(text, directory, damage.before, &damage.after),
        Mark::Gap { before, after } => push_lost(text, directory, *before, after),
        Mark::Wrong(fault) => push_fault(text, directory, fault),
        _ => Ok(()),
    }
}

/// Appends the transactions before and after those that are lost.
fn push_lost(
    text: &mut String,
    directory: Directory,
    before: Option<Moment>,
    after: &Moment,
) -> Result<(), NoMemory>
    ensures { OnOk result (AppendsNotice directory (marks.Gap before after.now) (string_bytes text.old) (string_bytes text.new)) }
{
    push_lost_of(text, directory)?;
    push_range(text, before, after)
}

/// Appends that transactions of a directory are lost.
fn push_lost_of(text: &mut String, directory: Directory) -> Result<(), NoMemory>
    ensures { OnOk result (string_bytes text.new ≡ string_bytes text.old ++ front_of (codes "lost") directory) }
{
    match directory {
        Directory::First => text.push_str("zk: lost first ")?,
        Directory::Second => text.push_str("zk: lost second ")?,
    }
    Ok(())
}

/// Appends the fault of a log.
fn push_fault(text: &mut String, directory: Directory, fault: &HistoryFault) -> Result<(), NoMemory>
    ensures { OnOk result (string_bytes text.new ≡ string_bytes text.old ++ (front_of (codes "broken") directory ++ fault_text fault.now ++ codes "\n")) }
{
    let words = fault_words(text, fault)?;
    push_broken_of(text, directory)?;
    text.push_str(words.as_str())?;
    Ok(())
}

/// Appends that a log of a directory is broken.
fn push_broken_of(text: &mut String, directory: Directory) -> Result<(), NoMemory>
    ensures { OnOk result (string_bytes text.new ≡ string_bytes text.old ++ front_of (codes "broken") directory) }
{
    match directory {
        Directory::First => text.push_str("zk: broken first ")?,
        Directory::Second => text.push_str("zk: broken second ")?,
    }
    Ok(())
}

/// The line for a directory whose files prove no state, and why.
pub(crate) fn tree_notice(
    alloc: Global,
    directory: Directory,
    fault: &HistoryFault,
) -> Result<String, NoMemory>
    ensures { IfOk result (λ text. string_bytes text ≡ front_of (codes "tree") directory ++ fault_text fault.now ++ codes "\n") }
{
    let mut text = String::from_str(alloc, front_of_tree(directory))?;
    let words = fault_words(&text, fault)?;
    text.push_str(words.as_str())?;
    Ok(text)
}

fn front_of_tree(directory: Directory) -> &'static str
    ensures { result.now ≡ front_of (codes "tree") directory }
{
    match directory {
        Directory::First => "zk: tree first ",
        Directory::Second => "zk: tree second ",
    }
}

/// The words of a fault, and a newline.
#[tactic(auto, unfolding(zk_directory_state::specs::FaultLines::fault_line))]
fn fault_words(text: &String, fault: &HistoryFault) -> Result<String, NoMemory>
    ensures { IfOk result (λ words. string_bytes words ≡ fault_text fault.now ++ codes "\n") }
{
    let alloc = *text.allocator();
    let line = fault_line(alloc, fault)?;
    let Some(words) = line.as_str().strip_prefix("zk: ") else {
        unreachable!()
    };
    Ok(String::from_str(alloc, words)?)
}
