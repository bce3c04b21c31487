//! `zk diff`.
ghost use Rattle.std.specs.Prelude.{◌≡◌, ◌-◌, ◌<◌, ◌^◌, IfOk, false, true};
ghost use Rattle.std.specs.String.{string_bytes};
ghost use Rattle.zk_tree_changes.specs.DifferenceReports.{FindsDifference, TellsDifference};
ghost use Rattle.zk_tree_changes.specs.Changes.{stamp_at};
ghost use Rattle.zk_tree_changes.specs.Differences.{differences};
ghost use Rattle.zk_tree_changes.specs.Texts.{AreLines};
ghost use Rattle.zk_records.specs.Sinks.{write_failures_of};

use crate::compared::{Compared, compare, tree_of};
use crate::push_differences;
use std::alloc::Global;
use std::io::Write;
use zk_directory_state::{Folder, HistoryFault, Noticed, Upto, put_noticed};
use zk_incidents::Scope;
use zk_log::Sink;
use zk_path::NoMemory;

/// The lines of what differs between two states, at a path and below it.
fn difference_text(alloc: Global, path: &str, compared: &Compared) -> Result<String, NoMemory>
    requires old { compared.now.old.failed ≡ false }
    requires new { compared.now.new.failed ≡ false }
    ensures { IfOk result (λ text. AreLines (stamp_at compared.now.changes)
        (differences path.now true compared.now.old.state.nodes compared.now.new.state.nodes) (string_bytes text)) }
{
    let scope = Scope::new(alloc, path, true)?;
    let mut text = String::new(alloc);
    push_differences(
        &mut text,
        &scope,
        &compared.changes,
        tree_of(&compared.old),
        tree_of(&compared.new),
    )?;
    Ok(text)
}

/// What differs between the states of a directory up to two transactions.
#[tactic(auto, using(crate::proofs::FoundDifferences::difference_found))]
fn difference_of<S: Folder, L: Folder>(
    alloc: Global,
    snapshots: &S,
    logs: &L,
    from: Upto,
    to: Upto,
    path: &str,
) -> Result<Noticed, HistoryFault>
    ensures { FindsDifference (S.names_in snapshots.now) (S.bytes_in snapshots.now) (L.names_in logs.now) (L.bytes_in logs.now) from to path.now result }
{
    let compared = compare(alloc, snapshots, logs, from, to)?;
    let text = difference_text(alloc, path, &compared)?;
    let notices = compared.notices;
    Ok(Noticed { text, notices })
}

/// Writes what differs between the trees that a data directory holds up to two transactions, at a
/// path and below it: `/` for the whole trees. Each line has the last transaction between the two
/// that changed the node, or two dashes where the logs do not lead from the one to the other. Returns
/// the exit status.
///
/// The trees are those of `zk show`: that of the first folder's snapshots and the second folder's
/// logs, with the same notices.
pub fn diff<S: Folder, L: Folder, O: Write, E: Write>(
    alloc: Global,
    snapshots: &S,
    logs: &L,
    from: Upto,
    to: Upto,
    path: &str,
    output: &mut Sink<O>,
    faults: &mut Sink<E>,
) -> Result<u8, NoMemory>
    requires output { write_failures_of output.old < 2 ^ 64 - 1 }
    requires faults { write_failures_of faults.old < 2 ^ 64 - 1 }
    ensures { TellsDifference O.contents E.contents (S.names_in snapshots.now) (S.bytes_in snapshots.now) (L.names_in logs.now)
        (L.bytes_in logs.now) from to path.now output.old output.new faults.old faults.new result }
{
    let answer = difference_of(alloc, snapshots, logs, from, to, path);
    put_noticed(alloc, answer, output, faults)
}
