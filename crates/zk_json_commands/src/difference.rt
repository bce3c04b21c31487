//! `zk diff --json`.
ghost use Rattle.std.specs.Prelude.{◌≡◌, ◌-◌, ◌<◌, ◌^◌, IfOk, false, true};
ghost use Rattle.std.specs.String.{string_bytes};
ghost use Rattle.zk_tree_changes.specs.Differences.{differing};
ghost use Rattle.zk_json_commands.specs.Differences.{FindsDifference, IsDifferenceLine, TellsDifference};
ghost use Rattle.zk_json_commands.specs.Lines.{AreLines};
ghost use Rattle.zk_records.specs.Sinks.{write_failures_of};

use crate::difference_lines::push_difference_lines;
use std::alloc::Global;
use std::io::Write;
use zk_directory_state::{Folder, HistoryFault, Noticed, Upto, put_noticed};
use zk_incidents::Scope;
use zk_log::Sink;
use zk_path::NoMemory;
use zk_tree_changes::{Compared, compare, tree_of};

/// The lines of what differs between two states, at a path and below it.
#[tactic(auto, using(crate::proofs::Differing::whole))]
fn difference_lines(alloc: Global, path: &str, compared: &Compared) -> Result<String, NoMemory>
    requires old { compared.now.old.failed ≡ false }
    requires new { compared.now.new.failed ≡ false }
    ensures { IfOk result (λ text. AreLines (IsDifferenceLine compared.now.changes compared.now.old.state.nodes compared.now.new.state.nodes)
        (differing path.now true compared.now.old.state.nodes compared.now.new.state.nodes) (string_bytes text)) }
{
    let scope = Scope::new(alloc, path, true)?;
    let mut text = String::new(alloc);
    push_difference_lines(
        &mut text,
        &scope,
        &compared.changes,
        tree_of(&compared.old),
        tree_of(&compared.new),
    )?;
    Ok(text)
}

/// What differs between the states of a directory up to two transactions.
#[tactic(auto, using(crate::proofs::Differing::found))]
fn difference_of<S: Folder, L: Folder>(
    alloc: Global,
    snapshots: &S,
    logs: &L,
    from: Upto,
    to: Upto,
    path: &str,
) -> Result<Noticed, HistoryFault>
    ensures { FindsDifference (S.names_in snapshots.now) (S.bytes_in snapshots.now) (L.names_in logs.now) (L.bytes_in logs.now) from to path.now result }
{
    let compared = compare(alloc, snapshots, logs, from, to)?;
    let text = difference_lines(alloc, path, &compared)?;
    let notices = compared.notices;
    Ok(Noticed { text, notices })
}

/// Writes what `zk diff` says of two states of a data directory, an object for each node that
/// differs: its `path`, the `last` transaction that changed it, and the node `before` and `after`.
/// Returns the exit status.
pub fn diff_json<S: Folder, L: Folder, O: Write, E: Write>(
    alloc: Global,
    snapshots: &S,
    logs: &L,
    from: Upto,
    to: Upto,
    path: &str,
    output: &mut Sink<O>,
    faults: &mut Sink<E>,
) -> Result<u8, NoMemory>
    requires output { write_failures_of output.old < 2 ^ 64 - 1 }
    requires faults { write_failures_of faults.old < 2 ^ 64 - 1 }
    ensures { TellsDifference O.contents E.contents (S.names_in snapshots.now) (S.bytes_in snapshots.now) (L.names_in logs.now)
        (L.bytes_in logs.now) from to path.now output.old output.new faults.old faults.new result }
{
    let answer = difference_of(alloc, snapshots, logs, from, to, path);
    put_noticed(alloc, answer, output, faults)
}
