//! `zk history`.
ghost use Rattle.std.specs.Prelude.{◌≡◌, ◌-◌, ◌<◌, ◌^◌};
ghost use Rattle.zk_incidents.specs.HistoryReports.{FindsHistory, TellsHistory};
ghost use Rattle.zk_records.specs.Sinks.{write_failures_of};

use crate::{History, Scope, first_owners};
use std::alloc::Global;
use std::io::Write;
use zk_directory_state::{
    FoldedDirectory, Folder, HistoryFault, Noticed, Range, fold_directory, put_noticed,
};
use zk_log::Sink;
use zk_path::NoMemory;

/// The history of a node in a directory.
#[tactic(auto, using(crate::proofs::Finished::history_told, crate::proofs::Owning::owners_fail))]
fn history_of<S: Folder, L: Folder>(
    alloc: Global,
    snapshots: &S,
    logs: &L,
    path: &str,
    below: bool,
) -> Result<Noticed, HistoryFault>
    ensures { FindsHistory path.now below (S.names_in snapshots.now) (S.bytes_in snapshots.now) (L.names_in logs.now) (L.bytes_in logs.now) result }
{
    let scope = Scope::new(alloc, path, below)?;
    let owners = first_owners(alloc, snapshots)?;
    let history = History::new(alloc, scope, owners);
    let FoldedDirectory { fold, notice } = fold_directory(
        alloc,
        snapshots,
        logs,
        Range::unbounded(),
        history,
    )?;
    Ok(Noticed {
        text: fold.text,
        notices: notice,
    })
}

/// Writes a line for each transaction of the second folder's logs that created, changed or deleted
/// the node at a path, or, if `below`, a node below it. If others were before the logs' first one, a
/// notice on standard error states the range of the logs. Returns the exit status.
///
/// A session's end deletes the nodes that its record lists, as those of 3.6 and later do, or else
/// the ephemeral nodes that the session created in these logs, or that it owns in the first
/// snapshot.
pub fn history<S: Folder, L: Folder, O: Write, E: Write>(
    alloc: Global,
    snapshots: &S,
    logs: &L,
    path: &str,
    below: bool,
    output: &mut Sink<O>,
    faults: &mut Sink<E>,
) -> Result<u8, NoMemory>
    requires output { write_failures_of output.old < 2 ^ 64 - 1 }
    requires faults { write_failures_of faults.old < 2 ^ 64 - 1 }
    ensures { TellsHistory O.contents E.contents path.now below (S.names_in snapshots.now)
        (S.bytes_in snapshots.now) (L.names_in logs.now) (L.bytes_in logs.now) output.old output.new faults.old faults.new result }
{
    let answer = history_of(alloc, snapshots, logs, path, below);
    put_noticed(alloc, answer, output, faults)
}
