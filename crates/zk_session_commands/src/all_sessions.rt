//! `zk sessions`.
ghost use Rattle.std.specs.Prelude.{◌-◌, ◌<◌, ◌^◌};
ghost use Rattle.zk_records.specs.Sinks.{write_failures_of};
ghost use Rattle.zk_session_commands.specs.Reports.{FindsText, IsSessions, TellsSessions};

use crate::base_known::first_known;
use crate::found_output::put_found;
use std::alloc::Global;
use std::io::Write;
use zk_directory_state::{FoldedDirectory, Folder, HistoryFault, Noticed, Range, fold_directory};
use zk_log::Sink;
use zk_path::NoMemory;
use zk_session_lines::{LineForm, rows_text};

/// The lines of the sessions of a directory.
#[tactic(auto, using(crate::proofs::Finished::sessions_told, crate::proofs::Unknowing::before_fails))]
fn sessions_of<S: Folder, L: Folder>(
    alloc: Global,
    snapshots: &S,
    logs: &L,
    form: LineForm,
) -> Result<Noticed, HistoryFault>
    ensures { FindsText (IsSessions form) (S.names_in snapshots.now) (S.bytes_in snapshots.now) (L.names_in logs.now) (L.bytes_in logs.now) result }
{
    let known = first_known(alloc, snapshots, logs)?;
    let FoldedDirectory { fold, notice } = fold_directory(
        alloc,
        snapshots,
        logs,
        Range::unbounded(),
        known,
    )?;
    let text = rows_text(alloc, form, &fold.lives)?;
    Ok(Noticed {
        text,
        notices: notice,
    })
}

/// Writes a line for each session that the second folder's logs, or the sessions and ephemeral nodes
/// of the first snapshot, have: when it was opened, its timeout, its writes, its ephemeral nodes, and
/// when and how it ended. If others were before the logs' first transaction, a notice on standard
/// error states the range of the logs. Returns the exit status, which is 1 if there is no session.
pub fn sessions<S: Folder, L: Folder, O: Write, E: Write>(
    alloc: Global,
    snapshots: &S,
    logs: &L,
    form: LineForm,
    output: &mut Sink<O>,
    faults: &mut Sink<E>,
) -> Result<u8, NoMemory>
    requires output { write_failures_of output.old < 2 ^ 64 - 1 }
    requires faults { write_failures_of faults.old < 2 ^ 64 - 1 }
    ensures { TellsSessions O.contents E.contents form (S.names_in snapshots.now) (S.bytes_in snapshots.now)
        (L.names_in logs.now) (L.bytes_in logs.now) output.old output.new faults.old faults.new result }
{
    let answer = sessions_of(alloc, snapshots, logs, form);
    put_found(alloc, answer, output, faults)
}
