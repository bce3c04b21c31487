//! `zk show --json`.
ghost use Rattle.std.specs.Prelude.{◌-◌, ◌<◌, ◌^◌};
ghost use Rattle.zk_json_commands.specs.States.{FindsState, TellsState};
ghost use Rattle.zk_records.specs.Sinks.{write_failures_of};

use crate::state_lines::state_lines;
use std::alloc::Global;
use std::io::Write;
use zk_directory_state::{
    Folder, HistoryFault, Noticed, Upto, notices_text, put_noticed, shown_of,
};
use zk_log::Sink;
use zk_path::NoMemory;

/// The lines of the state that a data directory holds, and the notices on it.
fn state_of<S: Folder, L: Folder>(
    alloc: Global,
    snapshots: &S,
    logs: &L,
    upto: Upto,
) -> Result<Noticed, HistoryFault>
    ensures { FindsState (S.names_in snapshots.now) (S.bytes_in snapshots.now) (L.names_in logs.now) (L.bytes_in logs.now) upto result }
{
    let shown = shown_of(alloc, snapshots, logs, upto)?;
    let text = state_lines(alloc, &shown)?;
    let notices = notices_text(alloc, upto, &shown.restored)?;
    Ok(Noticed { text, notices })
}

/// Writes a JSON object for each line of the report on the state that a data directory holds: that of
/// the first folder's snapshots and the second folder's logs. What the state rests on beyond the files
/// is a notice on standard error. Returns the exit status.
pub fn show_json<S: Folder, L: Folder, O: Write, E: Write>(
    alloc: Global,
    snapshots: &S,
    logs: &L,
    upto: Upto,
    output: &mut Sink<O>,
    faults: &mut Sink<E>,
) -> Result<u8, NoMemory>
    requires output { write_failures_of output.old < 2 ^ 64 - 1 }
    requires faults { write_failures_of faults.old < 2 ^ 64 - 1 }
    ensures { TellsState O.contents E.contents (S.names_in snapshots.now) (S.bytes_in snapshots.now)
        (L.names_in logs.now) (L.bytes_in logs.now) upto output.old output.new faults.old faults.new result }
{
    let answer = state_of(alloc, snapshots, logs, upto);
    put_noticed(alloc, answer, output, faults)
}
