//! `zk top --json`.
ghost use Rattle.std.specs.Prelude.{◌≡◌, ◌-◌, ◌<◌, ◌^◌};
ghost use Rattle.zk_json_commands.specs.Tops.{FindsTop, TellsTop};
ghost use Rattle.zk_records.specs.Sinks.{write_failures_of};

use crate::row_lines::row_lines;
use std::alloc::Global;
use std::io::Write;
use zk_directory_state::{
    FoldedDirectory, Folder, HistoryFault, Noticed, Range, fold_directory, put_noticed,
};
use zk_incidents::{Key, Top, first_rows};
use zk_log::Sink;
use zk_path::NoMemory;

/// The lines of the paths or sessions with the most writes.
fn lines_of<S: Folder, L: Folder>(
    alloc: Global,
    snapshots: &S,
    logs: &L,
    range: Range,
    key: Key,
    number: Option<usize>,
) -> Result<Noticed, HistoryFault>
    ensures { FindsTop range key number (S.names_in snapshots.now) (L.names_in logs.now) (L.bytes_in logs.now) result }
{
    let top = Top::new(alloc, range, key);
    let FoldedDirectory { fold, notice } = fold_directory(alloc, snapshots, logs, range, top)?;
    let ranks = fold.ranks()?;
    let rows = ranks.rows()?;
    let text = row_lines(alloc, key, first_rows(rows.as_slice(), number))?;
    Ok(Noticed {
        text,
        notices: notice,
    })
}

/// Writes a JSON object for each path or session of the second folder's logs, with its number of
/// writes, the one with most first: at most `number` lines. If the logs hold only a part of the range,
/// a notice on standard error states theirs. Returns the exit status.
///
/// A write creates, changes or deletes a node, alone or as a part of a multi. The nodes that the end
/// of a session deletes are no writes.
pub fn top_json<S: Folder, L: Folder, O: Write, E: Write>(
    alloc: Global,
    snapshots: &S,
    logs: &L,
    range: Range,
    key: Key,
    number: Option<usize>,
    output: &mut Sink<O>,
    faults: &mut Sink<E>,
) -> Result<u8, NoMemory>
    requires output { write_failures_of output.old < 2 ^ 64 - 1 }
    requires faults { write_failures_of faults.old < 2 ^ 64 - 1 }
    ensures { TellsTop O.contents E.contents range key number (S.names_in snapshots.now) (L.names_in logs.now)
        (L.bytes_in logs.now) output.old output.new faults.old faults.new result }
{
    let answer = lines_of(alloc, snapshots, logs, range, key, number);
    put_noticed(alloc, answer, output, faults)
}
