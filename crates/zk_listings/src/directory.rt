//! `zk list` of a data directory.
ghost use Rattle.std.specs.Prelude.{◌≡◌, ◌-◌, ◌<◌, ◌^◌};
ghost use Rattle.zk_listings.specs.Listings.{FindsLines, TellsLines};
ghost use Rattle.zk_records.specs.Sinks.{write_failures_of};

use crate::Form;
use crate::lines::RecordLines;
use std::alloc::Global;
use std::io::Write;
use zk_directory_state::{
    FoldedDirectory, Folder, HistoryFault, Noticed, Range, fold_directory, put_noticed,
};
use zk_log::Sink;
use zk_path::NoMemory;

/// The lines of a directory's records.
#[tactic(auto, using(crate::proofs::Listed::records_told))]
fn lines_of<S: Folder, L: Folder>(
    alloc: Global,
    form: Form,
    snapshots: &S,
    logs: &L,
) -> Result<Noticed, HistoryFault>
    ensures { FindsLines form (S.names_in snapshots.now) (L.names_in logs.now) (L.bytes_in logs.now) result }
{
    let lines = RecordLines::new(alloc, form);
    let FoldedDirectory { fold, notice } = fold_directory(
        alloc,
        snapshots,
        logs,
        Range::unbounded(),
        lines,
    )?;
    Ok(Noticed {
        text: fold.text,
        notices: notice,
    })
}

/// Writes a line for each transaction of the second folder's logs, each once. If others were before
/// the first one, a notice on standard error states the range of the logs. Returns the exit status.
pub fn list_directory<S: Folder, L: Folder, O: Write, E: Write>(
    alloc: Global,
    form: Form,
    snapshots: &S,
    logs: &L,
    output: &mut Sink<O>,
    faults: &mut Sink<E>,
) -> Result<u8, NoMemory>
    requires output { write_failures_of output.old < 2 ^ 64 - 1 }
    requires faults { write_failures_of faults.old < 2 ^ 64 - 1 }
    ensures { TellsLines O.contents E.contents form (S.names_in snapshots.now) (L.names_in logs.now)
        (L.bytes_in logs.now) output.old output.new faults.old faults.new result }
{
    let answer = lines_of(alloc, form, snapshots, logs);
    put_noticed(alloc, answer, output, faults)
}
