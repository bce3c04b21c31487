//! `zk session`.
ghost use Rattle.std.specs.Prelude.{◌-◌, ◌<◌, ◌^◌};
ghost use Rattle.zk_records.specs.Sinks.{write_failures_of};
ghost use Rattle.zk_session_commands.specs.Reports.{FindsText, IsSession, TellsSession};

use crate::asked_session::AskedSession;
use crate::base_known::first_known;
use crate::found_output::put_found;
use crate::session_life::{SessionLife, life_of, session_text};
use std::alloc::Global;
use std::io::Write;
use zk_directory_state::{FoldedDirectory, Folder, HistoryFault, Noticed, Range, fold_directory};
use zk_log::Sink;
use zk_path::NoMemory;

/// What a session of a directory did.
#[tactic(auto, using(crate::proofs::Unknowing::before_fails))]
fn session_of<S: Folder, L: Folder>(
    alloc: Global,
    snapshots: &S,
    logs: &L,
    asked: AskedSession,
) -> Result<Noticed, HistoryFault>
    ensures { FindsText (IsSession asked.form asked.session) (S.names_in snapshots.now) (S.bytes_in snapshots.now) (L.names_in logs.now) (L.bytes_in logs.now) result }
{
    let known = first_known(alloc, snapshots, logs)?;
    let start = SessionLife::new(alloc, asked, known);
    let FoldedDirectory { fold, notice } = fold_directory(
        alloc,
        snapshots,
        logs,
        Range::unbounded(),
        start,
    )?;
    let life = life_of(&fold.known, asked);
    let text = session_text(alloc, asked, life, fold.text.as_str())?;
    Ok(Noticed {
        text,
        notices: notice,
    })
}

/// Writes the line of a session, and one for each of its transactions in the second folder's logs,
/// with the paths of the nodes that it created, changed or deleted. If others were before the logs'
/// first transaction, a notice on standard error states the range of the logs. Returns the exit
/// status, which is 1 if no file has the session.
pub fn session<S: Folder, L: Folder, O: Write, E: Write>(
    alloc: Global,
    snapshots: &S,
    logs: &L,
    asked: AskedSession,
    output: &mut Sink<O>,
    faults: &mut Sink<E>,
) -> Result<u8, NoMemory>
    requires output { write_failures_of output.old < 2 ^ 64 - 1 }
    requires faults { write_failures_of faults.old < 2 ^ 64 - 1 }
    ensures { TellsSession O.contents E.contents asked (S.names_in snapshots.now) (S.bytes_in snapshots.now)
        (L.names_in logs.now) (L.bytes_in logs.now) output.old output.new faults.old faults.new result }
{
    let answer = session_of(alloc, snapshots, logs, asked);
    put_found(alloc, answer, output, faults)
}
