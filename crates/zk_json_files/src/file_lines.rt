//! The objects of all files of a data directory.
ghost use Rattle.std.specs.Prelude.{None, IfOk, IfErr, OnOk};
ghost use Rattle.std.specs.String.{string_bytes};
ghost use Rattle.zk_directory_state.specs.Logs.{IsUnreadLog, IsUnreadSnapshot};
ghost use Rattle.zk_json_files.specs.Files.{AppendsLogs, AppendsSnapshots, LinesOf, ListsObjects, PushesLog, PushesSnapshot};

use crate::gap_lines::push_log_lines;
use crate::given_files::{names_of, read_log};
use crate::log_line::name_of_log;
use crate::snapshot_line::{name_of_snapshot, push_snapshot_line};
use crate::unread_files::push_unread;
use std::alloc::Global;
use zk_directory::read_log_file;
use zk_directory_state::{Folder, HistoryFault, log_zxids, read_snapshot_file, snapshot_zxids};

/// The objects of the snapshots of the first folder, and then of the logs of the second, by zxid; at
/// the end those of files that are not read, since another one of their zxid is.
///
/// Fails with
/// - [`HistoryFault::Empty`] if there is neither a snapshot nor a log;
/// - [`HistoryFault::Unreadable`] or [`HistoryFault::Read`] if a file or folder cannot be read.
#[tactic(auto, using(crate::proofs::Lines::snapshots_unlisted, crate::proofs::Lines::logs_unlisted))]
pub(crate) fn file_lines<S: Folder, L: Folder>(
    alloc: Global,
    snapshots: &S,
    logs: &L,
) -> Result<String, HistoryFault>
    ensures { ListsObjects (S.names_in snapshots.now) (S.bytes_in snapshots.now)
        (L.names_in logs.now) (L.bytes_in logs.now) result }
{
    let names = names_of(alloc, snapshots)?;
    let held = snapshot_zxids(alloc, names.as_slice())?;
    let log_names = names_of(alloc, logs)?;
    let logged = log_zxids(alloc, log_names.as_slice())?;
    if held.is_empty() && logged.is_empty() {
        return Err(HistoryFault::Empty);
    }
    lines_of(
        alloc,
        snapshots,
        logs,
        held.as_slice(),
        logged.as_slice(),
        names.as_slice(),
        log_names.as_slice(),
    )
}

/// The objects of these snapshots and logs, and those of the other files with these names.
#[tactic(auto, using(zk_directory_state::proofs::Unreading::a_snapshot, zk_directory_state::proofs::Unreading::a_log))]
fn lines_of<S: Folder, L: Folder>(
    alloc: Global,
    snapshots: &S,
    logs: &L,
    held: &[i64],
    logged: &[i64],
    snapshot_names: &[String],
    log_names: &[String],
) -> Result<String, HistoryFault>
    ensures { LinesOf (S.bytes_in snapshots.now) (L.bytes_in logs.now) held.now logged.now snapshot_names.now log_names.now result }
{
    let mut text = String::new(alloc);
    push_snapshots(&mut text, snapshots, held)?;
    push_logs(&mut text, logs, logged)?;
    push_unread(&mut text, snapshot_names, log_names)?;
    Ok(text)
}

fn push_snapshots<F: Folder>(
    text: &mut String,
    folder: &F,
    zxids: &[i64],
) -> Result<(), HistoryFault>
    ensures lines { OnOk result (AppendsSnapshots (F.bytes_in folder.now) zxids.now (string_bytes text.old) (string_bytes text.new)) }
    ensures unread { IfErr result (λ fault. IsUnreadSnapshot (F.bytes_in folder.now) fault) }
{
    for zxid in zxids {
        push_snapshot(text, folder, *zxid)?;
    }
    Ok(())
}

fn push_snapshot<F: Folder>(text: &mut String, folder: &F, zxid: i64) -> Result<(), HistoryFault>
    ensures line { OnOk result (PushesSnapshot (F.bytes_in folder.now) zxid (string_bytes text.old) (string_bytes text.new)) }
    ensures unread { IfErr result (λ fault. IsUnreadSnapshot (F.bytes_in folder.now) fault) }
{
    let alloc: Global = *text.allocator();
    let bytes = read_snapshot_file(alloc, folder, zxid)?;
    let name = name_of_snapshot(alloc, zxid)?;
    push_snapshot_line(text, name.as_str(), zxid, bytes.as_slice())?;
    Ok(())
}

fn push_logs<F: Folder>(text: &mut String, folder: &F, zxids: &[i64]) -> Result<(), HistoryFault>
    ensures lines { OnOk result (AppendsLogs (F.bytes_in folder.now) zxids.now None (string_bytes text.old) (string_bytes text.new)) }
    ensures unread { IfErr result (λ fault. IsUnreadLog (F.bytes_in folder.now) fault) }
{
    let mut last = None;
    for zxid in zxids {
        last = push_log(text, folder, *zxid, last)?;
    }
    Ok(())
}

fn push_log<F: Folder>(
    text: &mut String,
    folder: &F,
    zxid: i64,
    last: Option<i64>,
) -> Result<Option<i64>, HistoryFault>
    ensures line { IfOk result (λ after. PushesLog (F.bytes_in folder.now) zxid last (string_bytes text.old) (string_bytes text.new) after) }
    ensures unread { IfErr result (λ fault. IsUnreadLog (F.bytes_in folder.now) fault) }
{
    let alloc: Global = *text.allocator();
    let bytes = read_log(alloc, folder, zxid)?;
    let file = read_log_file(alloc, bytes.as_slice())?;
    let name = name_of_log(alloc, zxid)?;
    Ok(push_log_lines(text, name.as_str(), &file, last)?)
}
