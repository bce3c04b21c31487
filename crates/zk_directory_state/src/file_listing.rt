//! The lines of all files of a data directory.
ghost use Rattle.std.specs.Prelude.{◌≡◌, ◌++◌, None, IfOk, IfErr, OnOk};
ghost use Rattle.std.specs.String.{string_bytes};
ghost use Rattle.zk_directory_state.specs.Files.{AddsLogs, AddsSnapshots, LinesOf, ListsFiles, PushesLog, PushesSnapshot, unread_lines};
ghost use Rattle.zk_directory_state.specs.Logs.{IsUnreadLog, IsUnreadSnapshot};

use crate::log_line::push_log_line;
use crate::logs::{names_of, read_log, read_snapshot_file};
use crate::names::{log_zxids, snapshot_zxids};
use crate::snapshot_line::push_snapshot_line;
use crate::unread_lines::{push_unread_logs, push_unread_snapshots};
use crate::{Folder, HistoryFault};
use std::alloc::Global;
use zk_directory::read_log_file;
use zk_path::NoMemory;

/// A line for each snapshot of the first folder, and then for each log of the second, by zxid. At the
/// end there is one for each name of a file that is not read, since another one of its zxid is.
///
/// Fails with
/// - [`HistoryFault::Empty`] if there is neither a snapshot nor a log;
/// - [`HistoryFault::Unreadable`] or [`HistoryFault::Read`] if a file or folder cannot be read.
#[tactic(auto, using(crate::proofs::Lines::snapshots_unlisted, crate::proofs::Lines::logs_unlisted))]
pub fn files_text<S: Folder, L: Folder>(
    alloc: Global,
    snapshots: &S,
    logs: &L,
) -> Result<String, HistoryFault>
    ensures { ListsFiles (S.names_in snapshots.now) (S.bytes_in snapshots.now)
        (L.names_in logs.now) (L.bytes_in logs.now) result }
{
    let names = names_of(alloc, snapshots)?;
    let held = snapshot_zxids(alloc, names.as_slice())?;
    let log_names = names_of(alloc, logs)?;
    let logged = log_zxids(alloc, log_names.as_slice())?;
    if held.is_empty() && logged.is_empty() {
        return Err(HistoryFault::Empty);
    }
    lines_of(
        alloc,
        snapshots,
        logs,
        held.as_slice(),
        logged.as_slice(),
        names.as_slice(),
        log_names.as_slice(),
    )
}

/// The lines of these snapshots and logs, and those of the other files with these names.
#[tactic(auto, using(crate::proofs::Unreading::a_snapshot, crate::proofs::Unreading::a_log))]
fn lines_of<S: Folder, L: Folder>(
    alloc: Global,
    snapshots: &S,
    logs: &L,
    held: &[i64],
    logged: &[i64],
    snapshot_names: &[String],
    log_names: &[String],
) -> Result<String, HistoryFault>
    ensures { LinesOf (S.bytes_in snapshots.now) (L.bytes_in logs.now) held.now logged.now snapshot_names.now log_names.now result }
{
    let mut text = String::new(alloc);
    push_snapshots(&mut text, snapshots, held)?;
    push_logs(&mut text, logs, logged)?;
    push_unread(&mut text, snapshot_names, log_names)?;
    Ok(text)
}

/// Appends the lines of the snapshots and logs that are not read.
fn push_unread(
    text: &mut String,
    snapshot_names: &[String],
    log_names: &[String],
) -> Result<(), NoMemory>
    ensures { OnOk result (string_bytes text.new ≡ string_bytes text.old ++ unread_lines snapshot_names.now log_names.now) }
{
    push_unread_snapshots(text, snapshot_names)?;
    push_unread_logs(text, log_names)
}

fn push_snapshots<F: Folder>(
    text: &mut String,
    folder: &F,
    zxids: &[i64],
) -> Result<(), HistoryFault>
    ensures lines { OnOk result (AddsSnapshots (F.bytes_in folder.now) zxids.now (string_bytes text.old) (string_bytes text.new)) }
    ensures unread { IfErr result (λ fault. IsUnreadSnapshot (F.bytes_in folder.now) fault) }
{
    for zxid in zxids {
        push_snapshot(text, folder, *zxid)?;
    }
    Ok(())
}

fn push_snapshot<F: Folder>(text: &mut String, folder: &F, zxid: i64) -> Result<(), HistoryFault>
    ensures line { OnOk result (PushesSnapshot (F.bytes_in folder.now) zxid (string_bytes text.old) (string_bytes text.new)) }
    ensures unread { IfErr result (λ fault. IsUnreadSnapshot (F.bytes_in folder.now) fault) }
{
    let alloc: Global = *text.allocator();
    let bytes = read_snapshot_file(alloc, folder, zxid)?;
    push_snapshot_line(text, zxid, bytes.as_slice())?;
    Ok(())
}

fn push_logs<F: Folder>(text: &mut String, folder: &F, zxids: &[i64]) -> Result<(), HistoryFault>
    ensures lines { OnOk result (AddsLogs (F.bytes_in folder.now) zxids.now None (string_bytes text.old) (string_bytes text.new)) }
    ensures unread { IfErr result (λ fault. IsUnreadLog (F.bytes_in folder.now) fault) }
{
    let mut last = None;
    for zxid in zxids {
        last = push_log(text, folder, *zxid, last)?;
    }
    Ok(())
}

fn push_log<F: Folder>(
    text: &mut String,
    folder: &F,
    zxid: i64,
    last: Option<i64>,
) -> Result<Option<i64>, HistoryFault>
    ensures line { IfOk result (λ after. PushesLog (F.bytes_in folder.now) zxid last (string_bytes text.old) (string_bytes text.new) after) }
    ensures unread { IfErr result (λ fault. IsUnreadLog (F.bytes_in folder.now) fault) }
{
    let alloc: Global = *text.allocator();
    let bytes = read_log(alloc, folder, zxid)?;
    let file = read_log_file(alloc, bytes.as_slice())?;
    Ok(push_log_line(text, zxid, &file, last)?)
}
