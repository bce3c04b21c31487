//! The snapshots and logs of a folder, by the zxids in their names.
ghost use Rattle.std.specs.Prelude.{◌≡◌, ◌++◌, IfOk, OnOk};
ghost use Rattle.std.specs.List.{filter_map};
ghost use Rattle.std.specs.String.{string_bytes};
ghost use Rattle.zk_directory_state.specs.Names.{AreZxidsBy, log_name, log_zxid, snapshot_name, snapshot_zxid};

use std::alloc::Global;
use zk_directory::{FileName, read_file_name};
use zk_path::NoMemory;

/// The zxids of the snapshots among these names, in order.
pub fn snapshot_zxids(alloc: Global, names: &[String]) -> Result<Vec<i64>, NoMemory>
    ensures { IfOk result (λ zxids. AreZxidsBy (λ name. snapshot_zxid (string_bytes name)) names.now zxids.items) }
{
    let mut zxids = snapshot_zxids_in(alloc, names)?;
    zxids.sort_unstable();
    Ok(zxids)
}

/// The zxids of the logs among these names, in order.
pub fn log_zxids(alloc: Global, names: &[String]) -> Result<Vec<i64>, NoMemory>
    ensures { IfOk result (λ zxids. AreZxidsBy (λ name. log_zxid (string_bytes name)) names.now zxids.items) }
{
    let mut zxids = log_zxids_in(alloc, names)?;
    zxids.sort_unstable();
    Ok(zxids)
}

/// The zxids of the snapshots, in the order of the names.
fn snapshot_zxids_in(alloc: Global, names: &[String]) -> Result<Vec<i64>, NoMemory>
    ensures { IfOk result (λ zxids. zxids.items ≡ filter_map (λ name. snapshot_zxid (string_bytes name)) names.now) }
{
    let zxids = names
        .iter()
        .filter_map(|name| snapshot_zxid(name.as_str()))
        .collect::<Vec<_>>(alloc)?;
    Ok(zxids)
}

/// The zxids of the logs, in the order of the names.
fn log_zxids_in(alloc: Global, names: &[String]) -> Result<Vec<i64>, NoMemory>
    ensures { IfOk result (λ zxids. zxids.items ≡ filter_map (λ name. log_zxid (string_bytes name)) names.now) }
{
    let zxids = names
        .iter()
        .filter_map(|name| log_zxid(name.as_str()))
        .collect::<Vec<_>>(alloc)?;
    Ok(zxids)
}

/// The zxid in the name of a snapshot; `None` for any other name.
fn snapshot_zxid(name: &str) -> Option<i64>
    ensures { result ≡ snapshot_zxid name.now }
{
    match read_file_name(name) {
        Some(FileName::Snapshot { zxid }) => Some(zxid),
        _ => None,
    }
}

/// The zxid in the name of a log; `None` for any other name.
fn log_zxid(name: &str) -> Option<i64>
    ensures { result ≡ log_zxid name.now }
{
    match read_file_name(name) {
        Some(FileName::Log { zxid }) => Some(zxid),
        _ => None,
    }
}

/// Appends the name of the snapshot of this zxid.
pub fn push_snapshot_name(text: &mut String, zxid: i64) -> Result<(), NoMemory>
    ensures { OnOk result (string_bytes text.new ≡ string_bytes text.old ++ snapshot_name zxid) }
{
    let digits = zxid.cast_unsigned();
    write!(text, "snapshot.{digits:x}")?;
    Ok(())
}

/// Appends the name of the log of this zxid.
pub fn push_log_name(text: &mut String, zxid: i64) -> Result<(), NoMemory>
    ensures { OnOk result (string_bytes text.new ≡ string_bytes text.old ++ log_name zxid) }
{
    let digits = zxid.cast_unsigned();
    write!(text, "log.{digits:x}")?;
    Ok(())
}
