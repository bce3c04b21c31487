//! The lines of files that are not read, since another one of their zxid is.
ghost use Rattle.std.specs.Prelude.{◌≡◌, ◌++◌, OnOk};
ghost use Rattle.std.specs.List.{flat_map};
ghost use Rattle.std.specs.String.{string_bytes};
ghost use Rattle.zk_directory_state.specs.Names.{log_name, snapshot_name};
ghost use Rattle.zk_directory_state.specs.UnreadFiles.{unread_line, unread_log, unread_log_of, unread_snapshot, unread_snapshot_of};

use crate::names::{push_log_name, push_snapshot_name};
use zk_directory::{FileName, read_file_name, read_server_name};
use zk_path::NoMemory;

/// Appends the lines of the snapshots among these names that are not read.
pub(crate) fn push_unread_snapshots(text: &mut String, names: &[String]) -> Result<(), NoMemory>
    ensures { OnOk result (string_bytes text.new ≡ string_bytes text.old ++ flat_map (λ name. unread_snapshot (string_bytes name)) names.now) }
{
    for name in names {
        push_unread_snapshot(text, name.as_str())?;
    }
    Ok(())
}

/// Appends the lines of the logs among these names that are not read.
pub(crate) fn push_unread_logs(text: &mut String, names: &[String]) -> Result<(), NoMemory>
    ensures { OnOk result (string_bytes text.new ≡ string_bytes text.old ++ flat_map (λ name. unread_log (string_bytes name)) names.now) }
{
    for name in names {
        push_unread_log(text, name.as_str())?;
    }
    Ok(())
}

/// Appends the line of a name, if a snapshot of this name is not read.
fn push_unread_snapshot(text: &mut String, name: &str) -> Result<(), NoMemory>
    ensures { OnOk result (string_bytes text.new ≡ string_bytes text.old ++ unread_snapshot name.now) }
{
    push_unread_snapshot_of(text, read_file_name(name), read_server_name(name), name)
}

/// The same, by the files that a server writes and reads by this name.
fn push_unread_snapshot_of(
    text: &mut String,
    written: Option<FileName>,
    read: Option<FileName>,
    name: &str,
) -> Result<(), NoMemory>
    ensures { OnOk result (string_bytes text.new ≡ string_bytes text.old ++ unread_snapshot_of written read name.now) }
{
    match (written, read) {
        (None, Some(FileName::Snapshot { zxid })) => push_snapshot(text, name, zxid),
        _ => Ok(()),
    }
}

/// Appends the line of a name, if a log of this name is not read.
fn push_unread_log(text: &mut String, name: &str) -> Result<(), NoMemory>
    ensures { OnOk result (string_bytes text.new ≡ string_bytes text.old ++ unread_log name.now) }
{
    push_unread_log_of(text, read_file_name(name), read_server_name(name), name)
}

/// The same, by the files that a server writes and reads by this name.
fn push_unread_log_of(
    text: &mut String,
    written: Option<FileName>,
    read: Option<FileName>,
    name: &str,
) -> Result<(), NoMemory>
    ensures { OnOk result (string_bytes text.new ≡ string_bytes text.old ++ unread_log_of written read name.now) }
{
    match (written, read) {
        (None, Some(FileName::Log { zxid })) => push_log(text, name, zxid),
        _ => Ok(()),
    }
}

/// Appends the line of a name in whose place the snapshot of this zxid is read.
#[tactic(auto, unfolding(crate::specs::UnreadFiles::unread_line))]
fn push_snapshot(text: &mut String, name: &str, zxid: i64) -> Result<(), NoMemory>
    ensures { OnOk result (string_bytes text.new ≡ string_bytes text.old ++ unread_line name.now (snapshot_name zxid)) }
{
    text.push_str(name)?;
    text.push_str(" unread ")?;
    push_snapshot_name(text, zxid)?;
    text.push_str("\n")?;
    Ok(())
}

/// Appends the line of a name in whose place the log of this zxid is read.
#[tactic(auto, unfolding(crate::specs::UnreadFiles::unread_line))]
fn push_log(text: &mut String, name: &str, zxid: i64) -> Result<(), NoMemory>
    ensures { OnOk result (string_bytes text.new ≡ string_bytes text.old ++ unread_line name.now (log_name zxid)) }
{
    text.push_str(name)?;
    text.push_str(" unread ")?;
    push_log_name(text, zxid)?;
    text.push_str("\n")?;
    Ok(())
}
