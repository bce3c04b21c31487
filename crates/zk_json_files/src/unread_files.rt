//! The objects of files that are not read, since another one of their zxid is.
ghost use Rattle.std.specs.Prelude.{◌≡◌, IfOk, OnOk, option_map};
ghost use Rattle.std.specs.String.{string_bytes};
ghost use Rattle.zk_json.specs.Json.{AppendsLineOf, object_of};
ghost use Rattle.zk_json_files.specs.Unread.{AppendsUnread, AppendsUnreadBy, AppendsUnreadIn, log_for, log_instead, snapshot_for, snapshot_instead, text_of, unread_fields};

use crate::log_line::name_of_log;
use crate::snapshot_line::name_of_snapshot;
use std::alloc::Global;
use zk_directory::{FileName, read_file_name, read_server_name};
use zk_json::{Value, push_object_line};
use zk_path::NoMemory;

/// Appends the objects of the snapshots and of the logs among these names that are not read.
pub(crate) fn push_unread(
    text: &mut String,
    snapshot_names: &[String],
    log_names: &[String],
) -> Result<(), NoMemory>
    ensures { OnOk result (AppendsUnread snapshot_names.now log_names.now (string_bytes text.old) (string_bytes text.new)) }
{
    push_unread_snapshots(text, snapshot_names)?;
    push_unread_logs(text, log_names)
}

/// Appends the objects of the snapshots among these names that are not read.
fn push_unread_snapshots(text: &mut String, names: &[String]) -> Result<(), NoMemory>
    ensures { OnOk result (AppendsUnreadIn snapshot_instead names.now (string_bytes text.old) (string_bytes text.new)) }
{
    for name in names {
        push_unread_snapshot(text, name.as_str())?;
    }
    Ok(())
}

/// Appends the object of a name, if a snapshot of this name is not read.
fn push_unread_snapshot(text: &mut String, name: &str) -> Result<(), NoMemory>
    ensures { OnOk result (AppendsUnreadBy name.now (snapshot_instead name.now) (string_bytes text.old) (string_bytes text.new)) }
{
    let read = snapshot_instead(*text.allocator(), name)?;
    push_unread_by(text, name, &read)
}

/// Appends the objects of the logs among these names that are not read.
fn push_unread_logs(text: &mut String, names: &[String]) -> Result<(), NoMemory>
    ensures { OnOk result (AppendsUnreadIn log_instead names.now (string_bytes text.old) (string_bytes text.new)) }
{
    for name in names {
        push_unread_log(text, name.as_str())?;
    }
    Ok(())
}

/// Appends the object of a name, if a log of this name is not read.
fn push_unread_log(text: &mut String, name: &str) -> Result<(), NoMemory>
    ensures { OnOk result (AppendsUnreadBy name.now (log_instead name.now) (string_bytes text.old) (string_bytes text.new)) }
{
    let read = log_instead(*text.allocator(), name)?;
    push_unread_by(text, name, &read)
}

/// The snapshot that is read in place of the one of this name.
fn snapshot_instead(alloc: Global, name: &str) -> Result<Option<String>, NoMemory>
    ensures { IfOk result (λ read. text_of read ≡ snapshot_instead name.now) }
{
    snapshot_for(alloc, read_file_name(name), read_server_name(name))
}

/// The same, by the files that a server writes and reads by a name.
fn snapshot_for(
    alloc: Global,
    written: Option<FileName>,
    read: Option<FileName>,
) -> Result<Option<String>, NoMemory>
    ensures { IfOk result (λ it. text_of it ≡ snapshot_for written read) }
{
    match (written, read) {
        (None, Some(FileName::Snapshot { zxid })) => Ok(Some(name_of_snapshot(alloc, zxid)?)),
        _ => Ok(None),
    }
}

/// The log that is read in place of the one of this name.
fn log_instead(alloc: Global, name: &str) -> Result<Option<String>, NoMemory>
    ensures { IfOk result (λ read. text_of read ≡ log_instead name.now) }
{
    log_for(alloc, read_file_name(name), read_server_name(name))
}

/// The same, by the files that a server writes and reads by a name.
fn log_for(
    alloc: Global,
    written: Option<FileName>,
    read: Option<FileName>,
) -> Result<Option<String>, NoMemory>
    ensures { IfOk result (λ it. text_of it ≡ log_for written read) }
{
    match (written, read) {
        (None, Some(FileName::Log { zxid })) => Ok(Some(name_of_log(alloc, zxid)?)),
        _ => Ok(None),
    }
}

/// Appends the object of a name in whose place another is read, if one is.
fn push_unread_by(text: &mut String, name: &str, read: &Option<String>) -> Result<(), NoMemory>
    ensures { OnOk result (AppendsUnreadBy name.now (text_of read.now) (string_bytes text.old) (string_bytes text.new)) }
{
    match read {
        Some(read) => push_unread_line(text, name, read.as_str()),
        None => Ok(()),
    }
}

fn push_unread_line<'a>(text: &mut String, name: &'a str, read: &'a str) -> Result<(), NoMemory>
    ensures { OnOk result (AppendsLineOf (object_of (unread_fields name.now read.now)) (string_bytes text.old) (string_bytes text.new)) }
{
    push_object_line(
        text,
        &[("unread", Value::Text(name)), ("read", Value::Text(read))],
    )
}
