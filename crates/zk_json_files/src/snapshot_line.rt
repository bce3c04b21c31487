//! The object of a snapshot.
ghost use Rattle.std.specs.Prelude.{◌≡◌, OnOk, IfOk};
ghost use Rattle.std.specs.String.{string_bytes};
ghost use Rattle.zk_directory_state.specs.Names.{snapshot_name};
ghost use Rattle.zk_json.specs.Json.{AppendsLineOf, object_of};
ghost use Rattle.zk_json.specs.Objects.{value_of};
ghost use Rattle.zk_json_files.specs.Snapshots.{AppendsSnapshot, contents_fields, rejected_fields, snapshot_fields};

use std::alloc::Global;
use zk_directory_state::{fault_word, push_snapshot_name};
use zk_json::{Value, push_object_line};
use zk_path::NoMemory;
use zk_replay::exact_from;
use zk_snapshot::{Snapshot, SnapshotFault, read_snapshot};

/// The name of the snapshot of this zxid.
pub(crate) fn name_of_snapshot(alloc: Global, zxid: i64) -> Result<String, NoMemory>
    ensures { IfOk result (λ name. string_bytes name ≡ snapshot_name zxid) }
{
    let mut name = String::new(alloc);
    push_snapshot_name(&mut name, zxid)?;
    Ok(name)
}

/// Appends the object of a snapshot of this name.
fn push_snapshot_fields<'a>(
    text: &mut String,
    name: &'a str,
    nodes: Value<'a>,
    sessions: Value<'a>,
    exact: Value<'a>,
    or_later: Value<'a>,
    fault: Value<'a>,
) -> Result<(), NoMemory>
    ensures { OnOk result (AppendsLineOf (object_of (snapshot_fields name.now (value_of nodes.entry) (value_of sessions.entry) (value_of exact.entry) (value_of or_later.entry) (value_of fault.entry))) (string_bytes text.old) (string_bytes text.new)) }
{
    let fields = [
        ("snapshot", Value::Text(name)),
        ("nodes", nodes),
        ("sessions", sessions),
        ("exact", exact),
        ("orLater", or_later),
        ("fault", fault),
    ];
    push_object_line(text, &fields)
}

/// Appends the object of a snapshot that serves.
fn push_contents(
    text: &mut String,
    name: &str,
    zxid: i64,
    snapshot: &Snapshot,
) -> Result<(), NoMemory>
    ensures { OnOk result (AppendsLineOf (object_of (contents_fields name.now zxid snapshot.now)) (string_bytes text.old) (string_bytes text.new)) }
{
    let nodes = snapshot.contents.nodes.as_slice().len() as u64;
    let sessions = snapshot.contents.leases.as_slice().len() as u64;
    let exact = exact_from(snapshot, zxid);
    push_snapshot_fields(
        text,
        name,
        Value::Count(nodes),
        Value::Count(sessions),
        Value::Id(exact.zxid),
        Value::Flag(!exact.is_told),
        Value::Null,
    )
}

/// Appends the object of a snapshot that is rejected.
fn push_rejected(text: &mut String, name: &str, fault: SnapshotFault) -> Result<(), NoMemory>
    ensures { OnOk result (AppendsLineOf (object_of (rejected_fields name.now fault)) (string_bytes text.old) (string_bytes text.new)) }
{
    push_snapshot_fields(
        text,
        name,
        Value::Null,
        Value::Null,
        Value::Null,
        Value::Null,
        Value::Text(fault_word(fault)),
    )
}

/// Appends the object of the snapshot of this zxid, with these bytes.
pub(crate) fn push_snapshot_line(
    text: &mut String,
    name: &str,
    zxid: i64,
    bytes: &[u8],
) -> Result<(), NoMemory>
    ensures { OnOk result (AppendsSnapshot name.now zxid bytes.now (string_bytes text.old) (string_bytes text.new)) }
{
    match read_snapshot(*text.allocator(), bytes) {
        Ok(snapshot) => push_contents(text, name, zxid, &snapshot),
        Err(SnapshotFault::NoMemory) => Err(NoMemory),
        Err(fault) => push_rejected(text, name, fault),
    }
}
