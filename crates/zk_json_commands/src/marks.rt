//! The line of a mark.
ghost use Rattle.std.specs.Prelude.{OnOk, IfOk, ◌≡◌};
ghost use Rattle.std.specs.String.{string_bytes};
ghost use Rattle.zk_directory_state.specs.FaultLines.{fault_text};
ghost use Rattle.zk_directory_state.specs.Names.{log_name, snapshot_name};
ghost use Rattle.zk_json.specs.Json.{AppendsLineOf, object_of};
ghost use Rattle.zk_json.specs.Objects.{value_of};
ghost use Rattle.zk_json_commands.specs.Verifications.{AppendsMark, base_of, end_of, first_of, id_or_null, joint_fields, last_of, log_fields, states_fields, stopped_fields, torn_of, wrong_fields};

use crate::fault_text::fault_words;
use crate::lost_lines::{push_gap, push_lost, push_mismatch};
use std::alloc::Global;
use zk_directory::Joint;
use zk_directory_state::{HistoryFault, push_log_name, push_snapshot_name};
use zk_json::{Value, push_object_line};
use zk_log::Ending;
use zk_path::NoMemory;
use zk_replay::{DigestCount, Exact};
use zk_verification::Mark;

pub(crate) fn id_or_null(id: Option<i64>) -> Value<'static>
    ensures { value_of result ≡ id_or_null id }
{
    match id {
        Some(id) => Value::Id(id),
        None => Value::Null,
    }
}

/// The first zxid of a span.
fn first_of(span: Option<(i64, i64)>) -> Value<'static>
    ensures { value_of result ≡ first_of span }
{
    match span {
        Some((first, _)) => Value::Id(first),
        None => Value::Null,
    }
}

/// The last zxid of a span.
fn last_of(span: Option<(i64, i64)>) -> Value<'static>
    ensures { value_of result ≡ last_of span }
{
    match span {
        Some((_, last)) => Value::Id(last),
        None => Value::Null,
    }
}

/// How a log ends, unless it is broken.
pub(crate) fn end_of(ending: Option<Ending>) -> Value<'static>
    ensures { value_of result ≡ end_of ending }
{
    match ending {
        Some(Ending::Whole) => Value::Text("whole"),
        Some(Ending::Padding) => Value::Text("padding"),
        Some(Ending::Torn(_)) => Value::Text("torn"),
        None => Value::Null,
    }
}

/// Where the end of a log is torn.
pub(crate) fn torn_of(ending: Option<Ending>) -> Value<'static>
    ensures { value_of result ≡ torn_of ending }
{
    match ending {
        Some(Ending::Torn(at)) => Value::Count(at),
        _ => Value::Null,
    }
}

/// Appends the line of a log of this name.
fn push_log(
    text: &mut String,
    name: &str,
    records: usize,
    span: Option<(i64, i64)>,
    ending: Option<Ending>,
) -> Result<(), NoMemory>
    ensures { OnOk result (AppendsLineOf (object_of (log_fields name.now records span ending)) (string_bytes text.old) (string_bytes text.new)) }
{
    let fields = [
        ("log", Value::Text(name)),
        ("records", Value::Count(records as u64)),
        ("first", first_of(span)),
        ("last", last_of(span)),
        ("end", end_of(ending)),
        ("tornAt", torn_of(ending)),
    ];
    push_object_line(text, &fields)
}

/// Appends the line of states that begin at this base.
fn push_states(
    text: &mut String,
    base: Value<'_>,
    exact: Exact,
    last: i64,
    digests: DigestCount,
) -> Result<(), NoMemory>
    ensures { OnOk result (AppendsLineOf (object_of (states_fields (value_of base.entry) exact last digests)) (string_bytes text.old) (string_bytes text.new)) }
{
    let fields = [
        ("base", base),
        ("to", Value::Id(last)),
        ("exact", Value::Id(exact.zxid)),
        ("orLater", Value::Flag(!exact.is_told)),
        ("digest", Value::Count(digests.equal)),
        ("otherDigest", Value::Count(digests.other)),
        ("otherFrom", id_or_null(digests.first)),
    ];
    push_object_line(text, &fields)
}

/// Appends the line of a fault of these words.
fn push_wrong(text: &mut String, words: &str) -> Result<(), NoMemory>
    ensures { OnOk result (AppendsLineOf (object_of (wrong_fields words.now)) (string_bytes text.old) (string_bytes text.new)) }
{
    push_object_line(text, &[("fault", Value::Text(words))])
}

/// The name of the log of this zxid.
pub(crate) fn name_of_log(alloc: Global, zxid: i64) -> Result<String, NoMemory>
    ensures { IfOk result (λ name. string_bytes name ≡ log_name zxid) }
{
    let mut name = String::new(alloc);
    push_log_name(&mut name, zxid)?;
    Ok(name)
}

/// The name of the snapshot of this zxid.
pub(crate) fn name_of_snapshot(alloc: Global, zxid: i64) -> Result<String, NoMemory>
    ensures { IfOk result (λ name. string_bytes name ≡ snapshot_name zxid) }
{
    let mut name = String::new(alloc);
    push_snapshot_name(&mut name, zxid)?;
    Ok(name)
}

/// Appends the line of states that begin at the snapshot of this zxid, or at the empty tree.
fn push_states_from(
    text: &mut String,
    snapshot: Option<i64>,
    exact: Exact,
    last: i64,
    digests: DigestCount,
) -> Result<(), NoMemory>
    ensures { OnOk result (AppendsLineOf (object_of (states_fields (base_of snapshot) exact last digests)) (string_bytes text.old) (string_bytes text.new)) }
{
    match snapshot {
        Some(zxid) => {
            let name = name_of_snapshot(*text.allocator(), zxid)?;
            push_states(text, Value::Text(name.as_str()), exact, last, digests)
        }
        None => push_states(text, Value::Null, exact, last, digests),
    }
}

/// Appends the line of a snapshot, or of the empty tree, that leads to no state.
fn push_stopped(text: &mut String, base: Value<'_>) -> Result<(), NoMemory>
    ensures { OnOk result (AppendsLineOf (object_of (stopped_fields (value_of base.entry))) (string_bytes text.old) (string_bytes text.new)) }
{
    push_object_line(text, &[("base", base), ("to", Value::Null)])
}

fn push_stopped_from(text: &mut String, snapshot: Option<i64>) -> Result<(), NoMemory>
    ensures { OnOk result (AppendsLineOf (object_of (stopped_fields (base_of snapshot))) (string_bytes text.old) (string_bytes text.new)) }
{
    match snapshot {
        Some(zxid) => {
            let name = name_of_snapshot(*text.allocator(), zxid)?;
            push_stopped(text, Value::Text(name.as_str()))
        }
        None => push_stopped(text, Value::Null),
    }
}

/// Appends the line of a place at which an epoch follows another.
fn push_joint(text: &mut String, joint: &Joint, is_missing: bool) -> Result<(), NoMemory>
    ensures { OnOk result (AppendsLineOf (object_of (joint_fields joint.now is_missing)) (string_bytes text.old) (string_bytes text.new)) }
{
    let fields = [
        ("epochEnd", Value::Id(joint.last)),
        ("next", Value::Id(joint.next)),
        ("missing", Value::Flag(is_missing)),
    ];
    push_object_line(text, &fields)
}

/// Appends the line of a log.
fn push_log_of(
    text: &mut String,
    zxid: i64,
    records: usize,
    span: Option<(i64, i64)>,
    ending: Option<Ending>,
) -> Result<(), NoMemory>
    ensures { OnOk result (AppendsLineOf (object_of (log_fields (log_name zxid) records span ending)) (string_bytes text.old) (string_bytes text.new)) }
{
    let name = name_of_log(*text.allocator(), zxid)?;
    push_log(text, name.as_str(), records, span, ending)
}

/// Appends the line of a fault.
fn push_fault(text: &mut String, fault: &HistoryFault) -> Result<(), NoMemory>
    ensures { OnOk result (AppendsLineOf (object_of (wrong_fields (fault_text fault.now))) (string_bytes text.old) (string_bytes text.new)) }
{
    let words = fault_words(*text.allocator(), fault)?;
    push_wrong(text, words.as_str())
}

/// Appends the line of a mark.
pub(crate) fn push_mark(text: &mut String, mark: &Mark) -> Result<(), NoMemory>
    ensures { OnOk result (AppendsMark mark.now (string_bytes text.old) (string_bytes text.new)) }
{
    match mark {
        Mark::Log {
            zxid,
            records,
            span,
            ending,
        } => push_log_of(text, *zxid, *records, *span, *ending),
        Mark::States {
            snapshot,
            exact,
            last,
            digests,
        } => push_states_from(text, *snapshot, *exact, *last, *digests),
        Mark::Stopped { snapshot } => push_stopped_from(text, *snapshot),
        Mark::Joint { joint, is_missing } => push_joint(text, joint, *is_missing),
        Mark::Lost(damage) => push_lost(text, damage),
        Mark::Gap { before, after } => push_gap(text, *before, after),
        Mark::Digest(mismatch) => push_mismatch(text, mismatch),
        Mark::Wrong(fault) => push_fault(text, fault),
    }
}
