//! The lines of `zk compare --json`.
ghost use Rattle.std.specs.Prelude.{◌≡◌, IfOk, OnOk, Some};
ghost use Rattle.std.specs.Option.{option_copied};
ghost use Rattle.std.specs.String.{string_bytes};
ghost use Rattle.json.specs.Json.{string};
ghost use Rattle.zk_comparison.specs.Lines.{AreLines, directory_word};
ghost use Rattle.zk_comparison.specs.Objects.{AppendsFinding, AppendsFindings, AppendsStretch, IsFindingLine, IsTimeOf, count_fields, differing_fields, first_time, from_of, holder_of, last_time, node_fields, path_or_null, side_with, stretch_fields, text_by, time_in, to_of, tree_fields, values_of};
ghost use Rattle.zk_comparison.specs.declared.finding.Finding.TheVariants as said;
ghost use Rattle.zk_json.specs.Json.{AppendsLineOf, object_of};
ghost use Rattle.zk_json.specs.Objects.{value_of};

use crate::finding::{Directory, Finding, Occurrence, Stretch};
use std::alloc::Global;
use zk_incidents::op_word;
use zk_json::{Value, push_object_line};
use zk_newer_records::NewerRecord;
use zk_path::{NoMemory, Path};
use zk_verification::{path_of, time_text};

/// An object for each finding, one a line.
#[tactic(auto, using(crate::proofs::Written::objects_alone))]
pub(crate) fn findings_objects(alloc: Global, findings: &[Finding]) -> Result<String, NoMemory>
    ensures { IfOk result (λ text. AreLines IsFindingLine findings.now (string_bytes text)) }
{
    let mut text = String::new(alloc);
    push_findings(&mut text, findings)?;
    Ok(text)
}

#[tactic(auto, using(crate::proofs::Written::no_object, crate::proofs::Written::all_objects))]
fn push_findings(text: &mut String, findings: &[Finding]) -> Result<(), NoMemory>
    ensures { OnOk result (AppendsFindings findings.now (string_bytes text.old) (string_bytes text.new)) }
{
    for finding in findings {
        push_finding(text, finding)?;
    }
    Ok(())
}

fn push_finding(text: &mut String, finding: &Finding) -> Result<(), NoMemory>
    ensures { OnOk result (AppendsFinding finding.now (string_bytes text.old) (string_bytes text.new)) }
{
    match finding {
        Finding::Before { directory, stretch } => {
            push_stretch(text, "before", word_of(*directory), *stretch)
        }
        Finding::Same(stretch) => push_stretch(text, "same", Value::Null, *stretch),
        Finding::Lost(count) => push_count(text, "lost", *count),
        Finding::Differing {
            zxid,
            first,
            second,
        } => push_differing(text, *zxid, first, second),
        Finding::Differences(count) => push_count(text, "differences", *count),
        Finding::After { directory, stretch } => {
            push_stretch(text, "after", word_of(*directory), *stretch)
        }
        Finding::Node { path, directory } => push_node(text, path, holder_of(*directory)),
        Finding::Tree { zxid, count } => push_tree(text, *zxid, *count),
    }
}

/// Appends the line of a node at which the trees differ.
fn push_node<'a>(text: &mut String, path: &'a Path, directory: Value<'a>) -> Result<(), NoMemory>
    ensures { OnOk result (AppendsLineOf (object_of (node_fields (value_of directory.entry) path.now)) (string_bytes text.old) (string_bytes text.new)) }
{
    let fields = [
        ("kind", Value::Text("node")),
        ("directory", directory),
        ("path", Value::Text(path.text())),
    ];
    push_object_line(text, &fields)
}

fn holder_of(directory: Option<Directory>) -> Value<'static>
    ensures { value_of result ≡ holder_of directory }
{
    match directory {
        None => Value::Null,
        Some(directory) => word_of(directory),
    }
}

/// Appends the line of the number of nodes at which the trees differ.
fn push_tree(text: &mut String, zxid: i64, count: usize) -> Result<(), NoMemory>
    ensures { OnOk result (AppendsLineOf (object_of (tree_fields zxid count)) (string_bytes text.old) (string_bytes text.new)) }
{
    let fields = [
        ("kind", Value::Text("tree")),
        ("zxid", Value::Id(zxid)),
        ("count", Value::Count(count as u64)),
    ];
    push_object_line(text, &fields)
}

fn word_of(directory: Directory) -> Value<'static>
    ensures { value_of result ≡ string (directory_word directory) }
{
    match directory {
        Directory::First => Value::Text("first"),
        Directory::Second => Value::Text("second"),
    }
}

fn push_count(text: &mut String, kind: &str, count: usize) -> Result<(), NoMemory>
    ensures { OnOk result (AppendsLineOf (object_of (count_fields kind.now count)) (string_bytes text.old) (string_bytes text.new)) }
{
    let fields = [
        ("kind", Value::Text(kind)),
        ("count", Value::Count(count as u64)),
    ];
    push_object_line(text, &fields)
}

/// Appends the line of transactions in a row.
fn push_stretch(
    text: &mut String,
    kind: &str,
    directory: Value<'_>,
    stretch: Stretch,
) -> Result<(), NoMemory>
    ensures { OnOk result (AppendsStretch kind.now (value_of directory.entry) stretch (string_bytes text.old) (string_bytes text.new)) }
{
    let alloc = *text.allocator();
    let time = time_of(alloc, first_time(stretch.span))?;
    let end = time_of(alloc, last_time(stretch.span))?;
    push_row(
        text,
        kind,
        directory,
        stretch,
        text_by(&time),
        text_by(&end),
    )
}

fn push_row<'a>(
    text: &mut String,
    kind: &'a str,
    directory: Value<'a>,
    stretch: Stretch,
    time: Value<'a>,
    end: Value<'a>,
) -> Result<(), NoMemory>
    ensures { OnOk result (AppendsLineOf (object_of (stretch_fields kind.now (value_of directory.entry) stretch.count (from_of stretch.span) (to_of stretch.span) (value_of time.entry) (value_of end.entry))) (string_bytes text.old) (string_bytes text.new)) }
{
    let fields = [
        ("kind", Value::Text(kind)),
        ("directory", directory),
        ("count", Value::Count(stretch.count as u64)),
        ("from", from_of(stretch.span)),
        ("to", to_of(stretch.span)),
        ("fromTime", time),
        ("toTime", end),
    ];
    push_object_line(text, &fields)
}

fn from_of(span: Option<(Occurrence, Occurrence)>) -> Value<'static>
    ensures { value_of result ≡ from_of span }
{
    match span {
        Some((first, _)) => Value::Id(first.zxid),
        None => Value::Null,
    }
}

fn to_of(span: Option<(Occurrence, Occurrence)>) -> Value<'static>
    ensures { value_of result ≡ to_of span }
{
    match span {
        Some((_, last)) => Value::Id(last.zxid),
        None => Value::Null,
    }
}

fn first_time(span: Option<(Occurrence, Occurrence)>) -> Option<i64>
    ensures { result ≡ first_time span }
{
    match span {
        Some((first, _)) => first.time,
        None => None,
    }
}

fn last_time(span: Option<(Occurrence, Occurrence)>) -> Option<i64>
    ensures { result ≡ last_time span }
{
    match span {
        Some((_, last)) => last.time,
        None => None,
    }
}

/// The text of a time, if it is known.
fn time_of(alloc: Global, time: Option<i64>) -> Result<Option<String>, NoMemory>
    ensures { IfOk result (λ text. IsTimeOf time (text_by text)) }
{
    match time {
        Some(time) => Ok(Some(time_text(alloc, time)?)),
        None => Ok(None),
    }
}

fn text_by(text: &Option<String>) -> Value<'_>
    ensures { value_of result ≡ text_by text.now }
{
    match text {
        Some(text) => Value::Text(text.as_str()),
        None => Value::Null,
    }
}

/// What a directory has of a zxid, as values of fields.
#[derive(Clone, Copy, Debug)]
struct Side<'a> {
    time: Value<'a>,
    kind: Value<'a>,
    session: Value<'a>,
    path: Value<'a>,
}

/// Appends the line of a difference.
fn push_differing(
    text: &mut String,
    zxid: i64,
    first: &Option<NewerRecord>,
    second: &Option<NewerRecord>,
) -> Result<(), NoMemory>
    ensures { OnOk result (AppendsFinding (said.Differing zxid first.now second.now) (string_bytes text.old) (string_bytes text.new)) }
{
    let alloc = *text.allocator();
    let time = time_of(alloc, time_in(first))?;
    let other = time_of(alloc, time_in(second))?;
    push_sides(
        text,
        zxid,
        side_of(first, text_by(&time)),
        side_of(second, text_by(&other)),
    )
}

fn time_in(newer: &Option<NewerRecord>) -> Option<i64>
    ensures { result ≡ time_in newer.now }
{
    match newer {
        Some(newer) => Some(newer.txn.time),
        None => None,
    }
}

/// What a directory has of a zxid, if it has a transaction; its time has this value.
fn side_of<'a>(newer: &'a Option<NewerRecord>, time: Value<'a>) -> Side<'a>
    ensures { values_of result ≡ side_with newer.now (value_of time.entry) }
{
    match newer {
        Some(newer) => Side {
            time,
            kind: Value::Text(op_word(&newer.txn.op, &newer.form)),
            session: Value::Id(newer.txn.session),
            path: path_or_null(path_of(&newer.txn.op)),
        },
        None => Side {
            time: Value::Null,
            kind: Value::Null,
            session: Value::Null,
            path: Value::Null,
        },
    }
}

fn path_or_null(path: Option<&Path>) -> Value<'_>
    ensures { value_of result ≡ path_or_null (option_copied path.entry) }
{
    match path {
        Some(path) => Value::Text(path.text()),
        None => Value::Null,
    }
}

fn push_sides<'a>(
    text: &mut String,
    zxid: i64,
    first: Side<'a>,
    second: Side<'a>,
) -> Result<(), NoMemory>
    ensures { OnOk result (AppendsLineOf (object_of (differing_fields zxid (values_of first.entry) (values_of second.entry))) (string_bytes text.old) (string_bytes text.new)) }
{
    let fields = [
        ("kind", Value::Text("differ")),
        ("zxid", Value::Id(zxid)),
        ("firstTime", first.time),
        ("firstType", first.kind),
        ("firstSession", first.session),
        ("firstPath", first.path),
        ("secondTime", second.time),
        ("secondType", second.kind),
        ("secondSession", second.session),
        ("secondPath", second.path),
    ];
    push_object_line(text, &fields)
}
