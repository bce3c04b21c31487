//! The lines of transactions that are lost, and of a digest that is not that of its tree.
ghost use Rattle.std.specs.Prelude.{◌≡◌, IfOk, OnOk, Some};
ghost use Rattle.std.specs.String.{string_bytes};
ghost use Rattle.json.specs.Json.{string};
ghost use Rattle.zk_directory_state.specs.Names.{log_name};
ghost use Rattle.zk_json.specs.Json.{AppendsLineOf, object_of};
ghost use Rattle.zk_json.specs.Objects.{value_of};
ghost use Rattle.zk_json.specs.Times.{IsTimeText};
ghost use Rattle.zk_json_commands.specs.Verifications.{AppendsMark, AppendsRecord, IsTimeOf, gap_fields, lost_fields, path_or_null, place_fields, record_fields, text_by, zxid_of};
ghost use Rattle.zk_verification.specs.declared.mark.Mark.TheVariants as marks;

use crate::marks::name_of_log;
use std::alloc::Global;
use zk_json::{Value, push_object_line, push_time};
use zk_path::{NoMemory, Path};
use zk_verification::{Damage, Facts, Mismatch, Moment, stop_word};

/// The text of a time.
fn time_text(alloc: Global, time: i64) -> Result<String, NoMemory>
    ensures { IfOk result (λ text. IsTimeText time (string_bytes text)) }
{
    let mut text = String::new(alloc);
    push_time(&mut text, time)?;
    Ok(text)
}

/// The text of the time of a transaction, if there is one.
fn time_by(alloc: Global, moment: Option<Moment>) -> Result<Option<String>, NoMemory>
    ensures { IfOk result (λ text. IsTimeOf moment (text_by text)) }
{
    match moment {
        Some(moment) => Ok(Some(time_text(alloc, moment.time)?)),
        None => Ok(None),
    }
}

fn text_by(text: &Option<String>) -> Value<'_>
    ensures { value_of result ≡ text_by text.now }
{
    match text {
        Some(text) => Value::Text(text.as_str()),
        None => Value::Null,
    }
}

fn zxid_of(moment: Option<Moment>) -> Value<'static>
    ensures { value_of result ≡ zxid_of moment }
{
    match moment {
        Some(moment) => Value::Id(moment.zxid),
        None => Value::Null,
    }
}

/// Appends the line of a place of a log that lost transactions.
pub(crate) fn push_lost(text: &mut String, damage: &Damage) -> Result<(), NoMemory>
    ensures { OnOk result (AppendsMark (marks.Lost damage.now) (string_bytes text.old) (string_bytes text.new)) }
{
    let alloc = *text.allocator();
    let name = name_of_log(alloc, damage.log)?;
    let before = time_by(alloc, damage.before)?;
    let after = time_text(alloc, damage.after.time)?;
    push_place(
        text,
        damage,
        name.as_str(),
        text_by(&before),
        after.as_str(),
    )
}

fn push_place<'a>(
    text: &mut String,
    damage: &Damage,
    name: &'a str,
    before: Value<'a>,
    after: &'a str,
) -> Result<(), NoMemory>
    requires { name.now ≡ log_name damage.now.log }
    ensures { OnOk result (AppendsLineOf (object_of (lost_fields damage.now (value_of before.entry) (string after.now))) (string_bytes text.old) (string_bytes text.new)) }
{
    let stop = stop_word(damage.stop);
    let from = zxid_of(damage.before);
    push_lost_of(
        text,
        name,
        stop,
        damage.at,
        damage.to,
        from,
        before,
        damage.after.zxid,
        after,
    )
}

fn push_lost_of<'a>(
    text: &mut String,
    name: &'a str,
    stop: &'a str,
    at: u64,
    to: u64,
    from: Value<'a>,
    before: Value<'a>,
    next: i64,
    after: &'a str,
) -> Result<(), NoMemory>
    ensures { OnOk result (AppendsLineOf (object_of (place_fields name.now stop.now at to (value_of from.entry) (value_of before.entry) next (string after.now))) (string_bytes text.old) (string_bytes text.new)) }
{
    let fields = [
        ("lost", Value::Text(name)),
        ("stop", Value::Text(stop)),
        ("at", Value::Count(at)),
        ("to", Value::Count(to)),
        ("before", from),
        ("beforeTime", before),
        ("after", Value::Id(next)),
        ("afterTime", Value::Text(after)),
    ];
    push_object_line(text, &fields)
}

/// Appends the line of transactions that are in no log.
pub(crate) fn push_gap(
    text: &mut String,
    before: Option<Moment>,
    after: &Moment,
) -> Result<(), NoMemory>
    ensures { OnOk result (AppendsMark (marks.Gap before after.now) (string_bytes text.old) (string_bytes text.new)) }
{
    let alloc = *text.allocator();
    let time = time_by(alloc, before)?;
    let next = time_text(alloc, after.time)?;
    push_missing(text, before, text_by(&time), after, next.as_str())
}

fn push_missing<'a>(
    text: &mut String,
    before: Option<Moment>,
    time: Value<'a>,
    after: &Moment,
    next: &'a str,
) -> Result<(), NoMemory>
    ensures { OnOk result (AppendsLineOf (object_of (gap_fields before (value_of time.entry) after.now (string next.now))) (string_bytes text.old) (string_bytes text.new)) }
{
    let fields = [
        ("fault", Value::Text("D3")),
        ("before", zxid_of(before)),
        ("beforeTime", time),
        ("after", Value::Id(after.zxid)),
        ("afterTime", Value::Text(next)),
    ];
    push_object_line(text, &fields)
}

/// Appends the line of a digest that is not that of its tree.
pub(crate) fn push_mismatch(text: &mut String, mismatch: &Mismatch) -> Result<(), NoMemory>
    ensures { OnOk result (AppendsMark (marks.Digest mismatch.now) (string_bytes text.old) (string_bytes text.new)) }
{
    match &mismatch.facts {
        Some(facts) => push_facts(text, mismatch.zxid, facts),
        None => push_record(text, mismatch.zxid, Value::Null, Value::Null, Value::Null),
    }
}

fn push_facts(text: &mut String, zxid: i64, facts: &Facts) -> Result<(), NoMemory>
    ensures { OnOk result (AppendsRecord zxid facts.now (string_bytes text.old) (string_bytes text.new)) }
{
    let time = time_text(*text.allocator(), facts.time)?;
    let session = Value::Id(facts.session);
    let path = path_or_null(&facts.path);
    push_record(text, zxid, Value::Text(time.as_str()), session, path)
}

fn path_or_null(path: &Option<Path>) -> Value<'_>
    ensures { value_of result ≡ path_or_null path.now }
{
    match path {
        Some(path) => Value::Text(path.text()),
        None => Value::Null,
    }
}

fn push_record<'a>(
    text: &mut String,
    zxid: i64,
    time: Value<'a>,
    session: Value<'a>,
    path: Value<'a>,
) -> Result<(), NoMemory>
    ensures { OnOk result (AppendsLineOf (object_of (record_fields zxid (value_of time.entry) (value_of session.entry) (value_of path.entry))) (string_bytes text.old) (string_bytes text.new)) }
{
    let fields = [
        ("mismatch", Value::Id(zxid)),
        ("time", time),
        ("session", session),
        ("path", path),
    ];
    push_object_line(text, &fields)
}
