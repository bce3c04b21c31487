//! The objects of sessions.
ghost use Rattle.std.specs.Prelude.{◌≡◌, IfOk, OnOk};
ghost use Rattle.std.specs.Fmt.{signed_decimal};
ghost use Rattle.std.specs.String.{string_bytes};
ghost use Rattle.zk_json.specs.Json.{AppendsLineOf, object_of};
ghost use Rattle.zk_json.specs.Objects.{value_of};
ghost use Rattle.zk_json.specs.Times.{IsTimeText};
ghost use Rattle.zk_session_lines.specs.Appending.{Appends};
ghost use Rattle.zk_session_lines.specs.RowObjects.{IsRowObject, IsTimeOf, IsTimeoutText, end_moment, end_name, ended_name, row_fields, time_of, timeout_by, timeout_of, zxid_of};

use std::alloc::Global;
use zk_json::{Value, push_object_line, push_time};
use zk_path::NoMemory;
use zk_sessions::{Ending, Moment, Session};

/// The text of a time.
#[tactic(auto, using(crate::proofs::Lifed::clock))]
fn clock_text(alloc: Global, time: i64) -> Result<String, NoMemory>
    ensures { IfOk result (λ clock. IsTimeText time (string_bytes clock)) }
{
    let mut clock = String::new(alloc);
    push_time(&mut clock, time)?;
    Ok(clock)
}

/// The text of the time of a transaction; empty if there is none.
fn time_text(alloc: Global, moment: Option<Moment>) -> Result<String, NoMemory>
    ensures { IfOk result (λ text. IsTimeOf moment (string_bytes text)) }
{
    match moment {
        None => Ok(String::new(alloc)),
        Some(moment) => clock_text(alloc, moment.time),
    }
}

fn time_of(moment: Option<Moment>, time: &str) -> Value<'_>
    ensures { value_of result ≡ time_of moment time.now }
{
    match moment {
        None => Value::Null,
        Some(_) => Value::Text(time),
    }
}

fn zxid_of(moment: Option<Moment>) -> Value<'static>
    ensures { value_of result ≡ zxid_of moment }
{
    match moment {
        None => Value::Null,
        Some(moment) => Value::Id(moment.zxid),
    }
}

fn number_text(alloc: Global, number: i32) -> Result<String, NoMemory>
    ensures { IfOk result (λ text. string_bytes text ≡ signed_decimal number) }
{
    let mut text = String::new(alloc);
    write!(text, "{number}")?;
    Ok(text)
}

/// The text of a timeout; empty if there is none.
fn timeout_text(alloc: Global, timeout: Option<i32>) -> Result<String, NoMemory>
    ensures { IfOk result (λ text. IsTimeoutText timeout (string_bytes text)) }
{
    match timeout {
        None => Ok(String::new(alloc)),
        Some(timeout) => number_text(alloc, timeout),
    }
}

fn timeout_by(timeout: i32, text: &str) -> Value<'_>
    ensures { value_of result ≡ timeout_by timeout text.now }
{
    match u64::try_from(timeout) {
        Ok(timeout) => Value::Count(timeout),
        Err(_) => Value::Text(text),
    }
}

fn timeout_of(timeout: Option<i32>, text: &str) -> Value<'_>
    ensures { value_of result ≡ timeout_of timeout text.now }
{
    match timeout {
        None => Value::Null,
        Some(timeout) => timeout_by(timeout, text),
    }
}

fn end_moment(ended: Option<Ending>) -> Option<Moment>
    ensures { result ≡ end_moment ended }
{
    match ended {
        None => None,
        Some(ending) => Some(ending.moment),
    }
}

fn ended_name(expired: bool) -> &'static str
    ensures { result.now ≡ ended_name expired }
{
    if expired { "expired" } else { "closed" }
}

fn end_name(ended: Option<Ending>) -> &'static str
    ensures { result.now ≡ end_name ended }
{
    match ended {
        None => "open",
        Some(ending) => ended_name(ending.expired),
    }
}

/// Appends the object of a session with the texts of its times and of its timeout.
fn push_object<'a>(
    text: &mut String,
    session: i64,
    life: Session,
    opened: &'a str,
    timeout: &'a str,
    ended: &'a str,
) -> Result<(), NoMemory>
    ensures { OnOk result (AppendsLineOf (object_of (row_fields session life opened.now timeout.now ended.now)) (string_bytes text.old) (string_bytes text.new)) }
{
    let end = end_moment(life.ended);
    let fields = [
        ("session", Value::Id(session)),
        ("openedZxid", zxid_of(life.opened)),
        ("openedTime", time_of(life.opened, opened)),
        ("timeout", timeout_of(life.timeout, timeout)),
        ("writes", Value::Count(life.writes)),
        ("created", Value::Count(life.created)),
        ("deleted", Value::Count(life.deleted)),
        ("left", Value::Count(life.left)),
        ("end", Value::Text(end_name(life.ended))),
        ("endZxid", zxid_of(end)),
        ("endTime", time_of(end, ended)),
    ];
    push_object_line(text, &fields)
}

/// Appends the object of a session, and a newline.
pub(crate) fn push_row_object(
    text: &mut String,
    session: i64,
    life: Session,
) -> Result<(), NoMemory>
    ensures { OnOk result (Appends (IsRowObject (session, life)) (string_bytes text.old) (string_bytes text.new)) }
{
    let alloc = *text.allocator();
    let opened = time_text(alloc, life.opened)?;
    let timeout = timeout_text(alloc, life.timeout)?;
    let ended = time_text(alloc, end_moment(life.ended))?;
    push_object(
        text,
        session,
        life,
        opened.as_str(),
        timeout.as_str(),
        ended.as_str(),
    )
}
