//! The line of a transaction with the time of a clock.
ghost use Rattle.std.specs.Prelude.{◌≡◌, ◌++◌, ◌∷◌, [], IfOk, OnOk, option_map};
ghost use Rattle.std.specs.String.{string_bytes};
ghost use Rattle.zk_format.specs.Listings.{op_text};
ghost use Rattle.zk_listings.specs.Lines.{AppendsTimedLine, CutsFront, front_text, timed_line};
ghost use Rattle.zk_json.specs.Times.{IsTimeText};

use std::alloc::Global;
use zk_format::{push_id, spell_line};
use zk_json::push_time;
use zk_path::NoMemory;
use zk_table::Txn;

/// Appends the fields before the time, and a space after each.
fn push_front(text: &mut String, zxid: i64, session: i64, cxid: i32) -> Result<(), NoMemory>
    ensures { OnOk result (string_bytes text.new ≡ string_bytes text.old ++ front_text zxid session cxid) }
{
    push_id(text, zxid)?;
    text.push(' ')?;
    push_id(text, session)?;
    write!(text, " {cxid} ")?;
    Ok(())
}

/// What follows a front in a text that begins with it.
fn after_front<'a>(front: &str, text: &'a str) -> Option<&'a str>
    ensures { CutsFront front.now text.now (option_map (λ rest. rest.now) result) }
{
    text.strip_prefix(front)
}

/// The operation and the newline of a transaction's line.
fn op_line(alloc: Global, txn: &Txn) -> Result<String, NoMemory>
    ensures { IfOk result (λ text. string_bytes text ≡ op_text txn.now.op ++ 10 ∷ []) }
{
    let mut line = String::new(alloc);
    spell_line(&mut line, txn)?;
    let mut front = String::new(alloc);
    push_front(&mut front, txn.zxid, txn.session, txn.cxid)?;
    write!(front, "{} ", txn.time)?;
    match after_front(front.as_str(), line.as_str()) {
        Some(rest) => Ok(String::from_str(alloc, rest)?),
        None => unreachable!(),
    }
}

/// The text of a time.
fn time_text(alloc: Global, time: i64) -> Result<String, NoMemory>
    ensures { IfOk result (λ text. IsTimeText time (string_bytes text)) }
{
    let mut text = String::new(alloc);
    push_time(&mut text, time)?;
    Ok(text)
}

/// Appends the line of a transaction, with this text of its time.
fn push_line_at(text: &mut String, time: &str, txn: &Txn) -> Result<(), NoMemory>
    ensures { OnOk result (string_bytes text.new ≡ string_bytes text.old ++ timed_line time.now txn.now) }
{
    let rest = op_line(*text.allocator(), txn)?;
    push_front(text, txn.zxid, txn.session, txn.cxid)?;
    text.push_str(time)?;
    text.push(' ')?;
    text.push_str(rest.as_str())?;
    Ok(())
}

/// Appends a transaction's line, in which the time is that of a clock in UTC:
/// `2026-11-27T14:53:34.997Z`.
pub(crate) fn push_timed_line(text: &mut String, txn: &Txn) -> Result<(), NoMemory>
    ensures { OnOk result (AppendsTimedLine txn.now (string_bytes text.old) (string_bytes text.new)) }
{
    let time = time_text(*text.allocator(), txn.time)?;
    push_line_at(text, time.as_str(), txn)
}
