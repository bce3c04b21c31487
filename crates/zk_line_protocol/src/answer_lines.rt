//! Replies as lines, each without its newline. After an allocation failure, a part of the line may
//! have been appended.
ghost use Rattle.std.specs.Prelude.{◌≡◌, ◌++◌, Some, OnOk, option_map, codes};
ghost use Rattle.std.specs.String.{string_bytes};
ghost use Rattle.zk_line_protocol.specs.Tellings.{event_text, kind_text, wrote_text, undone_text, opened_text, ok_path, ok_stat, parts_text, refused_parts, looked_text, caught_text, fits_read};
ghost use Rattle.zk_line_protocol.specs.Appending.{Tells};
ghost use Rattle.zk_request_syntax.specs.ReplyLines.{refusal_text};
ghost use Rattle.zk_format.specs.Reports.{part_answer, path_or_dash, stat_or_dash};
ghost use Rattle.std.specs.List.{flat_map};

use crate::expected_reply::ExpectedReply;
use zk_acl::Stat;
use zk_listing::{push_id, push_quoted, push_stat};
use zk_machine::ChangeKind;
use zk_path::{NoMemory, Path};
use zk_request_syntax::{push_refusal, push_reply};
use zk_requests::clamp;
use zk_table::{PartResult, ReadReply, TxnResult};

/// Appends an event: `event KIND PATH`.
pub fn push_event(page: &mut String, kind: ChangeKind, path: &Path) -> Result<(), NoMemory>
    ensures { OnOk result (string_bytes page.new ≡ string_bytes page.old ++ event_text kind path.now) }
{
    page.push_str("event ")?;
    page.push_str(number_of(kind))?;
    page.push(' ')?;
    push_quoted(page, path.text())
}

/// Returns the number of a kind of change: that of the 3.4 server's event.
fn number_of(kind: ChangeKind) -> &'static str
    ensures { result.now ≡ kind_text kind }
{
    match kind {
        ChangeKind::Created => "1",
        ChangeKind::Deleted => "2",
        ChangeKind::DataChanged => "3",
        ChangeKind::ChildrenChanged => "4",
    }
}

/// Appends a transaction's result, in the form of the expected reply. Appends nothing if the line
/// expects no transaction, or if the result lacks the path or the stat of the reply.
pub fn push_wrote(
    page: &mut String,
    wish: &ExpectedReply,
    answer: &TxnResult,
) -> Result<bool, NoMemory>
    ensures { Tells (wrote_text wish.now answer.now) result (string_bytes page.old) (string_bytes page.new) }
{
    if answer.err != 0 {
        return push_undone(page, wish, answer);
    }
    match wish {
        ExpectedReply::Opened { timeout } => push_opened(page, clamp(*timeout), answer),
        ExpectedReply::Made => push_made(page, &answer.path),
        ExpectedReply::Changed => push_changed(page, &answer.stat),
        ExpectedReply::Done | ExpectedReply::Closed => push_done(page),
        ExpectedReply::Parts => push_parts(page, answer),
        _ => Ok(false),
    }
}

fn push_opened(page: &mut String, timeout: i32, answer: &TxnResult) -> Result<bool, NoMemory>
    ensures { Tells (Some (opened_text timeout answer.now)) result (string_bytes page.old) (string_bytes page.new) }
{
    page.push_str("ok ")?;
    push_id(page, answer.zxid)?;
    write!(page, " {timeout}")?;
    Ok(true)
}

fn push_made(page: &mut String, path: &Option<Path>) -> Result<bool, NoMemory>
    ensures { Tells (option_map ok_path path.now) result (string_bytes page.old) (string_bytes page.new) }
{
    match path {
        Some(path) => push_ok_path(page, path),
        None => Ok(false),
    }
}

fn push_ok_path(page: &mut String, path: &Path) -> Result<bool, NoMemory>
    ensures { Tells (Some (ok_path path.now)) result (string_bytes page.old) (string_bytes page.new) }
{
    page.push_str("ok ")?;
    push_quoted(page, path.text())?;
    Ok(true)
}

fn push_changed(page: &mut String, stat: &Option<Stat>) -> Result<bool, NoMemory>
    ensures { Tells (option_map ok_stat stat.now) result (string_bytes page.old) (string_bytes page.new) }
{
    match stat {
        Some(stat) => push_ok_stat(page, stat),
        None => Ok(false),
    }
}

fn push_ok_stat(page: &mut String, stat: &Stat) -> Result<bool, NoMemory>
    ensures { Tells (Some (ok_stat stat.now)) result (string_bytes page.old) (string_bytes page.new) }
{
    page.push_str("ok ")?;
    push_stat(page, stat)?;
    Ok(true)
}

fn push_done(page: &mut String) -> Result<bool, NoMemory>
    ensures { Tells (Some (codes "ok")) result (string_bytes page.old) (string_bytes page.new) }
{
    page.push_str("ok")?;
    Ok(true)
}

fn push_parts(page: &mut String, answer: &TxnResult) -> Result<bool, NoMemory>
    ensures { Tells (Some (parts_text answer.now)) result (string_bytes page.old) (string_bytes page.new) }
{
    page.push_str("ok")?;
    push_part_answers(page, answer.parts.as_slice())?;
    Ok(true)
}

/// Appends the results of a multi's parts.
fn push_part_answers(page: &mut String, parts: &[PartResult]) -> Result<(), NoMemory>
    ensures { OnOk result (string_bytes page.new ≡ string_bytes page.old ++ flat_map part_answer parts.now) }
{
    for part in parts {
        push_part_answer(page, part)?;
    }
    Ok(())
}

fn push_part_answer(page: &mut String, part: &PartResult) -> Result<(), NoMemory>
    ensures { OnOk result (string_bytes page.new ≡ string_bytes page.old ++ part_answer part.now) }
{
    write!(page, " ; {} ", part.err)?;
    push_path_or_dash(page, &part.path)?;
    page.push(' ')?;
    push_stat_or_dash(page, &part.stat)
}

fn push_path_or_dash(page: &mut String, path: &Option<Path>) -> Result<(), NoMemory>
    ensures { OnOk result (string_bytes page.new ≡ string_bytes page.old ++ path_or_dash path.now) }
{
    match path {
        None => Ok(page.push('-')?),
        Some(path) => push_quoted(page, path.text()),
    }
}

fn push_stat_or_dash(page: &mut String, stat: &Option<Stat>) -> Result<(), NoMemory>
    ensures { OnOk result (string_bytes page.new ≡ string_bytes page.old ++ stat_or_dash stat.now) }
{
    match stat {
        None => Ok(page.push('-')?),
        Some(stat) => push_stat(page, stat),
    }
}

/// Appends the result of a transaction that failed.
fn push_undone(
    page: &mut String,
    wish: &ExpectedReply,
    answer: &TxnResult,
) -> Result<bool, NoMemory>
    ensures { Tells (undone_text wish.now answer.now) result (string_bytes page.old) (string_bytes page.new) }
{
    match wish {
        ExpectedReply::Parts => push_refused_parts(page, answer),
        ExpectedReply::Opened { .. }
        | ExpectedReply::Made
        | ExpectedReply::Done
        | ExpectedReply::Changed
        | ExpectedReply::Closed => { push_refused(page, answer.err) }
        _ => Ok(false),
    }
}

fn push_refused(page: &mut String, code: i32) -> Result<bool, NoMemory>
    ensures { Tells (Some (refusal_text code)) result (string_bytes page.old) (string_bytes page.new) }
{
    push_refusal(page, code)?;
    Ok(true)
}

fn push_refused_parts(page: &mut String, answer: &TxnResult) -> Result<bool, NoMemory>
    ensures { Tells (Some (refused_parts answer.now)) result (string_bytes page.old) (string_bytes page.new) }
{
    push_refusal(page, answer.err)?;
    push_part_answers(page, answer.parts.as_slice())?;
    Ok(true)
}

/// Appends the reply to a read, or nothing if it is not of the expected kind.
pub fn push_looked(
    page: &mut String,
    wish: &ExpectedReply,
    reply: &ReadReply,
) -> Result<bool, NoMemory>
    ensures { Tells (looked_text wish.now reply.now) result (string_bytes page.old) (string_bytes page.new) }
{
    if !fits_read(wish, reply) {
        return Ok(false);
    }
    push_reply(page, reply)?;
    Ok(true)
}

/// Whether the reply is of the expected kind.
fn fits_read(wish: &ExpectedReply, reply: &ReadReply) -> bool
    ensures { result ≡ fits_read wish.now reply.now }
{
    match (wish, reply) {
        (ExpectedReply::Content, ReadReply::Content { .. } | ReadReply::Refused(_)) => true,
        (ExpectedReply::Existence, ReadReply::Found(_) | ReadReply::Refused(_)) => true,
        (ExpectedReply::Children, ReadReply::Children { .. } | ReadReply::Refused(_)) => true,
        (ExpectedReply::Acl, ReadReply::AclIs { .. } | ReadReply::Refused(_)) => true,
        _ => false,
    }
}

/// Appends that the server has caught up, or nothing if another reply is expected.
pub fn push_caught(page: &mut String, wish: &ExpectedReply) -> Result<bool, NoMemory>
    ensures { Tells (caught_text wish.now) result (string_bytes page.old) (string_bytes page.new) }
{
    match wish {
        ExpectedReply::Caught { path } => push_ok_path(page, path),
        _ => Ok(false),
    }
}
