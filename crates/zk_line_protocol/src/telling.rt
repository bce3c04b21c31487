//! Writes replies: each is a line, and each event a line before it.

ghost use Rattle.std.specs.Prelude.{◌≡◌, ◌++◌, OnOk, MatchResult, IfOk};
ghost use Rattle.std.specs.String.{string_bytes};
ghost use Rattle.std.specs.List.{flat_map};
ghost use Rattle.std.specs.Option.{is_some};
ghost use Rattle.zk_line_protocol.specs.Answers.{said_line, event_line, reply_text, answer_line};
ghost use Rattle.zk_line_protocol.specs.Appending.{Tells};

use crate::ask::Immediate;
use crate::told::Reply;
use crate::{ExpectedReply, push_caught, push_event, push_looked, push_wrote};
use zk_machine::Change;
use zk_path::NoMemory;
use zk_request_syntax::push_refusal;

/// Appends an immediate reply.
pub fn push_saying(page: &mut String, saying: Immediate) -> Result<(), NoMemory>
    ensures { OnOk result (string_bytes page.new ≡ string_bytes page.old ++ said_line saying) }
{
    match saying {
        Immediate::Nothing => Ok(()),
        Immediate::Done => Ok(page.push_str("ok\n")?),
        Immediate::Well => Ok(page.push_str("imok\n")?),
        Immediate::Refused(code) => {
            push_refusal(page, code)?;
            Ok(page.push('\n')?)
        }
    }
}

/// Appends events, a line each.
pub(crate) fn push_events(page: &mut String, events: &[Change]) -> Result<(), NoMemory>
    ensures { OnOk result (string_bytes page.new ≡ string_bytes page.old ++ flat_map event_line events.now) }
{
    for event in events {
        push_event_line(page, event)?;
    }
    Ok(())
}

fn push_event_line(page: &mut String, event: &Change) -> Result<(), NoMemory>
    ensures { OnOk result (string_bytes page.new ≡ string_bytes page.old ++ event_line event.now) }
{
    push_event(page, event.kind, &event.path)?;
    Ok(page.push('\n')?)
}

/// Appends the reply, and returns whether it is of the expected kind. Otherwise it appends `err
/// server`.
#[tactic(auto, using(crate::proofs::AnswerLaws::fitting, crate::proofs::AnswerLaws::unfitting))]
pub(crate) fn push_answer(
    page: &mut String,
    wish: &ExpectedReply,
    reply: &Reply,
) -> Result<bool, NoMemory>
    ensures fits { IfOk result (λ fits. fits ≡ is_some (reply_text wish.now reply.now)) }
    ensures page { OnOk result (string_bytes page.new ≡ string_bytes page.old ++ answer_line (reply_text wish.now reply.now)) }
{
    if push_reply_text(page, wish, reply)? {
        page.push('\n')?;
        return Ok(true);
    }
    page.push_str("err server\n")?;
    Ok(false)
}

fn push_reply_text(page: &mut String, wish: &ExpectedReply, reply: &Reply) -> Result<bool, NoMemory>
    ensures { Tells (reply_text wish.now reply.now) result (string_bytes page.old) (string_bytes page.new) }
{
    match reply {
        Reply::Wrote(answer) => push_wrote(page, wish, answer),
        Reply::Looked { reply, .. } => push_looked(page, wish, reply),
        Reply::Caught => push_caught(page, wish),
    }
}
