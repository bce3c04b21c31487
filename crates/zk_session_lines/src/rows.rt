//! The lines of sessions.
ghost use Rattle.std.specs.Prelude.{◌≡◌, ◌++◌, ◌∷◌, [], IfOk, OnOk, codes};
ghost use Rattle.std.specs.String.{string_bytes};
ghost use Rattle.zk_format.specs.Spelling.{id_digits};
ghost use Rattle.zk_session_lines.specs.Appending.{Appends, Each, Is, Then};
ghost use Rattle.zk_session_lines.specs.Rows.{AreRows, IsEnding, IsFacts, IsFormedRow, IsMoment, IsOpening, IsRow, IsSpacedTime, counts_text, end_word, timeout_text};

use crate::line_form::LineForm;
use crate::record_line::push_next_id;
use crate::row_objects::push_row_object;
use std::alloc::Global;
use zk_format::push_id;
use zk_json::push_time;
use zk_path::NoMemory;
use zk_sessions::{Ending, Lives, Moment, Session};

fn push_space(text: &mut String) -> Result<(), NoMemory>
    ensures { OnOk result (string_bytes text.new ≡ string_bytes text.old ++ 32 ∷ []) }
{
    text.push(' ')?;
    Ok(())
}

#[tactic(auto, using(crate::proofs::Rowed::time_spaced))]
fn push_spaced_time(text: &mut String, time: i64) -> Result<(), NoMemory>
    ensures { OnOk result (Appends (IsSpacedTime time) (string_bytes text.old) (string_bytes text.new)) }
{
    push_space(text)?;
    push_time(text, time)
}

/// Appends a space, the time of a transaction in UTC, a space and its zxid.
fn push_moment(text: &mut String, moment: Moment) -> Result<(), NoMemory>
    ensures { OnOk result (Appends (IsMoment moment) (string_bytes text.old) (string_bytes text.new)) }
{
    push_spaced_time(text, moment.time)?;
    push_next_id(text, moment.zxid)
}

fn push_words(text: &mut String, words: &str) -> Result<(), NoMemory>
    ensures { OnOk result (string_bytes text.new ≡ string_bytes text.old ++ words.now) }
{
    text.push_str(words)?;
    Ok(())
}

/// Appends words and a transaction.
#[tactic(auto, using(crate::proofs::Rowed::worded))]
fn push_worded(text: &mut String, words: &str, moment: Moment) -> Result<(), NoMemory>
    ensures { OnOk result (Appends (Then (Is words.now) (IsMoment moment)) (string_bytes text.old) (string_bytes text.new)) }
{
    push_words(text, words)?;
    push_moment(text, moment)
}

#[tactic(auto, using(crate::proofs::Rowed::fixed_ok))]
fn push_opening(text: &mut String, opened: Option<Moment>) -> Result<(), NoMemory>
    ensures { OnOk result (Appends (IsOpening opened) (string_bytes text.old) (string_bytes text.new)) }
{
    match opened {
        None => push_words(text, " opened unknown"),
        Some(moment) => push_worded(text, " opened", moment),
    }
}

fn end_word(expired: bool) -> &'static str
    ensures { result.now ≡ end_word expired }
{
    if expired { " expired" } else { " closed" }
}

#[tactic(auto, using(crate::proofs::Rowed::fixed_ok))]
fn push_ending(text: &mut String, ended: Option<Ending>) -> Result<(), NoMemory>
    ensures { OnOk result (Appends (IsEnding ended) (string_bytes text.old) (string_bytes text.new)) }
{
    match ended {
        None => push_words(text, " open"),
        Some(ending) => push_worded(text, end_word(ending.expired), ending.moment),
    }
}

fn push_timeout(text: &mut String, timeout: Option<i32>) -> Result<(), NoMemory>
    ensures { OnOk result (string_bytes text.new ≡ string_bytes text.old ++ timeout_text timeout) }
{
    match timeout {
        None => text.push_str(" timeout unknown")?,
        Some(timeout) => write!(text, " timeout {timeout}")?,
    }
    Ok(())
}

#[tactic(auto, unfolding(crate::specs::Rows::counts_text))]
fn push_counts(text: &mut String, life: Session) -> Result<(), NoMemory>
    ensures { OnOk result (string_bytes text.new ≡ string_bytes text.old ++ counts_text life) }
{
    let Session {
        writes,
        created,
        deleted,
        left,
        ..
    } = life;
    write!(
        text,
        " writes {writes} created {created} deleted {deleted} left {left}"
    )?;
    Ok(())
}

/// Appends what is known of a session.
#[tactic(auto, using(crate::proofs::Rowed::facts_shown))]
fn push_facts(text: &mut String, life: Session) -> Result<(), NoMemory>
    ensures { OnOk result (Appends (IsFacts life) (string_bytes text.old) (string_bytes text.new)) }
{
    push_opening(text, life.opened)?;
    push_timeout(text, life.timeout)?;
    push_counts(text, life)?;
    push_ending(text, life.ended)
}

fn push_newline(text: &mut String) -> Result<(), NoMemory>
    ensures { OnOk result (string_bytes text.new ≡ string_bytes text.old ++ 10 ∷ []) }
{
    text.push('\n')?;
    Ok(())
}

fn push_session(text: &mut String, session: i64) -> Result<(), NoMemory>
    ensures { OnOk result (string_bytes text.new ≡ string_bytes text.old ++ id_digits session) }
{
    push_id(text, session)
}

/// Appends the line of a session.
#[tactic(auto, using(crate::proofs::Rowed::row_shown))]
fn push_row(text: &mut String, session: i64, life: Session) -> Result<(), NoMemory>
    ensures { OnOk result (Appends (IsRow (session, life)) (string_bytes text.old) (string_bytes text.new)) }
{
    push_session(text, session)?;
    push_facts(text, life)?;
    push_newline(text)
}

/// Appends the line of a session, in a form.
pub fn push_formed_row(
    text: &mut String,
    form: LineForm,
    session: i64,
    life: Session,
) -> Result<(), NoMemory>
    ensures { OnOk result (Appends (IsFormedRow form (session, life)) (string_bytes text.old) (string_bytes text.new)) }
{
    match form {
        LineForm::Text => push_row(text, session, life),
        LineForm::Json => push_row_object(text, session, life),
    }
}

fn push_entry(text: &mut String, form: LineForm, entry: &(i64, Session)) -> Result<(), NoMemory>
    ensures { OnOk result (Appends (IsFormedRow form entry.now) (string_bytes text.old) (string_bytes text.new)) }
{
    let (session, life) = *entry;
    push_formed_row(text, form, session, life)
}

#[tactic(auto, using(crate::proofs::Appended::each_begun))]
fn push_entries(
    text: &mut String,
    form: LineForm,
    entries: &[(i64, Session)],
) -> Result<(), NoMemory>
    ensures { OnOk result (Appends (Each (IsFormedRow form) entries.now) (string_bytes text.old) (string_bytes text.new)) }
{
    for entry in entries {
        push_entry(text, form, entry)?;
    }
    Ok(())
}

/// A line for each session, in the order of their numbers.
#[tactic(auto, using(crate::proofs::Lifed::rows_whole))]
pub fn rows_text(alloc: Global, form: LineForm, lives: &Lives) -> Result<String, NoMemory>
    ensures { IfOk result (λ text. AreRows form lives.now (string_bytes text)) }
{
    let entries = lives.entries()?;
    let mut text = String::new(alloc);
    push_entries(&mut text, form, entries.as_slice())?;
    Ok(text)
}
