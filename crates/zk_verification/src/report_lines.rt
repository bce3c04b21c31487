//! The lines of transactions that are lost, and of what digests show.
ghost use Rattle.std.specs.Prelude.{◌≡◌, ◌++◌, IfOk, OnOk, Some};
ghost use Rattle.std.specs.String.{string_bytes};
ghost use Rattle.zk_json.specs.Times.{IsTimeText};
ghost use Rattle.zk_verification.specs.Reports.{AppendsMark, AppendsRange, IsFactsText, IsTimeBy, epoch_text, facts_text, joint_text, joint_word, mismatch_text, path_text, place_text, range_text, stop_word, zxid_text};
ghost use Rattle.zk_verification.specs.declared.mark.Mark.TheVariants as marks;

use crate::mark::{Damage, Facts, Mismatch, Moment};
use std::alloc::Global;
use zk_directory::{Joint, LogFileFault};
use zk_directory_state::push_log_name;
use zk_format::{push_id, push_quoted};
use zk_json::push_time;
use zk_log::Ending;
use zk_path::{NoMemory, Path};

/// The text of a time, in milliseconds since 1970.
pub fn time_text(alloc: Global, time: i64) -> Result<String, NoMemory>
    ensures { IfOk result (λ text. IsTimeText time (string_bytes text)) }
{
    let mut text = String::new(alloc);
    push_time(&mut text, time)?;
    Ok(text)
}

/// The text of the time of a transaction, if there is one.
fn time_by(alloc: Global, moment: Option<Moment>) -> Result<String, NoMemory>
    ensures { IfOk result (λ text. IsTimeBy moment (string_bytes text)) }
{
    match moment {
        Some(moment) => time_text(alloc, moment.time),
        None => Ok(String::from_str(alloc, "-")?),
    }
}

/// Appends the line of a place of a log that lost transactions.
pub(crate) fn push_lost(text: &mut String, damage: &Damage) -> Result<(), NoMemory>
    ensures { OnOk result (AppendsMark (marks.Lost damage.now) (string_bytes text.old) (string_bytes text.new)) }
{
    push_place(text, damage)?;
    push_range(text, damage.before, &damage.after)
}

/// Appends the line of transactions that are in no log.
pub(crate) fn push_gap(
    text: &mut String,
    before: Option<Moment>,
    after: &Moment,
) -> Result<(), NoMemory>
    ensures { OnOk result (AppendsMark (marks.Gap before after.now) (string_bytes text.old) (string_bytes text.new)) }
{
    text.push_str("zk: D3 ")?;
    push_range(text, before, after)
}

/// Appends the transactions before and after those that are lost, with their times, and ends the
/// line.
pub fn push_range(text: &mut String, before: Option<Moment>, after: &Moment) -> Result<(), NoMemory>
    ensures { OnOk result (AppendsRange before after.now (string_bytes text.old) (string_bytes text.new)) }
{
    let alloc = *text.allocator();
    let time = time_by(alloc, before)?;
    let next = time_text(alloc, after.time)?;
    push_moments(text, before, after, time.as_str(), next.as_str())
}

#[tactic(auto, unfolding(crate::specs::Reports::range_text))]
fn push_moments(
    text: &mut String,
    before: Option<Moment>,
    after: &Moment,
    time: &str,
    next: &str,
) -> Result<(), NoMemory>
    ensures { OnOk result (string_bytes text.new ≡ string_bytes text.old ++ range_text before after.now time.now next.now) }
{
    push_zxid(text, before)?;
    text.push_str(" ")?;
    push_id(text, after.zxid)?;
    text.push_str(" ")?;
    text.push_str(time)?;
    text.push_str(" ")?;
    text.push_str(next)?;
    text.push_str("\n")?;
    Ok(())
}

fn push_zxid(text: &mut String, moment: Option<Moment>) -> Result<(), NoMemory>
    ensures { OnOk result (string_bytes text.new ≡ string_bytes text.old ++ zxid_text moment) }
{
    match moment {
        Some(moment) => push_id(text, moment.zxid),
        None => {
            text.push_str("-")?;
            Ok(())
        }
    }
}

/// Appends the log, why a server stops there, and the bytes that hold no entry.
#[tactic(auto, unfolding(crate::specs::Reports::place_text))]
fn push_place(text: &mut String, damage: &Damage) -> Result<(), NoMemory>
    ensures { OnOk result (string_bytes text.new ≡ string_bytes text.old ++ place_text damage.now) }
{
    text.push_str("lost ")?;
    push_log_name(text, damage.log)?;
    text.push_str(" ")?;
    text.push_str(stop_word(damage.stop))?;
    let at = damage.at;
    let to = damage.to;
    write!(text, " {at} {to} ")?;
    Ok(())
}

/// Why a server reads a log no further.
pub fn stop_word(stop: Result<Ending, LogFileFault>) -> &'static str
    ensures { result.now ≡ stop_word stop }
{
    match stop {
        Ok(Ending::Whole) => "whole",
        Ok(Ending::Padding) => "padding",
        Ok(Ending::Torn(_)) => "torn",
        Err(LogFileFault::Header) => "G1",
        Err(LogFileFault::Checksum(_)) => "G2",
        Err(LogFileFault::Record(_)) => "G3",
        Err(LogFileFault::Order(_)) => "G4",
        Err(LogFileFault::TooLong(_)) => "G5",
    }
}

/// Appends the line of a place at which an epoch follows another.
pub(crate) fn push_joint(text: &mut String, joint: &Joint, is_missing: bool) -> Result<(), NoMemory>
    ensures { OnOk result (string_bytes text.new ≡ string_bytes text.old ++ joint_text joint.now is_missing) }
{
    text.push_str(joint_word(is_missing))?;
    push_epoch(text, joint)
}

/// Appends the last transaction of an epoch and the first of the next one.
#[tactic(auto, unfolding(crate::specs::Reports::epoch_text))]
fn push_epoch(text: &mut String, joint: &Joint) -> Result<(), NoMemory>
    ensures { OnOk result (string_bytes text.new ≡ string_bytes text.old ++ epoch_text joint.now) }
{
    push_id(text, joint.last)?;
    text.push_str(" ")?;
    push_id(text, joint.next)?;
    text.push_str("\n")?;
    Ok(())
}

fn joint_word(is_missing: bool) -> &'static str
    ensures { result.now ≡ joint_word is_missing }
{
    if is_missing { "missing " } else { "unproved " }
}

/// Appends the line of a digest that is not that of its tree.
pub(crate) fn push_mismatch(text: &mut String, mismatch: &Mismatch) -> Result<(), NoMemory>
    ensures { OnOk result (AppendsMark (marks.Digest mismatch.now) (string_bytes text.old) (string_bytes text.new)) }
{
    let facts = facts_by(*text.allocator(), &mismatch.facts)?;
    push_record(text, mismatch.zxid, facts.as_str())
}

#[tactic(auto, unfolding(crate::specs::Reports::mismatch_text))]
fn push_record(text: &mut String, zxid: i64, facts: &str) -> Result<(), NoMemory>
    ensures { OnOk result (string_bytes text.new ≡ string_bytes text.old ++ mismatch_text zxid facts.now) }
{
    text.push_str("otherDigest ")?;
    push_id(text, zxid)?;
    text.push_str(facts)?;
    text.push_str("\n")?;
    Ok(())
}

/// What a record says of its transaction, if it is known.
fn facts_by(alloc: Global, facts: &Option<Facts>) -> Result<String, NoMemory>
    ensures { IfOk result (λ text. IsFactsText facts.now (string_bytes text)) }
{
    match facts {
        Some(facts) => facts_in(alloc, facts),
        None => Ok(String::new(alloc)),
    }
}

fn facts_in(alloc: Global, facts: &Facts) -> Result<String, NoMemory>
    ensures { IfOk result (λ text. IsFactsText (Some facts.now) (string_bytes text)) }
{
    let time = time_text(alloc, facts.time)?;
    facts_with(alloc, facts, time.as_str())
}

#[tactic(auto, unfolding(crate::specs::Reports::facts_text))]
fn facts_with(alloc: Global, facts: &Facts, time: &str) -> Result<String, NoMemory>
    ensures { IfOk result (λ text. string_bytes text ≡ facts_text facts.now time.now) }
{
    let mut text = String::from_str(alloc, " ")?;
    text.push_str(time)?;
    text.push_str(" ")?;
    push_id(&mut text, facts.session)?;
    push_path(&mut text, &facts.path)?;
    Ok(text)
}

fn push_path(text: &mut String, path: &Option<Path>) -> Result<(), NoMemory>
    ensures { OnOk result (string_bytes text.new ≡ string_bytes text.old ++ path_text path.now) }
{
    if let Some(path) = path {
        text.push_str(" ")?;
        push_quoted(text, path.text())?;
    }
    Ok(())
}
