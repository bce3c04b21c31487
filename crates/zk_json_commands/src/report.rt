//! The lines of a report on a data directory.
ghost use Rattle.std.specs.Prelude.{IfOk, OnOk};
ghost use Rattle.std.specs.String.{string_bytes};
ghost use Rattle.zk_json.specs.Json.{AppendsLineOf, object_of};
ghost use Rattle.zk_json_commands.specs.Verifications.{AppendsHelp, AppendsHelps, AppendsMarks, IsReport, verdict_fields};

use crate::fault_text::help_words;
use crate::marks::push_mark;
use std::alloc::Global;
use zk_json::{Value, push_object_line};
use zk_path::NoMemory;
use zk_verification::{KINDS, Kind, Mark, count_wrong, has_kind};

/// Appends the lines of marks.
#[tactic(auto, using(crate::proofs::WrittenReports::none_marked, crate::proofs::WrittenReports::all_marked))]
fn push_marks(text: &mut String, marks: &[Mark]) -> Result<(), NoMemory>
    ensures { OnOk result (AppendsMarks marks.now (string_bytes text.old) (string_bytes text.new)) }
{
    for mark in marks {
        push_mark(text, mark)?;
    }
    Ok(())
}

/// Appends what helps against faults of this kind, if there are any.
#[tactic(auto, using(crate::proofs::WrittenReports::helped, crate::proofs::WrittenReports::not_helped))]
fn push_help(text: &mut String, marks: &[Mark], kind: Kind) -> Result<(), NoMemory>
    ensures { OnOk result (AppendsHelp marks.now kind (string_bytes text.old) (string_bytes text.new)) }
{
    if has_kind(kind, marks) {
        push_object_line(text, &[("help", Value::Text(help_words(kind)))])?;
    }
    Ok(())
}

/// Appends what helps against faults of these kinds.
#[tactic(auto, using(crate::proofs::WrittenReports::none_helped, crate::proofs::WrittenReports::all_helped))]
fn push_helps(text: &mut String, marks: &[Mark], kinds: &[Kind]) -> Result<(), NoMemory>
    ensures { OnOk result (AppendsHelps marks.now kinds.now (string_bytes text.old) (string_bytes text.new)) }
{
    for kind in kinds {
        push_help(text, marks, *kind)?;
    }
    Ok(())
}

/// Appends the last line: how many marks say that something is wrong.
fn push_verdict(text: &mut String, wrong: usize) -> Result<(), NoMemory>
    ensures { OnOk result (AppendsLineOf (object_of (verdict_fields wrong)) (string_bytes text.old) (string_bytes text.new)) }
{
    push_object_line(text, &[("wrong", Value::Count(wrong as u64))])
}

/// The report: an object for each mark, for each help, and for the verdict.
#[tactic(auto, using(crate::proofs::WrittenReports::reported))]
pub(crate) fn report_lines(alloc: Global, marks: &[Mark]) -> Result<String, NoMemory>
    ensures { IfOk result (λ text. IsReport marks.now (string_bytes text)) }
{
    let mut text = String::new(alloc);
    push_marks(&mut text, marks)?;
    push_helps(&mut text, marks, &KINDS)?;
    push_verdict(&mut text, count_wrong(marks))?;
    Ok(text)
}
