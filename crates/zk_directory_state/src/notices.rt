//! The notices on a state that rests on something that the files do not show.
ghost use Rattle.std.specs.Prelude.{◌≡◌, ◌-◌, ◌<◌, ◌++◌, ◌^◌, IfOk, OnOk, Ok, codes};
ghost use Rattle.std.specs.List.{flat_map};
ghost use Rattle.std.specs.String.{string_bytes};
ghost use Rattle.zk_directory_state.specs.Notices.{OutputsNoticed, OutputsWith, TellsNotices, digest_notice, ends_line, ends_notice, joint_line, line_of, notices_of};
ghost use Rattle.zk_format.specs.Spelling.{id_digits};
ghost use Rattle.zk_records.specs.Sinks.{write_failures_of};

use crate::evidence::{unproved, zxid_or_none};
use crate::report::push_other;
use crate::upto::Upto;
use crate::{HistoryFault, Restored, tell_fault};
use std::alloc::Global;
use std::io::Write;
use zk_directory::Joint;
use zk_format::push_id;
use zk_log::Sink;
use zk_log_commands::tell;
use zk_path::NoMemory;
use zk_replay::DigestCount;

/// A text, and the notices on the states that it is of.
#[derive(Drop)]
pub struct Noticed {
    pub text: String,
    pub notices: String,
}

/// Appends a word and a zxid.
fn push_zxid(text: &mut String, word: &str, zxid: i64) -> Result<(), NoMemory>
    ensures { OnOk result (string_bytes text.new ≡ string_bytes text.old ++ (word.now ++ id_digits zxid)) }
{
    text.push_str(word)?;
    push_id(text, zxid)
}

/// Appends a space, a zxid, and the end of a line.
fn push_last_zxid(text: &mut String, zxid: i64) -> Result<(), NoMemory>
    ensures { OnOk result (string_bytes text.new ≡ string_bytes text.old ++ (codes " " ++ id_digits zxid ++ codes "\n")) }
{
    push_zxid(text, " ", zxid)?;
    text.push_str("\n")?;
    Ok(())
}

/// Appends the line of a state that is wholly a snapshot's.
#[tactic(auto, unfolding(crate::specs::Notices::ends_line))]
fn push_ends_line(text: &mut String, zxid: i64) -> Result<(), NoMemory>
    ensures { OnOk result (string_bytes text.new ≡ string_bytes text.old ++ ends_line zxid) }
{
    push_zxid(text, "zk: ends ", zxid)?;
    text.push_str("\n")?;
    Ok(())
}

/// Appends the notice on a last state that is wholly a snapshot's.
fn push_ends(text: &mut String, upto: Upto, restored: &Restored) -> Result<(), NoMemory>
    ensures { OnOk result (string_bytes text.new ≡ string_bytes text.old ++ ends_notice upto restored.now restored.now.time) }
{
    match (upto, restored.time) {
        (Upto::Last, None) => push_ends_line(text, zxid_or_none(restored.position)),
        _ => Ok(()),
    }
}

/// Appends the line of an epoch whose end is not proved.
fn push_joint_line(text: &mut String, last: i64, next: i64) -> Result<(), NoMemory>
    ensures { OnOk result (string_bytes text.new ≡ string_bytes text.old ++ joint_line last next) }
{
    push_zxid(text, "zk: unproved ", last)?;
    push_last_zxid(text, next)?;
    Ok(())
}

fn push_joint(text: &mut String, joint: &Joint) -> Result<(), NoMemory>
    ensures { OnOk result (string_bytes text.new ≡ string_bytes text.old ++ line_of joint.now) }
{
    push_joint_line(text, joint.last, joint.next)
}

/// Appends the lines of epochs whose ends are not proved.
fn push_joints(text: &mut String, joints: &[Joint]) -> Result<(), NoMemory>
    ensures { OnOk result (string_bytes text.new ≡ string_bytes text.old ++ flat_map line_of joints.now) }
{
    for joint in joints {
        push_joint(text, joint)?;
    }
    Ok(())
}

/// Appends the notice on digests that are not those of the trees.
fn push_digests(text: &mut String, count: DigestCount) -> Result<(), NoMemory>
    ensures { OnOk result (string_bytes text.new ≡ string_bytes text.old ++ digest_notice count.other count.first) }
{
    if count.first.is_none() {
        return Ok(());
    }
    text.push_str("zk: ")?;
    push_other(text, count.other, count.first)
}

/// The notices on a state that was asked for.
pub fn notices_text(alloc: Global, upto: Upto, restored: &Restored) -> Result<String, NoMemory>
    ensures { IfOk result (λ text. string_bytes text ≡ notices_of upto restored.now) }
{
    let joints = unproved(alloc, upto, restored)?;
    let mut text = String::new(alloc);
    push_ends(&mut text, upto, restored)?;
    push_joints(&mut text, joints.as_slice())?;
    push_digests(&mut text, restored.digests)?;
    Ok(text)
}

/// Writes notices, if there are any.
fn tell_notices<E: Write>(notices: &str, faults: &mut Sink<E>)
    requires { write_failures_of faults.old < 2 ^ 64 - 1 }
    ensures { TellsNotices E.contents notices.now faults.old faults.new }
{
    if !notices.is_empty() {
        tell(faults, notices);
    }
}

/// Writes a text, and then the notices on it. Returns the exit status.
pub fn put_with_notices<O: Write, E: Write>(
    text: &str,
    notices: &str,
    output: &mut Sink<O>,
    faults: &mut Sink<E>,
) -> u8
    requires output { write_failures_of output.old < 2 ^ 64 - 1 }
    requires faults { write_failures_of faults.old < 2 ^ 64 - 1 }
    ensures { OutputsWith O.contents E.contents text.now notices.now output.old output.new faults.old faults.new (Ok result) }
{
    match output.write_all(text.as_bytes()) {
        Ok(()) => {
            tell_notices(notices, faults);
            0
        }
        Err(_) => {
            tell(faults, "zk: write\n");
            1
        }
    }
}

/// Writes a text, and then the notices on it; or the line of the fault in their place. Returns the exit
/// status.
pub fn put_noticed<O: Write, E: Write>(
    alloc: Global,
    answer: Result<Noticed, HistoryFault>,
    output: &mut Sink<O>,
    faults: &mut Sink<E>,
) -> Result<u8, NoMemory>
    requires output { write_failures_of output.old < 2 ^ 64 - 1 }
    requires faults { write_failures_of faults.old < 2 ^ 64 - 1 }
    ensures { OutputsNoticed O.contents E.contents answer output.old output.new faults.old faults.new result }
{
    match answer {
        Ok(Noticed { text, notices }) => Ok(put_with_notices(
            text.as_str(),
            notices.as_str(),
            output,
            faults,
        )),
        Err(fault) => tell_fault(alloc, &fault, faults),
    }
}
