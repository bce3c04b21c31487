//! The lines of a state: the tree, and how it was found.
ghost use Rattle.std.specs.Prelude.{◌≡◌, IfOk, OnOk};
ghost use Rattle.std.specs.String.{string_bytes};
ghost use Rattle.std.specs.Fmt.{signed_decimal};
ghost use Rattle.json.specs.Json.{string};
ghost use Rattle.zk_json.specs.Json.{AppendsLineOf, object_of};
ghost use Rattle.zk_json.specs.Objects.{value_of};
ghost use Rattle.zk_json_commands.specs.Lines.{AppendsLines};
ghost use Rattle.zk_json_commands.specs.States.{AppendsPassed, AppendsTree, AreStateLines, IsPassedLine, IsSessionLine, base_fields, digest_fields, ending_fields, origin_fields, passed_fields, session_fields, timeout_by, zxid_fields};

use crate::marks::{end_of, id_or_null, name_of_snapshot, torn_of};
use crate::node_lines::push_entries;
use std::alloc::Global;
use zk_directory_state::{Broken, Origin, Shown, passed_word};
use zk_fold::Fold;
use zk_json::{Value, push_object_line};
use zk_log::Ending;
use zk_path::NoMemory;
use zk_replay::{DigestCount, Exact};

/// Appends the line of the last transaction.
fn push_zxid(text: &mut String, zxid: i64) -> Result<(), NoMemory>
    ensures { OnOk result (AppendsLineOf (object_of (zxid_fields zxid)) (string_bytes text.old) (string_bytes text.new)) }
{
    push_object_line(text, &[("zxid", Value::Id(zxid))])
}

/// The text of a timeout below 0, which no server grants.
fn timeout_text(alloc: Global, timeout: i32) -> Result<String, NoMemory>
    ensures { IfOk result (λ text. string_bytes text ≡ signed_decimal timeout) }
{
    let mut text = String::new(alloc);
    write!(text, "{timeout}")?;
    Ok(text)
}

fn timeout_by(timeout: i32, text: &str) -> Value<'_>
    ensures { value_of result ≡ timeout_by timeout text.now }
{
    match u64::try_from(timeout) {
        Ok(timeout) => Value::Count(timeout),
        Err(_) => Value::Text(text),
    }
}

/// Appends the line of an open session.
#[tactic(auto, using(crate::proofs::StateLines::timed))]
fn push_session(text: &mut String, session: &(u64, i32)) -> Result<(), NoMemory>
    ensures { OnOk result (AppendsLineOf (object_of (session_fields session.now)) (string_bytes text.old) (string_bytes text.new)) }
{
    let (id, timeout) = *session;
    let words = timeout_text(*text.allocator(), timeout)?;
    let fields = [
        ("session", Value::Id(id.cast_signed())),
        ("timeout", timeout_by(timeout, words.as_str())),
    ];
    push_object_line(text, &fields)
}

/// Appends the lines of the open sessions.
#[tactic(auto, using(crate::proofs::StateLines::no_session, crate::proofs::StateLines::all_sessions))]
fn push_sessions(text: &mut String, sessions: &[(u64, i32)]) -> Result<(), NoMemory>
    ensures { OnOk result (AppendsLines IsSessionLine sessions.now (string_bytes text.old) (string_bytes text.new)) }
{
    for session in sessions {
        push_session(text, session)?;
    }
    Ok(())
}

/// Appends the lines of a tree: its last transaction, the open sessions, and the nodes in order of
/// path.
pub(crate) fn push_tree(text: &mut String, table: &Fold) -> Result<(), NoMemory>
    ensures { OnOk result (AppendsTree table.now.state (string_bytes text.old) (string_bytes text.new)) }
{
    let entries = table.entries()?;
    let sessions = table.sessions()?;
    push_zxid(text, table.last())?;
    push_sessions(text, sessions.as_slice())?;
    push_entries(text, entries.as_slice())
}

/// Appends the line of the snapshot of this name.
fn push_base(text: &mut String, name: &str, exact: Exact) -> Result<(), NoMemory>
    ensures { OnOk result (AppendsLineOf (object_of (base_fields (string name.now) exact)) (string_bytes text.old) (string_bytes text.new)) }
{
    let fields = [
        ("base", Value::Text(name)),
        ("exact", Value::Id(exact.zxid)),
        ("orLater", Value::Flag(!exact.is_told)),
    ];
    push_object_line(text, &fields)
}

/// Appends the line of the snapshot that a state begins at, or of the empty tree.
fn push_origin(text: &mut String, origin: Option<Origin>) -> Result<(), NoMemory>
    ensures { OnOk result (AppendsLineOf (object_of (origin_fields origin)) (string_bytes text.old) (string_bytes text.new)) }
{
    match origin {
        Some(origin) => {
            let name = name_of_snapshot(*text.allocator(), origin.zxid)?;
            push_base(text, name.as_str(), origin.exact)
        }
        None => push_object_line(text, &[("base", Value::Null)]),
    }
}

/// Appends the line of a snapshot that was passed over.
fn push_passed(text: &mut String, broken: &Broken) -> Result<(), NoMemory>
    ensures { OnOk result (AppendsPassed broken.now (string_bytes text.old) (string_bytes text.new)) }
{
    let name = name_of_snapshot(*text.allocator(), broken.zxid)?;
    push_passed_of(text, name.as_str(), passed_word(broken.fault))
}

/// Appends the line of a snapshot of this name with this fault.
fn push_passed_of<'a>(text: &mut String, name: &'a str, fault: &'a str) -> Result<(), NoMemory>
    ensures { OnOk result (AppendsLineOf (object_of (passed_fields (string name.now) fault.now)) (string_bytes text.old) (string_bytes text.new)) }
{
    let fields = [("passed", Value::Text(name)), ("fault", Value::Text(fault))];
    push_object_line(text, &fields)
}

/// Appends the lines of the snapshots that were passed over.
#[tactic(auto, using(crate::proofs::StateLines::none_passed, crate::proofs::StateLines::all_passed))]
fn push_all_passed(text: &mut String, passed: &[Broken]) -> Result<(), NoMemory>
    ensures { OnOk result (AppendsLines IsPassedLine passed.now (string_bytes text.old) (string_bytes text.new)) }
{
    for broken in passed {
        push_passed(text, broken)?;
    }
    Ok(())
}

/// Appends the line of the digests.
fn push_digests(text: &mut String, digests: DigestCount) -> Result<(), NoMemory>
    ensures { OnOk result (AppendsLineOf (object_of (digest_fields digests)) (string_bytes text.old) (string_bytes text.new)) }
{
    let fields = [
        ("digest", Value::Count(digests.equal)),
        ("otherDigest", Value::Count(digests.other)),
        ("otherFrom", id_or_null(digests.first)),
    ];
    push_object_line(text, &fields)
}

/// Appends the line of the end of the last log.
pub(crate) fn push_ending(text: &mut String, ending: Option<Ending>) -> Result<(), NoMemory>
    ensures { OnOk result (AppendsLineOf (object_of (ending_fields ending)) (string_bytes text.old) (string_bytes text.new)) }
{
    let fields = [("end", end_of(ending)), ("tornAt", torn_of(ending))];
    push_object_line(text, &fields)
}

/// The lines of the state that a data directory holds.
#[tactic(auto, using(crate::proofs::StateLines::state_told))]
pub(crate) fn state_lines(alloc: Global, shown: &Shown) -> Result<String, NoMemory>
    ensures { IfOk result (λ text. AreStateLines shown.now (string_bytes text)) }
{
    let mut text = String::new(alloc);
    push_tree(&mut text, &shown.restored.table)?;
    push_origin(&mut text, shown.origin)?;
    push_all_passed(&mut text, shown.broken.as_slice())?;
    push_digests(&mut text, shown.restored.digests)?;
    push_ending(&mut text, shown.restored.ending)?;
    Ok(text)
}
