//! Fields of lines. After an error, a part may be left.
ghost use Rattle.std.specs.Prelude.{◌≡◌, ◌++◌, ◌∷◌, ◌<◌, codes, OnOk};
ghost use Rattle.std.specs.Fmt.{decimal, signed_decimal};
ghost use Rattle.std.specs.List.{list_all};
ghost use Rattle.std.specs.String.{string_bytes};
ghost use Rattle.zk_format.specs.Spelling.{id_digits, quoted};
ghost use Rattle.zk_request_syntax.specs.RequestLines.{flag_text, id_text};
ghost use Rattle.zk_run_script.specs.Lines.{are_digests, are_flags, ids_text, is_counted, is_digest, is_ephemeral, is_sequential};

use zk_acl::{Acls, Id, Ids};
use zk_format::{push_id, push_quoted};
use zk_path::NoMemory;

/// Appends a space and a number without a sign.
pub(crate) fn spell_number(line: &mut String, number: u64) -> Result<(), NoMemory>
    ensures { OnOk result (string_bytes line.new ≡ string_bytes line.old ++ 32 ∷ decimal number) }
{
    write!(line, " {number}")?;
    Ok(())
}

/// Appends a space and a number.
pub(crate) fn spell_int(line: &mut String, number: i64) -> Result<(), NoMemory>
    ensures { OnOk result (string_bytes line.new ≡ string_bytes line.old ++ 32 ∷ signed_decimal number) }
{
    write!(line, " {number}")?;
    Ok(())
}

/// Appends a space and the number of a transaction or a session.
pub(crate) fn spell_id(line: &mut String, id: i64) -> Result<(), NoMemory>
    ensures { OnOk result (string_bytes line.new ≡ string_bytes line.old ++ 32 ∷ id_digits id) }
{
    line.push(' ')?;
    push_id(line, id)
}

/// Appends a space and a text between quotes.
pub(crate) fn spell_text(line: &mut String, text: &str) -> Result<(), NoMemory>
    ensures { OnOk result (string_bytes line.new ≡ string_bytes line.old ++ 32 ∷ quoted text.now) }
{
    line.push(' ')?;
    push_quoted(line, text)
}

/// Appends a space and a word, or nothing.
pub(crate) fn spell_flag(line: &mut String, is_set: bool, word: &str) -> Result<(), NoMemory>
    ensures { OnOk result (string_bytes line.new ≡ string_bytes line.old ++ flag_text is_set word.now) }
{
    if is_set {
        line.push(' ')?;
        line.push_str(word)?;
    }
    Ok(())
}

/// Appends a space and identities by digests.
#[tactic(auto, unfolding(crate::specs::Lines::ids_text))]
pub(crate) fn spell_ids(line: &mut String, ids: &Ids) -> Result<(), NoMemory>
    ensures { OnOk result (string_bytes line.new ≡ string_bytes line.old ++ 32 ∷ ids_text ids.now) }
{
    let entries = ids.as_slice();
    write!(line, " {}", entries.len())?;
    for id in entries {
        line.push(' ')?;
        push_quoted(line, id.id.as_str())?;
    }
    Ok(())
}

/// Whether a create's flags ask for a number.
pub(crate) fn is_sequential(flags: i32) -> bool
    ensures { result ≡ is_sequential flags }
{
    flags == 2 || flags == 3
}

/// Whether a create's flags ask for a node that its session owns.
pub(crate) fn is_ephemeral(flags: i32) -> bool
    ensures { result ≡ is_ephemeral flags }
{
    flags == 1 || flags == 3
}

/// Whether a create has these flags.
pub(crate) fn are_flags(flags: i32) -> bool
    ensures { result ≡ are_flags flags }
{
    flags == 0 || (flags == 1 || (flags == 2 || flags == 3))
}

/// Whether a line can count the entries of a list.
pub(crate) fn is_counted(acl: &Acls) -> bool
    ensures { result ≡ is_counted acl.now }
{
    acl.as_slice().len() < 2_147_483_648
}

/// Whether all identities are by digests.
pub(crate) fn are_digests(ids: &Ids) -> bool
    ensures { result ≡ are_digests ids.now }
{
    ids.as_slice().iter().all(|id| is_digest(id))
}

fn is_digest(id: &Id) -> bool
    ensures { result ≡ is_digest id.now }
{
    id.scheme.as_str() == "digest"
}
