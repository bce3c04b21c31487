//! The line of a transaction in the life of a session.
ghost use Rattle.std.specs.Prelude.{◌≡◌, ◌++◌, ◌∷◌, [], OnOk, map};
ghost use Rattle.std.specs.List.{flat_map};
ghost use Rattle.std.specs.String.{string_bytes};
ghost use Rattle.zk_format.specs.Spelling.{id_digits};
ghost use Rattle.zk_session_lines.specs.Appending.{Appends};
ghost use Rattle.zk_session_lines.specs.RecordLines.{IsRecordLine, end_text, expiry_text, path_text, rest_text};

use zk_format::{push_id, push_quoted};
use zk_json::push_time;
use zk_path::NoMemory;
use zk_table::Txn;

fn expiry_text(expired: bool) -> &'static str
    ensures { result.now ≡ expiry_text expired }
{
    if expired { " expired" } else { "" }
}

/// Appends a space and a zxid or a session.
pub(crate) fn push_next_id(text: &mut String, id: i64) -> Result<(), NoMemory>
    ensures { OnOk result (string_bytes text.new ≡ string_bytes text.old ++ 32 ∷ id_digits id) }
{
    text.push(' ')?;
    push_id(text, id)
}

/// Appends a space and a word.
fn push_word(text: &mut String, word: &str) -> Result<(), NoMemory>
    ensures { OnOk result (string_bytes text.new ≡ string_bytes text.old ++ 32 ∷ word.now) }
{
    text.push(' ')?;
    text.push_str(word)?;
    Ok(())
}

/// Appends a space and a path.
#[tactic(auto, unfolding(crate::specs::RecordLines::path_text))]
fn push_path(text: &mut String, path: &str) -> Result<(), NoMemory>
    ensures { OnOk result (string_bytes text.new ≡ string_bytes text.old ++ path_text path.now) }
{
    text.push(' ')?;
    push_quoted(text, path)
}

fn push_paths(text: &mut String, paths: &[&str]) -> Result<(), NoMemory>
    ensures { OnOk result (string_bytes text.new ≡ string_bytes text.old ++ flat_map path_text (map (λ path. path.now) paths.now)) }
{
    for path in paths {
        push_path(text, path)?;
    }
    Ok(())
}

/// Appends paths and the end of the line.
fn push_end(text: &mut String, paths: &[&str]) -> Result<(), NoMemory>
    ensures { OnOk result (string_bytes text.new ≡ string_bytes text.old ++ end_text (map (λ path. path.now) paths.now)) }
{
    push_paths(text, paths)?;
    text.push('\n')?;
    Ok(())
}

/// Appends whether a session that was closed had expired, and paths.
fn push_rest(text: &mut String, expired: bool, paths: &[&str]) -> Result<(), NoMemory>
    ensures { OnOk result (string_bytes text.new ≡ string_bytes text.old ++ rest_text expired (map (λ path. path.now) paths.now)) }
{
    text.push_str(expiry_text(expired))?;
    push_end(text, paths)
}

/// Appends the line of a transaction, by the word of its operation and the nodes at these paths.
pub fn push_record_line(
    text: &mut String,
    paths: &[&str],
    kind: &str,
    expired: bool,
    txn: &Txn,
) -> Result<(), NoMemory>
    ensures { OnOk result (Appends (IsRecordLine (map (λ path. path.now) paths.now) kind.now expired txn.now) (string_bytes text.old) (string_bytes text.new)) }
{
    push_time(text, txn.time)?;
    push_next_id(text, txn.zxid)?;
    push_word(text, kind)?;
    push_next_id(text, txn.session)?;
    push_rest(text, expired, paths)
}
