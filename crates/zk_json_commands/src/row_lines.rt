//! The lines of counts.
ghost use Rattle.std.specs.Prelude.{◌≡◌, ◌++◌, IfOk, OnOk, codes, map, option_map};
ghost use Rattle.std.specs.String.{string_bytes};
ghost use Rattle.zk_json_commands.specs.Lines.{AreLines};
ghost use Rattle.zk_json_commands.specs.Tops.{AppendsRow, IsLine, after_zero, without_zeros};

use std::alloc::Global;
use zk_incidents::Key;
use zk_json::push_count_line;
use zk_path::NoMemory;

/// The digits after a zero.
fn after_zero(digits: &str) -> Option<&str>
    ensures { option_map (λ rest. rest.now) result ≡ after_zero digits.now }
{
    digits.strip_prefix("0")
}

/// The digits without leading zeros; the last digit stays.
#[tactic(auto, using(crate::proofs::Rows::one_zero, crate::proofs::Rows::last_zero, crate::proofs::Rows::no_zero))]
fn without_zeros(digits: &str) -> &str
    ensures { result.now ≡ without_zeros digits.now }
{
    match after_zero(digits) {
        Some(rest) => if rest.is_empty() {
            digits
        } else {
            without_zeros(rest)
        },
        None => digits,
    }
}

/// The text of a session, by its sixteen digits.
fn session_text(alloc: Global, digits: &str) -> Result<String, NoMemory>
    ensures { IfOk result (λ text. string_bytes text ≡ codes "0x" ++ without_zeros digits.now) }
{
    let mut text = String::from_str(alloc, "0x")?;
    text.push_str(without_zeros(digits))?;
    Ok(text)
}

/// Appends the line of a path or a session.
fn push_row(text: &mut String, key: Key, counted: &str, count: u64) -> Result<(), NoMemory>
    ensures { OnOk result (AppendsRow key (counted.now, count) (string_bytes text.old) (string_bytes text.new)) }
{
    match key {
        Key::Path => push_count_line(text, "path", counted, count),
        Key::Session => {
            let session = session_text(*text.allocator(), counted)?;
            push_count_line(text, "session", session.as_str(), count)
        }
    }
}

/// The lines of paths or sessions with their counts.
#[tactic(auto, using(crate::proofs::Rows::none_row, crate::proofs::Rows::all_rows))]
pub(crate) fn row_lines(alloc: Global, key: Key, rows: &[(&str, u64)]) -> Result<String, NoMemory>
    ensures { IfOk result (λ text. AreLines (IsLine key) (map (λ row. (row.0.now, row.1)) rows.now) (string_bytes text)) }
{
    let mut text = String::new(alloc);
    for (counted, count) in rows {
        push_row(&mut text, key, counted, *count)?;
    }
    Ok(text)
}
