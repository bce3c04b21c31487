//! The short forms of a session's lines.
ghost use Rattle.std.specs.Prelude.{◌≡◌, ◌++◌, ◌∷◌, [], nat_eq, replicate, None, Some, IfOk, OnOk, codes};
ghost use Rattle.std.specs.List.{list_any, starts_with};
ghost use Rattle.zk_listing.specs.Reading.{past};
ghost use Rattle.std.specs.String.{string_bytes};
ghost use Rattle.std.specs.Option.{option_copied};
ghost use Rattle.zk_commands.specs.Shorthand.{condition_by, digits_past, is_bare, is_marked, line_by, long_break_field, long_condition, long_digits, long_field, long_form, long_id, long_path, long_word};

use std::alloc::Global;
use zk_path::NoMemory;

/// The number of digits of a zxid or a session id.
const ID_DIGITS: usize = 16;

/// The line that a session's line stands for: `s`, `b`, `r`, `rb` and `g` are commands, `0x2a4` is a
/// zxid, and a path without spaces needs no quotes.
pub fn long_form(alloc: Global, line: &str) -> Result<String, NoMemory>
    ensures { IfOk result (λ text. string_bytes text ≡ long_form line.now) }
{
    let mut text = String::new(alloc);
    push_long(&mut text, line)?;
    Ok(text)
}

fn push_long(text: &mut String, line: &str) -> Result<(), NoMemory>
    ensures { OnOk result (string_bytes text.new ≡ string_bytes text.old ++ long_form line.now) }
{
    match line.split_once(' ') {
        None => push_word(text, line),
        Some((word, field)) => push_with(text, word, field),
    }
}

/// Appends the long form of a line that is a single word.
fn push_word(text: &mut String, word: &str) -> Result<(), NoMemory>
    ensures { OnOk result (string_bytes text.new ≡ string_bytes text.old ++ line_by (long_word word.now) None) }
{
    text.push_str(long_word(word))?;
    Ok(())
}

/// Appends that of a word and the field after it.
fn push_with(text: &mut String, word: &str, field: &str) -> Result<(), NoMemory>
    ensures { OnOk result (string_bytes text.new ≡ string_bytes text.old ++ line_by (long_word word.now) (Some field.now)) }
{
    let word = long_word(word);
    text.push_str(word)?;
    text.push(' ')?;
    push_field(text, word, field)
}

#[tactic(auto, unfolding(crate::specs::Shorthand::long_word))]
fn long_word(word: &str) -> &str
    ensures { result.now ≡ long_word word.now }
{
    match word {
        "s" => "step",
        "b" => "back",
        "r" => "run",
        "rb" => "runback",
        "g" => "goto",
        _ => word,
    }
}

#[tactic(auto, unfolding(crate::specs::Shorthand::long_field))]
fn push_field(text: &mut String, word: &str, field: &str) -> Result<(), NoMemory>
    ensures { OnOk result (string_bytes text.new ≡ string_bytes text.old ++ long_field word.now field.now) }
{
    match word {
        "goto" => push_id(text, field),
        "node" => push_path(text, field),
        "tree" => push_path(text, field),
        "break" => push_break(text, field),
        _ => Ok(text.push_str(field)?),
    }
}

/// Appends the long form of what follows `break`.
fn push_break(text: &mut String, condition: &str) -> Result<(), NoMemory>
    ensures { OnOk result (string_bytes text.new ≡ string_bytes text.old ++ long_condition condition.now) }
{
    match condition.split_once(' ') {
        None => push_alone(text, condition),
        Some((word, field)) => push_break_with(text, word, field),
    }
}

fn push_alone(text: &mut String, word: &str) -> Result<(), NoMemory>
    ensures { OnOk result (string_bytes text.new ≡ string_bytes text.old ++ condition_by word.now None) }
{
    text.push_str(word)?;
    Ok(())
}

fn push_break_with(text: &mut String, word: &str, field: &str) -> Result<(), NoMemory>
    ensures { OnOk result (string_bytes text.new ≡ string_bytes text.old ++ condition_by word.now (Some field.now)) }
{
    text.push_str(word)?;
    text.push(' ')?;
    push_break_field(text, word, field)
}

#[tactic(auto, unfolding(crate::specs::Shorthand::long_break_field))]
fn push_break_field(text: &mut String, word: &str, field: &str) -> Result<(), NoMemory>
    ensures { OnOk result (string_bytes text.new ≡ string_bytes text.old ++ long_break_field word.now field.now) }
{
    match word {
        "at" => push_id(text, field),
        "session" => push_id(text, field),
        "path" => push_path(text, field),
        "prefix" => push_path(text, field),
        _ => Ok(text.push_str(field)?),
    }
}

/// Appends a path, between quotes if it has none and needs no escapes.
fn push_path(text: &mut String, path: &str) -> Result<(), NoMemory>
    ensures { OnOk result (string_bytes text.new ≡ string_bytes text.old ++ long_path path.now) }
{
    if !is_bare(path) {
        return Ok(text.push_str(path)?);
    }
    text.push('"')?;
    text.push_str(path)?;
    text.push('"')?;
    Ok(())
}

fn is_bare(path: &str) -> bool
    ensures { result ≡ is_bare path.now }
{
    is_absolute(path) && !has_marked(path.as_bytes())
}

fn is_absolute(path: &str) -> bool
    ensures { result ≡ starts_with nat_eq path.now (codes "/") }
{
    path.starts_with("/")
}

fn has_marked(path: &[u8]) -> bool
    ensures { result ≡ list_any is_marked path.now }
{
    path.iter().any(|byte| is_marked(*byte))
}

/// A space, a quote or a backslash.
fn is_marked(byte: u8) -> bool
    ensures { result ≡ is_marked byte }
{
    byte == b' ' || byte == b'"' || byte == b'\\'
}

/// Appends a zxid or a session id, with all its digits if it begins with `0x`.
fn push_id(text: &mut String, id: &str) -> Result<(), NoMemory>
    ensures { OnOk result (string_bytes text.new ≡ string_bytes text.old ++ long_id id.now) }
{
    match digits_of(id) {
        None => Ok(text.push_str(id)?),
        Some(digits) => push_digits(text, id, digits),
    }
}

/// What follows `0x`.
fn digits_of(id: &str) -> Option<&str>
    ensures { option_copied result ≡ digits_past id.now }
{
    match past_zero(id) {
        None => None,
        Some(rest) => past_x(rest),
    }
}

fn past_zero(text: &str) -> Option<&str>
    ensures { option_copied result ≡ past 48 text.now }
{
    text.strip_prefix('0')
}

fn past_x(text: &str) -> Option<&str>
    ensures { option_copied result ≡ past 120 text.now }
{
    text.strip_prefix('x')
}

fn push_digits(text: &mut String, id: &str, digits: &str) -> Result<(), NoMemory>
    ensures { OnOk result (string_bytes text.new ≡ string_bytes text.old ++ long_digits id.now digits.now) }
{
    if digits.is_empty() || digits.len() > ID_DIGITS {
        return Ok(text.push_str(id)?);
    }
    push_zeros(text, ID_DIGITS - digits.len())?;
    text.push_str(digits)?;
    Ok(())
}

fn push_zeros(text: &mut String, count: usize) -> Result<(), NoMemory>
    ensures { OnOk result (string_bytes text.new ≡ string_bytes text.old ++ replicate count 48) }
{
    for _ in 0..count {
        push_zero(text)?;
    }
    Ok(())
}

fn push_zero(text: &mut String) -> Result<(), NoMemory>
    ensures { OnOk result (string_bytes text.new ≡ string_bytes text.old ++ 48 ∷ []) }
{
    text.push('0')?;
    Ok(())
}
