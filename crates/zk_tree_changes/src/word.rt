//! The words of a line.
ghost use Rattle.std.specs.Prelude.{◌≡◌, IfOk, option_map};
ghost use Rattle.std.specs.String.{string_bytes};
ghost use Rattle.zk_tree_changes.specs.Words.{between, content_word, ends_line, has, is_double, is_single, word_of};

use std::alloc::Global;
use std::str;
use zk_path::NoMemory;

/// Whether the client ends a line at this character, or keeps the quotation marks of its word.
fn ends_line(c: char) -> bool
    ensures { result ≡ ends_line c }
{
    c == '\n' || c == '\r' || c == '\u{85}' || c == '\u{2028}' || c == '\u{2029}'
}

fn is_double(c: char) -> bool
    ensures { result ≡ is_double c }
{
    c == '"'
}

fn is_single(c: char) -> bool
    ensures { result ≡ is_single c }
{
    c == '\''
}

fn has_line_end(text: &str) -> bool
    ensures { result ≡ has ends_line text.now }
{
    text.chars().any(ends_line)
}

fn has_double(text: &str) -> bool
    ensures { result ≡ has is_double text.now }
{
    text.chars().any(is_double)
}

fn has_single(text: &str) -> bool
    ensures { result ≡ has is_single text.now }
{
    text.chars().any(is_single)
}

/// The word of a text; `None` if there is none.
pub(crate) fn word_of(alloc: Global, text: &str) -> Result<Option<String>, NoMemory>
    ensures { IfOk result (λ word. option_map string_bytes word ≡ word_of text.now) }
{
    if has_line_end(text) {
        return Ok(None);
    }
    if !has_double(text) {
        return Ok(Some(between(alloc, "\"", text)?));
    }
    if !has_single(text) {
        return Ok(Some(between(alloc, "'", text)?));
    }
    Ok(None)
}

/// A text between two marks.
fn between(alloc: Global, mark: &str, text: &str) -> Result<String, NoMemory>
    ensures { IfOk result (λ word. string_bytes word ≡ between mark.now text.now) }
{
    let mut word = String::from_str(alloc, mark)?;
    word.push_str(text)?;
    word.push_str(mark)?;
    Ok(word)
}

/// The word of a content; `None` if there is none.
#[tactic(auto, using(crate::proofs::Contents::utf8_word, crate::proofs::Contents::no_word))]
pub(crate) fn content_word(alloc: Global, bytes: &[u8]) -> Result<Option<String>, NoMemory>
    ensures { IfOk result (λ word. option_map string_bytes word ≡ content_word bytes.now) }
{
    match str::from_utf8(bytes) {
        Ok(text) => word_of(alloc, text),
        Err(_) => Ok(None),
    }
}
