//! The reader of quoted texts.
ghost use Rattle.std.specs.Prelude.{◌≡◌, ◌<◌, IfSome};
ghost use Rattle.std.specs.List.{position, position_or_len};
ghost use Rattle.std.specs.String.{string_bytes};
ghost use Rattle.zk_format.specs.Spelling.{is_escaped};
ghost use Rattle.zk_listing.specs.Reading.{TakesBy, Makes, TakesChar, Continues, behind, quoted_at, inside, TakesFirst, escape_at, braced_at, control_at, control_from, lower_digit};

use crate::fields::take_field;
use crate::list_fault::ListCause;
use std::alloc::Global;

/// A text between quotes, with quotes, backslashes and control characters escaped, and no others.
#[tactic(auto, unfolding(crate::specs::Reading::quoted_at))]
pub(crate) fn quoted(alloc: Global, input: &mut &str) -> Result<String, ListCause>
    ensures { TakesBy (λ text. string_bytes text) result input.new.now (quoted_at input.old.now) }
{
    match input.strip_prefix('"') {
        Some(rest) => {
            *input = rest;
            inside(alloc, input)
        }
        None => match take_field(input) {
            None => Err(ListCause::Fields),
            Some(_) => Err(ListCause::Quote),
        },
    }
}

/// The text after an opening quote, up to and including the closing one.
fn inside(alloc: Global, input: &mut &str) -> Result<String, ListCause>
    ensures { TakesBy (λ text. string_bytes text) result input.new.now (inside input.old.now) }
{
    let mut text = String::from_str(alloc, plain(input))?;
    while let Some(c) = spelled_char(input)? {
        text.push(c)?;
    }
    Ok(text)
}

/// The characters before the first quote, backslash or control character. Most texts have no such
/// character but the closing quote.
fn plain<'a>(input: &mut &'a str) -> &'a str
    ensures { behind result.now (inside input.new.now) ≡ inside input.old.now }
{
    let (plain, rest) = input.split_at(plain_len(input.as_bytes()));
    *input = rest;
    plain
}

fn plain_len(bytes: &[u8]) -> usize
    ensures { result ≡ position_or_len is_escaped bytes.now }
{
    first_escaped(bytes).unwrap_or(bytes.len())
}

fn first_escaped(bytes: &[u8]) -> Option<usize>
    ensures { result ≡ position is_escaped bytes.now }
{
    bytes.iter().position(|b| is_escaped(*b))
}

/// Whether a byte ends a plain text.
fn is_escaped(byte: u8) -> bool
    ensures { result ≡ is_escaped byte }
{
    byte == b'"' || byte == b'\\' || byte.is_ascii_control()
}

/// A character between quotes; `None` for the closing quote.
fn spelled_char(input: &mut &str) -> Result<Option<char>, ListCause>
    ensures { Continues result input.new.now input.old.now }
{
    match next_char(input) {
        None => Err(ListCause::Quote),
        Some('"') => Ok(None),
        Some('\\') => match escape(input) {
            Some(c) => Ok(Some(c)),
            None => Err(ListCause::Quote),
        },
        Some(c) => {
            if c.is_ascii_control() {
                return Err(ListCause::Quote);
            }
            Ok(Some(c))
        }
    }
}

/// Reads the first character.
fn next_char(input: &mut &str) -> Option<char>
    ensures { TakesFirst result input.new.now input.old.now }
{
    let mut chars = input.chars();
    let first = chars.next();
    *input = chars.as_str();
    first
}

/// The character after a backslash: a quote, a backslash, or a control character by its number.
fn escape(input: &mut &str) -> Option<char>
    ensures { TakesChar result input.new.now (escape_at input.old.now) }
{
    match next_char(input) {
        Some('"') => Some('"'),
        Some('\\') => Some('\\'),
        Some('u') => braced(input),
        _ => None,
    }
}

/// The number of a control character between braces.
fn braced(input: &mut &str) -> Option<char>
    ensures { TakesChar result input.new.now (braced_at input.old.now) }
{
    match input.strip_prefix('{') {
        Some(rest) => {
            *input = rest;
            control(input)
        }
        None => None,
    }
}

/// The number of a control character in hexadecimal digits, and the closing brace.
#[tactic(auto, unfolding(crate::specs::Reading::control_at))]
fn control(input: &mut &str) -> Option<char>
    ensures { TakesChar result input.new.now (control_at input.old.now) }
{
    let (digits, rest) = input.split_once('}')?;
    let code = control_of(digits.as_bytes())?;
    *input = rest;
    Some(char::from(code))
}

/// The ASCII control character with these lower-case digits, without leading zeros.
#[tactic(auto, unfolding(crate::specs::Reading::control_from))]
fn control_of(digits: &[u8]) -> Option<u8>
    ensures { result ≡ control_from digits.now }
{
    match digits {
        [low] => lower_digit(*low),
        [b'1', low] => Some(16 + lower_digit(*low)?),
        [b'7', b'f'] => Some(127),
        _ => None,
    }
}

fn lower_digit(digit: u8) -> Option<u8>
    ensures value { result ≡ lower_digit digit }
    ensures below { IfSome result (λ value. value < 16) }
{
    match digit {
        b'0'..=b'9' => Some(digit - b'0'),
        b'a'..=b'f' => Some(digit - b'a' + 10),
        _ => None,
    }
}
