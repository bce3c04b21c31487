//! The format of fields. Public functions append a whole field, or nothing if an allocation fails.
//! Private ones may leave a part then, and write to a text of their own.
ghost use Rattle.std.specs.Prelude.{◌≡◌, ◌≤◌, ◌<◌, ◌*◌, ◌++◌, ◌∷◌, OnErr, OnOk, length, slice_index};
ghost use Rattle.std.specs.Fmt.{signed_decimal};
ghost use Rattle.std.specs.List.{flat_map, list_any};
ghost use Rattle.std.specs.Option.{option_copied};
ghost use Rattle.std.specs.Str.{chars};
ghost use Rattle.std.specs.String.{string_bytes};
ghost use Rattle.hex.specs.Hex.{encode_lower, lower_digits};
ghost use Rattle.zk_format.specs.Spelling.{sixteen_digits, id_digits, is_escaped, escaped, quoted, content_text, acl_entry_text, acl_text, stat_text, stat_times, stat_versions, stat_rest};

use itoa::Buffer;
use std::str;
use zk_acl::{Acl, Acls, Stat};
use zk_path::NoMemory;
use zk_table::Content;

/// The capacity reserved for a line before it is formatted, in bytes. Most lines fit and need no
/// growth.
pub(crate) const LINE: usize = 1024;

/// The number of bytes formatted at a time. Measured: fewer or more take longer.
const PIECE: usize = 64;

/// Appends the sixteen lower-case hexadecimal digits of 64 bits.
#[tactic(auto, unfolding(crate::specs::Spelling::sixteen_digits))]
pub fn push_digits(line: &mut String, bits: u64) -> Result<(), NoMemory>
    ensures appended { OnOk result (string_bytes line.new ≡ string_bytes line.old ++ sixteen_digits bits) }
    ensures unchanged { OnErr result (string_bytes line.new ≡ string_bytes line.old) }
{
    push_piece(line, &bits.to_be_bytes())
}

/// Appends the sixteen digits of a zxid or a session id, which are signed.
pub fn push_id(line: &mut String, id: i64) -> Result<(), NoMemory>
    ensures appended { OnOk result (string_bytes line.new ≡ string_bytes line.old ++ id_digits id) }
    ensures unchanged { OnErr result (string_bytes line.new ≡ string_bytes line.old) }
{
    push_digits(line, id.cast_unsigned())
}

/// Appends a space and the digits of a number.
pub(crate) fn spell_next_id(line: &mut String, id: i64) -> Result<(), NoMemory>
    ensures { OnOk result (string_bytes line.new ≡ string_bytes line.old ++ 32 ∷ id_digits id) }
{
    line.push_str(" ")?;
    push_id(line, id)?;
    Ok(())
}

/// Appends a space and a decimal. Faster than `write!`, by which most fields would cost more than
/// their digits.
pub(crate) fn spell_next_decimal(line: &mut String, number: i64) -> Result<(), NoMemory>
    ensures { OnOk result (string_bytes line.new ≡ string_bytes line.old ++ 32 ∷ signed_decimal number) }
{
    line.push(' ')?;
    line.push_str(Buffer::new().format(number))?;
    Ok(())
}

/// Appends a text between quotes. Quotes, backslashes and control characters are escaped.
pub fn push_quoted(line: &mut String, text: &str) -> Result<(), NoMemory>
    ensures appended { OnOk result (string_bytes line.new ≡ string_bytes line.old ++ quoted text.now) }
    ensures unchanged { OnErr result (string_bytes line.new ≡ string_bytes line.old) }
{
    let mut spelled = String::new(*line.allocator());
    spell_quoted(&mut spelled, text)?;
    line.push_str(spelled.as_str())?;
    Ok(())
}

#[tactic(auto, unfolding(crate::specs::Spelling::quoted))]
pub(crate) fn spell_quoted(line: &mut String, text: &str) -> Result<(), NoMemory>
    ensures { OnOk result (string_bytes line.new ≡ string_bytes line.old ++ quoted text.now) }
{
    line.push('"')?;
    spell_between_quotes(line, text)?;
    line.push('"')?;
    Ok(())
}

/// Appends a text as it is between quotes. Most texts need no escapes and are copied as a whole.
fn spell_between_quotes(line: &mut String, text: &str) -> Result<(), NoMemory>
    ensures { OnOk result (string_bytes line.new ≡ string_bytes line.old ++ flat_map escaped (chars text.now)) }
{
    if !has_escaped(text) {
        line.push_str(text)?;
        return Ok(());
    }
    for c in text.chars() {
        spell_escaped(line, c)?;
    }
    Ok(())
}

fn has_escaped(text: &str) -> bool
    ensures { result ≡ list_any is_escaped text.now }
{
    let mut found = false;
    // No early exit, so that the compiler vectorizes the loop.
    for byte in text.as_bytes() {
        found |= is_escaped(*byte);
    }
    found
}

/// Whether a byte is escaped between quotes.
fn is_escaped(byte: u8) -> bool
    ensures { result ≡ is_escaped byte }
{
    byte == b'"' || byte == b'\\' || byte.is_ascii_control()
}

/// Appends a character as it is between quotes.
#[tactic(auto, unfolding(crate::specs::Spelling::escaped))]
fn spell_escaped(line: &mut String, c: char) -> Result<(), NoMemory>
    ensures { OnOk result (string_bytes line.new ≡ string_bytes line.old ++ escaped c) }
{
    if c == '"' || c == '\\' {
        line.push('\\')?;
        line.push(c)?;
    } else if c.is_ascii_control() {
        write!(line, "\\u{{{:x}}}", u32::from(c))?;
    } else {
        line.push(c)?;
    }
    Ok(())
}

/// Appends a node's content: `-` for null, else `x` and two hexadecimal digits for each byte.
pub fn push_content(line: &mut String, content: &Option<Content>) -> Result<(), NoMemory>
    ensures appended { OnOk result (string_bytes line.new ≡ string_bytes line.old ++ content_text content.now) }
    ensures unchanged { OnErr result (string_bytes line.new ≡ string_bytes line.old) }
{
    let mut spelled = String::new(*line.allocator());
    spell_content(&mut spelled, content)?;
    line.push_str(spelled.as_str())?;
    Ok(())
}

#[tactic(auto, unfolding(crate::specs::Spelling::content_text))]
pub(crate) fn spell_content(line: &mut String, content: &Option<Content>) -> Result<(), NoMemory>
    ensures { OnOk result (string_bytes line.new ≡ string_bytes line.old ++ content_text content.now) }
{
    match content {
        None => line.push('-')?,
        Some(content) => {
            line.push('x')?;
            spell_bytes(line, content.as_slice())?;
        }
    }
    Ok(())
}

/// Appends two hexadecimal digits for each byte.
fn spell_bytes(line: &mut String, bytes: &[u8]) -> Result<(), NoMemory>
    ensures { OnOk result (string_bytes line.new ≡ string_bytes line.old ++ encode_lower bytes.now) }
{
    for piece in bytes.chunks(PIECE) {
        push_piece(line, piece)?;
    }
    Ok(())
}

/// Appends two hexadecimal digits for each of at most 64 bytes.
fn push_piece(line: &mut String, piece: &[u8]) -> Result<(), NoMemory>
    requires { length piece.now ≤ PIECE }
    ensures appended { OnOk result (string_bytes line.new ≡ string_bytes line.old ++ encode_lower piece.now) }
    ensures unchanged { OnErr result (string_bytes line.new ≡ string_bytes line.old) }
{
    // A buffer on the stack, without allocation.
    let mut buffer = [0u8; 2 * PIECE];
    let digits = &mut buffer[..2 * piece.len()];
    write_digits(piece, digits);
    // The digits are proved to be UTF-8; a check at run time would take a sixth of the time of a
    // line.
    line.push_str(unsafe { str::from_utf8_unchecked(digits) })?;
    Ok(())
}

/// Writes two hexadecimal digits for each byte.
fn write_digits(bytes: &[u8], digits: &mut [u8])
    requires { length digits.old ≡ 2 * length bytes.now }
    ensures { digits.new ≡ encode_lower bytes.now }
{
    // No table of digits as in `hex`, so that the compiler vectorizes the loop.
    for at in 0..bytes.len() {
        let byte = bytes[at];
        digits[2 * at] = digit_of(byte >> 4);
        digits[2 * at + 1] = digit_of(byte & 15);
    }
}

fn digit_of(number: u8) -> u8
    requires { number < 16 }
    ensures { result ≡ slice_index lower_digits number }
{
    // Added to every digit, so that the compiler needs no blend of two sums.
    let letter = if number > 9 { b'a' - b'0' - 10 } else { 0 };
    b'0' + number + letter
}

/// Appends an access control list: the number of its entries, and the three fields of each.
pub fn push_acl(line: &mut String, acl: &Acls) -> Result<(), NoMemory>
    ensures appended { OnOk result (string_bytes line.new ≡ string_bytes line.old ++ acl_text acl.now) }
    ensures unchanged { OnErr result (string_bytes line.new ≡ string_bytes line.old) }
{
    let mut spelled = String::new(*line.allocator());
    spell_acl(&mut spelled, acl)?;
    line.push_str(spelled.as_str())?;
    Ok(())
}

#[tactic(auto, unfolding(crate::specs::Spelling::acl_text))]
pub(crate) fn spell_acl(line: &mut String, acl: &Acls) -> Result<(), NoMemory>
    ensures { OnOk result (string_bytes line.new ≡ string_bytes line.old ++ acl_text acl.now) }
{
    let entries = acl.as_slice();
    line.push_str(Buffer::new().format(entries.len()))?;
    for entry in entries {
        spell_acl_entry(line, entry)?;
    }
    Ok(())
}

/// Appends a space and the fields of an entry.
#[tactic(auto, unfolding(crate::specs::Spelling::acl_entry_text))]
fn spell_acl_entry(line: &mut String, entry: &Acl) -> Result<(), NoMemory>
    ensures { OnOk result (string_bytes line.new ≡ string_bytes line.old ++ acl_entry_text entry.now) }
{
    spell_next_decimal(line, i64::from(entry.perms))?;
    line.push(' ')?;
    spell_quoted(line, entry.id.scheme.as_str())?;
    line.push(' ')?;
    spell_quoted(line, entry.id.id.as_str())?;
    Ok(())
}

/// Appends a stat's eleven fields.
pub fn push_stat(line: &mut String, stat: &Stat) -> Result<(), NoMemory>
    ensures appended { OnOk result (string_bytes line.new ≡ string_bytes line.old ++ stat_text stat.now) }
    ensures unchanged { OnErr result (string_bytes line.new ≡ string_bytes line.old) }
{
    let mut spelled = String::new(*line.allocator());
    spell_stat(&mut spelled, stat)?;
    line.push_str(spelled.as_str())?;
    Ok(())
}

#[tactic(auto, unfolding(crate::specs::Spelling::stat_text))]
pub(crate) fn spell_stat(line: &mut String, stat: &Stat) -> Result<(), NoMemory>
    ensures { OnOk result (string_bytes line.new ≡ string_bytes line.old ++ stat_text stat.now) }
{
    spell_stat_times(line, stat)?;
    line.push(' ')?;
    spell_stat_versions(line, stat)?;
    line.push(' ')?;
    spell_stat_rest(line, stat)?;
    Ok(())
}

/// Appends a stat's first four fields.
#[tactic(auto, unfolding(crate::specs::Spelling::stat_times))]
fn spell_stat_times(line: &mut String, stat: &Stat) -> Result<(), NoMemory>
    ensures { OnOk result (string_bytes line.new ≡ string_bytes line.old ++ stat_times stat.now) }
{
    push_id(line, stat.czxid)?;
    spell_next_id(line, stat.mzxid)?;
    spell_next_decimal(line, stat.ctime)?;
    spell_next_decimal(line, stat.mtime)?;
    Ok(())
}

/// Appends a stat's three versions.
#[tactic(auto, unfolding(crate::specs::Spelling::stat_versions))]
fn spell_stat_versions(line: &mut String, stat: &Stat) -> Result<(), NoMemory>
    ensures { OnOk result (string_bytes line.new ≡ string_bytes line.old ++ stat_versions stat.now) }
{
    line.push_str(Buffer::new().format(stat.version))?;
    spell_next_decimal(line, i64::from(stat.cversion))?;
    spell_next_decimal(line, i64::from(stat.aversion))?;
    Ok(())
}

/// Appends a stat's last four fields.
#[tactic(auto, unfolding(crate::specs::Spelling::stat_rest))]
fn spell_stat_rest(line: &mut String, stat: &Stat) -> Result<(), NoMemory>
    ensures { OnOk result (string_bytes line.new ≡ string_bytes line.old ++ stat_rest stat.now) }
{
    push_id(line, stat.ephemeral_owner)?;
    spell_next_decimal(line, i64::from(stat.data_length))?;
    spell_next_decimal(line, i64::from(stat.num_children))?;
    spell_next_id(line, stat.pzxid)?;
    Ok(())
}
