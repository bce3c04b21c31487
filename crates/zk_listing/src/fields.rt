//! Readers of single fields. Each consumes a field at the start of its input; after an error the
//! input may have advanced within that field.
ghost use Rattle.std.specs.Prelude.{◌≡◌, ◌≢◌, ◌+◌, ◌≤◌, drop, length, IfErr};
ghost use Rattle.std.specs.Int.{w32, w64};
ghost use Rattle.zk_listing.specs.Reading.{TakesField, Takes, Makes, id_from, id_at, int_from, int_at, content_from, content_at, content_of_digits, count_at, is_plain, is_end};
ghost use Rattle.std.specs.List.{list_any, position, position_or_len};

use crate::list_fault::ListCause;
use crate::{decode_lower, decode_lower_to};
use std::alloc::Global;
use zk_table::Content;

/// The number of bytes that are searched together for the end of a field.
const STEP: usize = 32;

/// The number of digits of a zxid or a session id.
const ID_DIGITS: usize = 16;

/// The field at the start, up to the next space, the end of the line or the end of the input;
/// `None` if it is empty.
pub(crate) fn take_field<'a>(input: &mut &'a str) -> Option<&'a str>
    ensures { TakesField result input.new.now input.old.now }
{
    let end = field_len(input.as_bytes());
    if end == 0 {
        return None;
    }
    let (field, rest) = input.split_at(end);
    *input = rest;
    Some(field)
}

/// The number of bytes before the first space or newline.
fn field_len(bytes: &[u8]) -> usize
    ensures { result ≡ position_or_len is_end bytes.now }
{
    let start = steps_len(bytes);
    start + rest_len(&bytes[start..])
}

/// The number of bytes in the steps before that with the first space or newline.
fn steps_len(bytes: &[u8]) -> usize
    ensures within { result ≤ length bytes.now }
    ensures none { position_or_len is_end bytes.now ≡ result + position_or_len is_end (drop result bytes.now) }
{
    for step in 0..bytes.len() / STEP {
        let start = STEP * step;
        if has_end(&bytes[start..start + STEP]) {
            return start;
        }
    }
    bytes.len() / STEP * STEP
}

fn has_end(bytes: &[u8]) -> bool
    ensures { result ≡ list_any is_end bytes.now }
{
    let mut found = false;
    // No early exit, so that the compiler vectorizes the loop.
    for byte in bytes {
        found |= is_end(*byte);
    }
    found
}

/// Whether a field ends before this byte.
fn is_end(byte: u8) -> bool
    ensures { result ≡ is_end byte }
{
    byte == b' ' || byte == b'\n'
}

/// The number of bytes before the first space or newline, one byte at a time.
fn rest_len(bytes: &[u8]) -> usize
    ensures { result ≡ position_or_len is_end bytes.now }
{
    first_end(bytes).unwrap_or(bytes.len())
}

/// The position of the first space or newline.
fn first_end(bytes: &[u8]) -> Option<usize>
    ensures { result ≡ position is_end bytes.now }
{
    bytes.iter().position(|b| is_end(*b))
}

/// Sixteen lower-case hexadecimal digits.
#[tactic(auto, unfolding(crate::specs::Reading::id_at))]
pub(crate) fn id(input: &mut &str) -> Result<i64, ListCause>
    ensures takes { Takes result input.new.now (id_at input.old.now) }
    ensures memory { IfErr result (λ cause. cause ≢ ListCause.NoMemory) }
{
    match take_field(input) {
        None => Err(ListCause::Fields),
        Some(field) => id_of(field).ok_or(ListCause::Number),
    }
}

#[tactic(auto, unfolding(crate::specs::Reading::id_from))]
fn id_of(field: &str) -> Option<i64>
    ensures { result ≡ id_from field.now }
{
    let digits = field.as_bytes();
    if digits.len() != ID_DIGITS {
        return None;
    }
    let mut bytes = [0u8; 8];
    if !decode_lower_to(digits, &mut bytes) {
        return None;
    }
    Some(u64::from_be_bytes(bytes).cast_signed())
}

/// A decimal of 32 bits.
#[tactic(auto, unfolding(crate::specs::Reading::int_at))]
pub(crate) fn int(input: &mut &str) -> Result<i32, ListCause>
    ensures takes { Takes result input.new.now (int_at w32 input.old.now) }
    ensures memory { IfErr result (λ cause. cause ≢ ListCause.NoMemory) }
{
    match take_field(input) {
        None => Err(ListCause::Fields),
        Some(field) => int_of(field).ok_or(ListCause::Number),
    }
}

fn int_of(field: &str) -> Option<i32>
    ensures { result ≡ int_from w32 field.now }
{
    if !is_plain(field.as_bytes()) {
        return None;
    }
    field.parse().ok()
}

/// A decimal of 64 bits.
#[tactic(auto, unfolding(crate::specs::Reading::int_at))]
pub(crate) fn long(input: &mut &str) -> Result<i64, ListCause>
    ensures takes { Takes result input.new.now (int_at w64 input.old.now) }
    ensures memory { IfErr result (λ cause. cause ≢ ListCause.NoMemory) }
{
    match take_field(input) {
        None => Err(ListCause::Fields),
        Some(field) => long_of(field).ok_or(ListCause::Number),
    }
}

fn long_of(field: &str) -> Option<i64>
    ensures { result ≡ int_from w64 field.now }
{
    if !is_plain(field.as_bytes()) {
        return None;
    }
    field.parse().ok()
}

/// Whether a decimal has no plus sign, no leading zero and is not `-0`.
fn is_plain(field: &[u8]) -> bool
    ensures { result ≡ is_plain field.now }
{
    match field {
        [b'0'] => true,
        [b'-', first, ..] | [first, ..] => matches!(first, b'1'..=b'9'),
        [] => false,
    }
}

/// The number of an access control list's entries.
#[tactic(auto, unfolding(crate::specs::Reading::count_at))]
pub(crate) fn count(input: &mut &str) -> Result<u32, ListCause>
    ensures { Takes result input.new.now (count_at input.old.now) }
{
    let count = int(input)?;
    u32::try_from(count).map_err(|_| ListCause::Number)
}

/// `-` for null, else `x` and two lower-case hexadecimal digits for each byte.
#[tactic(auto, unfolding(crate::specs::Reading::content_at))]
pub(crate) fn content(alloc: Global, input: &mut &str) -> Result<Option<Content>, ListCause>
    ensures { Takes result input.new.now (content_at input.old.now) }
{
    match take_field(input) {
        None => Err(ListCause::Fields),
        Some(field) => content_of(alloc, field),
    }
}

#[tactic(auto, unfolding(crate::specs::Reading::content_from))]
fn content_of(alloc: Global, field: &str) -> Result<Option<Content>, ListCause>
    ensures { Makes result (content_from field.now) }
{
    if field == "-" {
        return Ok(None);
    }
    match field.strip_prefix('x') {
        None => Err(ListCause::Hex),
        Some(digits) => content_of_digits(alloc, digits),
    }
}

fn content_of_digits(alloc: Global, digits: &str) -> Result<Option<Content>, ListCause>
    ensures { Makes result (content_of_digits digits.now) }
{
    match decode_lower(alloc, digits.as_bytes())? {
        Some(bytes) => Ok(Some(Content::new(alloc, bytes)?)),
        None => Err(ListCause::Hex),
    }
}
