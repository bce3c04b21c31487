//! Readers of single fields, each up to its end. After an error the input is somewhere in that
//! field.
ghost use Rattle.std.specs.Prelude.{◌≡◌, ◌≢◌, ◌==◌, length, Some, IfErr};
ghost use Rattle.std.specs.String.{string_bytes};
ghost use Rattle.zk_listing.specs.Reading.{Takes, TakesBy, mapped};
ghost use Rattle.zk_request_syntax.specs.Reading.{at_end, ended_result, id_field_at, int_field_at, long_field_at, text_field_at, acl_field_at, content_field_at, begins_with_quote};

use std::alloc::Global;
use zk_acl::{Acls, Text};
use zk_listing::{ListCause, read_acl, read_content, read_id, read_int, read_long, read_quoted};
use zk_table::Content;

/// The fields of a create.
#[derive(Debug, Drop)]
pub(crate) struct Created {
    pub path: Text,
    pub content: Option<Content>,
    pub acl: Acls,
    pub flags: i32,
}

/// The fields of a set.
#[derive(Debug, Drop)]
pub(crate) struct Written {
    pub path: Text,
    pub content: Option<Content>,
    pub version: i32,
}

/// The fields of a delete or a check.
#[derive(Debug, Drop)]
pub(crate) struct Named {
    pub path: Text,
    pub version: i32,
}

/// Whether a field may end here.
fn at_end(input: &str) -> bool
    ensures { result ≡ at_end input.now }
{
    match input.as_bytes() {
        [] => true,
        [first, ..] => *first == b' ' || *first == b'\n',
    }
}

/// Returns what was read, if the field ends after it.
fn ended<T: Drop>(read: Result<T, ListCause>, input: &str) -> Result<T, ListCause>
    ensures { result ≡ ended_result (at_end input.now) read }
{
    match read {
        Ok(value) => {
            if at_end(input) {
                return Ok(value);
            }
            Err(ListCause::Fields)
        }
        Err(cause) => Err(cause),
    }
}

/// Returns what was read, if nothing is left after it.
pub(crate) fn alone<T: Drop>(read: Result<T, ListCause>, left: &str) -> Result<T, ListCause>
    ensures { result ≡ ended_result (length left.now == 0) read }
{
    match read {
        Ok(value) => {
            if left.is_empty() {
                return Ok(value);
            }
            Err(ListCause::Fields)
        }
        Err(cause) => Err(cause),
    }
}

/// Reads the number of a transaction or a session: sixteen lower-case hexadecimal digits.
#[tactic(auto, unfolding(crate::specs::Reading::id_field_at))]
pub(crate) fn id(input: &mut &str) -> Result<i64, ListCause>
    ensures taken { Takes result input.new.now (id_field_at input.old.now) }
    ensures memory { IfErr result (λ cause. cause ≢ ListCause.NoMemory) }
{
    let read = read_id(input);
    ended(read, input)
}

/// Reads a decimal of 32 bits.
pub(crate) fn int(input: &mut &str) -> Result<i32, ListCause>
    ensures taken { Takes result input.new.now (int_field_at input.old.now) }
    ensures memory { IfErr result (λ cause. cause ≢ ListCause.NoMemory) }
{
    let read = read_int(input);
    ended(read, input)
}

/// Reads a decimal of 64 bits.
pub(crate) fn long(input: &mut &str) -> Result<i64, ListCause>
    ensures taken { Takes result input.new.now (long_field_at input.old.now) }
    ensures memory { IfErr result (λ cause. cause ≢ ListCause.NoMemory) }
{
    let read = read_long(input);
    ended(read, input)
}

/// Reads a text between quotes.
pub(crate) fn text(alloc: Global, input: &mut &str) -> Result<Text, ListCause>
    ensures { Takes result input.new.now (text_field_at input.old.now) }
{
    let text = string(alloc, input)?;
    Ok(Text::new(text))
}

fn string(alloc: Global, input: &mut &str) -> Result<String, ListCause>
    ensures { TakesBy (λ text. string_bytes text) result input.new.now (text_field_at input.old.now) }
{
    let read = read_quoted(alloc, input);
    ended(read, input)
}

/// Reads an access control list.
pub(crate) fn acl(alloc: Global, input: &mut &str) -> Result<Acls, ListCause>
    ensures { Takes result input.new.now (acl_field_at input.old.now) }
{
    let read = read_acl(alloc, input);
    ended(read, input)
}

/// Reads a node's content as in a listing, or as the bytes of a text between quotes.
pub(crate) fn content(alloc: Global, input: &mut &str) -> Result<Option<Content>, ListCause>
    ensures { Takes result input.new.now (content_field_at input.old.now) }
{
    if begins_with_quote(input) {
        return text_content(alloc, input);
    }
    let read = read_content(alloc, input);
    ended(read, input)
}

/// Reads the bytes of a text between quotes as content.
fn text_content(alloc: Global, input: &mut &str) -> Result<Option<Content>, ListCause>
    ensures { Takes result input.new.now (mapped Some text_field_at input.old.now) }
{
    let text = text(alloc, input)?;
    let content = Content::read(alloc, text.as_str().as_bytes())?;
    Ok(Some(content))
}

/// Whether the input begins with a quote.
fn begins_with_quote(input: &str) -> bool
    ensures { result ≡ begins_with_quote input.now }
{
    match input.as_bytes() {
        [] => false,
        [first, ..] => *first == b'"',
    }
}
