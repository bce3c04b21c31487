//! Readers of fields. Each consumes a field at the start of its input. A field without quotes ends
//! at a space, at a newline or at the end of the input. After an error the input is unchanged. A
//! reader without allocator does not allocate, and never fails with `NoMemory`.
ghost use Rattle.std.specs.Prelude.{◌≡◌, ◌≢◌, FitsSigned, IfErr, OnErr, OnOk};
ghost use Rattle.std.specs.Fmt.{signed_decimal};
ghost use Rattle.std.specs.Int.{w32, w64};
ghost use Rattle.std.specs.Str.{IsUtf8};
ghost use Rattle.std.specs.String.{string_bytes};
ghost use Rattle.zk_format.specs.Listings.{IsListedPath, IsListedContent, AreListedAcls};
ghost use Rattle.zk_listing.specs.Promises.{ReadsFound, ReadsOnly};
ghost use Rattle.zk_format.specs.Spelling.{id_digits, quoted, content_text, acl_text};

use crate::fields::{content, id, int, long};
use crate::list_fault::ListCause;
use crate::parts::{acl, path};
use crate::quoting::quoted;
use std::alloc::Global;
use zk_acl::Acls;
use zk_path::Path;
use zk_table::Content;

/// Advances the input unless the field was rejected.
fn move_on<'a, T>(
    read: Result<T, ListCause>,
    rest: &'a str,
    input: &mut &'a str,
) -> Result<T, ListCause>
    ensures same { result ≡ read }
    ensures moved { OnOk result (input.new.now ≡ rest.now) }
    ensures unchanged { OnErr result (input.new.now ≡ input.old.now) }
{
    if read.is_ok() {
        *input = rest;
    }
    read
}

/// Reads a zxid or a session id: sixteen lower-case hexadecimal digits.
pub fn read_id(input: &mut &str) -> Result<i64, ListCause>
    ensures found { ReadsFound (λ x. x) id_digits (FitsSigned w64) result input.old.now input.new.now }
    ensures only { ReadsOnly (λ x. x) id_digits (FitsSigned w64) result input.old.now input.new.now }
    ensures unchanged { OnErr result (input.new.now ≡ input.old.now) }
    ensures memory { IfErr result (λ cause. cause ≢ ListCause.NoMemory) }
{
    let mut rest = *input;
    let read = id(&mut rest);
    move_on(read, rest, input)
}

/// A decimal of 32 bits.
pub fn read_int(input: &mut &str) -> Result<i32, ListCause>
    ensures found { ReadsFound (λ x. x) signed_decimal (FitsSigned w32) result input.old.now input.new.now }
    ensures only { ReadsOnly (λ x. x) signed_decimal (FitsSigned w32) result input.old.now input.new.now }
    ensures unchanged { OnErr result (input.new.now ≡ input.old.now) }
    ensures memory { IfErr result (λ cause. cause ≢ ListCause.NoMemory) }
{
    let mut rest = *input;
    let read = int(&mut rest);
    move_on(read, rest, input)
}

/// A decimal of 64 bits.
pub fn read_long(input: &mut &str) -> Result<i64, ListCause>
    ensures found { ReadsFound (λ x. x) signed_decimal (FitsSigned w64) result input.old.now input.new.now }
    ensures only { ReadsOnly (λ x. x) signed_decimal (FitsSigned w64) result input.old.now input.new.now }
    ensures unchanged { OnErr result (input.new.now ≡ input.old.now) }
    ensures memory { IfErr result (λ cause. cause ≢ ListCause.NoMemory) }
{
    let mut rest = *input;
    let read = long(&mut rest);
    move_on(read, rest, input)
}

pub fn read_quoted(alloc: Global, input: &mut &str) -> Result<String, ListCause>
    ensures found { ReadsFound (λ x. string_bytes x) quoted IsUtf8 result input.old.now input.new.now }
    ensures only { ReadsOnly (λ x. string_bytes x) quoted IsUtf8 result input.old.now input.new.now }
    ensures unchanged { OnErr result (input.new.now ≡ input.old.now) }
{
    let mut rest = *input;
    let read = quoted(alloc, &mut rest);
    move_on(read, rest, input)
}

/// A path between quotes.
pub fn read_path(alloc: Global, input: &mut &str) -> Result<Path, ListCause>
    ensures found { ReadsFound (λ x. x) quoted IsListedPath result input.old.now input.new.now }
    ensures only { ReadsOnly (λ x. x) quoted IsListedPath result input.old.now input.new.now }
    ensures unchanged { OnErr result (input.new.now ≡ input.old.now) }
{
    let mut rest = *input;
    let read = path(alloc, &mut rest);
    move_on(read, rest, input)
}

/// A node's content: `-` for null, else `x` and two lower-case hexadecimal digits for each byte.
pub fn read_content(alloc: Global, input: &mut &str) -> Result<Option<Content>, ListCause>
    ensures found { ReadsFound (λ x. x) content_text IsListedContent result input.old.now input.new.now }
    ensures only { ReadsOnly (λ x. x) content_text IsListedContent result input.old.now input.new.now }
    ensures unchanged { OnErr result (input.new.now ≡ input.old.now) }
{
    let mut rest = *input;
    let read = content(alloc, &mut rest);
    move_on(read, rest, input)
}

/// An access control list: the number of its entries, and for each its permissions, scheme and
/// identity.
pub fn read_acl(alloc: Global, input: &mut &str) -> Result<Acls, ListCause>
    ensures found { ReadsFound (λ x. x) acl_text AreListedAcls result input.old.now input.new.now }
    ensures only { ReadsOnly (λ x. x) acl_text AreListedAcls result input.old.now input.new.now }
    ensures unchanged { OnErr result (input.new.now ≡ input.old.now) }
{
    let mut rest = *input;
    let read = acl(alloc, &mut rest);
    move_on(read, rest, input)
}
