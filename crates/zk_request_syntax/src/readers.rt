//! Public readers of fields. Each takes its field from the beginning of its input; after an error
//! the input is unchanged. A reader without an allocator never fails to allocate.
ghost use Rattle.std.specs.Prelude.{◌≡◌, ◌≢◌, IfErr, OnErr};
ghost use Rattle.zk_listing.specs.Reading.{Takes, spaced};
ghost use Rattle.zk_request_syntax.specs.Reading.{id_field_at, int_field_at, long_field_at, number_at, ids_at, request_at, lookup_at};

use crate::fields::{id, int, long};
use crate::lookups::{Lookup, lookup_by_word};
use crate::numbers::number;
use crate::requests::request;
use crate::spaced::ids;
use crate::words::take_space;
use std::alloc::Global;
use zk_acl::Ids;
use zk_listing::ListCause;
use zk_requests::Request;

/// Takes the number of a transaction or a session: sixteen lower-case hexadecimal digits.
pub fn take_id(input: &mut &str) -> Result<i64, ListCause>
    ensures taken { Takes result input.new.now (id_field_at input.old.now) }
    ensures unchanged { OnErr result (input.new.now ≡ input.old.now) }
    ensures memory { IfErr result (λ cause. cause ≢ ListCause.NoMemory) }
{
    let mut rest = *input;
    let id = id(&mut rest)?;
    *input = rest;
    Ok(id)
}

/// Takes a decimal of 32 bits.
pub fn take_int(input: &mut &str) -> Result<i32, ListCause>
    ensures taken { Takes result input.new.now (int_field_at input.old.now) }
    ensures unchanged { OnErr result (input.new.now ≡ input.old.now) }
    ensures memory { IfErr result (λ cause. cause ≢ ListCause.NoMemory) }
{
    let mut rest = *input;
    let int = int(&mut rest)?;
    *input = rest;
    Ok(int)
}

/// Takes a decimal of 64 bits.
pub fn take_long(input: &mut &str) -> Result<i64, ListCause>
    ensures taken { Takes result input.new.now (long_field_at input.old.now) }
    ensures unchanged { OnErr result (input.new.now ≡ input.old.now) }
    ensures memory { IfErr result (λ cause. cause ≢ ListCause.NoMemory) }
{
    let mut rest = *input;
    let long = long(&mut rest)?;
    *input = rest;
    Ok(long)
}

/// Takes a decimal of 64 bits without a sign: `0`, or digits of which the first is not 0.
pub fn take_number(input: &mut &str) -> Result<u64, ListCause>
    ensures taken { Takes result input.new.now (number_at input.old.now) }
    ensures unchanged { OnErr result (input.new.now ≡ input.old.now) }
    ensures memory { IfErr result (λ cause. cause ≢ ListCause.NoMemory) }
{
    let mut rest = *input;
    let number = number(&mut rest)?;
    *input = rest;
    Ok(number)
}

/// Takes identities by digests: their number, and the text of each between quotes.
pub fn take_ids(alloc: Global, input: &mut &str) -> Result<Ids, ListCause>
    ensures taken { Takes result input.new.now (ids_at input.old.now) }
    ensures unchanged { OnErr result (input.new.now ≡ input.old.now) }
{
    let mut rest = *input;
    let ids = ids(alloc, &mut rest)?;
    *input = rest;
    Ok(ids)
}

/// Takes a request, and leaves what comes after it; a multi takes everything.
pub fn take_request(alloc: Global, input: &mut &str) -> Result<Request, ListCause>
    ensures taken { Takes result input.new.now (request_at input.old.now) }
    ensures unchanged { OnErr result (input.new.now ≡ input.old.now) }
{
    let mut rest = *input;
    let request = request(alloc, &mut rest)?;
    *input = rest;
    Ok(request)
}

/// Takes a read, and leaves what comes after it.
pub fn take_lookup(alloc: Global, input: &mut &str) -> Result<Lookup, ListCause>
    ensures taken { Takes result input.new.now (lookup_at input.old.now) }
    ensures unchanged { OnErr result (input.new.now ≡ input.old.now) }
{
    let mut rest = *input;
    let lookup = lookup_by_word(alloc, &mut rest)?;
    *input = rest;
    Ok(lookup)
}

/// Takes a space and a request; a multi takes everything.
pub fn spaced_request(alloc: Global, input: &mut &str) -> Result<Request, ListCause>
    ensures taken { Takes result input.new.now (spaced request_at input.old.now) }
    ensures unchanged { OnErr result (input.new.now ≡ input.old.now) }
{
    let mut rest = *input;
    take_space(&mut rest)?;
    let request = request(alloc, &mut rest)?;
    *input = rest;
    Ok(request)
}

/// Takes a space and a read.
pub fn spaced_lookup(alloc: Global, input: &mut &str) -> Result<Lookup, ListCause>
    ensures taken { Takes result input.new.now (spaced lookup_at input.old.now) }
    ensures unchanged { OnErr result (input.new.now ≡ input.old.now) }
{
    let mut rest = *input;
    take_space(&mut rest)?;
    let lookup = lookup_by_word(alloc, &mut rest)?;
    *input = rest;
    Ok(lookup)
}
