//! Fields after a space. After an error of a public reader the input is unchanged.
ghost use Rattle.std.specs.Prelude.{◌≡◌, ◌≢◌, IfErr, OnErr};
ghost use Rattle.zk_listing.specs.Reading.{Takes, spaced, many_at};
ghost use Rattle.zk_request_syntax.specs.Reading.{id_field_at, int_field_at, long_field_at, number_at, text_field_at, acl_field_at, content_field_at, digest_at, ids_at};

use crate::fields::{acl, content, id, int, long, text};
use crate::numbers::number;
use crate::words::take_space;
use std::alloc::Global;
use zk_acl::{Acls, Id, Ids, Text};
use zk_listing::ListCause;
use zk_table::Content;

/// Takes a space and the number of a transaction or a session.
pub fn spaced_id(input: &mut &str) -> Result<i64, ListCause>
    ensures taken { Takes result input.new.now (spaced id_field_at input.old.now) }
    ensures unchanged { OnErr result (input.new.now ≡ input.old.now) }
    ensures memory { IfErr result (λ cause. cause ≢ ListCause.NoMemory) }
{
    let mut rest = *input;
    take_space(&mut rest)?;
    let id = id(&mut rest)?;
    *input = rest;
    Ok(id)
}

/// Takes a space and a decimal of 32 bits.
pub fn spaced_int(input: &mut &str) -> Result<i32, ListCause>
    ensures taken { Takes result input.new.now (spaced int_field_at input.old.now) }
    ensures unchanged { OnErr result (input.new.now ≡ input.old.now) }
    ensures memory { IfErr result (λ cause. cause ≢ ListCause.NoMemory) }
{
    let mut rest = *input;
    take_space(&mut rest)?;
    let int = int(&mut rest)?;
    *input = rest;
    Ok(int)
}

/// Takes a space and a decimal of 64 bits.
pub fn spaced_long(input: &mut &str) -> Result<i64, ListCause>
    ensures taken { Takes result input.new.now (spaced long_field_at input.old.now) }
    ensures unchanged { OnErr result (input.new.now ≡ input.old.now) }
    ensures memory { IfErr result (λ cause. cause ≢ ListCause.NoMemory) }
{
    let mut rest = *input;
    take_space(&mut rest)?;
    let long = long(&mut rest)?;
    *input = rest;
    Ok(long)
}

/// Takes a space and a decimal of 64 bits without a sign.
pub fn spaced_number(input: &mut &str) -> Result<u64, ListCause>
    ensures taken { Takes result input.new.now (spaced number_at input.old.now) }
    ensures unchanged { OnErr result (input.new.now ≡ input.old.now) }
    ensures memory { IfErr result (λ cause. cause ≢ ListCause.NoMemory) }
{
    let mut rest = *input;
    take_space(&mut rest)?;
    let number = number(&mut rest)?;
    *input = rest;
    Ok(number)
}

/// Takes a space and identities by digests.
pub fn spaced_ids(alloc: Global, input: &mut &str) -> Result<Ids, ListCause>
    ensures taken { Takes result input.new.now (spaced ids_at input.old.now) }
    ensures unchanged { OnErr result (input.new.now ≡ input.old.now) }
{
    let mut rest = *input;
    take_space(&mut rest)?;
    let ids = ids(alloc, &mut rest)?;
    *input = rest;
    Ok(ids)
}

pub(crate) fn spaced_text(alloc: Global, input: &mut &str) -> Result<Text, ListCause>
    ensures { Takes result input.new.now (spaced text_field_at input.old.now) }
{
    take_space(input)?;
    text(alloc, input)
}

pub(crate) fn spaced_acl(alloc: Global, input: &mut &str) -> Result<Acls, ListCause>
    ensures { Takes result input.new.now (spaced acl_field_at input.old.now) }
{
    take_space(input)?;
    acl(alloc, input)
}

pub(crate) fn spaced_content(alloc: Global, input: &mut &str) -> Result<Option<Content>, ListCause>
    ensures { Takes result input.new.now (spaced content_field_at input.old.now) }
{
    take_space(input)?;
    content(alloc, input)
}

/// Reads identities by digests: their number, and the text of each between quotes.
#[tactic(auto, unfolding(crate::specs::Reading::ids_at))]
pub(crate) fn ids(alloc: Global, input: &mut &str) -> Result<Ids, ListCause>
    ensures { Takes result input.new.now (ids_at input.old.now) }
{
    let count = number(input)?;
    digests(alloc, count, input)
}

/// Reads `count` identities.
fn digests(alloc: Global, count: u64, input: &mut &str) -> Result<Ids, ListCause>
    ensures { Takes result input.new.now (many_at digest_at count input.old.now) }
{
    let mut ids = Vec::new(alloc);
    for _ in 0..count {
        ids.push(digest(alloc, input)?)?;
    }
    Ok(Ids::new(ids))
}

/// Reads a space, and the text of an identity.
#[tactic(auto, unfolding(crate::specs::Reading::digest_at))]
fn digest(alloc: Global, input: &mut &str) -> Result<Id, ListCause>
    ensures { Takes result input.new.now (digest_at input.old.now) }
{
    let id = spaced_text(alloc, input)?;
    let scheme = Text::read(alloc, "digest")?;
    Ok(Id { scheme, id })
}
