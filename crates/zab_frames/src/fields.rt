//! Fields of a message, each read from the start of the remaining bytes.

ghost use Rattle.std.specs.Int.{w32, w64};
ghost use Rattle.zk_jute.specs.Reading.{Takes, TakesBy, many_at};
ghost use Rattle.zab_frames.specs.Reading.{natural_at, counted_at, text_at, optional_at, list_at, identity_at, acl_at};

use bytes::Buf;
use std::alloc::Global;
use zk_acl::{Acl, Acls, Id, Ids, Text};
use zk_jute::JuteFault;
use zk_jute::fields::{boolean, int};
use zk_table::Content;

/// Four bytes without a sign.
pub(crate) fn word(input: &mut &[u8]) -> Result<u32, JuteFault>
    ensures { Takes result input.new.now (natural_at w32 input.old.now) }
{
    input.try_get_u32().map_err(|_| JuteFault::Short)
}

/// Eight bytes without a sign.
pub(crate) fn long_word(input: &mut &[u8]) -> Result<u64, JuteFault>
    ensures { Takes result input.new.now (natural_at w64 input.old.now) }
{
    input.try_get_u64().map_err(|_| JuteFault::Short)
}

/// A length, and that number of bytes.
#[tactic(auto, unfolding(crate::specs::Reading::counted_at))]
fn counted<'a>(input: &mut &'a [u8]) -> Result<&'a [u8], JuteFault>
    ensures { TakesBy (λ x. x.now) result input.new.now (counted_at input.old.now) }
{
    let count = long_word(input)? as usize;
    if input.remaining() < count {
        return Err(JuteFault::Short);
    }
    let (front, rest) = input.split_at(count);
    *input = rest;
    Ok(front)
}

#[tactic(auto, using(zk_jute::proofs::Texts::is_text, zk_jute::proofs::Texts::is_no_text), unfolding(crate::specs::Reading::text_at))]
fn utf8<'a>(input: &mut &'a [u8]) -> Result<&'a str, JuteFault>
    ensures { TakesBy (λ x. x.now) result input.new.now (text_at input.old.now) }
{
    let bytes = counted(input)?;
    std::str::from_utf8(bytes).map_err(|_| JuteFault::Text)
}

pub(crate) fn text(alloc: Global, input: &mut &[u8]) -> Result<Text, JuteFault>
    ensures { Takes result input.new.now (text_at input.old.now) }
{
    let text = utf8(input)?;
    Ok(Text::read(alloc, text)?)
}

/// Whether there is content, and then its bytes.
#[tactic(auto, unfolding(crate::specs::Reading::optional_at))]
pub(crate) fn content(alloc: Global, input: &mut &[u8]) -> Result<Option<Content>, JuteFault>
    ensures { Takes result input.new.now (optional_at input.old.now) }
{
    if !boolean(input)? {
        return Ok(None);
    }
    let bytes = counted(input)?;
    Ok(Some(Content::read(alloc, bytes)?))
}

#[tactic(auto, unfolding(crate::specs::Reading::identity_at))]
fn identity(alloc: Global, input: &mut &[u8]) -> Result<Id, JuteFault>
    ensures { Takes result input.new.now (identity_at input.old.now) }
{
    let scheme = text(alloc, input)?;
    let id = text(alloc, input)?;
    Ok(Id { scheme, id })
}

fn some_identities(alloc: Global, count: u64, input: &mut &[u8]) -> Result<Ids, JuteFault>
    ensures { Takes result input.new.now (many_at identity_at count input.old.now) }
{
    let mut ids = Vec::new(alloc);
    for _ in 0..count {
        ids.push(identity(alloc, input)?)?;
    }
    Ok(Ids::new(ids))
}

#[tactic(auto, unfolding(crate::specs::Reading::list_at))]
pub(crate) fn identities(alloc: Global, input: &mut &[u8]) -> Result<Ids, JuteFault>
    ensures { Takes result input.new.now (list_at identity_at input.old.now) }
{
    let count = long_word(input)?;
    some_identities(alloc, count, input)
}

#[tactic(auto, unfolding(crate::specs::Reading::acl_at))]
fn acl(alloc: Global, input: &mut &[u8]) -> Result<Acl, JuteFault>
    ensures { Takes result input.new.now (acl_at input.old.now) }
{
    let perms = int(input)?;
    let id = identity(alloc, input)?;
    Ok(Acl { perms, id })
}

fn some_acls(alloc: Global, count: u64, input: &mut &[u8]) -> Result<Acls, JuteFault>
    ensures { Takes result input.new.now (many_at acl_at count input.old.now) }
{
    let mut entries = Vec::new(alloc);
    for _ in 0..count {
        entries.push(acl(alloc, input)?)?;
    }
    Ok(Acls::new(alloc, entries)?)
}

#[tactic(auto, unfolding(crate::specs::Reading::list_at))]
pub(crate) fn acls(alloc: Global, input: &mut &[u8]) -> Result<Acls, JuteFault>
    ensures { Takes result input.new.now (list_at acl_at input.old.now) }
{
    let count = long_word(input)?;
    some_acls(alloc, count, input)
}
