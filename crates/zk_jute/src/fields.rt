//! Fields of a record, each read from the start of the remaining bytes.

ghost use Rattle.std.specs.Int.{w32, w64};
ghost use Rattle.zk_jute.specs.Reading.{Takes, TakesBy, number_at, bytes_at, count_at, counted_at, text_at, path_at, content_at, boolean_at};

use crate::fault::JuteFault;
use bytes::Buf;
use std::alloc::Global;
use zk_acl::Text;
use zk_path::Path;
use zk_table::Content;

/// Four bytes, in two's complement.
pub fn int(input: &mut &[u8]) -> Result<i32, JuteFault>
    ensures { Takes result input.new.now (number_at w32 input.old.now) }
{
    input.try_get_i32().map_err(|_| JuteFault::Short)
}

/// Eight bytes, in two's complement.
pub fn long(input: &mut &[u8]) -> Result<i64, JuteFault>
    ensures { Takes result input.new.now (number_at w64 input.old.now) }
{
    input.try_get_i64().map_err(|_| JuteFault::Short)
}

/// A length, or the number of elements of a vector.
#[tactic(auto, unfolding(crate::specs::Reading::count_at))]
pub fn count(input: &mut &[u8]) -> Result<u32, JuteFault>
    ensures { Takes result input.new.now (count_at input.old.now) }
{
    let count = int(input)?;
    u32::try_from(count).map_err(|_| JuteFault::Length)
}

/// Reads `len` bytes.
fn taken<'a>(input: &mut &'a [u8], len: usize) -> Result<&'a [u8], JuteFault>
    ensures { TakesBy (λ x. x.now) result input.new.now (bytes_at len input.old.now) }
{
    if input.remaining() < len {
        return Err(JuteFault::Short);
    }
    let (front, rest) = input.split_at(len);
    *input = rest;
    Ok(front)
}

/// A length, and that number of bytes.
#[tactic(auto, unfolding(crate::specs::Reading::counted_at))]
pub fn counted<'a>(input: &mut &'a [u8]) -> Result<&'a [u8], JuteFault>
    ensures { TakesBy (λ x. x.now) result input.new.now (counted_at input.old.now) }
{
    let len = count(input)?;
    taken(input, len as usize)
}

/// A `ustring`, borrowed.
#[tactic(auto, using(crate::proofs::Texts::is_text, crate::proofs::Texts::is_no_text), unfolding(crate::specs::Reading::text_at))]
pub fn utf8<'a>(input: &mut &'a [u8]) -> Result<&'a str, JuteFault>
    ensures { TakesBy (λ x. x.now) result input.new.now (text_at input.old.now) }
{
    let bytes = counted(input)?;
    std::str::from_utf8(bytes).map_err(|_| JuteFault::Text)
}

/// A `ustring`.
pub fn text(alloc: Global, input: &mut &[u8]) -> Result<Text, JuteFault>
    ensures { Takes result input.new.now (text_at input.old.now) }
{
    let text = utf8(input)?;
    Ok(Text::read(alloc, text)?)
}

/// A `ustring` that is the path of a node.
#[tactic(auto, unfolding(crate::specs::Reading::path_at))]
pub fn path(alloc: Global, input: &mut &[u8]) -> Result<Path, JuteFault>
    ensures { Takes result input.new.now (path_at input.old.now) }
{
    let text = utf8(input)?;
    Ok(Path::read(alloc, text)?)
}

/// A `buffer`, whose length is -1 for null.
#[tactic(auto, unfolding(crate::specs::Reading::content_at))]
pub fn content(alloc: Global, input: &mut &[u8]) -> Result<Option<Content>, JuteFault>
    ensures { Takes result input.new.now (content_at input.old.now) }
{
    let len = int(input)?;
    if len == -1 {
        return Ok(None);
    }
    let len = u32::try_from(len).map_err(|_| JuteFault::Length)?;
    let bytes = taken(input, len as usize)?;
    Ok(Some(Content::read(alloc, bytes)?))
}

/// A byte that is 0 or 1.
#[tactic(auto, unfolding(crate::specs::Reading::boolean_at))]
pub fn boolean(input: &mut &[u8]) -> Result<bool, JuteFault>
    ensures { Takes result input.new.now (boolean_at input.old.now) }
{
    let byte = input.try_get_u8().map_err(|_| JuteFault::Short)?;
    match byte {
        0 => Ok(false),
        1 => Ok(true),
        _ => Err(JuteFault::Boolean),
    }
}
