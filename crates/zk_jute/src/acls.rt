//! Access control lists in a record.

ghost use Rattle.std.specs.Prelude.{◌≡◌, Ok, IfSome, IfNone, IsTrue, length};
ghost use Rattle.zk_jute.specs.Reading.{Takes, many_at, acl_at, vector_at};

use crate::fault::JuteFault;
use crate::fields::{count, int, text, utf8};
use std::alloc::Global;
use zk_acl::{Acl, Acls, Id};

/// `ACL`.
#[tactic(auto, unfolding(crate::specs::Reading::acl_at))]
fn acl(alloc: Global, input: &mut &[u8]) -> Result<Acl, JuteFault>
    ensures { Takes result input.new.now (acl_at input.old.now) }
{
    let perms = int(input)?;
    let scheme = text(alloc, input)?;
    let id = text(alloc, input)?;
    Ok(Acl {
        perms,
        id: Id { scheme, id },
    })
}

/// Reads `count` entries.
fn entries(alloc: Global, count: u32, input: &mut &[u8]) -> Result<Acls, JuteFault>
    ensures { Takes result input.new.now (many_at acl_at count input.old.now) }
{
    let mut entries = Vec::new(alloc);
    for _ in 0..count {
        entries.push(acl(alloc, input)?)?;
    }
    Ok(Acls::new(alloc, entries)?)
}

/// A vector of `ACL`. Most lists in a log are equal: a list equal to `earlier` shares its entries
/// without allocating. Any other list becomes `earlier`.
#[tactic(auto, unfolding(crate::specs::Reading::vector_at))]
pub fn acl_vector(
    alloc: Global,
    earlier: &mut Option<Acls>,
    input: &mut &[u8],
) -> Result<Acls, JuteFault>
    ensures { Takes result input.new.now (vector_at acl_at input.old.now) }
{
    let count = count(input)?;
    if let Some(shared) = the_earlier(earlier, count, input) {
        return Ok(shared);
    }
    let read = entries(alloc, count, input)?;
    *earlier = read.copy().ok();
    Ok(read)
}

/// The earlier list, if it has `count` entries and they come next. Otherwise the input does not
/// advance.
fn the_earlier(earlier: &Option<Acls>, count: u32, input: &mut &[u8]) -> Option<Acls>
    ensures found { IfSome result (λ acls. many_at acl_at count input.old.now ≡ Ok (acls, input.new.now)) }
    ensures stays { IfNone result (input.new.now ≡ input.old.now) }
{
    let Some(earlier) = earlier else {
        return None;
    };
    if earlier.as_slice().len() != count as usize {
        return None;
    }
    let mut rest = *input;
    if !stand_next(earlier.as_slice(), &mut rest) {
        return None;
    }
    let Ok(shared) = earlier.copy() else {
        return None;
    };
    *input = rest;
    Some(shared)
}

/// Whether these entries come next, in order.
fn stand_next(entries: &[Acl], input: &mut &[u8]) -> bool
    ensures { IsTrue result → many_at acl_at (length entries.now) input.old.now ≡ Ok (entries.now, input.new.now) }
{
    for entry in entries {
        if !stands_next(entry, input) {
            return false;
        }
    }
    true
}

/// Whether an entry comes next.
#[tactic(auto, unfolding(crate::specs::Reading::acl_at))]
fn stands_next(entry: &Acl, input: &mut &[u8]) -> bool
    ensures { IsTrue result → acl_at input.old.now ≡ Ok (entry.now, input.new.now) }
{
    let Ok(perms) = int(input) else {
        return false;
    };
    let Ok(scheme) = utf8(input) else {
        return false;
    };
    let Ok(id) = utf8(input) else {
        return false;
    };
    perms == entry.perms && scheme == entry.id.scheme.as_str() && id == entry.id.id.as_str()
}
