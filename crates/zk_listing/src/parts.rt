//! Readers of paths and access control lists, and of fields after a space.
ghost use Rattle.std.specs.Prelude.{◌≡◌};
ghost use Rattle.std.specs.Int.{w32, w64};
ghost use Rattle.std.specs.String.{string_bytes};
ghost use Rattle.zk_listing.specs.Reading.{Takes, TakesBy, Makes, TakesUnit, past, spaced, path_from, path_at, entry_at, acl_at, id_at, int_at, content_at, many_at};

use crate::fields::{content, count, id, int, long};
use crate::list_fault::ListCause;
use crate::quoting::quoted;
use std::alloc::Global;
use zk_acl::{Acl, Acls, Id, Text};
use zk_path::{Path, PathFault};
use zk_table::Content;

/// The path of a node, quoted.
#[tactic(auto, unfolding(crate::specs::Reading::path_at))]
pub(crate) fn path(alloc: Global, input: &mut &str) -> Result<Path, ListCause>
    ensures { Takes result input.new.now (path_at input.old.now) }
{
    let text = quoted(alloc, input)?;
    path_of(alloc, text.as_str())
}

#[tactic(auto, unfolding(crate::specs::Reading::path_from))]
fn path_of(alloc: Global, text: &str) -> Result<Path, ListCause>
    ensures { Makes result (path_from text.now) }
{
    match Path::read(alloc, text) {
        Ok(path) => Ok(path),
        Err(PathFault::NoMemory) => Err(ListCause::NoMemory),
        Err(_) => Err(ListCause::Path),
    }
}

pub(crate) fn space(input: &mut &str) -> Result<(), ListCause>
    ensures { TakesUnit result input.new.now (past 32 input.old.now) }
{
    match input.strip_prefix(' ') {
        Some(rest) => {
            *input = rest;
            Ok(())
        }
        None => Err(ListCause::Fields),
    }
}

pub(crate) fn spaced_path(alloc: Global, input: &mut &str) -> Result<Path, ListCause>
    ensures { Takes result input.new.now (spaced path_at input.old.now) }
{
    space(input)?;
    path(alloc, input)
}

pub(crate) fn spaced_int(input: &mut &str) -> Result<i32, ListCause>
    ensures { Takes result input.new.now (spaced (int_at w32) input.old.now) }
{
    space(input)?;
    int(input)
}

pub(crate) fn spaced_id(input: &mut &str) -> Result<i64, ListCause>
    ensures { Takes result input.new.now (spaced id_at input.old.now) }
{
    space(input)?;
    id(input)
}

pub(crate) fn spaced_long(input: &mut &str) -> Result<i64, ListCause>
    ensures { Takes result input.new.now (spaced (int_at w64) input.old.now) }
{
    space(input)?;
    long(input)
}

pub(crate) fn spaced_content(alloc: Global, input: &mut &str) -> Result<Option<Content>, ListCause>
    ensures { Takes result input.new.now (spaced content_at input.old.now) }
{
    space(input)?;
    content(alloc, input)
}

pub(crate) fn spaced_acl(alloc: Global, input: &mut &str) -> Result<Acls, ListCause>
    ensures { Takes result input.new.now (spaced acl_at input.old.now) }
{
    space(input)?;
    acl(alloc, input)
}

/// An access control list: the number of its entries, and the three fields of each.
#[tactic(auto, unfolding(crate::specs::Reading::acl_at))]
pub(crate) fn acl(alloc: Global, input: &mut &str) -> Result<Acls, ListCause>
    ensures { Takes result input.new.now (acl_at input.old.now) }
{
    let count = count(input)?;
    entries(alloc, count, input)
}

/// Reads `count` entries of an access control list.
fn entries(alloc: Global, count: u32, input: &mut &str) -> Result<Acls, ListCause>
    ensures { Takes result input.new.now (many_at entry_at count input.old.now) }
{
    let mut entries = Vec::new(alloc);
    for _ in 0..count {
        entries.push(entry(alloc, input)?)?;
    }
    Ok(Acls::new(alloc, entries)?)
}

/// A space, and the fields of an entry.
#[tactic(auto, unfolding(crate::specs::Reading::entry_at))]
fn entry(alloc: Global, input: &mut &str) -> Result<Acl, ListCause>
    ensures { Takes result input.new.now (entry_at input.old.now) }
{
    let perms = spaced_int(input)?;
    space(input)?;
    let scheme = Text::new(quoted(alloc, input)?);
    space(input)?;
    let id = Text::new(quoted(alloc, input)?);
    Ok(Acl {
        perms,
        id: Id { scheme, id },
    })
}
