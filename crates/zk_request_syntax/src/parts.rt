//! Reads requests that change a node, and the parts of a multi.
ghost use Rattle.std.specs.Prelude.{◌≡◌};
ghost use Rattle.zk_listing.specs.Reading.{Takes, mapped};
ghost use Rattle.zk_request_syntax.specs.Promises.{ReadsAll};
ghost use Rattle.zk_request_syntax.specs.Reading.{created_at, written_at, named_at, part_at, next_part_at, parts_in, ContinuesParts, part_created, part_written};
ghost use Rattle.zk_request_syntax.specs.RequestLines.{flags_of, SpellsPart};

use crate::fields::{Created, Named, Written, alone};
use crate::spaced::{spaced_acl, spaced_content, spaced_int, spaced_text};
use crate::words::{flag, take_space, take_word};
use std::alloc::Global;
use zk_listing::ListCause;
use zk_requests::{Part, Parts};

/// Reads a part of a multi, without its newline: `create [-s] [-e] PATH CONTENT ACL`, `delete PATH
/// VERSION`, `set PATH CONTENT VERSION` or `check PATH VERSION`.
pub fn read_part(alloc: Global, line: &str) -> Result<Part, ListCause>
    ensures { ReadsAll SpellsPart line.now result }
{
    let mut rest = line;
    let read = part(alloc, &mut rest);
    alone(read, rest)
}

/// Reads the parts of a multi, each after its separator, up to the end of the input.
pub(crate) fn parts(alloc: Global, input: &mut &str) -> Result<Parts, ListCause>
    ensures { Takes result input.new.now (parts_in input.old.now) }
{
    let mut parts = Vec::new(alloc);
    while let Some(part) = next_part(alloc, input)? {
        parts.push(part)?;
    }
    Ok(Parts::new(parts))
}

/// Reads a separator and a part, or nothing at the end of the input.
fn next_part(alloc: Global, input: &mut &str) -> Result<Option<Part>, ListCause>
    ensures { ContinuesParts result input.new.now input.old.now }
{
    if input.is_empty() {
        return Ok(None);
    }
    let part = separated(alloc, input)?;
    Ok(Some(part))
}

/// Reads a separator and a part.
#[tactic(auto, unfolding(crate::specs::Reading::next_part_at))]
fn separated(alloc: Global, input: &mut &str) -> Result<Part, ListCause>
    ensures { Takes result input.new.now (next_part_at input.old.now) }
{
    if !flag(input, ";") {
        return Err(ListCause::Word);
    }
    take_space(input)?;
    part(alloc, input)
}

/// Reads a part, without its separator.
#[tactic(auto, unfolding(crate::specs::Reading::part_at))]
fn part(alloc: Global, input: &mut &str) -> Result<Part, ListCause>
    ensures { Takes result input.new.now (part_at input.old.now) }
{
    match take_word(input) {
        "create" => part_create(alloc, input),
        "delete" => {
            let Named { path, version } = named(alloc, input)?;
            Ok(Part::Delete { path, version })
        }
        "set" => part_set(alloc, input),
        "check" => {
            let Named { path, version } = named(alloc, input)?;
            Ok(Part::Check { path, version })
        }
        _ => Err(ListCause::Word),
    }
}

fn part_create(alloc: Global, input: &mut &str) -> Result<Part, ListCause>
    ensures { Takes result input.new.now (mapped part_created created_at input.old.now) }
{
    let fields = created(alloc, input)?;
    Ok(Part::Create {
        path: fields.path,
        content: fields.content,
        acl: fields.acl,
        flags: fields.flags,
    })
}

fn part_set(alloc: Global, input: &mut &str) -> Result<Part, ListCause>
    ensures { Takes result input.new.now (mapped part_written written_at input.old.now) }
{
    let fields = written(alloc, input)?;
    Ok(Part::SetData {
        path: fields.path,
        content: fields.content,
        version: fields.version,
    })
}

/// Returns the number of a create's flags.
fn flags_of(sequential: bool, ephemeral: bool) -> i32
    ensures { result ≡ flags_of sequential ephemeral }
{
    match (sequential, ephemeral) {
        (false, false) => 0,
        (false, true) => 1,
        (true, false) => 2,
        (true, true) => 3,
    }
}

/// Reads the fields of a create, after its word.
#[tactic(auto, unfolding(crate::specs::Reading::created_at, crate::specs::Reading::created_fields_at))]
pub(crate) fn created(alloc: Global, input: &mut &str) -> Result<Created, ListCause>
    ensures { Takes result input.new.now (created_at input.old.now) }
{
    let sequential = flag(input, "-s");
    let ephemeral = flag(input, "-e");
    let path = spaced_text(alloc, input)?;
    let content = spaced_content(alloc, input)?;
    let acl = spaced_acl(alloc, input)?;
    Ok(Created {
        path,
        content,
        acl,
        flags: flags_of(sequential, ephemeral),
    })
}

/// Reads the fields of a set, after its word.
#[tactic(auto, unfolding(crate::specs::Reading::written_at))]
pub(crate) fn written(alloc: Global, input: &mut &str) -> Result<Written, ListCause>
    ensures { Takes result input.new.now (written_at input.old.now) }
{
    let path = spaced_text(alloc, input)?;
    let content = spaced_content(alloc, input)?;
    let version = spaced_int(input)?;
    Ok(Written {
        path,
        content,
        version,
    })
}

/// Reads the fields of a delete or a check, after its word.
#[tactic(auto, unfolding(crate::specs::Reading::named_at))]
pub(crate) fn named(alloc: Global, input: &mut &str) -> Result<Named, ListCause>
    ensures { Takes result input.new.now (named_at input.old.now) }
{
    let path = spaced_text(alloc, input)?;
    let version = spaced_int(input)?;
    Ok(Named { path, version })
}
