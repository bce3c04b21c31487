//! The parts of a multi.

ghost use Rattle.zk_jute.specs.Reading.{Takes, many_at, vector_at, check_at, part_kind_at, part_body_at, part_at};

use crate::bodies::{create, set_data};
use crate::fault::JuteFault;
use crate::fields::{count, counted, int, path};
use std::alloc::Global;
use zk_acl::Acls;
use zk_records::kinds;
use zk_table::{Sub, Subs};

/// The operation of a part.
#[derive(Clone, Copy, Debug)]
pub(crate) enum PartKind {
    Create,
    Delete,
    SetData,
    Check,
    Error,
}

#[tactic(auto, unfolding(crate::specs::Reading::part_kind_at))]
fn part_kind(input: &mut &[u8]) -> Result<PartKind, JuteFault>
    ensures { Takes result input.new.now (part_kind_at input.old.now) }
{
    let kind = int(input)?;
    match kind {
        kinds::CREATE => Ok(PartKind::Create),
        kinds::DELETE => Ok(PartKind::Delete),
        kinds::SET_DATA => Ok(PartKind::SetData),
        kinds::CHECK => Ok(PartKind::Check),
        kinds::ERROR => Ok(PartKind::Error),
        _ => Err(JuteFault::Kind),
    }
}

/// `CheckVersionTxn`.
#[tactic(auto, unfolding(crate::specs::Reading::check_at))]
pub fn check(alloc: Global, input: &mut &[u8]) -> Result<Sub, JuteFault>
    ensures { Takes result input.new.now (check_at input.old.now) }
{
    let path = path(alloc, input)?;
    let version = int(input)?;
    Ok(Sub::Check { path, version })
}

#[tactic(auto, unfolding(crate::specs::Reading::part_body_at))]
fn part_body(
    alloc: Global,
    earlier: &mut Option<Acls>,
    kind: PartKind,
    input: &mut &[u8],
) -> Result<Sub, JuteFault>
    ensures { Takes result input.new.now (part_body_at kind input.old.now) }
{
    match kind {
        PartKind::Create => Ok(create(alloc, earlier, input)?.into_part()),
        PartKind::Delete => Ok(Sub::Delete {
            path: path(alloc, input)?,
        }),
        PartKind::SetData => Ok(set_data(alloc, input)?.into_part()),
        PartKind::Check => check(alloc, input),
        PartKind::Error => Ok(Sub::Error { code: int(input)? }),
    }
}

/// `Txn`: a type, and the body inside a buffer.
#[tactic(auto, unfolding(crate::specs::Reading::part_at))]
fn part(alloc: Global, earlier: &mut Option<Acls>, input: &mut &[u8]) -> Result<Sub, JuteFault>
    ensures { Takes result input.new.now (part_at input.old.now) }
{
    let kind = part_kind(input)?;
    let mut body = counted(input)?;
    let part = part_body(alloc, earlier, kind, &mut body)?;
    if !body.is_empty() {
        return Err(JuteFault::Trailing);
    }
    Ok(part)
}

/// Reads `count` parts.
fn some_parts(
    alloc: Global,
    earlier: &mut Option<Acls>,
    count: u32,
    input: &mut &[u8],
) -> Result<Subs, JuteFault>
    ensures { Takes result input.new.now (many_at part_at count input.old.now) }
{
    let mut parts = Vec::new(alloc);
    for _ in 0..count {
        parts.push(part(alloc, earlier, input)?)?;
    }
    Ok(Subs::new(parts))
}

/// A vector of `Txn`.
#[tactic(auto, unfolding(crate::specs::Reading::vector_at))]
pub(crate) fn parts(
    alloc: Global,
    earlier: &mut Option<Acls>,
    input: &mut &[u8],
) -> Result<Subs, JuteFault>
    ensures { Takes result input.new.now (vector_at part_at input.old.now) }
{
    let count = count(input)?;
    some_parts(alloc, earlier, count, input)
}
