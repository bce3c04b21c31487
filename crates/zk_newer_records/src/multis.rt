//! The parts of a multi.

ghost use Rattle.std.specs.Prelude.{◌≡◌, ℕ, ℤ, map, List};
ghost use Rattle.zk_jute.specs.Reading.{Takes, many_at, vector_at, made_of};
ghost use Rattle.zk_newer_records.specs.Reading.{part_with, ttl_part_at, newer_body_at, newer_part_at, multi_of};
ghost use Rattle.zk_newer_records.specs.declared.parts.PartEncoding.TheVariants as forms;

use crate::bodies::container;
use crate::kept::error;
use crate::kinds;
use crate::newer_record::Encoding;
use crate::operations::EncodedOp;
use crate::parts::{NewerPart, PartEncoding, PartEncodings};
use std::alloc::Global;
use zk_acl::Acls;
use zk_jute::bodies::{create, set_data};
use zk_jute::fields::{count, counted, int, long, path};
use zk_jute::multis::check;
use zk_jute::{JuteFault, kinds as old};
use zk_table::{Op, Sub, Subs};

/// A create, encoded as that of a node with a time to live.
#[tactic(auto, unfolding(crate::specs::Reading::ttl_part_at))]
fn ttl_part(
    alloc: Global,
    earlier: &mut Option<Acls>,
    input: &mut &[u8],
) -> Result<NewerPart, JuteFault>
    ensures { Takes result input.new.now (ttl_part_at forms.Ttl input.old.now) }
{
    let body = container(alloc, earlier, input)?;
    let ttl = long(input)?;
    Ok(NewerPart {
        sub: body.into_part(),
        form: PartEncoding::Ttl { ttl },
    })
}

/// A part in the 3.4 encoding.
fn own(sub: Sub) -> NewerPart
    ensures { result ≡ part_with forms.Own sub }
{
    NewerPart {
        sub,
        form: PartEncoding::Own,
    }
}

/// The body for a type of part.
#[tactic(auto, unfolding(crate::specs::Reading::newer_body_at))]
fn part_body(
    alloc: Global,
    earlier: &mut Option<Acls>,
    kind: i32,
    input: &mut &[u8],
) -> Result<NewerPart, JuteFault>
    ensures { Takes result input.new.now (newer_body_at kind input.old.now) }
{
    match kind {
        old::CREATE => Ok(own(create(alloc, earlier, input)?.into_part())),
        old::DELETE => Ok(own(Sub::Delete {
            path: path(alloc, input)?,
        })),
        old::SET_DATA => Ok(own(set_data(alloc, input)?.into_part())),
        old::CHECK => Ok(own(check(alloc, input)?)),
        kinds::CREATE_CONTAINER => Ok(NewerPart {
            sub: container(alloc, earlier, input)?.into_part(),
            form: PartEncoding::Container,
        }),
        kinds::DELETE_CONTAINER => Ok(NewerPart {
            sub: Sub::Delete {
                path: path(alloc, input)?,
            },
            form: PartEncoding::DeletedContainer,
        }),
        kinds::CREATE_TTL => ttl_part(alloc, earlier, input),
        old::ERROR => error(alloc, earlier, input),
        _ => Err(JuteFault::Kind),
    }
}

/// `Txn`: a type, and the body inside a buffer.
#[tactic(auto, unfolding(crate::specs::Reading::newer_part_at))]
fn part(
    alloc: Global,
    earlier: &mut Option<Acls>,
    input: &mut &[u8],
) -> Result<NewerPart, JuteFault>
    ensures { Takes result input.new.now (newer_part_at input.old.now) }
{
    let kind = int(input)?;
    let mut body = counted(input)?;
    let part = part_body(alloc, earlier, kind, &mut body)?;
    if !body.is_empty() {
        return Err(JuteFault::Trailing);
    }
    Ok(part)
}

/// Reads `count` parts.
fn some_parts(
    alloc: Global,
    earlier: &mut Option<Acls>,
    count: u32,
    input: &mut &[u8],
) -> Result<EncodedOp, JuteFault>
    ensures { Takes result input.new.now (made_of multi_of (many_at newer_part_at count input.old.now)) }
{
    let mut parts = Vec::new(alloc);
    let mut forms = Vec::new(alloc);
    for _ in 0..count {
        let NewerPart { sub, form } = part(alloc, earlier, input)?;
        parts.push(sub)?;
        forms.push(form)?;
    }
    Ok(EncodedOp {
        op: Op::Multi {
            parts: Subs::new(parts),
        },
        form: Encoding::Parts {
            forms: PartEncodings::new(forms),
        },
    })
}

/// A vector of `Txn`.
#[tactic(auto, unfolding(zk_jute::specs::Reading::vector_at))]
pub(crate) fn multi(
    alloc: Global,
    earlier: &mut Option<Acls>,
    input: &mut &[u8],
) -> Result<EncodedOp, JuteFault>
    ensures { Takes result input.new.now (made_of multi_of (vector_at newer_part_at input.old.now)) }
{
    let count = count(input)?;
    some_parts(alloc, earlier, count, input)
}
