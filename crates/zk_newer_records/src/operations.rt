//! The bodies of records, one for each type of operation.

ghost use Rattle.std.specs.Prelude.{◌≡◌};
ghost use Rattle.zk_jute.specs.Reading.{Takes, made_of, many_at, vector_at, path_at, check_at};
ghost use Rattle.zk_newer_records.specs.Reading.{check_alone, ttl_at, listing_close_at, close_at, written_at, with_form};
ghost use Rattle.zk_newer_records.specs.declared.newer_record.Encoding.TheVariants as forms;

use crate::bodies::container;
use crate::kinds;
use crate::multis::multi;
use crate::newer_record::{ClosedPaths, Encoding};
use std::alloc::Global;
use zk_acl::Acls;
use zk_jute::bodies::{create, set_data};
use zk_jute::fields::{count, int, long, path};
use zk_jute::multis::check;
use zk_jute::operations::op;
use zk_jute::{JuteFault, kinds as old};
use zk_table::{Op, Sub, Subs};

/// An operation and its encoding.
#[derive(Debug, Drop)]
pub(crate) struct EncodedOp {
    pub(crate) op: Op,
    pub(crate) form: Encoding,
}

/// A check that occurs alone, as a multi of it.
#[tactic(auto, unfolding(crate::specs::Reading::written_at))]
fn check_alone(alloc: Global, input: &mut &[u8]) -> Result<EncodedOp, JuteFault>
    ensures { Takes result input.new.now (made_of check_alone (check_at input.old.now)) }
{
    let check = check(alloc, input)?;
    let mut parts = Vec::new(alloc);
    parts.push(check)?;
    Ok(EncodedOp {
        op: Op::Multi {
            parts: Subs::new(parts),
        },
        form: Encoding::CheckAlone,
    })
}

/// A create, encoded as that of a node with a time to live.
#[tactic(auto, unfolding(crate::specs::Reading::ttl_at))]
fn ttl(alloc: Global, earlier: &mut Option<Acls>, input: &mut &[u8]) -> Result<EncodedOp, JuteFault>
    ensures { Takes result input.new.now (ttl_at input.old.now) }
{
    let body = container(alloc, earlier, input)?;
    let ttl = long(input)?;
    Ok(EncodedOp {
        op: body.into_op(),
        form: Encoding::Ttl { ttl },
    })
}

/// Reads `count` paths.
fn some_paths(alloc: Global, count: u32, input: &mut &[u8]) -> Result<ClosedPaths, JuteFault>
    ensures { Takes result input.new.now (many_at path_at count input.old.now) }
{
    let mut paths = Vec::new(alloc);
    for _ in 0..count {
        paths.push(path(alloc, input)?)?;
    }
    Ok(ClosedPaths::new(paths))
}

/// A closed session, with a list of paths.
#[tactic(auto, unfolding(crate::specs::Reading::listing_close_at, zk_jute::specs::Reading::vector_at))]
fn listing_close(alloc: Global, input: &mut &[u8]) -> Result<EncodedOp, JuteFault>
    ensures { Takes result input.new.now (listing_close_at input.old.now) }
{
    let count = count(input)?;
    let listed = some_paths(alloc, count, input)?;
    Ok(EncodedOp {
        op: Op::CloseSession,
        form: Encoding::ClosePaths { listed },
    })
}

/// A closed session, with or without a list of paths. Twelve bytes that start with a 2 are a
/// digest, since two paths need more.
#[tactic(auto, unfolding(crate::specs::Reading::close_at))]
fn close(alloc: Global, input: &mut &[u8]) -> Result<EncodedOp, JuteFault>
    ensures { Takes result input.new.now (close_at input.old.now) }
{
    let bare = EncodedOp {
        op: Op::CloseSession,
        form: Encoding::Own,
    };
    if input.is_empty() {
        return Ok(bare);
    }
    if input.len() == 12 {
        let mut ahead = *input;
        if int(&mut ahead)? == 2 {
            return Ok(bare);
        }
    }
    listing_close(alloc, input)
}

/// The body for a type.
#[tactic(auto, unfolding(crate::specs::Reading::written_at))]
pub(crate) fn written(
    alloc: Global,
    earlier: &mut Option<Acls>,
    kind: i32,
    input: &mut &[u8],
) -> Result<EncodedOp, JuteFault>
    ensures { Takes result input.new.now (written_at kind input.old.now) }
{
    match kind {
        old::CHECK => check_alone(alloc, input),
        old::MULTI => multi(alloc, earlier, input),
        kinds::CREATE2 => Ok(EncodedOp {
            op: create(alloc, earlier, input)?.into_op(),
            form: Encoding::Create2,
        }),
        kinds::RECONFIG => Ok(EncodedOp {
            op: set_data(alloc, input)?.into_op(),
            form: Encoding::Reconfig,
        }),
        kinds::CREATE_CONTAINER => Ok(EncodedOp {
            op: container(alloc, earlier, input)?.into_op(),
            form: Encoding::Container,
        }),
        kinds::DELETE_CONTAINER => Ok(EncodedOp {
            op: Op::Delete {
                path: path(alloc, input)?,
            },
            form: Encoding::DeletedContainer,
        }),
        kinds::CREATE_TTL => ttl(alloc, earlier, input),
        old::CLOSE_SESSION => close(alloc, input),
        kind => Ok(EncodedOp {
            op: op(alloc, earlier, kind, input)?,
            form: Encoding::Own,
        }),
    }
}
