//! The fields after a command's word, each the rest of its line.
ghost use Rattle.std.specs.Prelude.{◌≡◌};
ghost use Rattle.std.specs.Int.{w64};
ghost use Rattle.zk_listing.specs.Reading.{id_at, int_at, path_at};
ghost use Rattle.zk_debug.specs.Reading.{Makes, whole, number_of, number_from};

use crate::command_fault::CommandFault;
use std::alloc::Global;
use zk_listing::{read_id, read_long};
use zk_path::Path;

/// Sixteen lower-case hexadecimal digits.
pub(crate) fn id(field: &str) -> Result<i64, CommandFault>
    ensures { Makes result (whole (id_at field.now)) }
{
    let mut rest = field;
    let id = read_id(&mut rest)?;
    if !rest.is_empty() {
        return Err(CommandFault::Malformed);
    }
    Ok(id)
}

/// A decimal of 64 bits.
fn long(field: &str) -> Result<i64, CommandFault>
    ensures { Makes result (whole (int_at w64 field.now)) }
{
    let mut rest = field;
    let long = read_long(&mut rest)?;
    if !rest.is_empty() {
        return Err(CommandFault::Malformed);
    }
    Ok(long)
}

/// A decimal from 0 to 4294967295.
#[tactic(auto, unfolding(crate::specs::Reading::number_from))]
pub fn read_number(field: &str) -> Result<u32, CommandFault>
    ensures { Makes result (number_from field.now) }
{
    let long = long(field)?;
    u32::try_from(long).map_err(|_| CommandFault::Malformed)
}

/// A path between quotes.
pub fn read_path(alloc: Global, field: &str) -> Result<Path, CommandFault>
    ensures { Makes result (whole (path_at field.now)) }
{
    let mut rest = field;
    let path = zk_listing::read_path(alloc, &mut rest)?;
    if !rest.is_empty() {
        return Err(CommandFault::Malformed);
    }
    Ok(path)
}
