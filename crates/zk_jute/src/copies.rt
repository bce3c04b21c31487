ghost use Rattle.std.specs.Prelude.{◌≡◌, IfOk};
ghost use Rattle.zk_jute.specs.Archives.{IsEnd};

use std::alloc::Global;
use zk_path::NoMemory;
use zk_table::Txn;

/// The number of values that are kept when older ones are dropped.
const KEPT: usize = 1024;

pub(crate) fn copies(alloc: Global, txns: &[Txn]) -> Result<Vec<Txn>, NoMemory>
    ensures { IfOk result (λ copies. copies.items ≡ txns.now) }
{
    let mut copies = Vec::with_capacity(alloc, txns.len())?;
    for txn in txns {
        copies.push(txn.copy()?)?;
    }
    Ok(copies)
}

/// Drops all but the last [`KEPT`] once there are twice as many. Does not allocate.
pub(crate) fn drop_older(recent: &mut Vec<Txn>)
    ensures { IsEnd recent.new.items recent.old.items }
{
    if recent.len() >= 2 * KEPT {
        recent.drain(..recent.len() - KEPT);
    }
}
