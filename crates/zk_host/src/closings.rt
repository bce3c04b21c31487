//! The sessions that transactions close.

ghost use Rattle.std.specs.Prelude.{◌≡◌, IfOk};
ghost use Rattle.std.specs.List.{flat_map};
ghost use Rattle.zk_host.specs.Delivered.{closed_by};

use std::alloc::Global;
use zk_path::NoMemory;
use zk_table::{Op, Txn};

/// The sessions that transactions close, in order.
pub(crate) fn closed_by(alloc: Global, txns: &[Txn]) -> Result<Vec<i64>, NoMemory>
    ensures { IfOk result (λ it. it.items ≡ flat_map closed_by txns.now) }
{
    let mut sessions = Vec::new(alloc);
    for txn in txns {
        if let Op::CloseSession = &txn.op {
            sessions.push(txn.session)?;
        }
    }
    Ok(sessions)
}
