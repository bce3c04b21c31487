//! How many writes a transaction has.
ghost use Rattle.std.specs.Prelude.{◌≡◌, filter, length};
ghost use Rattle.zk_sessions.specs.Writes.{is_write, write_count};
ghost use Rattle.zk_table.specs.declared.txn.Op.TheVariants as ops;

use zk_table::{Op, Sub, hold_error};

/// Whether a part of a multi creates, changes or deletes a node.
fn is_write(part: &Sub) -> bool
    ensures { result ≡ is_write part.now }
{
    match part {
        Sub::Create { .. } | Sub::Delete { .. } | Sub::SetData { .. } => true,
        Sub::Check { .. } | Sub::Error { .. } => false,
    }
}

/// How many parts create, change or delete a node.
fn writes_in(parts: &[Sub]) -> u64
    ensures { result ≡ length (filter is_write parts.now) }
{
    let mut count = 0u64;
    for part in parts {
        if is_write(part) {
            count += 1;
        }
    }
    count
}

/// How many nodes the parts of a multi create, change or delete.
fn multi_writes(parts: &[Sub]) -> u64
    ensures { result ≡ write_count (ops.Multi parts.now) }
{
    if hold_error(parts) {
        return 0;
    }
    writes_in(parts)
}

/// How many nodes an operation creates, changes or deletes. The nodes that the end of a session
/// deletes are no writes.
pub fn write_count(op: &Op) -> u64
    ensures { result ≡ write_count op.now }
{
    match op {
        Op::Create { .. }
        | Op::CreateOld { .. }
        | Op::Delete { .. }
        | Op::SetData { .. }
        | Op::SetAcl { .. } => 1,
        Op::Multi { parts } => multi_writes(parts.as_slice()),
        Op::OpenSession { .. } | Op::CloseSession | Op::Error { .. } => 0,
    }
}
