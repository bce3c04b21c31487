ghost use Rattle.std.specs.Prelude.{◌≡◌, IfOk};
ghost use Rattle.std.specs.String.{string_bytes};
ghost use Rattle.zk_path.specs.Sequences.{sequence};

use crate::memory::NoMemory;
use std::alloc::Global;

/// Formats the suffix of a sequential node's name: a number, padded with zeros after the sign to at
/// least ten characters. The sign counts, so numbers below -999,999,999 have eleven.
///
/// ZooKeeper Programmer's Guide, "Sequence Nodes".
pub fn sequence(alloc: Global, number: i32) -> Result<String, NoMemory>
    ensures { IfOk result (λ text. string_bytes text ≡ sequence number) }
{
    Ok(format!(in alloc; "{number:010}")?)
}
