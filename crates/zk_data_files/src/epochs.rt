ghost use Rattle.std.specs.Fmt.{decimal};
ghost use Rattle.std.specs.Prelude.{◌≡◌, IfOk};
ghost use Rattle.std.specs.String.{string_bytes};
ghost use Rattle.zk_data_files.specs.Epochs.{epochs_of};

use std::alloc::{AllocError, Global};
use zab_epoch::Stable;

/// The epochs of a server, by ZooKeeper's names.
#[derive(Clone, Copy, Debug, PartialEq, Eq)]
pub struct Epochs {
    /// The greatest epoch that it has promised.
    pub accepted: u32,
    /// The epoch of its history.
    pub current: u32,
}

impl Epochs {
    /// Those of a server's stable part.
    pub fn of(stable: &Stable) -> Epochs
        ensures { result ≡ epochs_of stable.now }
    {
        Epochs {
            accepted: stable.promised,
            current: stable.current,
        }
    }
}

/// The text of a file `acceptedEpoch` or `currentEpoch`: decimal digits, and no newline.
///
/// ZooKeeper, class `QuorumPeer`, method `writeLongToFile`.
pub fn epoch_text(alloc: Global, epoch: u32) -> Result<String, AllocError>
    ensures { IfOk result (λ text. string_bytes text ≡ decimal epoch) }
{
    format!(in alloc; "{epoch}")
}
