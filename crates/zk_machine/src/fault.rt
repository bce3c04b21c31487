ghost use Rattle.std.specs.Prelude.{◌≡◌};
ghost use Rattle.zk_machine.specs.declared.fault.MachineFault.TheVariants as faults;

use crate::undo::Undo;
use thiserror::Error;
use zk_path::NoMemory;

/// Why a machine rejects a call.
#[derive(Clone, Copy, Debug, PartialEq, Eq, Error)]
pub enum MachineFault {
    /// An allocation failed. In the middle of a change the machine has then failed; after a read it
    /// is unchanged.
    #[error("M1")]
    NoMemory,
    /// The machine failed in an earlier call.
    #[error("M2")]
    Failed,
    /// The record's step number is not that of the last step.
    #[error("M3")]
    NotLast,
}

impl From<NoMemory> for MachineFault {
    ghost from_gives = { λ _ fault. fault ≡ faults.NoMemory };

    fn from(_refused: NoMemory) -> MachineFault {
        MachineFault::NoMemory
    }
}

/// Why a machine did not undo a transaction. The undo record is returned, unless an allocation
/// failed.
#[derive(Debug, Drop)]
pub struct UndoFault {
    pub fault: MachineFault,
    pub undo: Option<Undo>,
}
