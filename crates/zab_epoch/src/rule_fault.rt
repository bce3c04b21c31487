ghost use Rattle.std.specs.Prelude.{◌≡◌};
ghost use Rattle.zab_epoch.specs.declared.rule_fault.RuleFault.TheVariants as faults;

use thiserror::Error;
use zk_path::NoMemory;

/// Why a rule of any phase sends no messages.
#[derive(Clone, Copy, Debug, PartialEq, Eq, Error)]
pub enum RuleFault {
    /// The server takes no client calls in its present role.
    #[error("Z5")]
    NotServing,
    /// No number is left for a new epoch, or for an entry in this epoch. The server has stopped
    /// leading and looks for a leader.
    #[error("Z7")]
    EpochFull,
    /// An allocation failed.
    #[error("Z8")]
    NoMemory,
}

impl From<NoMemory> for RuleFault {
    ghost from_gives = { λ _ e. e ≡ faults.NoMemory };

    fn from(_refused: NoMemory) -> RuleFault {
        RuleFault::NoMemory
    }
}
