ghost use Rattle.std.specs.Prelude.{◌≡◌};
ghost use Rattle.zab_model.specs.declared.fault.WorldFault.TheVariants as faults;
ghost use Rattle.zab_model.specs.Refusals.{world_fault_of};

use thiserror::Error;
use zab_epoch::RuleFault;
use zk_path::NoMemory;

/// Why an event is rejected; the first cause that applies. Unless stated, nothing has changed.
#[derive(Clone, Copy, Debug, PartialEq, Eq, Error)]
pub enum WorldFault {
    /// No server has this number, or a server is to follow itself.
    #[error("Z1")]
    NoServer,
    /// No message has this number.
    #[error("Z2")]
    NoMessage,
    /// The server is down.
    #[error("Z3")]
    Down,
    /// The server is not down.
    #[error("Z4")]
    NotDown,
    /// The server takes no client calls in its present role.
    #[error("Z5")]
    NotServing,
    /// An earlier accepted submit or expire had this tag; for a sync, an earlier accepted sync.
    #[error("Z6")]
    DuplicateCall,
    /// No number is left for a new epoch, or for a new entry in its epoch. The server has stopped
    /// leading.
    #[error("Z7")]
    EpochFull,
    /// An allocation failed before anything happened.
    #[error("Z8")]
    NoMemory,
    /// An allocation failed after the step of the server with this number. That server has crashed
    /// in place of the event.
    #[error("Z9 {0}")]
    Died(usize),
}

impl From<NoMemory> for WorldFault {
    ghost from_gives = { λ _ e. e ≡ faults.NoMemory };

    fn from(_refused: NoMemory) -> WorldFault {
        WorldFault::NoMemory
    }
}

impl From<RuleFault> for WorldFault {
    ghost from_gives = { λ fault e. e ≡ world_fault_of fault };

    fn from(fault: RuleFault) -> WorldFault {
        match fault {
            RuleFault::NotServing => WorldFault::NotServing,
            RuleFault::EpochFull => WorldFault::EpochFull,
            RuleFault::NoMemory => WorldFault::NoMemory,
        }
    }
}
