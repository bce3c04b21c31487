ghost use Rattle.std.specs.Prelude.{◌≡◌};
ghost use Rattle.zk_model.specs.declared.fault.EnsembleFault.TheVariants as faults;
ghost use Rattle.zk_model.specs.Refusals.{ensemble_fault_of};

use thiserror::Error;
use zab_model::WorldFault;
use zk_path::NoMemory;

/// Why an event is rejected; the first cause that applies, with [`EnsembleFault::Behind`] after
/// those of the server. Unless stated, nothing has changed.
#[derive(Clone, Copy, Debug, PartialEq, Eq, Error)]
pub enum EnsembleFault {
    /// The client has seen a later transaction than this server's last one.
    #[error("E1")]
    Behind { seen: i64, at: i64 },
    /// No server has this number, or a server is to follow itself.
    #[error("E2")]
    NoServer,
    /// No message has this number.
    #[error("E3")]
    NoMessage,
    /// The server is down.
    #[error("E4")]
    Down,
    /// The server is not down.
    #[error("E5")]
    NotDown,
    /// The server takes no client calls in its present role.
    #[error("E6")]
    NotServing,
    /// An earlier accepted submit or expire had this tag; for a sync, an earlier accepted sync.
    #[error("E7")]
    DuplicateCall,
    /// No number is left for a new epoch, or for a new entry in its epoch. The server has stopped
    /// leading.
    #[error("E8")]
    EpochFull,
    /// An allocation failed before anything happened.
    #[error("E9")]
    NoMemory,
    /// An allocation failed after the step of the server with this number. That server has crashed
    /// in place of the event. No read fails so.
    #[error("E10 {0}")]
    Died(usize),
}

impl From<NoMemory> for EnsembleFault {
    ghost from_gives = { λ _ e. e ≡ faults.NoMemory };

    fn from(_refused: NoMemory) -> EnsembleFault {
        EnsembleFault::NoMemory
    }
}

impl From<WorldFault> for EnsembleFault {
    ghost from_gives = { λ fault e. e ≡ ensemble_fault_of fault };

    fn from(fault: WorldFault) -> EnsembleFault {
        match fault {
            WorldFault::NoServer => EnsembleFault::NoServer,
            WorldFault::NoMessage => EnsembleFault::NoMessage,
            WorldFault::Down => EnsembleFault::Down,
            WorldFault::NotDown => EnsembleFault::NotDown,
            WorldFault::NotServing => EnsembleFault::NotServing,
            WorldFault::DuplicateCall => EnsembleFault::DuplicateCall,
            WorldFault::EpochFull => EnsembleFault::EpochFull,
            WorldFault::NoMemory => EnsembleFault::NoMemory,
            WorldFault::Died(number) => EnsembleFault::Died(number),
        }
    }
}
