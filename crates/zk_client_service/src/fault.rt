use thiserror::Error;
use zk_path::NoMemory;
use zk_peers::PeersFault;

/// Why a step of the service fails. After [`ServiceFault::NoMemory`] it is not used any more.
#[derive(Clone, Copy, Debug, PartialEq, Eq, Error)]
pub enum ServiceFault {
    /// The servers reject it.
    #[error("{0}")]
    Peers(PeersFault),
    /// Out of memory.
    #[error("out of memory")]
    NoMemory,
}

impl From<NoMemory> for ServiceFault {
    ghost use Rattle.std.specs.Prelude.{◌≡◌};
    ghost use Rattle.zk_client_service.specs.declared.fault.ServiceFault.TheVariants as faults;

    ghost from_gives = { λ _ e. e ≡ faults.NoMemory };

    fn from(_failed: NoMemory) -> ServiceFault {
        ServiceFault::NoMemory
    }
}

impl From<PeersFault> for ServiceFault {
    ghost use Rattle.std.specs.Prelude.{◌≡◌};
    ghost use Rattle.zk_client_service.specs.declared.fault.ServiceFault.TheVariants as faults;

    ghost from_gives = { λ fault e. e ≡ faults.Peers fault };

    fn from(fault: PeersFault) -> ServiceFault {
        ServiceFault::Peers(fault)
    }
}
