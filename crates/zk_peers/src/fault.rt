ghost use Rattle.std.specs.Prelude.{◌≡◌};

use thiserror::Error;
use zab_host::{HostFault, StoreFault};
use zk_path::NoMemory;

/// Why a step of the peers fails.
#[derive(Clone, Copy, Debug, PartialEq, Eq, Error)]
pub enum PeersFault {
    /// There is no store, or there are more than 15.
    #[error("an ensemble has 1 to 15 servers")]
    Count,
    /// No server has this number, or a link has the same server at both ends.
    #[error("no such server")]
    NoServer,
    /// The server is not up.
    #[error("the server is down")]
    Down,
    /// The server is up, or its store has failed.
    #[error("the server is not down")]
    NotDown,
    /// A host has rejected its input. No run reaches this.
    #[error("{0}")]
    Host(HostFault),
    /// A server's store has failed. The server is not used any more: it is to be crashed.
    #[error("{0}")]
    Store(StoreFault),
    /// Out of memory. The peers are not used any more.
    #[error("out of memory")]
    NoMemory,
}

impl From<NoMemory> for PeersFault {
    ghost use Rattle.zk_peers.specs.declared.fault.PeersFault.TheVariants as faults;

    ghost from_gives = { λ _ e. e ≡ faults.NoMemory };

    fn from(_failed: NoMemory) -> PeersFault {
        PeersFault::NoMemory
    }
}

impl From<HostFault> for PeersFault {
    ghost use Rattle.zk_peers.specs.Faults.{host_fault};

    ghost from_gives = { λ fault e. e ≡ host_fault fault };

    fn from(fault: HostFault) -> PeersFault {
        match fault {
            HostFault::NoMemory => PeersFault::NoMemory,
            HostFault::NoServer => PeersFault::Host(HostFault::NoServer),
            HostFault::NotServing => PeersFault::Host(HostFault::NotServing),
            HostFault::EpochFull => PeersFault::Host(HostFault::EpochFull),
            HostFault::OutOfOrder => PeersFault::Host(HostFault::OutOfOrder),
        }
    }
}

impl From<StoreFault> for PeersFault {
    ghost use Rattle.zk_peers.specs.declared.fault.PeersFault.TheVariants as faults;

    ghost from_gives = { λ fault e. e ≡ faults.Store fault };

    fn from(fault: StoreFault) -> PeersFault {
        PeersFault::Store(fault)
    }
}
