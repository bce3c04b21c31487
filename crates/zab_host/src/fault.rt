ghost use Rattle.std.specs.Prelude.{◌≡◌};
ghost use Rattle.zab_host.specs.Hosts.{host_fault_of};

use crate::storage::StoreFault;
use thiserror::Error;
use zab_epoch::RuleFault;
use zk_path::NoMemory;

/// Why a host rejects an input.
#[derive(Clone, Copy, Debug, PartialEq, Eq, Error)]
pub enum HostFault {
    /// The message is addressed to another server, or no other server has the leader's number.
    #[error("H3")]
    NoServer,
    /// The server accepts no calls of clients now.
    #[error("Z5")]
    NotServing,
    /// No number is left for a new epoch, or for a new entry in its epoch. The server has stopped
    /// leading.
    #[error("Z7")]
    EpochFull,
    /// Out of memory.
    #[error("Z8")]
    NoMemory,
    /// The history does not end below the zxid of the next entry. No run reaches this.
    #[error("H4")]
    OutOfOrder,
}

impl From<NoMemory> for HostFault {
    ghost use Rattle.zab_host.specs.declared.fault.HostFault.TheVariants as faults;

    ghost from_gives = { λ _ e. e ≡ faults.NoMemory };

    fn from(_failed: NoMemory) -> HostFault {
        HostFault::NoMemory
    }
}

impl From<RuleFault> for HostFault {
    ghost from_gives = { λ fault e. e ≡ host_fault_of fault };

    fn from(fault: RuleFault) -> HostFault {
        match fault {
            RuleFault::NotServing => HostFault::NotServing,
            RuleFault::EpochFull => HostFault::EpochFull,
            RuleFault::NoMemory => HostFault::NoMemory,
        }
    }
}

/// Why a host rejects a message that it stores atomically.
#[derive(Clone, Copy, Debug, PartialEq, Eq, Error)]
pub enum ReceiveFault {
    #[error("{0}")]
    Host(HostFault),
    /// The host is not used any more.
    #[error("{0}")]
    Store(StoreFault),
}

impl From<HostFault> for ReceiveFault {
    ghost use Rattle.zab_host.specs.declared.fault.ReceiveFault.TheVariants as faults;

    ghost from_gives = { λ fault e. e ≡ faults.Host fault };

    fn from(fault: HostFault) -> ReceiveFault {
        ReceiveFault::Host(fault)
    }
}

impl From<StoreFault> for ReceiveFault {
    ghost use Rattle.zab_host.specs.declared.fault.ReceiveFault.TheVariants as faults;

    ghost from_gives = { λ fault e. e ≡ faults.Store fault };

    fn from(fault: StoreFault) -> ReceiveFault {
        ReceiveFault::Store(fault)
    }
}
