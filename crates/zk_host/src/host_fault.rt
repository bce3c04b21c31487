ghost use Rattle.std.specs.Prelude.{◌≡◌};

use thiserror::Error;
use zab_host::StoreFault;
use zk_path::NoMemory;

/// Why a host releases nothing.
#[derive(Clone, Copy, Debug, PartialEq, Eq, Error)]
pub enum ReleaseFault {
    /// The host is not used any more.
    #[error("{0}")]
    Store(StoreFault),
    /// The server has delivered less than the tree shows. No run reaches this.
    #[error("H6")]
    Shrunk,
    /// Out of memory. The tree starts again as empty, without watches and news.
    #[error("Z8")]
    NoMemory,
}

impl From<StoreFault> for ReleaseFault {
    ghost use Rattle.zk_host.specs.declared.host_fault.ReleaseFault.TheVariants as faults;

    ghost from_gives = { λ fault e. e ≡ faults.Store fault };

    fn from(fault: StoreFault) -> ReleaseFault {
        ReleaseFault::Store(fault)
    }
}

/// Why a host does not reply to a read.
#[derive(Clone, Copy, Debug, PartialEq, Eq, Error)]
pub enum ReadFault {
    /// The client has seen a later transaction than the host's last.
    #[error("E1 {seen} {last}")]
    Behind { seen: i64, last: i64 },
    /// Out of memory.
    #[error("Z8")]
    NoMemory,
}

impl From<NoMemory> for ReadFault {
    ghost use Rattle.zk_host.specs.declared.host_fault.ReadFault.TheVariants as faults;

    ghost from_gives = { λ _ e. e ≡ faults.NoMemory };

    fn from(_failed: NoMemory) -> ReadFault {
        ReadFault::NoMemory
    }
}
