ghost use Rattle.std.specs.Prelude.{◌≡◌};
ghost use Rattle.zk_server.specs.declared.stopped.Stopped.TheVariants as faults;

use thiserror::Error;
use zab_host::{HostFault, StoreFault};
use zk_host::ReleaseFault;
use zk_path::NoMemory;

/// Why a server has stopped. It runs again once it starts on its store.
#[derive(Clone, Copy, Debug, PartialEq, Eq, Error)]
pub enum Stopped {
    /// Its store has failed.
    #[error("{0}")]
    Store(StoreFault),
    /// Out of memory.
    #[error("out of memory")]
    NoMemory,
    /// It has delivered less than its tree shows. No run reaches this.
    #[error("H6")]
    Shrunk,
    /// It had stopped before.
    #[error("the server does not run")]
    Before,
}

impl From<NoMemory> for Stopped {
    ghost from_gives = { λ _ e. e ≡ faults.NoMemory };

    fn from(_failed: NoMemory) -> Stopped {
        Stopped::NoMemory
    }
}

impl From<StoreFault> for Stopped {
    ghost from_gives = { λ fault e. e ≡ faults.Store fault };

    fn from(fault: StoreFault) -> Stopped {
        Stopped::Store(fault)
    }
}
