ghost use Rattle.std.specs.Prelude.{◌≡◌};
ghost use Rattle.zk_client_port.specs.declared.fault.ServeFault.TheVariants as faults;

use thiserror::Error;
use zk_path::NoMemory;

/// Why a connection's input is not executed.
#[derive(Clone, Copy, Debug, PartialEq, Eq, Error)]
pub enum ServeFault {
    /// An allocation for the connection failed. The connection is lost, and nothing else.
    #[error("out of memory for a connection")]
    Connection,
    /// An allocation of the host failed: the messages of its last input may be lost. The caller stops
    /// the server.
    #[error("out of memory")]
    Host,
}

impl From<NoMemory> for ServeFault {
    ghost from_gives = { λ _ e. e ≡ faults.Connection };

    fn from(_failed: NoMemory) -> ServeFault {
        ServeFault::Connection
    }
}
