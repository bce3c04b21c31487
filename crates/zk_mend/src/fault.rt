ghost use Rattle.std.specs.Prelude.{◌≡◌};
ghost use Rattle.zk_log.specs.declared.fault.LogFault.TheVariants as log_faults;
ghost use Rattle.zk_mend.specs.declared.fault.MendFault.TheVariants as faults;

use std::alloc::{AllocError, AllocFailed};
use thiserror::Error;
use zk_log::{LogFault, NotPushed};
use zk_machine::MachineFault;
use zk_path::NoMemory;

/// Why a log could not be converted. A position is an entry's offset from the start of the file, in
/// bytes. Displayed as the program prints it: the fault's number, then the position.
#[derive(Clone, Copy, Debug, PartialEq, Eq, Error)]
pub enum MendFault {
    /// The header, an entry's frame, checksum or zxid, or the reader: a fault of the loader. Never
    /// [`LogFault::Record`].
    #[error("{0}")]
    Log(LogFault),
    /// The entry's record is not a 3.5 to 3.8 server's.
    #[error("G3 {0}")]
    Record(u64),
    /// A failed multi kept bodies of requests, without its error code.
    #[error("N1 {0}")]
    NoReason(u64),
    /// The record of a closed session lists a node that exists and is not the session's.
    #[error("N2 {0}")]
    OtherNodes(u64),
    /// The record of 3.4 would have more than 16,777,216 bytes.
    #[error("N3 {0}")]
    TooLong(u64),
}

impl From<LogFault> for MendFault {
    ghost from_gives = { λ fault mended. mended ≡ faults.Log fault };

    fn from(fault: LogFault) -> MendFault {
        MendFault::Log(fault)
    }
}

impl From<NoMemory> for MendFault {
    ghost from_gives = { λ _ fault. fault ≡ faults.Log log_faults.NoMemory };

    fn from(_refused: NoMemory) -> MendFault {
        MendFault::Log(LogFault::NoMemory)
    }
}

impl From<AllocError> for MendFault {
    ghost from_gives = { λ _ fault. fault ≡ faults.Log log_faults.NoMemory };

    fn from(_error: AllocError) -> MendFault {
        MendFault::Log(LogFault::NoMemory)
    }
}

impl<T: Drop> From<AllocFailed<T>> for MendFault {
    ghost from_gives = { λ _ fault. fault ≡ faults.Log log_faults.NoMemory };

    fn from(_error: AllocFailed<T>) -> MendFault {
        MendFault::Log(LogFault::NoMemory)
    }
}

impl From<NotPushed> for MendFault {
    ghost from_gives = { λ _ fault. fault ≡ faults.Log log_faults.NoMemory };

    fn from(_refused: NotPushed) -> MendFault {
        MendFault::Log(LogFault::NoMemory)
    }
}

/// The only error of a running machine is an allocation failure.
impl From<MachineFault> for MendFault {
    ghost from_gives = { λ _ fault. fault ≡ faults.Log log_faults.NoMemory };

    fn from(_refused: MachineFault) -> MendFault {
        MendFault::Log(LogFault::NoMemory)
    }
}
