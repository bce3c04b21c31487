ghost use Rattle.std.specs.Prelude.{◌≡◌};
ghost use Rattle.zk_frames.specs.declared.fault.FrameFault.TheVariants as faults;

use std::alloc::AllocError;
use thiserror::Error;
use zk_jute::JuteFault;
use zk_path::NoMemory;

/// Why a frame cannot be cut or written.
#[derive(Clone, Copy, Debug, PartialEq, Eq, Error)]
pub enum FrameFault {
    /// The length is negative, or more than a frame may have.
    #[error("invalid frame length")]
    Length,
    /// An allocation failed.
    #[error("out of memory")]
    NoMemory,
}

impl From<NoMemory> for FrameFault {
    ghost from_gives = { λ _ fault. fault ≡ faults.NoMemory };

    fn from(_failed: NoMemory) -> FrameFault {
        FrameFault::NoMemory
    }
}

impl From<AllocError> for FrameFault {
    ghost from_gives = { λ _ fault. fault ≡ faults.NoMemory };

    fn from(_failed: AllocError) -> FrameFault {
        FrameFault::NoMemory
    }
}

/// Why the contents of a frame are no request. A server replies to `Type` and `Body`, and closes
/// the connection otherwise.
#[derive(Clone, Copy, Debug, PartialEq, Eq, Error)]
pub enum RequestFault {
    /// The frame ends inside its header.
    #[error("incomplete header")]
    Header,
    /// No request has this type.
    #[error("unknown type")]
    Type { xid: i32 },
    /// The body cannot be read, or bytes follow it.
    #[error("unreadable body")]
    Body { xid: i32, fault: JuteFault },
    /// An allocation failed.
    #[error("out of memory")]
    NoMemory,
}
