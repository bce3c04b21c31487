ghost use Rattle.std.specs.Prelude.{◌≡◌};
ghost use Rattle.zk_log_commands.specs.declared.lines.LineFault.TheVariants as faults;

use std::alloc::AllocError;
use zk_log::WriteFault;
use zk_path::NoMemory;

/// The number of bytes in the buffer at which lines are written.
pub(crate) const PAGE: usize = 65_536;

/// Why a report could not be written. Earlier buffers may have been written.
#[derive(Clone, Copy, Debug, PartialEq, Eq)]
pub(crate) enum LineFault {
    /// The writer failed: a part of a buffer may have been written.
    Write,
    /// An allocation failed.
    NoMemory,
}

impl From<WriteFault> for LineFault {
    ghost from_gives = { λ _ fault. fault ≡ faults.Write };

    fn from(_failed: WriteFault) -> LineFault {
        LineFault::Write
    }
}

impl From<NoMemory> for LineFault {
    ghost from_gives = { λ _ fault. fault ≡ faults.NoMemory };

    fn from(_refused: NoMemory) -> LineFault {
        LineFault::NoMemory
    }
}

impl From<AllocError> for LineFault {
    ghost from_gives = { λ _ fault. fault ≡ faults.NoMemory };

    fn from(_refused: AllocError) -> LineFault {
        LineFault::NoMemory
    }
}
