ghost use Rattle.std.specs.Prelude.{◌≡◌};
ghost use Rattle.zk_debug.specs.declared.debug_fault.DebugFault.TheVariants as faults;

use thiserror::Error;
use zk_path::NoMemory;

/// Why a call of the debugger fails.
#[derive(Clone, Copy, Debug, PartialEq, Eq, Error)]
pub enum DebugFault {
    /// There is no transaction after the place.
    #[error("B1")]
    AtEnd,
    /// There is no transaction before the place.
    #[error("B2")]
    AtStart,
    /// No breakpoint has this number.
    #[error("B3")]
    NoBreakpoint,
    /// An allocation failed. After a move or a reset the debugger has failed.
    #[error("B4")]
    NoMemory,
    /// The debugger has failed and was not reset since.
    #[error("B5")]
    Failed,
    /// All numbers of breakpoints are used up.
    #[error("B6")]
    Full,
}

impl From<NoMemory> for DebugFault {
    ghost from_gives = { λ _ fault. fault ≡ faults.NoMemory };

    fn from(_refused: NoMemory) -> DebugFault {
        DebugFault::NoMemory
    }
}
