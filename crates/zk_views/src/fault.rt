ghost use Rattle.std.specs.Prelude.{◌≡◌};
ghost use Rattle.zk_views.specs.declared.fault.ViewFault.TheVariants as faults;

use thiserror::Error;
use zk_path::NoMemory;

/// Why a read of a view fails. The client's pass is unchanged.
#[derive(Clone, Copy, Debug, PartialEq, Eq, Error)]
pub enum ViewFault {
    /// The client has seen a later transaction than the last one that this view has published.
    #[error("V1")]
    Behind { seen: i64, zxid: i64 },
    /// An allocation failed.
    #[error("V2")]
    NoMemory,
    /// The publisher has closed the view.
    #[error("V3")]
    Gone,
}

impl From<NoMemory> for ViewFault {
    ghost from_gives = { λ _ fault. fault ≡ faults.NoMemory };

    fn from(_refused: NoMemory) -> ViewFault {
        ViewFault::NoMemory
    }
}
