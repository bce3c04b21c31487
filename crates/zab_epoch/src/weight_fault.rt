ghost use Rattle.std.specs.Prelude.{◌≡◌};
ghost use Rattle.zab_epoch.specs.declared.weight_fault.WeightFault.TheVariants as faults;

use thiserror::Error;
use zk_path::NoMemory;

/// Why weights are rejected; the first cause that applies.
#[derive(Clone, Copy, Debug, PartialEq, Eq, Error)]
pub enum WeightFault {
    /// There are fewer than 2 weights, or more than 15.
    #[error("Q1")]
    Count,
    /// All weights are 0.
    #[error("Q2")]
    NoWeight,
    /// An allocation failed.
    #[error("Q3")]
    NoMemory,
}

impl From<NoMemory> for WeightFault {
    ghost from_gives = { λ _ fault. fault ≡ faults.NoMemory };

    fn from(_refused: NoMemory) -> WeightFault {
        WeightFault::NoMemory
    }
}
