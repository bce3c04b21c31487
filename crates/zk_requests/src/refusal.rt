//! The first error of a request is its answer.

ghost use Rattle.std.specs.Prelude.{◌≡◌};
ghost use Rattle.zk_requests.specs.declared.refusal.Refusal.TheVariants as refusals;

use zk_path::NoMemory;

/// Why a request is not prepared as asked.
#[derive(Clone, Copy, Debug)]
pub(crate) enum Refusal {
    /// A code of the protocol, which the transaction carries.
    Code(i32),
    /// An allocation failed; there is no transaction.
    NoMemory,
}

impl From<NoMemory> for Refusal {
    ghost from_gives = { λ _ refusal. refusal ≡ refusals.NoMemory };

    fn from(_refused: NoMemory) -> Refusal {
        Refusal::NoMemory
    }
}
