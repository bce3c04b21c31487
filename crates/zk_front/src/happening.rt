//! One event of an ensemble, and its answer.

ghost use Rattle.std.specs.Prelude.{◌≡◌};
ghost use Rattle.zk_front.specs.Happening.{Happens, is_lack};

use zk_ensemble::{Answer, Ensemble, EnsembleFault, Event};

/// Calls an event, which may fail.
pub(crate) fn happen(ensemble: &mut Ensemble, event: Event) -> Result<Answer, EnsembleFault>
    ensures { Happens ensemble.old event result ensemble.new }
{
    ensemble.step(event)
}

/// Whether an allocation failed, before an event or after it.
pub(crate) fn is_lack(answer: &Result<Answer, EnsembleFault>) -> bool
    ensures { result ≡ is_lack answer.now }
{
    matches!(
        answer,
        Err(EnsembleFault::NoMemory | EnsembleFault::Died(_))
    )
}
