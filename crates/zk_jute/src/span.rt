use crate::packed_slice::PackedSlice;
use crate::txns::Txns;
use std::alloc::Global;
use std::marker::Model;
use zk_path::NoMemory;
use zk_table::Txn;

/// A borrowed range of an [`Archive`](crate::Archive).
#[derive(Debug, Drop)]
pub struct Span<'a> {
    pub(crate) packed: PackedSlice<'a>,
    /// The last ones as values.
    pub(crate) recent: &'a [Txn],
}

/// A span is modelled as the list of its transactions.
impl<'a> Model for Span<'a> {
    ghost use Rattle.std.specs.Prelude.{List};
    ghost use Rattle.zk_jute.specs.Archives.{IsEnd};
    ghost use Rattle.zk_table.specs.declared.txn.Txn.{Txn};

    ghost Value = { List Txn };

    ghost view = { λ span. span.packed };

    ghost invariant = { λ span. IsEnd span.recent.now span.packed };
}

impl<'a> Span<'a> {
    ghost use Rattle.std.specs.Prelude.{◌≡◌, ◌≤◌, ◌<◌, ◌^◌, [], length, take, drop, IfOk};
    ghost use Rattle.zk_records.specs.Written.{MayBeLogged};

    /// An empty span.
    pub fn none() -> Span<'a>
        ensures { result ≡ [] }
    {
        Span {
            packed: PackedSlice::none(),
            recent: &[],
        }
    }

    pub fn len(&self) -> usize
        ensures value { result ≡ length self.now }
        ensures small { result < 2 ^ 63 }
    {
        self.packed.len()
    }

    /// Returns the first `count` transactions.
    #[tactic(auto, using(crate::proofs::Ends::end_within, crate::proofs::Ends::end_cut))]
    pub fn first(&self, count: usize) -> Span<'a>
        requires { count ≤ length self.now }
        ensures { result ≡ take count self.now }
    {
        let older = self.packed.len() - self.recent.len();
        Span {
            packed: self.packed.first(count),
            recent: self.recent.split_at(count.saturating_sub(older)).0,
        }
    }

    /// Returns the transactions after the first `count`.
    #[tactic(auto, using(crate::proofs::Ends::end_within, crate::proofs::Ends::end_tail))]
    pub fn behind(&self, count: usize) -> Span<'a>
        requires { count ≤ length self.now }
        ensures { result ≡ drop count self.now }
    {
        let older = self.packed.len() - self.recent.len();
        Span {
            packed: self.packed.behind(count),
            recent: self.recent.split_at(count.saturating_sub(older)).1,
        }
    }

    /// The transactions as values: borrowed where all are kept as values, and otherwise read from
    /// their bytes.
    #[tactic(auto, using(crate::proofs::Ends::end_whole))]
    pub fn read(&self, alloc: Global) -> Result<Txns<'a>, NoMemory>
        ensures txns { IfOk result (λ txns. txns ≡ self.now) }
        ensures may_be_logged { MayBeLogged self.now }
    {
        if self.recent.len() == self.packed.len() {
            return Ok(Txns::borrowed(self.recent));
        }
        Ok(Txns::owned(self.packed.read(alloc)?))
    }
}
