ghost use Rattle.std.specs.Prelude.{◌≡◌, ◌≤◌, List, [], ◌∷◌, ◌++◌, take, drop, length, true, false, IfOk, OnOk, OnErr};
ghost use Rattle.zk_table.specs.declared.txn.Txn.{Txn as Taken};
ghost use Rattle.zk_table.specs.Histories.{state_after};
ghost use Rattle.zk_table.specs.States.{State};
ghost use Rattle.zk_table.specs.Steps.{step};
ghost use Rattle.zk_prepare.specs.Preparing.{StandsFor};
ghost use Rattle.zk_requests.specs.Requests.{meaning_of};

use std::alloc::Global;
use std::marker::Model;
use zk_machine::Machine;
use zk_path::NoMemory;
use zk_requests::{Call, meaning_of};
use zk_table::Txn;

/// A leader's state for preparing requests: a committed state, and a tail of transactions that are
/// taken but not yet delivered. It holds a machine that is ahead of the committed one by the whole
/// tail: a call costs what it touches.
///
/// After a failed allocation in [`Prep::taken`] only [`Prep::has_failed`] may be called.
pub struct Prep {
    alloc: Global,
    ahead: Machine,
    failed: bool,
}

impl Drop for Prep {
    fn drop(self) {
        let Prep {
            alloc: _,
            ahead: _,
            failed: _,
        } = self;
    }
}

impl Model for Prep {
    ghost use Rattle.std.specs.Prelude.{◌≡◌, false};
    ghost use Rattle.zk_table.specs.contracts.node.Node as node;
    ghost use Rattle.zk_prepare.specs.Preparing.{PrepView, prep_code};

    ghost Value = { PrepView };

    ghost coded = { prep_code node.the_row.coded };

    ghost view = { λ prep. record { state = prep.ahead.state; failed = prep.failed } };

    ghost invariant = { λ prep. prep.failed ≡ false → prep.ahead.failed ≡ false };
}

impl Prep {
    /// Starts from the state of a machine that has not failed, and a tail after it.
    pub fn start(alloc: Global, committed: &Machine, tail: &[Txn]) -> Result<Prep, NoMemory>
        requires { committed.now.failed ≡ false }
        ensures stands { IfOk result (λ prep. StandsFor prep committed.now.state tail.now) }
        ensures running { IfOk result (λ prep. prep.failed ≡ false) }
    {
        let mut ahead = committed.copy()?;
        for txn in tail {
            advance(&mut ahead, txn)?;
        }
        Ok(Prep {
            alloc,
            ahead,
            failed: false,
        })
    }

    /// Prepares a call at a zxid, on the state after the tail: an error transaction if the request
    /// is rejected.
    pub fn make(&self, call: &Call, zxid: i64) -> Result<Txn, NoMemory>
        requires { self.now.failed ≡ false }
        ensures { (committed : State) (tail : List Taken) → StandsFor self.now committed tail
            → IfOk result (λ txn. txn ≡ meaning_of (state_after committed tail) call.exit.now zxid) }
    {
        meaning_of(self.alloc, &self.ahead, call, zxid)
    }

    /// Appends a transaction to the tail. After [`NoMemory`] it has failed.
    pub fn taken(&mut self, txn: &Txn) -> Result<(), NoMemory>
        requires { self.old.failed ≡ false }
        ensures taken { (committed : State) (tail : List Taken) → StandsFor self.old committed tail
            → OnOk result (StandsFor self.new committed (tail ++ txn.now ∷ [])) }
        ensures running { OnOk result (self.new.failed ≡ false) }
        ensures failed { OnErr result (self.new.failed ≡ true) }
    {
        let Ok(()) = advance(&mut self.ahead, txn) else {
            self.failed = true;
            return Err(NoMemory);
        };
        Ok(())
    }

    /// Moves the tail's first `count` transactions to the committed state. Allocates nothing.
    pub fn delivered(&mut self, count: usize)
        requires { self.old.failed ≡ false }
        ensures delivered { (committed : State) (tail : List Taken) → StandsFor self.old committed tail → count ≤ length tail
            → StandsFor self.new (state_after committed (take count tail)) (drop count tail) }
        // The state after the tail is the same.
        ensures unchanged { self.new ≡ self.old }
    {
        let _ = count;
    }

    /// Whether an allocation failed in [`Prep::taken`].
    pub fn has_failed(&self) -> bool
        ensures { result ≡ self.now.failed }
    {
        self.failed
    }
}

/// Applies a transaction to a machine without undo. After a failed allocation its state is
/// unspecified.
fn advance(machine: &mut Machine, txn: &Txn) -> Result<(), NoMemory>
    requires { machine.old.failed ≡ false }
    ensures stepped { OnOk result (machine.new.state ≡ (step machine.old.state txn.now).0) }
    ensures running { OnOk result (machine.new.failed ≡ false) }
{
    machine.make_countable()?;
    let Ok(_) = machine.advance(txn) else {
        return Err(NoMemory);
    };
    Ok(())
}
