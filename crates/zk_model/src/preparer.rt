ghost use Rattle.std.specs.Prelude.{refl};
ghost use Rattle.zk_requests.specs.Requests.{closing_call};
ghost use Rattle.zk_model.specs.Entries.{Prepares, entry_of, entry_zxid};
ghost use Rattle.zk_model.specs.Shortness.{entry_is_short};

use std::alloc::Global;
use zab_broadcast::Primary;
use zab_epoch::{Entries, Entry};
use zk_jute::Span;
use zk_machine::Machine;
use zk_path::NoMemory;
use zk_prepare::{Call, Prep, closing_call};
use zk_table::Txn;

/// How many transactions are read at once: older ones are kept as bytes alone.
const READ_AT_ONCE: usize = 1024;

/// The primary of an ensemble. A call becomes an entry with its tag, and with its transaction on
/// the tree of the whole history, delivered or not.
pub struct Preparer {
    prep: Prep,
}

impl Drop for Preparer {
    fn drop(self) {
        let Preparer { prep: _ } = self;
    }
}

impl Primary for Preparer {
    type Call = Call;

    ghost use Rattle.zab_epoch.specs.declared.history.Entry.{Entry};

    ghost stands_for = { λ preparer history _. Prepares preparer.prep history };

    ghost tag_of = { λ call. call.tag };

    ghost closing_of = { closing_call };

    ghost made_of = { entry_of };

    fn tag(call: &Call) -> u64 {
        call.tag
    }

    fn closing(alloc: Global, tag: u64, session: i64, now: i64) -> Call {
        closing_call(alloc, tag, session, now)
    }

    fn start(alloc: Global, history: &Entries<'_>) -> Result<Preparer, NoMemory> {
        let prep = prep_after(alloc, &history.txns())?;
        Ok(Preparer { prep })
    }

    fn make(&self, call: &Call, zxid: i64) -> Result<Entry, NoMemory> {
        let txn = self.prep.make(call, zxid)?;
        Ok(Entry { tag: call.tag, txn })
    }

    fn taken(&mut self, entry: &Entry) -> Result<(), NoMemory> {
        self.prep.taken(&entry.txn)
    }

    fn delivered(&mut self, count: usize) {
        self.prep.delivered(count);
    }

    ghost made_zxid = { entry_zxid };

    ghost made_tag = { λ history call zxid. refl };

    ghost made_short = { entry_is_short };

    ghost closing_tag = { λ tag session now. refl };
}

ghost use Rattle.std.specs.Prelude.{◌≡◌, false, IfOk, OnOk};
ghost use Rattle.zk_table.specs.Histories.{state_after};
ghost use Rattle.zk_table.specs.States.{start_state};
ghost use Rattle.zk_table.specs.Steps.{step};

/// A leader's state after all of these transactions, which are read some at a time.
#[tactic(auto, using(crate::proofs::Reading::all_read, crate::proofs::Reading::some_more))]
fn prep_after(alloc: Global, txns: &Span<'_>) -> Result<Prep, NoMemory>
    ensures running { IfOk result (λ prep. prep.failed ≡ false) }
    ensures state { IfOk result (λ prep. prep.state ≡ state_after start_state txns.now) }
{
    let machine = Machine::new(alloc)?;
    let mut prep = Prep::start(alloc, &machine, &[])?;
    let mut done = 0;
    while done < txns.len() {
        let many = READ_AT_ONCE.min(txns.len() - done);
        take_read(alloc, &mut prep, &txns.behind(done).first(many))?;
        done += many;
    }
    Ok(prep)
}

/// Reads transactions, and takes them.
fn take_read(alloc: Global, prep: &mut Prep, txns: &Span<'_>) -> Result<(), NoMemory>
    requires { prep.old.failed ≡ false }
    ensures running { OnOk result (prep.new.failed ≡ false) }
    ensures state { OnOk result (prep.new.state ≡ state_after prep.old.state txns.now) }
{
    let read = txns.read(alloc)?;
    take_all(prep, read.as_slice())
}

/// Takes transactions, one after another.
fn take_all(prep: &mut Prep, txns: &[Txn]) -> Result<(), NoMemory>
    requires { prep.old.failed ≡ false }
    ensures running { OnOk result (prep.new.failed ≡ false) }
    ensures state { OnOk result (prep.new.state ≡ state_after prep.old.state txns.now) }
{
    for txn in txns {
        take_one(prep, txn)?;
    }
    Ok(())
}

/// Takes a transaction.
fn take_one(prep: &mut Prep, txn: &Txn) -> Result<(), NoMemory>
    requires { prep.old.failed ≡ false }
    ensures running { OnOk result (prep.new.failed ≡ false) }
    ensures state { OnOk result (prep.new.state ≡ (step prep.old.state txn.now).0) }
{
    prep.taken(txn)
}
