ghost use Rattle.std.specs.Prelude.{◌≡◌, ◌<◌, ◌≤◌, ◌+◌, ◌-◌, ◌^◌, true, false, length, option_map, IfOk, OnOk, OnErr};
ghost use Rattle.zk_debug.specs.Debugging.{machine_at, txn_at, result_at, changes_at, zxid_at, up_to};
ghost use Rattle.zk_debug.specs.Walks.{TakesStep};

use std::alloc::Global;
use std::marker::Model;
use zk_log::Txns;
use zk_machine::{Applied, Machine};
use zk_path::NoMemory;
use zk_table::Txn;

/// A log, a place in it, and a machine at that place. The result, changes and undo record of each
/// step are stored, so that a step back costs as much as the step.
pub(crate) struct Walk {
    /// In the state of place 0.
    base: Machine,
    txns: Txns,
    place: usize,
    failed: bool,
    machine: Machine,
    steps: Vec<Applied>,
}

impl Drop for Walk {
    fn drop(self) {
        let Walk {
            base: _,
            txns: _,
            place: _,
            failed: _,
            machine: _,
            steps: _,
        } = self;
    }
}

impl Model for Walk {
    ghost use Rattle.zk_table.specs.contracts.node.Node as node;
    ghost use Rattle.zk_table.specs.contracts.txn.Txn as txn;
    ghost use Rattle.zk_debug.specs.Walks.{Walk, IsWalk, walk_code};

    ghost Value = { Walk };

    ghost coded = { walk_code node.the_row.coded txn.the_row.coded };

    ghost view = { λ walk. record { base = walk.base.state; txns = walk.txns; place = walk.place; failed = walk.failed } };

    ghost invariant = { λ walk. IsWalk walk.base walk.txns walk.place walk.failed walk.machine walk.steps.items };
}

impl Walk {
    /// A walk at the start of a log that continues the state of `base`.
    pub(crate) fn new(alloc: Global, base: Machine, txns: Txns) -> Result<Walk, NoMemory>
        requires { base.failed ≡ false }
        ensures { IfOk result (λ walk. walk ≡ record { base = base.state; txns = txns; place = 0; failed = false }) }
    {
        let machine = base.copy()?;
        Ok(Walk {
            base,
            txns,
            place: 0,
            failed: false,
            machine,
            steps: Vec::new(alloc),
        })
    }

    /// Moves to the start. After an allocation failure the walk has failed at its old place.
    pub(crate) fn restart(&mut self) -> Result<(), NoMemory>
        ensures started { OnOk result (self.new ≡ record self.old { place = 0; failed = false }) }
        ensures failed { OnErr result (self.new ≡ record self.old { failed = true }) }
    {
        let Ok(machine) = self.base.copy() else {
            self.failed = true;
            return Err(NoMemory);
        };
        self.machine = machine;
        self.steps.clear();
        self.place = 0;
        self.failed = false;
        Ok(())
    }

    /// Moves to the next place. After an allocation failure the walk has failed, at the place
    /// `began` where a move of several steps started.
    pub(crate) fn go_on(&mut self, began: usize) -> Result<(), NoMemory>
        requires running { self.old.failed ≡ false }
        requires above { self.old.place < length self.old.txns }
        requires began { began ≤ length self.old.txns }
        ensures moved { OnOk result (self.new ≡ record self.old { place = self.old.place + 1 }) }
        ensures failed { OnErr result (self.new ≡ record self.old { place = began; failed = true }) }
    {
        let txn = &self.txns.as_slice()[self.place];
        let Ok(()) = take_step(&mut self.machine, &mut self.steps, txn) else {
            self.failed = true;
            self.place = began;
            return Err(NoMemory);
        };
        self.place += 1;
        Ok(())
    }

    /// Moves to the previous place. After an allocation failure the walk has failed, at the place
    /// `began` where a move of several steps started.
    pub(crate) fn go_back(&mut self, began: usize) -> Result<(), NoMemory>
        requires running { self.old.failed ≡ false }
        requires above { 0 < self.old.place }
        requires began { began ≤ length self.old.txns }
        ensures moved { OnOk result ((self.new.place + 1 ≡ self.old.place) × (self.new ≡ record self.old { place = self.new.place })) }
        ensures failed { OnErr result (self.new ≡ record self.old { place = began; failed = true }) }
    {
        let Some(applied) = self.steps.pop() else {
            unreachable!()
        };
        let Ok(()) = self.machine.undo(applied.undo) else {
            self.failed = true;
            self.place = began;
            return Err(NoMemory);
        };
        self.place -= 1;
        Ok(())
    }

    /// Moves to a place. After an allocation failure the walk has failed at its old place.
    pub(crate) fn go_to(&mut self, place: usize) -> Result<(), NoMemory>
        requires running { self.old.failed ≡ false }
        requires within { place ≤ length self.old.txns }
        ensures moved { OnOk result (self.new ≡ record self.old { place = place }) }
        ensures failed { OnErr result (self.new ≡ record self.old { failed = true }) }
    {
        if self.place < place {
            self.go_up_to(place)
        } else {
            self.go_down_to(place)
        }
    }

    fn go_up_to(&mut self, place: usize) -> Result<(), NoMemory>
        requires running { self.old.failed ≡ false }
        requires above { self.old.place ≤ place }
        requires within { place ≤ length self.old.txns }
        ensures moved { OnOk result (self.new ≡ record self.old { place = place }) }
        ensures failed { OnErr result (self.new ≡ record self.old { failed = true }) }
    {
        let began = self.place();
        for _ in began..place {
            self.go_on(began)?;
        }
        Ok(())
    }

    fn go_down_to(&mut self, place: usize) -> Result<(), NoMemory>
        requires running { self.old.failed ≡ false }
        requires below { place ≤ self.old.place }
        ensures moved { OnOk result (self.new ≡ record self.old { place = place }) }
        ensures failed { OnErr result (self.new ≡ record self.old { failed = true }) }
    {
        let began = self.place();
        for _ in place..began {
            self.go_back(began)?;
        }
        Ok(())
    }

    /// The transaction just before the place, with its result and changes.
    pub(crate) fn last(&self) -> Option<(&Txn, &Applied)>
        requires running { self.now.failed ≡ false }
        ensures txn { option_map (λ last. last.0.now) result ≡ txn_at self.now.txns self.now.place }
        ensures result { option_map (λ last. last.1.now.result) result ≡ result_at self.now.base self.now.txns self.now.place }
        ensures changes { option_map (λ last. last.1.now.changes.items) result ≡ changes_at self.now.base self.now.txns self.now.place }
    {
        let Some(applied) = self.steps.last() else {
            return None;
        };
        let txn = &self.txns.as_slice()[self.place - 1];
        Some((txn, applied))
    }

    pub(crate) fn machine(&self) -> &Machine
        requires running { self.now.failed ≡ false }
        ensures { result.now ≡ machine_at self.now.base self.now.txns self.now.place }
    {
        &self.machine
    }

    /// The machine at the start.
    pub(crate) fn base(&self) -> &Machine
        ensures state { result.now.state ≡ self.now.base }
        ensures runs { result.now.failed ≡ false }
    {
        &self.base
    }

    pub(crate) fn place(&self) -> usize
        ensures place { result ≡ self.now.place }
        ensures within { self.now.place ≤ length self.now.txns }
    {
        self.place
    }

    pub(crate) fn has_failed(&self) -> bool
        ensures { result ≡ self.now.failed }
    {
        self.failed
    }

    pub(crate) fn txns(&self) -> &[Txn]
        ensures txns { result.now ≡ self.now.txns }
        ensures within { self.now.place ≤ length self.now.txns }
    {
        self.txns.as_slice()
    }

    /// The number of the log's transactions.
    pub(crate) fn end(&self) -> usize
        ensures end { result ≡ length self.now.txns }
        ensures within { self.now.place ≤ length self.now.txns }
    {
        self.txns.as_slice().len()
    }

    /// The zxid of the transaction just before the place; at the start that of the base.
    pub(crate) fn zxid(&self) -> i64
        ensures { result ≡ zxid_at self.now.base self.now.txns self.now.place }
    {
        if self.place == 0 {
            return self.base_zxid();
        }
        self.txns.as_slice()[self.place - 1].zxid
    }

    fn base_zxid(&self) -> i64
        ensures { result ≡ self.now.base.last }
    {
        let Ok(zxid) = self.base.last() else {
            unreachable!()
        };
        zxid
    }

    /// The number of transactions with at most this zxid.
    pub(crate) fn count_up_to(&self, zxid: i64) -> usize
        ensures count { result ≡ length (up_to zxid self.now.txns) }
        ensures within { result ≤ length self.now.txns }
    {
        self.txns
            .as_slice()
            .iter()
            .filter(|txn| txn.zxid <= zxid)
            .count()
    }
}

/// Applies a transaction and stores its result, changes and undo record. After an allocation
/// failure the machine may be one step ahead.
fn take_step(machine: &mut Machine, steps: &mut Vec<Applied>, txn: &Txn) -> Result<(), NoMemory>
    requires { machine.old.steps < 2 ^ 64 - 1 }
    ensures { OnOk result (TakesStep machine.old txn.now machine.new steps.old.items steps.new.items) }
{
    let Ok(mut applied) = machine.apply(txn) else {
        return Err(NoMemory);
    };
    // The lists of most steps have one or two elements, and room for four.
    applied.shrink();
    steps.push(applied)?;
    Ok(())
}
