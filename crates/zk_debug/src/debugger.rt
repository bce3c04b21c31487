ghost use Rattle.std.specs.Prelude.{◌≡◌, ◌+◌, ◌<◌, ◌≤◌, ℤ, true, false, length, take, IfOk, IfErr, OnOk, OnErr, IsTrue};
ghost use Rattle.std.specs.FinMap as finite;
ghost use Rattle.std.specs.Option.{option_copied};
ghost use Rattle.zk_records.specs.Written.{Rises};
ghost use Rattle.zk_debug.specs.declared.debug_fault.DebugFault.TheVariants as faults;
ghost use Rattle.zk_table.specs.States.{start_state};
ghost use Rattle.zk_debug.specs.Debugging.{started, state_at, machine_at, result_at, zxid_at, hit_at, moved, broken, steps_to, up_to, Moves, IsRunTo, IsRunBackTo, RefusesOn, RefusesBack, RefusesAny, RefusesSet};

use crate::breakpoint::Breakpoint;
use crate::breakpoints::Breakpoints;
use crate::debug_fault::DebugFault;
use crate::stop::Stop;
use crate::walk::Walk;
use indexmap::IndexMap;
use std::alloc::Global;
use std::marker::Model;
use zk_log::{Loaded, Txns};
use zk_machine::Machine;
use zk_path::{NoMemory, Path};
use zk_table::{Node, Txn, TxnResult};

/// The maximum number of breakpoints that can be set.
const MOST_BREAKPOINTS: u32 = 65_535;

/// A loaded log, a place in it, and breakpoints.
///
/// After an allocation failure in a move or in [`Debugger::reset`] the debugger has failed, at the
/// place before the call. Until a reset succeeds, moves, [`Debugger::tree`], [`Debugger::node`] and
/// [`Debugger::last_result`] fail with [`DebugFault::Failed`].
pub struct Debugger {
    walk: Walk,
    breakpoints: Breakpoints,
}

impl Drop for Debugger {
    fn drop(self) {
        let Debugger {
            walk: _,
            breakpoints: _,
        } = self;
    }
}

impl Model for Debugger {
    ghost use Rattle.zk_table.specs.contracts.node.Node as node;
    ghost use Rattle.zk_table.specs.contracts.txn.Txn as txn;
    ghost use Rattle.zk_debug.specs.contracts.breakpoint.Breakpoint as breakpoint;
    ghost use Rattle.zk_debug.specs.Debugging.{Debugging, debugging_code};

    ghost Value = { Debugging };

    ghost coded = { debugging_code node.the_row.coded txn.the_row.coded breakpoint.the_row.coded };

    ghost view = { λ d. record { base = d.walk.base; txns = d.walk.txns; place = d.walk.place; breakpoints = d.breakpoints; failed = d.walk.failed } };
}

impl Debugger {
    /// A debugger at the start of a log, without breakpoints.
    pub fn new(alloc: Global, loaded: Loaded) -> Result<Debugger, NoMemory>
        ensures { IfOk result (λ debugger. debugger ≡ started start_state loaded.txns) }
    {
        let base = Machine::new(alloc)?;
        Debugger::from_base(alloc, base, loaded.txns)
    }

    /// A debugger at the start of transactions that continue the state of `base`, without
    /// breakpoints. It moves back to that state, which is place 0, and no further.
    pub fn from_base(alloc: Global, base: Machine, txns: Txns) -> Result<Debugger, NoMemory>
        requires { base.failed ≡ false }
        ensures { IfOk result (λ debugger. debugger ≡ started base.state txns) }
    {
        Ok(Debugger {
            walk: Walk::new(alloc, base, txns)?,
            breakpoints: Breakpoints::new(alloc),
        })
    }

    /// A machine in the state that the transactions continue.
    pub fn base(&self) -> &Machine
        ensures state { result.now.state ≡ self.now.base }
        ensures runs { result.now.failed ≡ false }
    {
        self.walk.base()
    }

    /// The place: the number of applied transactions.
    pub fn place(&self) -> usize
        ensures { result ≡ self.now.place }
    {
        self.walk.place()
    }

    pub fn txns(&self) -> &[Txn]
        ensures txns { result.now ≡ self.now.txns }
        ensures within { self.now.place ≤ length self.now.txns }
    {
        self.walk.txns()
    }

    /// The zxid of the transaction just before the place; at the start that of the base,
    /// which is 0 for a single log.
    pub fn zxid(&self) -> i64
        ensures { result ≡ zxid_at self.now.base self.now.txns self.now.place }
    {
        self.walk.zxid()
    }

    /// The machine at the place, after the transactions before it.
    pub fn tree(&self) -> Result<&Machine, DebugFault>
        ensures tree { IfOk result (λ machine. (self.now.failed ≡ false) × (machine.now ≡ machine_at self.now.base self.now.txns self.now.place)) }
        ensures refused { IfErr result (λ fault. (fault ≡ faults.Failed) × (self.now.failed ≡ true)) }
    {
        self.running()?;
        Ok(self.walk.machine())
    }

    pub fn node(&self, path: &Path) -> Result<Option<&Node>, DebugFault>
        ensures node { IfOk result (λ node. option_copied node ≡ finite.get (state_at self.now.base self.now.txns self.now.place).nodes path.now) }
        ensures ran { OnOk result (self.now.failed ≡ false) }
        ensures refused { IfErr result (λ fault. (fault ≡ faults.Failed) × (self.now.failed ≡ true)) }
    {
        self.running()?;
        let Ok(tree) = self.walk.machine().tree() else {
            unreachable!()
        };
        Ok(tree.get(path))
    }

    /// The result of the transaction just before the place; `None` at the start.
    pub fn last_result(&self) -> Result<Option<&TxnResult>, DebugFault>
        ensures last { IfOk result (λ last. option_copied last ≡ result_at self.now.base self.now.txns self.now.place) }
        ensures ran { OnOk result (self.now.failed ≡ false) }
        ensures refused { IfErr result (λ fault. (fault ≡ faults.Failed) × (self.now.failed ≡ true)) }
    {
        self.running()?;
        match self.walk.last() {
            Some((_, applied)) => Ok(Some(&applied.result)),
            None => Ok(None),
        }
    }

    /// Moves to the next place.
    pub fn step(&mut self) -> Result<Stop, DebugFault>
        ensures moves { IfOk result (λ stop. Moves self.old stop self.new) }
        ensures place { IfOk result (λ stop. stop.place ≡ self.old.place + 1) }
        ensures refused { IfErr result (λ fault. RefusesOn self.old fault self.new) }
    {
        self.running()?;
        let place = self.walk.place();
        if place == self.walk.end() {
            return Err(DebugFault::AtEnd);
        }
        self.go_on(place)
    }

    /// Moves this many places on, or to the end.
    pub fn step_by(&mut self, count: usize) -> Result<Stop, DebugFault>
        ensures moves { IfOk result (λ stop. Moves self.old stop self.new) }
        ensures place { IfOk result (λ stop. stop.place ≡ steps_to self.old count) }
        ensures refused { IfErr result (λ fault. RefusesOn self.old fault self.new) }
    {
        self.running()?;
        let (began, end) = (self.walk.place(), self.walk.end());
        if began == end {
            return Err(DebugFault::AtEnd);
        }
        let place = if count < end - began {
            began + count
        } else {
            end
        };
        self.walk.go_to(place)?;
        Ok(self.stop())
    }

    /// Moves to the previous place.
    pub fn back(&mut self) -> Result<Stop, DebugFault>
        ensures moves { IfOk result (λ stop. Moves self.old stop self.new) }
        ensures place { IfOk result (λ stop. stop.place + 1 ≡ self.old.place) }
        ensures refused { IfErr result (λ fault. RefusesBack self.old fault self.new) }
    {
        self.running()?;
        let place = self.walk.place();
        if place == 0 {
            return Err(DebugFault::AtStart);
        }
        self.go_back(place)
    }

    /// Moves to the first later place that matches a breakpoint, or to the end.
    pub fn run(&mut self) -> Result<Stop, DebugFault>
        ensures moves { IfOk result (λ stop. Moves self.old stop self.new) }
        ensures place { IfOk result (λ stop. IsRunTo self.old stop.place) }
        ensures refused { IfErr result (λ fault. RefusesOn self.old fault self.new) }
    {
        self.running()?;
        let began = self.walk.place();
        if began == self.walk.end() {
            return Err(DebugFault::AtEnd);
        }
        let mut stop = self.go_on(began)?;
        while stop.hit.is_none() && stop.place < self.walk.end() {
            stop = self.go_on(began)?;
        }
        Ok(stop)
    }

    /// Moves to the last earlier place that matches a breakpoint, or to the start.
    pub fn run_back(&mut self) -> Result<Stop, DebugFault>
        ensures moves { IfOk result (λ stop. Moves self.old stop self.new) }
        ensures place { IfOk result (λ stop. IsRunBackTo self.old stop.place) }
        ensures refused { IfErr result (λ fault. RefusesBack self.old fault self.new) }
    {
        self.running()?;
        let began = self.walk.place();
        if began == 0 {
            return Err(DebugFault::AtStart);
        }
        let mut stop = self.go_back(began)?;
        while stop.hit.is_none() && stop.place > 0 {
            stop = self.go_back(began)?;
        }
        Ok(stop)
    }

    /// Moves to the place whose number is that of the transactions with at most this zxid. In a
    /// log, whose zxids rise, these are the ones before that place.
    pub fn goto(&mut self, zxid: i64) -> Result<Stop, DebugFault>
        ensures moves { IfOk result (λ stop. Moves self.old stop self.new) }
        ensures place { IfOk result (λ stop. stop.place ≡ length (up_to zxid self.old.txns)) }
        ensures rising { (last : ℤ) → Rises last self.old.txns → IfOk result (λ stop. take stop.place self.old.txns ≡ up_to zxid self.old.txns) }
        ensures refused { IfErr result (λ fault. RefusesAny self.old fault self.new) }
    {
        self.running()?;
        let place = self.walk.count_up_to(zxid);
        self.walk.go_to(place)?;
        Ok(self.stop())
    }

    /// Moves to the start, also after a failure. Keeps the breakpoints.
    pub fn reset(&mut self) -> Result<(), DebugFault>
        ensures started { OnOk result (self.new ≡ record self.old { place = 0; failed = false }) }
        ensures refused { IfErr result (λ fault. (fault ≡ faults.NoMemory) × (self.new ≡ broken self.old)) }
    {
        self.walk.restart()?;
        Ok(())
    }

    /// Sets a breakpoint and returns its number. Numbers rise from 1 and are not reused.
    pub fn set(&mut self, breakpoint: Breakpoint) -> Result<u32, DebugFault>
        ensures number { IfOk result (λ number. number ≡ self.old.breakpoints.numbered + 1) }
        ensures set { IfOk result (λ number. self.new ≡ record self.old { breakpoints = record { standing = finite.insert self.old.breakpoints.standing number breakpoint; numbered = number } }) }
        ensures room { OnOk result (self.old.breakpoints.numbered < 65535) }
        ensures refused { IfErr result (λ fault. RefusesSet self.old fault) }
        ensures unchanged { OnErr result (self.new ≡ self.old) }
    {
        if self.breakpoints.numbered() >= MOST_BREAKPOINTS {
            return Err(DebugFault::Full);
        }
        let number = self.breakpoints.set(breakpoint)?;
        Ok(number)
    }

    /// The breakpoints that are set, in the order of their numbers.
    pub fn breakpoints(&self) -> &IndexMap<u32, Breakpoint>
        ensures { result.now.entries ≡ finite.entries self.now.breakpoints.standing }
    {
        self.breakpoints.standing()
    }

    /// Removes the breakpoint with a number.
    pub fn clear(&mut self, number: u32) -> Result<(), DebugFault>
        ensures stood { OnOk result (finite.contains_key self.old.breakpoints.standing number ≡ true) }
        ensures gone { OnOk result (self.new ≡ record self.old { breakpoints = record self.old.breakpoints { standing = finite.remove self.old.breakpoints.standing number } }) }
        ensures refused { IfErr result (λ fault. (fault ≡ faults.NoBreakpoint) × (finite.contains_key self.old.breakpoints.standing number ≡ false)) }
        ensures unchanged { OnErr result (self.new ≡ self.old) }
    {
        if !self.breakpoints.clear(number) {
            return Err(DebugFault::NoBreakpoint);
        }
        Ok(())
    }

    /// Moves to the next place, in a move that started at the place `began`.
    fn go_on(&mut self, began: usize) -> Result<Stop, DebugFault>
        requires running { self.old.failed ≡ false }
        requires above { self.old.place < length self.old.txns }
        requires began { began ≤ length self.old.txns }
        ensures moved { OnOk result (self.new ≡ moved self.old (self.old.place + 1)) }
        ensures stop { IfOk result (λ stop. stop ≡ record { place = self.old.place + 1; hit = hit_at self.old (self.old.place + 1) }) }
        ensures failed { OnErr result (self.new ≡ broken (moved self.old began)) }
        ensures fault { IfErr result (λ fault. fault ≡ faults.NoMemory) }
    {
        self.walk.go_on(began)?;
        Ok(self.stop())
    }

    /// Moves to the previous place, in a move that started at the place `began`.
    fn go_back(&mut self, began: usize) -> Result<Stop, DebugFault>
        requires running { self.old.failed ≡ false }
        requires below { 0 < self.old.place }
        requires began { began ≤ length self.old.txns }
        ensures moved { IfOk result (λ stop. self.new ≡ moved self.old stop.place) }
        ensures before { IfOk result (λ stop. stop.place + 1 ≡ self.old.place) }
        ensures hit { IfOk result (λ stop. stop.hit ≡ hit_at self.old stop.place) }
        ensures failed { OnErr result (self.new ≡ broken (moved self.old began)) }
        ensures fault { IfErr result (λ fault. fault ≡ faults.NoMemory) }
    {
        self.walk.go_back(began)?;
        Ok(self.stop())
    }

    /// The place, and the lowest number of a breakpoint that it matches.
    fn stop(&self) -> Stop
        requires { self.now.failed ≡ false }
        ensures { result ≡ record { place = self.now.place; hit = hit_at self.now self.now.place } }
    {
        let hit = match self.walk.last() {
            Some((txn, applied)) => self.breakpoints.lowest_met(txn, applied),
            None => None,
        };
        Stop {
            place: self.walk.place(),
            hit,
        }
    }

    /// Fails if the debugger has failed.
    fn running(&self) -> Result<(), DebugFault>
        ensures running { OnOk result (self.now.failed ≡ false) }
        ensures refused { IfErr result (λ fault. (fault ≡ faults.Failed) × (self.now.failed ≡ true)) }
    {
        if self.walk.has_failed() {
            return Err(DebugFault::Failed);
        }
        Ok(())
    }
}
