ghost use Rattle.std.specs.Prelude.{◌≡◌, ◌<◌, ◌+◌, ◌-◌, ◌^◌, ℕ, Bool, true, false, pos, Some, None, IfOk, IfErr, OnOk, OnErr, IsTrue, if◌then◌else◌};
ghost use Rattle.std.specs.FinMap as finite;
ghost use Rattle.zk_machine.specs.declared.fault.MachineFault.TheVariants as faults;
ghost use Rattle.zk_table.specs.Reads.{reply_to};
ghost use Rattle.zk_table.specs.States.{start_state};
ghost use Rattle.zk_table.specs.Steps.{step};
ghost use Rattle.zk_machine.specs.Changes.{changes_of};
ghost use Rattle.zk_machine.specs.Refusals.{IsUndoRefusal};
ghost use Rattle.zk_machine.specs.Undoing.{IsState, restored};

use crate::applied::Applied;
use crate::fault::{MachineFault, UndoFault};
use crate::noted_tree::NotedTree;
use crate::preimages::Preimages;
use crate::reading::reply_from;
use crate::sessions::Sessions;
use crate::table::Table;
use crate::undo::Undo;
use std::alloc::Global;
use std::marker::Model;
use zk_acl::Id;
use zk_path::NoMemory;
use zk_table::{ReadCall, ReadReply, Txn, TxnResult};
use zk_tree::Tree;

/// The table over an indexed tree. After an allocation failure in the middle of a change the
/// machine has failed: every later call but [`Machine::has_failed`] returns
/// [`MachineFault::Failed`].
#[derive(Drop)]
pub struct Machine {
    table: Table,
    steps: u64,
    failed: bool,
}

impl Model for Machine {
    ghost use Rattle.zk_table.specs.contracts.node.Node as node;
    ghost use Rattle.zk_machine.specs.Machines.{MachineView, machine_code};
    ghost use Rattle.zk_machine.specs.Tables.{state_of};

    ghost Value = { MachineView };

    ghost coded = { machine_code node.the_row.coded };

    ghost view = { λ machine. record { state = state_of machine.table; steps = machine.steps; failed = machine.failed } };
}

impl Machine {
    /// The start state.
    pub fn new(alloc: Global) -> Result<Machine, NoMemory>
        ensures { IfOk result (λ machine. machine ≡ record { state = start_state; steps = 0; failed = false }) }
    {
        let tree = Tree::new(alloc)?;
        Ok(Machine {
            table: Table {
                nodes: NotedTree {
                    alloc,
                    tree,
                    touched: Preimages::new(alloc),
                },
                sessions: Sessions::new(alloc),
                last: 0,
            },
            steps: 0,
            failed: false,
        })
    }

    /// A machine in the state of this tree, these sessions and this last zxid. It undoes only what
    /// it applies from there.
    pub fn from_state(alloc: Global, tree: Tree, sessions: Sessions, last: i64) -> Machine
        ensures { result ≡ record { state = record { nodes = tree; sessions = sessions; last = last }; steps = 0; failed = false } }
    {
        Machine {
            table: Table {
                nodes: NotedTree {
                    alloc,
                    tree,
                    touched: Preimages::new(alloc),
                },
                sessions,
                last,
            },
            steps: 0,
            failed: false,
        }
    }

    /// A machine in the same state, whose steps start again at 0. [`undo`](Machine::undo) compares
    /// only step numbers, so undo records of the original are not for the copy.
    pub fn copy(&self) -> Result<Machine, NoMemory>
        requires { self.now.failed ≡ false }
        ensures { IfOk result (λ copy. copy ≡ record { state = self.now.state; steps = 0; failed = false }) }
    {
        Ok(Machine {
            table: self.table.copy()?,
            steps: 0,
            failed: false,
        })
    }

    /// Applies a transaction and returns its result, changes and undo record.
    pub fn apply(&mut self, txn: &Txn) -> Result<Applied, MachineFault>
        requires { self.old.steps < 2 ^ 64 - 1 }
        ensures stepped { IfOk result (λ applied. (self.new.state, applied.result) ≡ step self.old.state txn.now) }
        ensures changes { IfOk result (λ applied. applied.changes.items ≡ changes_of self.old.state txn.now) }
        ensures undone { IfOk result (λ applied. restored applied.undo self.new.state ≡ self.old.state) }
        ensures last_step { IfOk result (λ applied. applied.undo.step ≡ self.new.steps) }
        // The undo record restores a valid state.
        ensures stands { OnOk result (IsState self.old.state.nodes) }
        ensures counted { OnOk result (self.new.steps ≡ self.old.steps + 1) }
        ensures ran { OnOk result ((self.old.failed ≡ false) × (self.new.failed ≡ false)) }

        ensures fault { IfErr result (λ fault. fault ≡ (if self.old.failed then faults.Failed else faults.NoMemory)) }
        ensures failed { OnErr result ((self.new.failed ≡ true) × (self.new.steps ≡ self.old.steps)) }
    {
        if self.failed {
            return Err(MachineFault::Failed);
        }
        let Ok(applied) = self.table.apply(txn, self.steps + 1) else {
            self.failed = true;
            return Err(MachineFault::NoMemory);
        };
        self.steps += 1;
        Ok(applied)
    }

    /// Applies a transaction and returns only its result, without changes or undo record.
    pub fn advance(&mut self, txn: &Txn) -> Result<TxnResult, MachineFault>
        requires { self.old.steps < 2 ^ 64 - 1 }
        ensures stepped { IfOk result (λ answered. (self.new.state, answered) ≡ step self.old.state txn.now) }
        ensures counted { OnOk result (self.new.steps ≡ self.old.steps + 1) }
        ensures ran { OnOk result ((self.old.failed ≡ false) × (self.new.failed ≡ false)) }

        ensures fault { IfErr result (λ fault. fault ≡ (if self.old.failed then faults.Failed else faults.NoMemory)) }
        ensures failed { OnErr result ((self.new.failed ≡ true) × (self.new.steps ≡ self.old.steps)) }
    {
        if self.failed {
            return Err(MachineFault::Failed);
        }
        let Ok(answered) = self.table.advance(txn) else {
            self.failed = true;
            return Err(MachineFault::NoMemory);
        };
        self.steps += 1;
        Ok(answered)
    }

    /// Undoes the last transaction that was applied and not undone. The record must be the one of
    /// that step on this machine; only its step number is checked.
    pub fn undo(&mut self, undo: Undo) -> Result<(), UndoFault>
        // The record restores a valid state.
        requires { self.old.failed ≡ false → undo.step ≡ self.old.steps → IsState (restored undo self.old.state).nodes }
        ensures restored { OnOk result (self.new.state ≡ restored undo self.old.state) }
        ensures last_step { OnOk result (undo.step ≡ self.old.steps) }
        ensures counted { OnOk result (self.new.steps + 1 ≡ self.old.steps) }
        ensures ran { OnOk result ((self.old.failed ≡ false) × (self.new.failed ≡ false)) }

        ensures refused { IfErr result (λ refused. IsUndoRefusal self.old self.new undo refused) }
    {
        if self.failed {
            return Err(UndoFault {
                fault: MachineFault::Failed,
                undo: Some(undo),
            });
        }
        if undo.step() != self.steps {
            return Err(UndoFault {
                fault: MachineFault::NotLast,
                undo: Some(undo),
            });
        }
        let Ok(()) = self.table.take_back(undo) else {
            self.failed = true;
            return Err(UndoFault {
                fault: MachineFault::NoMemory,
                undo: None,
            });
        };
        self.steps -= 1;
        Ok(())
    }

    pub fn tree(&self) -> Result<&Tree, MachineFault>
        ensures tree { IfOk result (λ tree. (self.now.failed ≡ false) × (tree.now ≡ self.now.state.nodes)) }
        ensures failed { IfErr result (λ fault. (self.now.failed ≡ true) × (fault ≡ faults.Failed)) }
    {
        self.running()?;
        Ok(&self.table.nodes.tree)
    }

    /// The reply to a read by a caller who has proved `auths`. An allocation failure fails only the
    /// call.
    pub fn read(&self, call: &ReadCall, auths: &[Id]) -> Result<ReadReply, MachineFault>
        ensures reply { IfOk result (λ reply. (self.now.failed ≡ false) × (reply ≡ reply_to self.now.state call.now auths.now)) }
        ensures fault { IfErr result (λ fault. fault ≡ (if self.now.failed then faults.Failed else faults.NoMemory)) }
    {
        self.running()?;
        Ok(reply_from(&self.table.nodes.tree, call, auths)?)
    }

    /// The open sessions and their timeouts in milliseconds. They are sorted by the unsigned number
    /// that a session's sixteen hexadecimal digits show.
    pub fn sessions(&self) -> Result<&[(u64, i32)], MachineFault>
        ensures sessions { IfOk result (λ sessions. (self.now.failed ≡ false) × (sessions.now ≡ finite.entries self.now.state.sessions)) }
        ensures failed { IfErr result (λ fault. (self.now.failed ≡ true) × (fault ≡ faults.Failed)) }
    {
        self.running()?;
        Ok(self.table.sessions.as_slice())
    }

    /// The timeout of a session in milliseconds; `None` if it is not open.
    pub fn session(&self, session: u64) -> Result<Option<i32>, MachineFault>
        ensures timeout { IfOk result (λ timeout. (self.now.failed ≡ false) × (timeout ≡ finite.get self.now.state.sessions session)) }
        ensures failed { IfErr result (λ fault. (self.now.failed ≡ true) × (fault ≡ faults.Failed)) }
    {
        self.running()?;
        Ok(self.table.sessions.get(session))
    }

    /// The zxid of the last transaction; 0 before the first.
    pub fn last(&self) -> Result<i64, MachineFault>
        ensures last { IfOk result (λ last. (self.now.failed ≡ false) × (last ≡ self.now.state.last)) }
        ensures failed { IfErr result (λ fault. (self.now.failed ≡ true) × (fault ≡ faults.Failed)) }
    {
        self.running()?;
        Ok(self.table.last)
    }

    /// The number of transactions that were applied and not undone.
    pub fn steps(&self) -> Result<u64, MachineFault>
        ensures steps { IfOk result (λ steps. (self.now.failed ≡ false) × (steps ≡ self.now.steps)) }
        ensures failed { IfErr result (λ fault. (self.now.failed ≡ true) × (fault ≡ faults.Failed)) }
    {
        self.running()?;
        Ok(self.steps)
    }

    /// Makes room to count a step. After `u64::MAX` steps the machine is replaced by a copy, whose
    /// steps start again at 0: earlier undo records are not for it. If an allocation fails it is
    /// unchanged.
    pub fn make_countable(&mut self) -> Result<(), NoMemory>
        requires { self.old.failed ≡ false }
        ensures state { self.new.state ≡ self.old.state }
        ensures running { self.new.failed ≡ false }
        ensures room { OnOk result (self.new.steps < 2 ^ 64 - 1) }
        ensures same { self.old.steps < 2 ^ 64 - 1 → self.new.steps ≡ self.old.steps }
        ensures err { OnErr result (self.new ≡ self.old) }
    {
        if self.steps == u64::MAX {
            *self = self.copy()?;
        }
        Ok(())
    }

    /// Whether an allocation failed in the middle of a change.
    pub fn has_failed(&self) -> bool
        ensures { result ≡ self.now.failed }
    {
        self.failed
    }

    /// Fails if the machine has failed.
    fn running(&self) -> Result<(), MachineFault>
        ensures running { OnOk result (self.now.failed ≡ false) }
        ensures failed { IfErr result (λ fault. (self.now.failed ≡ true) × (fault ≡ faults.Failed)) }
    {
        if self.failed {
            return Err(MachineFault::Failed);
        }
        Ok(())
    }
}
