ghost use Rattle.std.specs.Prelude.{◌≡◌, ◌+◌, ◌<◌, ◌≤◌, true, false, IfOk, OnOk, OnErr, IsTrue};
ghost use Rattle.std.specs.FinMap as finite;
ghost use Rattle.zk_debug.specs.Breakpoints.{is_met};
ghost use Rattle.zk_debug.specs.Debugging.{lowest_by};

use crate::breakpoint::Breakpoint;
use indexmap::IndexMap;
use std::alloc::Global;
use std::marker::Model;
use zk_machine::Applied;
use zk_path::NoMemory;
use zk_table::Txn;

/// Breakpoints by number. Numbers rise from 1 and are not reused.
#[derive(Drop)]
pub(crate) struct Breakpoints {
    standing: IndexMap<u32, Breakpoint>,
    numbered: u32,
}

impl Model for Breakpoints {
    ghost use Rattle.std.specs.FinMap as finite;
    ghost use Rattle.zk_debug.specs.contracts.breakpoint.Breakpoint as breakpoint;
    ghost use Rattle.zk_debug.specs.Debugging.{Breakpoints, breakpoints_code};
    ghost use Rattle.zk_debug.specs.Numbers.{AreNumbered};

    ghost Value = { Breakpoints };

    ghost coded = { breakpoints_code breakpoint.the_row.coded };

    ghost view = { λ breakpoints. record { standing = finite.from_sorted breakpoints.standing.entries; numbered = breakpoints.numbered } };

    ghost invariant = { λ breakpoints. AreNumbered breakpoints.standing.entries breakpoints.numbered };
}

impl Breakpoints {
    pub(crate) fn new(alloc: Global) -> Breakpoints
        ensures { result ≡ record { standing = finite.empty; numbered = 0 } }
    {
        Breakpoints {
            standing: IndexMap::new(alloc),
            numbered: 0,
        }
    }

    /// How many were ever set.
    pub(crate) fn numbered(&self) -> u32
        ensures numbered { result ≡ self.now.numbered }
        ensures limited { self.now.numbered ≤ 65535 }
    {
        self.numbered
    }

    /// Sets a breakpoint; returns its number, the next one.
    pub(crate) fn set(&mut self, breakpoint: Breakpoint) -> Result<u32, NoMemory>
        requires { self.old.numbered < 65535 }
        ensures number { IfOk result (λ number. number ≡ self.old.numbered + 1) }
        ensures stands { OnOk result (self.new ≡ record { standing = finite.insert self.old.standing (self.old.numbered + 1) breakpoint; numbered = self.old.numbered + 1 }) }
        ensures unchanged { OnErr result (self.new ≡ self.old) }
    {
        let number = self.numbered + 1;
        let Ok(_) = self.standing.insert(number, breakpoint) else {
            return Err(NoMemory);
        };
        self.numbered = number;
        Ok(number)
    }

    /// Removes a breakpoint; returns whether it was set.
    pub(crate) fn clear(&mut self, number: u32) -> bool
        ensures stood { result ≡ finite.contains_key self.old.standing number }
        ensures gone { self.new ≡ record self.old { standing = finite.remove self.old.standing number } }
    {
        self.standing.shift_remove(&number).is_some()
    }

    /// Those that are set, in the order of their numbers.
    pub(crate) fn standing(&self) -> &IndexMap<u32, Breakpoint>
        ensures { result.now.entries ≡ finite.entries self.now.standing }
    {
        &self.standing
    }

    /// The lowest number of a breakpoint that a transaction matches, given its result and changes.
    pub(crate) fn lowest_met(&self, txn: &Txn, applied: &Applied) -> Option<u32>
        ensures { result ≡ lowest_by (is_met txn.now applied.now.result.err applied.now.changes.items) self.now.standing }
    {
        let count = self.standing.len();
        for at in 0..count {
            let Some((number, breakpoint)) = self.standing.get_index(at) else {
                return None;
            };
            if breakpoint.is_met(txn, applied) {
                return Some(*number);
            }
        }
        None
    }
}
