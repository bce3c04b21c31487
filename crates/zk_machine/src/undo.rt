ghost use Rattle.std.specs.Prelude.{◌≡◌, ◌<◌, IsTrue};
ghost use Rattle.std.specs.FinMap as finite;
ghost use Rattle.zk_table.specs.States.{path_cmp};
ghost use Rattle.zk_machine.specs.Undoing.{KeepsRoot};

use crate::preimages::Preimages;
use std::marker::Model;
use zk_path::Path;
use zk_table::Node;

/// The undo record of a transaction. The machine that applied it accepts the record as long as the
/// transaction is its last one.
#[derive(Debug)]
pub struct Undo {
    pub(crate) step: u64,
    pub(crate) last: i64,
    pub(crate) session: Option<(u64, Option<i32>)>,
    pub(crate) touched: Preimages,
}

impl Drop for Undo {
    fn drop(self) {
        let Undo {
            step: _,
            last: _,
            session: _,
            touched: _,
        } = self;
    }
}

impl Model for Undo {
    ghost use Rattle.std.specs.Prelude.{◌<◌};
    ghost use Rattle.zk_table.specs.contracts.node.Node as node;
    ghost use Rattle.zk_machine.specs.Undoing.{Undoing, undo_code, IsUndoing};

    ghost Value = { Undoing };

    ghost coded = { undo_code node.the_row.coded };

    ghost view = { λ undo. record { step = undo.step; last = undo.last; session = undo.session; touched = undo.touched } };

    ghost invariant = { λ undo. IsUndoing undo.step undo.touched };
}

impl Undo {
    /// The undo record of step `step`: the last transaction before it, the touched session with its
    /// timeout before, and the preimages.
    pub(crate) fn new(
        step: u64,
        last: i64,
        session: Option<(u64, Option<i32>)>,
        touched: Preimages,
    ) -> Undo
        requires counted { 0 < step }
        requires root { KeepsRoot touched }
        ensures { result ≡ record { step = step; last = last; session = session; touched = touched } }
    {
        Undo {
            step,
            last,
            session,
            touched,
        }
    }

    /// What an undo restores, sorted by path: each path that the transaction touched, with its node
    /// before, or none. A reader that mirrors the tree processes only what changed.
    pub fn notes(&self) -> &[(Path, Option<Node>)]
        ensures notes { result.now ≡ finite.entries self.now.touched }
        ensures sorted { IsTrue (finite.is_sorted path_cmp result.now) }
    {
        self.touched.as_slice()
    }

    /// The step that the record undoes, counted from 1.
    pub(crate) fn step(&self) -> u64
        ensures step { result ≡ self.now.step }
        ensures counted { 0 < self.now.step }
    {
        self.step
    }

    pub(crate) fn shrink(&mut self)
        ensures { self.new ≡ self.old }
    {
        self.touched.shrink();
    }
}
