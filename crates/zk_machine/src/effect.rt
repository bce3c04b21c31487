//! The effect of a transaction, found by comparing the nodes that it touched.

ghost use Rattle.std.specs.Prelude.{◌≡◌, [], None, IfOk, IsTrue, OnOk};
ghost use Rattle.std.specs.FinMap as finite;
ghost use Rattle.zk_table.specs.Answers.{plain_answer};
ghost use Rattle.zk_table.specs.Multis.{apply_part, nodes_after, answers_of, first_refusal};
ghost use Rattle.zk_machine.specs.Changes.{changes_between, part_changes};
ghost use Rattle.zk_machine.specs.Undoing.{nodes_before};

use crate::change::Change;
use crate::noted_tree::NotedTree;
use crate::preimages::Preimages;
use std::mem::replace;
use zk_path::NoMemory;
use zk_table::{PartResult, Sub, Txn, first_refusal};

/// The result and the changes of a transaction, and the preimages.
#[derive(Debug, Drop)]
pub(crate) struct Effect {
    pub(crate) answer: PartResult,
    /// The results of a multi's parts.
    pub(crate) parts: Vec<PartResult>,
    /// May be left out for a single instruction; the parts of a multi always have theirs.
    pub(crate) changes: Vec<Change>,
    pub(crate) touched: Preimages,
    /// The session that was touched, and its timeout before.
    pub(crate) session: Option<(u64, Option<i32>)>,
}

impl NotedTree {
    /// The effect since the preimages were cleared, of an instruction with this result and session.
    /// The changes are computed only if `tells`.
    pub(crate) fn deed(
        &mut self,
        answer: PartResult,
        session: Option<(u64, Option<i32>)>,
        tells: bool,
    ) -> Result<Effect, NoMemory>
        ensures answer { IfOk result (λ deed. deed.answer ≡ answer) }
        ensures parts { IfOk result (λ deed. deed.parts.items ≡ []) }
        ensures changes { IfOk result (λ deed. IsTrue tells → deed.changes.items ≡ changes_between (nodes_before self.old.touched self.old.tree) self.old.tree) }
        ensures touched { IfOk result (λ deed. deed.touched ≡ self.old.touched) }
        ensures session { IfOk result (λ deed. deed.session ≡ session) }
        ensures tree { self.new.tree ≡ self.old.tree }
    {
        let changes = if tells {
            self.changes()?
        } else {
            Vec::new(self.alloc)
        };
        let touched = replace(&mut self.touched, Preimages::new(self.alloc));
        Ok(Effect {
            answer,
            parts: Vec::new(self.alloc),
            changes,
            touched,
            session,
        })
    }

    /// Applies one part of a multi and returns its effect.
    fn part_deed(&mut self, txn: &Txn, part: &Sub) -> Result<Effect, NoMemory>
        ensures done { IfOk result (λ deed. apply_part txn.now self.old.tree part.now ≡ record { nodes = self.new.tree; answer = deed.answer }) }
        ensures changes { IfOk result (λ deed. deed.changes.items ≡ changes_between self.old.tree self.new.tree) }
        ensures before { IfOk result (λ deed. nodes_before deed.touched self.new.tree ≡ self.old.tree) }
    {
        self.begin();
        let answer = self.apply_part(txn, part)?;
        let deed = self.deed(answer, None, true)?;
        Ok(deed)
    }

    /// Applies the parts of a multi in order.
    pub(crate) fn apply_parts(&mut self, txn: &Txn, parts: &[Sub]) -> Result<Effect, NoMemory>
        ensures tree { OnOk result (self.new.tree ≡ nodes_after txn.now self.old.tree parts.now) }
        ensures answer { IfOk result (λ deed. deed.answer ≡ plain_answer (first_refusal (answers_of txn.now self.old.tree parts.now))) }
        ensures parts { IfOk result (λ deed. deed.parts.items ≡ answers_of txn.now self.old.tree parts.now) }
        ensures changes { IfOk result (λ deed. deed.changes.items ≡ part_changes txn.now self.old.tree parts.now) }
        ensures before { IfOk result (λ deed. nodes_before deed.touched self.new.tree ≡ self.old.tree) }
        ensures session { IfOk result (λ deed. deed.session ≡ None) }
    {
        let mut answers = Vec::new(self.alloc);
        let mut changes = Vec::new(self.alloc);
        let mut touched = Preimages::new(self.alloc);
        for part in parts {
            let deed = self.part_deed(txn, part)?;
            let mut more = deed.changes;
            answers.push(deed.answer)?;
            changes.append(&mut more)?;
            touched.note_all(deed.touched)?;
        }
        Ok(Effect {
            answer: PartResult::plain(first_refusal(&answers)),
            parts: answers,
            changes,
            touched,
            session: None,
        })
    }
}
