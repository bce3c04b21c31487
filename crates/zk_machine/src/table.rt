ghost use Rattle.std.specs.Prelude.{◌≡◌, ◌<◌, IfOk, IsTrue, OnOk};
ghost use Rattle.std.specs.FinMap as finite;
ghost use Rattle.zk_table.specs.Operations.{told};
ghost use Rattle.zk_table.specs.Multis.{multi};
ghost use Rattle.zk_table.specs.Steps.{open_session, close_session, step};
ghost use Rattle.zk_machine.specs.Changes.{changes_of, multi_changes, changes_between};
ghost use Rattle.zk_machine.specs.Tables.{state_of};
ghost use Rattle.zk_tree.specs.Trees.{IsTree};
ghost use Rattle.zk_machine.specs.Undoing.{IsState, nodes_before, sessions_before, restored};

use crate::applied::Applied;
use crate::effect::Effect;
use crate::noted_tree::NotedTree;
use crate::preimages::Preimages;
use crate::restore::restore;
use crate::sessions::Sessions;
use crate::undo::Undo;
use zk_path::NoMemory;
use zk_table::{
    Op, PartResult, PartResults, Sub, Txn, TxnResult, answers_unapplied, first_refusal, hold_error,
};

/// Nodes, sessions and the last transaction. Nothing is specified of the table after an allocation
/// failure in a change.
pub(crate) struct Table {
    pub(crate) nodes: NotedTree,
    pub(crate) sessions: Sessions,
    pub(crate) last: i64,
}

impl Drop for Table {
    fn drop(self) {
        let Table {
            nodes: _,
            sessions: _,
            last: _,
        } = self;
    }
}

impl Table {
    pub(crate) fn copy(&self) -> Result<Table, NoMemory>
        ensures { IfOk result (λ copy. state_of copy ≡ state_of self.now) }
    {
        Ok(Table {
            nodes: self.nodes.copy()?,
            sessions: self.sessions.copy()?,
            last: self.last,
        })
    }

    /// Applies a transaction as step `number`.
    pub(crate) fn apply(&mut self, txn: &Txn, number: u64) -> Result<Applied, NoMemory>
        requires { 0 < number }
        ensures stepped { IfOk result (λ applied. (state_of self.new, applied.result) ≡ step (state_of self.old) txn.now) }
        ensures changes { IfOk result (λ applied. applied.changes.items ≡ changes_of (state_of self.old) txn.now) }
        ensures undone { IfOk result (λ applied. restored applied.undo (state_of self.new) ≡ state_of self.old) }
        ensures counted { IfOk result (λ applied. applied.undo.step ≡ number) }
        ensures stands { IsTree self.old.nodes.tree }
    {
        self.nodes.tree.stands();
        let last = self.last;
        let deed = self.run(txn, true)?;
        self.last = txn.zxid;
        let Effect {
            answer,
            parts,
            changes,
            touched,
            session,
        } = deed;
        Ok(Applied {
            result: result_of(txn, answer, parts),
            changes,
            undo: Undo::new(number, last, session, touched),
        })
    }

    /// Applies a transaction without an undo record or changes.
    pub(crate) fn advance(&mut self, txn: &Txn) -> Result<TxnResult, NoMemory>
        ensures { IfOk result (λ answered. (state_of self.new, answered) ≡ step (state_of self.old) txn.now) }
    {
        let deed = self.run(txn, false)?;
        self.last = txn.zxid;
        let Effect {
            answer,
            parts,
            touched,
            ..
        } = deed;
        // The next transaction's preimages reuse this memory.
        self.nodes.touched = touched;
        Ok(result_of(txn, answer, parts))
    }

    /// Applies a transaction, except for the number of the last one. The changes of a single
    /// instruction are computed only if `tells`.
    fn run(&mut self, txn: &Txn, tells: bool) -> Result<Effect, NoMemory>
        ensures stepped { IfOk result (λ deed. step (state_of self.old) txn.now ≡ told txn.now self.new.nodes.tree self.new.sessions deed.answer deed.parts.items) }
        ensures changes { IfOk result (λ deed. IsTrue tells → deed.changes.items ≡ changes_of (state_of self.old) txn.now) }
        ensures nodes { IfOk result (λ deed. nodes_before deed.touched self.new.nodes.tree ≡ self.old.nodes.tree) }
        ensures sessions { IfOk result (λ deed. sessions_before deed.session self.new.sessions ≡ self.old.sessions) }
        ensures last { self.new.last ≡ self.old.last }
    {
        self.nodes.begin();
        let answer = match &txn.op {
            Op::Create {
                path,
                content,
                acl,
                ephemeral,
                count,
            } => self
                .nodes
                .create(txn, path, content, acl, *ephemeral, *count)?,
            Op::CreateOld {
                path,
                content,
                acl,
                ephemeral,
            } => self.nodes.create(txn, path, content, acl, *ephemeral, -1)?,
            Op::Delete { path } => self.nodes.delete(txn, path)?,
            Op::SetData {
                path,
                content,
                version,
            } => self.nodes.set_data(txn, path, content, *version)?,
            Op::SetAcl { path, acl, version } => self.nodes.set_acl(path, acl, *version)?,
            Op::OpenSession { timeout } => return self.open_session(txn, *timeout, tells),
            Op::CloseSession => return self.close_session(txn, tells),
            Op::Multi { parts } => return self.multi(txn, parts.as_slice()),
            Op::Error { code } => PartResult::plain(*code),
        };
        let deed = self.nodes.deed(answer, None, tells)?;
        Ok(deed)
    }

    /// Opens the session of a transaction.
    fn open_session(&mut self, txn: &Txn, timeout: i32, tells: bool) -> Result<Effect, NoMemory>
        requires { self.old.nodes.touched ≡ finite.empty }
        ensures stepped { IfOk result (λ deed. open_session (state_of self.old) txn.now timeout ≡ told txn.now self.new.nodes.tree self.new.sessions deed.answer deed.parts.items) }
        ensures changes { IfOk result (λ deed. IsTrue tells → deed.changes.items ≡ changes_between self.old.nodes.tree self.old.nodes.tree) }
        ensures nodes { IfOk result (λ deed. nodes_before deed.touched self.new.nodes.tree ≡ self.old.nodes.tree) }
        ensures sessions { IfOk result (λ deed. sessions_before deed.session self.new.sessions ≡ self.old.sessions) }
        ensures last { self.new.last ≡ self.old.last }
    {
        let session = txn.session.cast_unsigned();
        let before = self.sessions.open(session, timeout)?;
        let deed = self
            .nodes
            .deed(PartResult::plain(0), Some((session, before)), tells)?;
        Ok(deed)
    }

    /// Closes the session of a transaction and deletes the nodes that it owns.
    fn close_session(&mut self, txn: &Txn, tells: bool) -> Result<Effect, NoMemory>
        requires { self.old.nodes.touched ≡ finite.empty }
        ensures stepped { IfOk result (λ deed. close_session (state_of self.old) txn.now ≡ told txn.now self.new.nodes.tree self.new.sessions deed.answer deed.parts.items) }
        ensures changes { IfOk result (λ deed. IsTrue tells → deed.changes.items ≡ changes_between self.old.nodes.tree self.new.nodes.tree) }
        ensures nodes { IfOk result (λ deed. nodes_before deed.touched self.new.nodes.tree ≡ self.old.nodes.tree) }
        ensures sessions { IfOk result (λ deed. sessions_before deed.session self.new.sessions ≡ self.old.sessions) }
        ensures last { self.new.last ≡ self.old.last }
    {
        self.nodes.take_owned(txn)?;
        let session = txn.session.cast_unsigned();
        let before = self.sessions.close(session);
        let deed = self
            .nodes
            .deed(PartResult::plain(0), Some((session, before)), tells)?;
        Ok(deed)
    }

    /// Applies the parts of a transaction in order, or none.
    fn multi(&mut self, txn: &Txn, parts: &[Sub]) -> Result<Effect, NoMemory>
        ensures stepped { IfOk result (λ deed. multi (state_of self.old) txn.now parts.now ≡ told txn.now self.new.nodes.tree self.new.sessions deed.answer deed.parts.items) }
        ensures changes { IfOk result (λ deed. deed.changes.items ≡ multi_changes (state_of self.old) txn.now parts.now) }
        ensures nodes { IfOk result (λ deed. nodes_before deed.touched self.new.nodes.tree ≡ self.old.nodes.tree) }
        ensures sessions { IfOk result (λ deed. sessions_before deed.session self.new.sessions ≡ self.old.sessions) }
        ensures last { self.new.last ≡ self.old.last }
    {
        if hold_error(parts) {
            let alloc = self.nodes.alloc;
            let answers = answers_unapplied(alloc, parts)?;
            return Ok(Effect {
                answer: PartResult::plain(first_refusal(&answers)),
                parts: answers,
                changes: Vec::new(alloc),
                touched: Preimages::new(alloc),
                session: None,
            });
        }
        self.nodes.apply_parts(txn, parts)
    }

    /// Restores the preimages of a transaction.
    pub(crate) fn take_back(&mut self, undo: Undo) -> Result<(), NoMemory>
        requires { IsState (restored undo (state_of self.old)).nodes }
        ensures { OnOk result (state_of self.new ≡ restored undo (state_of self.old)) }
    {
        restore(&mut self.nodes.tree, &undo.touched)?;
        self.sessions.put_back(undo.session)?;
        self.last = undo.last;
        Ok(())
    }
}

/// The result of a transaction, from the result of its operation and those of a multi's parts.
fn result_of(txn: &Txn, answer: PartResult, parts: Vec<PartResult>) -> TxnResult
    ensures { result ≡ record { zxid = txn.now.zxid; err = answer.err; path = answer.path; stat = answer.stat; parts = parts.items } }
{
    let PartResult { err, path, stat } = answer;
    TxnResult {
        zxid: txn.zxid,
        err,
        path,
        stat,
        parts: PartResults::new(parts),
    }
}
