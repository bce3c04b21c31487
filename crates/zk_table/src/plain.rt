ghost use Rattle.std.specs.Prelude.{◌≡◌, ℤ, [], IfOk, IsOk, OnErr, OnOk};
ghost use Rattle.zk_table.specs.declared.txn.Op.TheVariants as ops;
ghost use Rattle.std.specs.FinMap as finite;
ghost use Rattle.zk_table.specs.States.{start_state, stat_of};
ghost use Rattle.zk_table.specs.Multis.{multi};
ghost use Rattle.zk_table.specs.Operations.{told};
ghost use Rattle.zk_table.specs.Reads.{reply_to};
ghost use Rattle.zk_table.specs.Steps.{open_session, close_session, step};

use crate::multi::{answers_unapplied, first_refusal, hold_error};
use crate::nodes::Nodes;
use crate::sessions::Sessions;
use crate::{Node, Op, PartResult, PartResults, ReadCall, ReadReply, Sub, Txn, TxnResult};
use std::alloc::Global;
use std::marker::Model;
use zk_acl::{Id, Stat};
use zk_path::{NoMemory, Path};

/// The reference implementation of the table: a list of nodes and a list of sessions.
#[derive(Debug)]
pub struct Plain {
    nodes: Nodes,
    sessions: Sessions,
    last: i64,
}

impl Drop for Plain {
    fn drop(self) {
        let Plain {
            nodes: _,
            sessions: _,
            last: _,
        } = self;
    }
}

impl Model for Plain {
    ghost use Rattle.zk_table.specs.contracts.node.Node as node;
    ghost use Rattle.zk_table.specs.States.{State, state_code};

    ghost Value = { State };

    ghost coded = { state_code node.the_row.coded };

    ghost view = { λ plain. record { nodes = plain.nodes; sessions = plain.sessions; last = plain.last } };
}

impl Plain {
    /// The start state: the root, `/zookeeper` and `/zookeeper/quota`, no session, and no
    /// transaction.
    pub fn new(alloc: Global) -> Result<Plain, NoMemory>
        ensures { IfOk result (λ plain. plain ≡ start_state) }
    {
        let mut nodes = Nodes::new(alloc);
        nodes.plant("/")?;
        nodes.plant("/zookeeper")?;
        nodes.plant("/zookeeper/quota")?;
        Ok(Plain {
            nodes,
            sessions: Sessions::new(alloc),
            last: 0,
        })
    }

    /// Applies a transaction. After [`NoMemory`] nothing is changed.
    pub fn apply(&mut self, txn: &Txn) -> Result<TxnResult, NoMemory>
        ensures step { IfOk result (λ answer. (self.new, answer) ≡ step self.old txn.now) }
        ensures unchanged { OnErr result (self.new ≡ self.old) }
        // An error needs no memory.
        ensures error { (code : ℤ) → txn.now.op ≡ ops.Error code → IsOk result }
    {
        let answer = match &txn.op {
            Op::Create {
                path,
                content,
                acl,
                ephemeral,
                count,
            } => self
                .nodes
                .create(txn, path, content, acl, *ephemeral, *count)?,
            Op::CreateOld {
                path,
                content,
                acl,
                ephemeral,
            } => self.nodes.create(txn, path, content, acl, *ephemeral, -1)?,
            Op::Delete { path } => self.nodes.delete(txn, path)?,
            Op::SetData {
                path,
                content,
                version,
            } => self.nodes.set_data(txn, path, content, *version)?,
            Op::SetAcl { path, acl, version } => self.nodes.set_acl(path, acl, *version)?,
            Op::OpenSession { timeout } => return self.open_session(txn, *timeout),
            Op::CloseSession => return self.close_session(txn),
            Op::Multi { parts } => return self.multi(txn, parts.as_slice()),
            Op::Error { code } => PartResult::plain(*code),
        };
        Ok(self.told(txn, answer))
    }

    /// Applies a transaction without returning its result. After [`NoMemory`] nothing is changed.
    pub fn absorb(&mut self, txn: &Txn) -> Result<(), NoMemory>
        ensures step { OnOk result (self.new ≡ (step self.old txn.now).0) }
        ensures unchanged { OnErr result (self.new ≡ self.old) }
    {
        match &txn.op {
            Op::SetData {
                path,
                content,
                version,
            } => self.nodes.put_data(txn, path, content, *version)?,
            Op::SetAcl { path, acl, version } => self.nodes.put_acl(path, acl, *version)?,
            _ => return self.apply_untold(txn),
        }
        self.last = txn.zxid;
        Ok(())
    }

    /// Applies any transaction without returning its result. After [`NoMemory`] nothing is changed.
    fn apply_untold(&mut self, txn: &Txn) -> Result<(), NoMemory>
        ensures step { OnOk result (self.new ≡ (step self.old txn.now).0) }
        ensures unchanged { OnErr result (self.new ≡ self.old) }
    {
        let _answer = self.apply(txn)?;
        Ok(())
    }

    /// Opens the session of a transaction. After [`NoMemory`] nothing is changed.
    fn open_session(&mut self, txn: &Txn, timeout: i32) -> Result<TxnResult, NoMemory>
        ensures opened { IfOk result (λ answer. (self.new, answer) ≡ open_session self.old txn.now timeout) }
        ensures unchanged { OnErr result (self.new ≡ self.old) }
    {
        self.sessions.open(txn.session, timeout)?;
        Ok(self.told(txn, PartResult::plain(0)))
    }

    /// Closes the session of a transaction and deletes the nodes that it owns. After [`NoMemory`]
    /// nothing is changed.
    fn close_session(&mut self, txn: &Txn) -> Result<TxnResult, NoMemory>
        ensures closed { IfOk result (λ answer. (self.new, answer) ≡ close_session self.old txn.now) }
        ensures unchanged { OnErr result (self.new ≡ self.old) }
    {
        let owned = self.nodes.owned_by(txn.session)?;
        self.nodes.take_all_away(txn, &owned);
        self.sessions.close(txn.session);
        Ok(self.told(txn, PartResult::plain(0)))
    }

    /// Applies the parts of a transaction in order, or none. After [`NoMemory`] nothing is changed.
    fn multi(&mut self, txn: &Txn, parts: &[Sub]) -> Result<TxnResult, NoMemory>
        ensures applied { IfOk result (λ answer. (self.new, answer) ≡ multi self.old txn.now parts.now) }
        ensures unchanged { OnErr result (self.new ≡ self.old) }
    {
        if hold_error(parts) {
            let answers = answers_unapplied(self.nodes.allocator(), parts)?;
            let err = first_refusal(&answers);
            return Ok(self.told_parts(txn, PartResult::plain(err), answers));
        }
        // on a copy: an allocation can fail after some parts are applied
        let mut nodes = self.nodes.copy()?;
        let answers = nodes.apply_parts(txn, parts)?;
        let err = first_refusal(&answers);
        self.nodes = nodes;
        Ok(self.told_parts(txn, PartResult::plain(err), answers))
    }

    /// Records the transaction as the last one, and returns its result.
    fn told(&mut self, txn: &Txn, answer: PartResult) -> TxnResult
        ensures { (self.new, result) ≡ told txn.now self.old.nodes self.old.sessions answer [] }
    {
        let parts = Vec::new(self.nodes.allocator());
        self.told_parts(txn, answer, parts)
    }

    /// Records a multi as the last transaction, and returns its result.
    fn told_parts(&mut self, txn: &Txn, answer: PartResult, parts: Vec<PartResult>) -> TxnResult
        ensures { (self.new, result) ≡ told txn.now self.old.nodes self.old.sessions answer parts.items }
    {
        self.last = txn.zxid;
        TxnResult {
            zxid: txn.zxid,
            err: answer.err,
            path: answer.path,
            stat: answer.stat,
            parts: PartResults::new(parts),
        }
    }

    /// The reply to a read by a caller who has proved `auths`.
    pub fn read(&self, call: &ReadCall, auths: &[Id]) -> Result<ReadReply, NoMemory>
        ensures { IfOk result (λ reply. reply ≡ reply_to self.now call.now auths.now) }
    {
        self.nodes.read(call, auths)
    }

    /// The stat of `node` at `path`.
    pub fn stat(&self, path: &Path, node: &Node) -> Stat
        ensures { result ≡ stat_of self.now.nodes path.now node.now }
    {
        self.nodes.stat_of(path.text(), node)
    }

    /// The zxid of the last transaction; 0 before the first.
    pub fn last(&self) -> i64
        ensures { result ≡ self.now.last }
    {
        self.last
    }

    pub fn nodes(&self) -> &[(Path, Node)]
        ensures { result.now ≡ finite.entries self.now.nodes }
    {
        self.nodes.as_slice()
    }

    /// The open sessions and their timeouts in milliseconds. They are sorted by the unsigned number
    /// that a session's sixteen hexadecimal digits show.
    pub fn sessions(&self) -> &[(u64, i32)]
        ensures { result.now ≡ finite.entries self.now.sessions }
    {
        self.sessions.as_slice()
    }
}
