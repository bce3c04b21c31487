ghost use Rattle.std.specs.Prelude.{◌≡◌, false, true, IfOk, OnOk, OnErr, IsTrue, map, pos, codes};
ghost use Rattle.std.specs.FinMap as finite;
ghost use Rattle.std.specs.Option.{option_copied};
ghost use Rattle.zk_table.specs.Multis.{multi};
ghost use Rattle.zk_table.specs.States.{owned_by, start_state};
ghost use Rattle.zk_table.specs.Steps.{close_session, step};
ghost use Rattle.zk_tree.specs.Entries.{lent, entries_of};
ghost use Rattle.zk_fold.specs.NodeIndexes.{CanInsert, can_insert};

use crate::node_index::NodeIndex;
use crate::sessions::Sessions;
use std::alloc::Global;
use std::marker::Model;
use zk_machine::Machine;
use zk_path::{NoMemory, Path};
use zk_table::{Node, Op, Sub, Txn, hold_error};
use zk_tree::Entry;

/// The forward-only table of a server. After an allocation failure in the middle of a transaction
/// the table has failed: its state may be that between two parts of a multi, and it rejects every
/// further transaction.
pub struct Fold {
    nodes: NodeIndex,
    sessions: Sessions,
    last: i64,
    failed: bool,
}

impl Drop for Fold {
    fn drop(self) {
        let Fold {
            nodes: _,
            sessions: _,
            last: _,
            failed: _,
        } = self;
    }
}

impl Model for Fold {
    ghost use Rattle.zk_table.specs.contracts.node.Node as node;
    ghost use Rattle.zk_fold.specs.Folds.{FoldView, fold_code};

    ghost Value = { FoldView };

    ghost coded = { fold_code node.the_row.coded };

    ghost view = { λ table. record { state = record { nodes = table.nodes; sessions = table.sessions; last = table.last }; failed = table.failed } };
}

impl Fold {
    /// The start state: the root, `/zookeeper` and `/zookeeper/quota`, no session, and no
    /// transaction.
    pub fn new(alloc: Global) -> Result<Fold, NoMemory>
        ensures { IfOk result (λ table. table ≡ record { state = start_state; failed = false }) }
    {
        Ok(Fold {
            nodes: NodeIndex::new(alloc)?,
            sessions: Sessions::new(alloc),
            last: 0,
            failed: false,
        })
    }

    /// A table in a given state, of which it has the root, the sessions and the last zxid.
    pub fn from_root(
        alloc: Global,
        root: Node,
        sessions: Sessions,
        last: i64,
    ) -> Result<Fold, NoMemory>
        requires { root.owner ≡ pos 0 }
        ensures { IfOk result (λ table. table ≡ record { state = record { nodes = finite.insert finite.empty (codes "/") root; sessions = sessions; last = last }; failed = false }) }
    {
        Ok(Fold {
            nodes: NodeIndex::of_root(alloc, root)?,
            sessions,
            last,
            failed: false,
        })
    }

    /// Whether the path is free and its parent takes children: it has no owner, and does not count
    /// -1 of them.
    pub fn can_insert(&self, path: &Path) -> bool
        ensures room { IsTrue result → CanInsert self.now.state.nodes path.now }
        ensures exact { result ≡ can_insert self.now.state.nodes path.now }
    {
        self.nodes.can_insert(path)
    }

    /// Inserts a node of that state: its parent keeps its `pzxid` and `creates`.
    pub fn insert(&mut self, path: &Path, node: Node) -> Result<(), NoMemory>
        requires { CanInsert self.old.state.nodes path.now }
        ensures nodes { OnOk result (self.new.state.nodes ≡ finite.insert self.old.state.nodes path.now node) }
        ensures sessions { self.new.state.sessions ≡ self.old.state.sessions }
        ensures last { self.new.state.last ≡ self.old.state.last }
        ensures failed { self.new.failed ≡ self.old.failed }
    {
        self.nodes.insert(path, node)
    }

    /// Applies a transaction. After [`NoMemory`] the table has failed.
    pub fn advance(&mut self, txn: &Txn) -> Result<(), NoMemory>
        requires { self.old.failed ≡ false }
        ensures stepped { OnOk result (self.new.state ≡ (step self.old.state txn.now).0) }
        ensures running { OnOk result (self.new.failed ≡ false) }
        ensures failed { OnErr result (self.new.failed ≡ true) }
    {
        let Ok(()) = self.run(txn) else {
            self.failed = true;
            return Err(NoMemory);
        };
        self.last = txn.zxid;
        Ok(())
    }

    /// Applies a transaction, except for the number of the last one.
    fn run(&mut self, txn: &Txn) -> Result<(), NoMemory>
        ensures nodes { OnOk result (self.new.state.nodes ≡ (step self.old.state txn.now).0.nodes) }
        ensures sessions { OnOk result (self.new.state.sessions ≡ (step self.old.state txn.now).0.sessions) }
        ensures failed { self.new.failed ≡ self.old.failed }
    {
        match &txn.op {
            Op::Create {
                path,
                content,
                acl,
                ephemeral,
                count,
            } => self
                .nodes
                .create(txn, path, content, acl, *ephemeral, *count),
            Op::CreateOld {
                path,
                content,
                acl,
                ephemeral,
            } => self.nodes.create(txn, path, content, acl, *ephemeral, -1),
            Op::Delete { path } => {
                self.nodes.delete(txn, path);
                Ok(())
            }
            Op::SetData {
                path,
                content,
                version,
            } => self.nodes.set_data(txn, path, content, *version),
            Op::SetAcl { path, acl, version } => self.nodes.set_acl(path, acl, *version),
            Op::OpenSession { timeout } => self
                .sessions
                .open(txn.session.cast_unsigned(), *timeout),
            Op::CloseSession => self.close_session(txn),
            Op::Multi { parts } => self.multi(txn, parts.as_slice()),
            Op::Error { .. } => Ok(()),
        }
    }

    /// Closes the session of a transaction and deletes the nodes that it owns.
    fn close_session(&mut self, txn: &Txn) -> Result<(), NoMemory>
        ensures nodes { OnOk result (self.new.state.nodes ≡ (close_session self.old.state txn.now).0.nodes) }
        ensures sessions { OnOk result (self.new.state.sessions ≡ (close_session self.old.state txn.now).0.sessions) }
        ensures failed { self.new.failed ≡ self.old.failed }
    {
        self.nodes.take_owned(txn)?;
        self.sessions.close(txn.session.cast_unsigned());
        Ok(())
    }

    /// Applies the parts of a transaction in order, or none.
    fn multi(&mut self, txn: &Txn, parts: &[Sub]) -> Result<(), NoMemory>
        ensures nodes { OnOk result (self.new.state.nodes ≡ (multi self.old.state txn.now parts.now).0.nodes) }
        ensures sessions { self.new.state.sessions ≡ self.old.state.sessions }
        ensures failed { self.new.failed ≡ self.old.failed }
    {
        if hold_error(parts) {
            return Ok(());
        }
        self.nodes.apply_parts(txn, parts)
    }

    /// A machine in the same state.
    pub fn machine(&self) -> Result<Machine, NoMemory>
        ensures { IfOk result (λ machine. machine ≡ record { state = self.now.state; steps = 0; failed = false }) }
    {
        let tree = self.nodes.tree()?;
        let sessions = self.sessions.of_machine()?;
        Ok(Machine::from_state(self.nodes.alloc, tree, sessions, self.last))
    }

    /// Whether an allocation failed in the middle of a transaction.
    pub fn has_failed(&self) -> bool
        ensures { result ≡ self.now.failed }
    {
        self.failed
    }

    /// The zxid of the last transaction; 0 before the first.
    pub fn last(&self) -> i64
        ensures { result ≡ self.now.state.last }
    {
        self.last
    }

    /// The open sessions and their timeouts in milliseconds. They are sorted by the unsigned number
    /// that a session's sixteen hexadecimal digits show.
    pub fn sessions(&self) -> Result<Vec<(u64, i32)>, NoMemory>
        ensures { IfOk result (λ sessions. sessions.items ≡ finite.entries self.now.state.sessions) }
    {
        self.sessions.entries()
    }

    /// The node at a path.
    pub fn get(&self, path: &str) -> Option<&Node>
        ensures { option_copied result ≡ finite.get self.now.state.nodes path.now }
    {
        self.nodes.get(path)
    }

    /// The paths of the nodes that a session owns, in order; none for session 0.
    pub fn owned_by(&self, session: i64) -> Result<Vec<Path>, NoMemory>
        ensures { IfOk result (λ paths. paths.items ≡ owned_by self.now.state.nodes session) }
    {
        self.nodes.owned_by(session)
    }

    /// All nodes, each with its path and the number of its children, sorted by path.
    pub fn entries(&self) -> Result<Vec<Entry<'_>>, NoMemory>
        ensures { IfOk result (λ entries. map lent entries.items ≡ entries_of self.now.state.nodes) }
    {
        self.nodes.entries()
    }
}
