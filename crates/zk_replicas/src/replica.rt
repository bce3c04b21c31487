ghost use Rattle.std.specs.Prelude.{◌≡◌, ◌<◌, ◌-◌, ◌^◌, ◌⊎◌, [], length, true, false, Some, None, IfOk, IfSome, OnOk, OnErr};
ghost use Rattle.zk_machine.specs.Changes.{changes_of};
ghost use Rattle.zk_model.specs.Ensembles.{fresh, waiting, take_in, take_all, kind_set, watching, reply_of};
ghost use Rattle.zk_table.specs.Steps.{step};
ghost use Rattle.zk_replicas.specs.Keeping.{IsShownBy, GoesOn};
ghost use Rattle.zk_replicas.specs.Views.{tree_by, HasNotFailed};

use crate::crash_cache::CrashCache;
use std::alloc::Global;
use std::marker::Model;
use std::mem::replace;
use zab_epoch::Entries;
use zk_machine::{Applied, Machine};
use zk_model::{Answered, Question};
use zk_path::NoMemory;
use zk_table::codes::{NO_NODE, SESSION_EXPIRED};
use zk_table::{Op, ReadCall, ReadReply, Txn, TxnResult};
use zk_watch::{Fired, WatchKind, Watches};

/// What a server of an ensemble shows of its delivered list: its tree, the result of each entry,
/// its watches, and the events fired.
#[derive(Drop)]
pub struct Replica {
    /// `None` before the first entry: a server that is down takes no memory.
    machine: Option<Machine>,
    answers: Vec<Answered>,
    watches: Watches,
    events: Vec<Fired>,
}

impl Model for Replica {
    ghost use Rattle.zk_table.specs.contracts.node.Node as node;
    ghost use Rattle.zk_model.specs.contracts.answer.Answered as answered;
    ghost use Rattle.zk_watch.specs.contracts.watch.Watch as watch;
    ghost use Rattle.zk_watch.specs.contracts.watch.Fired as fired;
    ghost use Rattle.zk_model.specs.Ensembles.{ReplicaView};
    ghost use Rattle.zk_replicas.specs.Views.{shown_code, tree_by, HasNotFailed};

    ghost Value = { ReplicaView };

    ghost coded = { shown_code node.the_row.coded answered.the_row.coded watch.the_row.coded fired.the_row.coded };

    ghost view = { λ it. record { tree = tree_by it.machine; answers = it.answers.items; watches = it.watches; events = it.events.items } };

    ghost invariant = { λ it. HasNotFailed it.machine };
}

impl Replica {
    /// A replica that has delivered nothing; allocates nothing.
    pub fn new(alloc: Global) -> Replica
        ensures { result ≡ fresh }
    {
        Replica {
            machine: None,
            answers: Vec::new(alloc),
            watches: Watches::new(alloc),
            events: Vec::new(alloc),
        }
    }

    /// Delivers an entry with this tag and this transaction.
    fn take_in(&mut self, alloc: Global, tag: u64, txn: &Txn) -> Result<(), NoMemory>
        ensures { OnOk result (self.new ≡ take_in self.old (record { tag = tag; txn = txn.now })) }
    {
        if self.watches.as_slice().is_empty() {
            self.take_unwatched(alloc, tag, txn)
        } else {
            self.take_watched(alloc, tag, txn)
        }
    }

    /// Delivers an entry while there is no watch: its changes are not computed.
    fn take_unwatched(&mut self, alloc: Global, tag: u64, txn: &Txn) -> Result<(), NoMemory>
        requires { self.old.watches ≡ [] }
        ensures { OnOk result (self.new ≡ take_in self.old (record { tag = tag; txn = txn.now })) }
    {
        let result = advance(alloc, &mut self.machine, txn)?;
        self.answers.push(Answered {
            tag,
            session: txn.session,
            result,
        })?;
        Ok(())
    }

    /// Delivers an entry, and fires watches.
    fn take_watched(&mut self, alloc: Global, tag: u64, txn: &Txn) -> Result<(), NoMemory>
        ensures { OnOk result (self.new ≡ take_in self.old (record { tag = tag; txn = txn.now })) }
    {
        let applied = apply(alloc, &mut self.machine, txn)?;
        stop_waiting(&mut self.watches, txn);
        let mut fired = self.watches.fire(&applied.changes)?;
        self.events.append(&mut fired)?;
        self.answers.push(Answered {
            tag,
            session: txn.session,
            result: applied.result,
        })?;
        Ok(())
    }

    /// Delivers entries in turn.
    #[tactic(auto, using(crate::proofs::Lent::as_many_tags, crate::proofs::Lent::as_many_txns))]
    pub(crate) fn take_all(&mut self, alloc: Global, entries: &Entries<'_>) -> Result<(), NoMemory>
        ensures taken { OnOk result (self.new ≡ take_all self.old entries.now) }
        ensures some { OnErr result (0 < length entries.now) }
    {
        if entries.len() == 0 {
            return Ok(());
        }
        let tags = entries.tags();
        let read = entries.txns().read(alloc)?;
        let txns = read.as_slice();
        for index in 0..entries.len() {
            self.take_in(alloc, tags[index], &txns[index])?;
        }
        Ok(())
    }

    /// Resets to nothing delivered. What it had delivered, if anything, replaces the cache.
    pub(crate) fn leave(&mut self, alloc: Global, kept: &mut Option<CrashCache>)
        ensures gone { self.new ≡ fresh }
        ensures aside { IfSome kept.new (λ it. (kept.old ≡ Some it) ⊎ IsShownBy self.old it) }
    {
        let Replica {
            machine,
            answers,
            ..
        } = replace(self, Replica::new(alloc));
        if let Some(machine) = machine {
            *kept = Some(CrashCache { machine, answers });
        }
    }

    /// Continues from the cache if nothing is delivered yet and the cache holds at most `most`
    /// entries. Returns their number.
    pub(crate) fn go_on(&mut self, kept: &mut Option<CrashCache>, most: usize) -> usize
        requires { IfSome kept.old (λ it. it.machine.failed ≡ false) }
        ensures goes_on { ((self.new ≡ self.old) × (result ≡ 0)) ⊎ GoesOn self.old kept.old most self.new result }
        ensures aside { IfSome kept.new (λ it. kept.old ≡ Some it) }
    {
        if !self.is_unbegun() {
            return 0;
        }
        let Some(CrashCache { machine, answers }) = kept.take() else {
            return 0;
        };
        let count = answers.len();
        if count > most {
            return 0;
        }
        self.machine = Some(machine);
        self.answers = answers;
        count
    }

    /// Whether it has delivered nothing and has no watch.
    fn is_unbegun(&self) -> bool
        ensures { result ≡ true → self.now ≡ fresh }
    {
        self.machine.is_none()
            && self.answers.is_empty()
            && self.watches.as_slice().is_empty()
            && self.events.is_empty()
    }

    /// Returns the zxid of the last delivered transaction; 0 before the first.
    pub fn last(&self) -> i64
        ensures { result ≡ self.now.tree.last }
    {
        let Some(machine) = &self.machine else {
            return 0;
        };
        let Ok(last) = machine.last() else {
            unreachable!()
        };
        last
    }

    /// Returns the reply to a read.
    pub(crate) fn reply_of(&self, question: &Question) -> Result<ReadReply, NoMemory>
        ensures { IfOk result (λ reply. reply ≡ reply_of question.now self.now.tree) }
    {
        match &self.machine {
            Some(machine) => read(machine, question),
            None => Ok(ReadReply::Refused(SESSION_EXPIRED)),
        }
    }

    /// Returns the reply to a read, and sets its watch. After [`NoMemory`] nothing has changed.
    pub(crate) fn look(&mut self, question: &Question) -> Result<ReadReply, NoMemory>
        ensures told { IfOk result (λ reply. reply ≡ reply_of question.now self.old.tree) }
        ensures watching { IfOk result (λ reply. self.new ≡ watching question.now reply self.old) }
        ensures unchanged { OnErr result (self.new ≡ self.old) }
    {
        let reply = self.reply_of(question)?;
        if question.watch
            && let Some(kind) = kind_set(&question.call, &reply)
        {
            let session = question.session.cast_unsigned();
            self.watches.set(session, kind, question.call.path())?;
        }
        Ok(reply)
    }

    /// Returns a machine in the state of the tree.
    pub fn tree(&self, alloc: Global) -> Result<Machine, NoMemory>
        ensures { IfOk result (λ machine. machine ≡ record { state = self.now.tree; steps = 0; failed = false }) }
    {
        match &self.machine {
            Some(machine) => machine.copy(),
            None => Machine::new(alloc),
        }
    }

    /// Borrows the results of delivered entries.
    pub fn answers(&self) -> &[Answered]
        ensures { result.now ≡ self.now.answers }
    {
        self.answers.as_slice()
    }

    /// Borrows the events fired.
    pub fn events(&self) -> &[Fired]
        ensures { result.now ≡ self.now.events }
    {
        self.events.as_slice()
    }
}

/// Takes the machine that can count one step more, or a new one. After a failed allocation there is
/// none.
fn take_machine(alloc: Global, machine: &mut Option<Machine>) -> Result<Machine, NoMemory>
    requires { HasNotFailed machine.old }
    ensures state { IfOk result (λ it. it.state ≡ tree_by machine.old) }
    ensures fine { IfOk result (λ it. it.failed ≡ false) }
    ensures room { IfOk result (λ it. it.steps < 2 ^ 64 - 1) }
    ensures gone { machine.new ≡ None }
{
    let mut it = match machine.take() {
        Some(it) => it,
        None => Machine::new(alloc)?,
    };
    it.make_countable()?;
    Ok(it)
}

/// Applies a transaction to the machine, created if there is none. After a failed allocation there
/// is none.
fn apply(alloc: Global, machine: &mut Option<Machine>, txn: &Txn) -> Result<Applied, NoMemory>
    requires { HasNotFailed machine.old }
    ensures stepped { IfOk result (λ applied. (tree_by machine.new, applied.result) ≡ step (tree_by machine.old) txn.now) }
    ensures changes { IfOk result (λ applied. applied.changes.items ≡ changes_of (tree_by machine.old) txn.now) }
    ensures fine { HasNotFailed machine.new }
{
    let mut it = take_machine(alloc, machine)?;
    let Ok(applied) = it.apply(txn) else {
        return Err(NoMemory);
    };
    *machine = Some(it);
    Ok(applied)
}

/// As [`apply`], if only the result is wanted.
fn advance(alloc: Global, machine: &mut Option<Machine>, txn: &Txn) -> Result<TxnResult, NoMemory>
    requires { HasNotFailed machine.old }
    ensures stepped { IfOk result (λ answered. (tree_by machine.new, answered) ≡ step (tree_by machine.old) txn.now) }
    ensures fine { HasNotFailed machine.new }
{
    let mut it = take_machine(alloc, machine)?;
    let Ok(answered) = it.advance(txn) else {
        return Err(NoMemory);
    };
    *machine = Some(it);
    Ok(answered)
}

/// Returns a machine's reply to a read.
fn read(machine: &Machine, question: &Question) -> Result<ReadReply, NoMemory>
    requires { machine.now.failed ≡ false }
    ensures { IfOk result (λ reply. reply ≡ reply_of question.now machine.now.state) }
{
    let Ok(session) = machine.session(question.session.cast_unsigned()) else {
        unreachable!()
    };
    if session.is_none() {
        return Ok(ReadReply::Refused(SESSION_EXPIRED));
    }
    let Ok(reply) = machine.read(&question.call, question.auths.as_slice()) else {
        return Err(NoMemory);
    };
    Ok(reply)
}

/// Removes the watches of a session that closes.
fn stop_waiting(watches: &mut Watches, txn: &Txn)
    ensures { watches.new ≡ waiting txn.now watches.old }
{
    if let Op::CloseSession = &txn.op {
        watches.drop_session(txn.session.cast_unsigned());
    }
}

/// Returns the kind of watch that a read with this reply sets.
fn kind_set(call: &ReadCall, reply: &ReadReply) -> Option<WatchKind>
    ensures { result ≡ kind_set call.now reply.now }
{
    match (call, reply) {
        (ReadCall::GetData { .. }, ReadReply::Content { .. }) => Some(WatchKind::Content),
        (ReadCall::Exists { .. }, ReadReply::Found(_)) => Some(WatchKind::Content),
        (ReadCall::Exists { .. }, ReadReply::Refused(code)) if *code == NO_NODE => Some(
            WatchKind::Content,
        ),
        (ReadCall::GetChildren { .. }, ReadReply::Children { .. }) => Some(WatchKind::Children),
        _ => None,
    }
}
