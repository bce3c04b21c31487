ghost use Rattle.std.specs.Prelude.{◌≡◌, ◌<◌, ◌==◌, ◌++◌, [], ◌∷◌, map, filter, not, length, false, vec_capacity, IfOk, IfSome, IfNone, OnOk, OnErr};
ghost use Rattle.std.specs.List.{list_any};
ghost use Rattle.zk_host.specs.declared.news.News.TheVariants.{Event as EventNews};
ghost use Rattle.zk_host.specs.WatchedTrees.{new_tree, watches_for, connections_after, without_connections, after_entry, after_entries, is_connection, with_connection, after_read, after_close};
ghost use Rattle.zk_replicas.specs.Views.{tree_by, HasNotFailed};
ghost use Rattle.zk_model.specs.Ensembles.{reply_of};
ghost use Rattle.zk_table.specs.States.{start_state};

use crate::machines::{reply_from, take_machine, watch_set};
use crate::news::{Connection, News};
use std::alloc::Global;
use std::marker::Model;
use std::mem::replace;
use zab_epoch::Entries;
use zk_machine::Machine;
use zk_model::{Answered, Question};
use zk_path::NoMemory;
use zk_table::{Op, ReadReply, Txn};
use zk_tree::Tree;
use zk_watch::{Fired, Watches};

/// How many entries are read at once: older ones are kept as bytes alone.
const READ_AT_ONCE: usize = 1024;

/// The tree of delivered entries, the watches of connections, and the news that clients have not
/// taken yet.
#[derive(Drop)]
pub struct WatchedTree {
    /// `None` before the first entry.
    machine: Option<Machine>,
    /// By connection.
    watches: Watches,
    connections: Vec<Connection>,
    news: Vec<News>,
}

impl Model for WatchedTree {
    ghost use Rattle.zk_table.specs.contracts.node.Node as node;
    ghost use Rattle.zk_watch.specs.contracts.watch.Watch as watch;
    ghost use Rattle.zk_host.specs.contracts.news.Connection as connection_row;
    ghost use Rattle.zk_host.specs.contracts.news.News as news_row;
    ghost use Rattle.zk_host.specs.WatchedTrees.{WatchedTreeView, tree_code};
    ghost use Rattle.zk_replicas.specs.Views.{tree_by, HasNotFailed};

    ghost Value = { WatchedTreeView };

    ghost coded = { tree_code node.the_row.coded watch.the_row.coded connection_row.the_row.coded news_row.the_row.coded };

    ghost view = { λ it. record { tree = tree_by it.machine; watches = it.watches; connections = it.connections.items; news = it.news.items } };

    ghost invariant = { λ it. HasNotFailed it.machine };
}

impl WatchedTree {
    /// The tree before the first entry. Allocates no memory.
    pub fn new(alloc: Global) -> WatchedTree
        ensures { result ≡ new_tree }
    {
        WatchedTree {
            machine: None,
            watches: Watches::new(alloc),
            connections: Vec::new(alloc),
            news: Vec::new(alloc),
        }
    }

    /// Delivers an entry with this tag and this transaction.
    fn deliver(&mut self, alloc: Global, tag: u64, txn: &Txn) -> Result<(), NoMemory>
        ensures { OnOk result (self.new ≡ after_entry self.old (record { tag = tag; txn = txn.now })) }
    {
        let mut machine = take_machine(alloc, &mut self.machine)?;
        let Ok(applied) = machine.apply(txn) else {
            return Err(NoMemory);
        };
        self.machine = Some(machine);
        drop_closed(&mut self.watches, &self.connections, txn);
        forget_closed(&mut self.connections, txn);
        let fired = self.watches.fire(&applied.changes)?;
        push_events(&mut self.news, fired)?;
        self.news.push(News::Answer(Answered {
            tag,
            session: txn.session,
            result: applied.result,
        }))?;
        Ok(())
    }

    /// Delivers entries in order. If an allocation fails, the tree starts again as empty, without
    /// watches and news.
    pub fn deliver_all(&mut self, alloc: Global, entries: &Entries<'_>) -> Result<(), NoMemory>
        ensures delivered { OnOk result (self.new ≡ after_entries self.old entries.now) }
        ensures some { OnErr result (0 < length entries.now) }
        ensures forgets { OnErr result (self.new ≡ new_tree) }
    {
        let delivered = self.deliver_each(alloc, entries);
        if delivered.is_err() {
            *self = WatchedTree::new(alloc);
        }
        delivered
    }

    /// Delivers entries in order, some at a time. After an error nothing is specified of the tree.
    #[tactic(auto, using(crate::proofs::Delivering::nothing_left, crate::proofs::Delivering::some_more))]
    fn deliver_each(&mut self, alloc: Global, entries: &Entries<'_>) -> Result<(), NoMemory>
        ensures delivered { OnOk result (self.new ≡ after_entries self.old entries.now) }
        ensures some { OnErr result (0 < length entries.now) }
    {
        let mut done = 0;
        while done < entries.len() {
            let many = READ_AT_ONCE.min(entries.len() - done);
            let some = entries.behind(done).first(many);
            self.deliver_some(alloc, &some)?;
            done += many;
        }
        Ok(())
    }

    /// Delivers entries that are read at once. After an error nothing is specified of the tree.
    #[tactic(auto, using(zk_replicas::proofs::Lent::as_many_tags, zk_replicas::proofs::Lent::as_many_txns))]
    fn deliver_some(&mut self, alloc: Global, entries: &Entries<'_>) -> Result<(), NoMemory>
        ensures delivered { OnOk result (self.new ≡ after_entries self.old entries.now) }
    {
        let tags = entries.tags();
        let read = entries.txns().read(alloc)?;
        let txns = read.as_slice();
        for index in 0..entries.len() {
            self.deliver(alloc, tags[index], &txns[index])?;
        }
        Ok(())
    }

    /// The reply to a client's question.
    fn reply_to(&self, question: &Question) -> Result<ReadReply, NoMemory>
        ensures { IfOk result (λ reply. reply ≡ reply_of question.now self.now.tree) }
    {
        match &self.machine {
            Some(machine) => reply_from(machine, question),
            None => reply_from(&Machine::new(*self.news.allocator())?, question),
        }
    }

    /// Replies to a connection's read, and sets its watch. After [`NoMemory`] nothing is changed.
    pub fn read(&mut self, connection: u64, question: &Question) -> Result<ReadReply, NoMemory>
        ensures reply { IfOk result (λ reply. reply ≡ reply_of question.now self.old.tree) }
        ensures watches { IfOk result (λ reply. self.new ≡ after_read connection question.now reply self.old) }
        ensures unchanged { OnErr result (self.new ≡ self.old) }
    {
        let reply = self.reply_to(question)?;
        if question.watch
            && let Some(kind) = watch_set(&question.call, &reply)
        {
            let session = question.session.cast_unsigned();
            self.connections.reserve(1)?;
            self.watches.set(connection, kind, question.call.path())?;
            add_connection(&mut self.connections, connection, session);
        }
        Ok(reply)
    }

    /// Drops the watches of a connection.
    pub fn close_connection(&mut self, connection: u64)
        ensures { self.new ≡ after_close connection self.old }
    {
        self.watches.drop_session(connection);
        forget_connection(&mut self.connections, connection);
    }

    /// Takes the news since it was last taken.
    pub fn take_news(&mut self) -> Vec<News>
        ensures news { result.items ≡ self.old.news }
        ensures rest { self.new ≡ record self.old { news = [] } }
    {
        let alloc = *self.news.allocator();
        replace(&mut self.news, Vec::new(alloc))
    }

    /// The last transaction that was delivered, and 0 before the first.
    pub fn last(&self) -> i64
        ensures { result ≡ self.now.tree.last }
    {
        let Some(machine) = &self.machine else {
            return 0;
        };
        let Ok(last) = machine.last() else {
            unreachable!()
        };
        last
    }

    /// The tree, borrowed; `None` before the first entry.
    pub fn tree(&self) -> Option<&Tree>
        ensures shown { IfSome result (λ tree. tree.now ≡ self.now.tree.nodes) }
        ensures new { IfNone result (self.now.tree ≡ start_state) }
    {
        let machine = self.machine.as_ref()?;
        let Ok(tree) = machine.tree() else {
            unreachable!()
        };
        Some(tree)
    }

    /// The machine of the tree, borrowed; `None` before the first entry.
    pub fn as_machine(&self) -> Option<&Machine>
        ensures shown { IfSome result (λ machine. (machine.now.state ≡ self.now.tree) × (machine.now.failed ≡ false)) }
        ensures new { IfNone result (self.now.tree ≡ start_state) }
    {
        self.machine.as_ref()
    }

    /// A machine in the state of the tree.
    pub fn machine(&self, alloc: Global) -> Result<Machine, NoMemory>
        ensures { IfOk result (λ machine. machine ≡ record { state = self.now.tree; steps = 0; failed = false }) }
    {
        match &self.machine {
            Some(machine) => machine.copy(),
            None => Machine::new(alloc),
        }
    }
}

/// Drops the watches of a session's connections if its session closes.
fn drop_closed(watches: &mut Watches, connections: &[Connection], txn: &Txn)
    ensures { watches.new ≡ watches_for txn.now.op txn.now.session connections.now watches.old }
{
    if let Op::CloseSession = &txn.op {
        drop_session(watches, connections, txn.session.cast_unsigned());
    }
}

fn drop_session(watches: &mut Watches, connections: &[Connection], session: u64)
    ensures { watches.new ≡ without_connections session connections.now watches.old }
{
    for connection in connections {
        if connection.session == session {
            watches.drop_session(connection.number);
        }
    }
}

/// Forgets a session's connections if its session closes.
fn forget_closed(connections: &mut Vec<Connection>, txn: &Txn)
    ensures { connections.new.items ≡ connections_after txn.now.op txn.now.session connections.old.items }
{
    if let Op::CloseSession = &txn.op {
        forget_session(connections, txn.session.cast_unsigned());
    }
}

fn forget_session(connections: &mut Vec<Connection>, session: u64)
    ensures { connections.new.items ≡ filter (λ one. not (one.session == session)) connections.old.items }
{
    connections.retain(|one| one.session != session);
}

fn forget_connection(connections: &mut Vec<Connection>, number: u64)
    ensures { connections.new.items ≡ filter (λ one. not (one.number == number)) connections.old.items }
{
    connections.retain(|one| one.number != number);
}

/// Appends events to the news.
fn push_events(news: &mut Vec<News>, fired: Vec<Fired>) -> Result<(), NoMemory>
    ensures { OnOk result (news.new.items ≡ news.old.items ++ map EventNews fired.items) }
{
    for event in fired {
        news.push(News::Event(event))?;
    }
    Ok(())
}

/// Records a connection and its session, once, if there is room for one more.
fn add_connection(connections: &mut Vec<Connection>, number: u64, session: u64)
    requires { length connections.old.items < vec_capacity connections.old }
    ensures { connections.new.items ≡ with_connection number session connections.old.items }
{
    if !is_noted(connections, number, session) {
        connections.push(Connection { number, session }).unwrap();
    }
}

fn is_noted(connections: &[Connection], number: u64, session: u64) -> bool
    ensures { result ≡ list_any (is_connection number session) connections.now }
{
    connections
        .iter()
        .any(|one| one.number == number && one.session == session)
}
