use crate::closings::closed_by;
use crate::host_fault::{ReadFault, ReleaseFault};
use crate::news::News;
use crate::watched_tree::WatchedTree;
use crate::{Fate, RecordFault, Steps, Tape};
use std::alloc::Global;
use zab_broadcast::{Caught, CaughtSyncs};
use zab_epoch::{Message, Messages, Quorums, Role};
use zab_host::{Host, HostFault, ReceiveFault, Storage, StoreFault, TagIssuer, Vote};
use zk_machine::Machine;
use zk_model::{Preparer, Question};
use zk_path::NoMemory;
use zk_requests::Call;
use zk_table::ReadReply;
use zk_tree::Tree;

/// A host of an ensemble's server, with the tree of what the server has delivered. The tree
/// advances only after a store: what clients see is stored.
pub struct ReplicaHost<S: Storage> {
    host: Host<Preparer, S>,
    tree: WatchedTree,
    /// The number of delivered entries that the tree shows.
    shown: usize,
    tags: TagIssuer,
    /// What it has done, for a caller who records it.
    tape: Tape,
}

impl<S: Storage + Drop> Drop for ReplicaHost<S> {
    fn drop(self) {
        let ReplicaHost {
            host: _,
            tree: _,
            shown: _,
            tags: _,
            tape: _,
        } = self;
    }
}

impl<S: Storage> ReplicaHost<S> {
    ghost use Rattle.std.specs.Prelude.{◌≡◌, ◌≢◌, ◌≤◌, ◌<◌, ◌+◌, ◌⊎◌, ◌++◌, [], length, drop, true, false, int_lt, IfOk, IfErr, OnOk, OnErr, IfSome, OnSome, IfNone, IsErrOf};
    ghost use Rattle.zab_epoch.specs.declared.stable.Stable.{Stable};
    ghost use Rattle.zab_epoch.specs.Shortness.{IsShortBody};
    ghost use Rattle.zab_broadcast.specs.Rules.{restored, is_serving};
    ghost use Rattle.zab_host.specs.Hosts.{acts_of, messages_of, Receives, Submits, Syncs, Leads, Follows, StepsTo, IsRejected, IsStored, IsAppendOnlyBody};
    ghost use Rattle.zab_host.specs.Durability.{IsDurable, IsPartialStore};
    ghost use Rattle.zab_host.specs.Tags.{tag_of};
    ghost use Rattle.zab_host.specs.Votes.{vote_of};
    ghost use Rattle.zk_model.specs.Ensembles.{profile_by, reply_of};
    ghost use Rattle.zk_host.specs.Delivered.{delivered_in, closed_in};
    ghost use Rattle.zk_host.specs.WatchedTrees.{new_tree, after_entries, after_read, after_close};
    ghost use Rattle.zk_host.specs.Failures.{ReleaseFails, CannotRead};
    ghost use Rattle.zk_table.specs.States.{start_state};
    ghost use Rattle.zk_host.specs.declared.host_fault.ReleaseFault.TheVariants as faults;
    ghost use Rattle.zk_host.specs.declared.host_fault.ReadFault.TheVariants as read_faults;

    /// Starts a host on what its store recovers, with an empty tree. `me` numbers the host from 1;
    /// its tags carry the number's lowest 8 bits.
    pub fn start(
        alloc: Global,
        servers: usize,
        me: u8,
        storage: S,
    ) -> Result<ReplicaHost<S>, StoreFault>
        ensures host { IfOk result (λ it. (stable : Stable) × ((S.is_clean it.host.storage → S.may_recover storage stable)
            × ((it.host.state ≡ restored servers me stable) × ((it.host.outbox ≡ [])
            × IsDurable stable (S.may_recover it.host.storage))))) }
        ensures tree { IfOk result (λ it. it.tree ≡ new_tree) }
        ensures shown { IfOk result (λ it. it.shown ≡ 0) }
        ensures tags { IfOk result (λ it. (it.tags.host ≡ me) × ((it.tags.boot ≡ S.boots storage + 1) × (it.tags.used ≡ 0))) }
        ensures boots { IfOk result (λ it. S.boots it.host.storage ≡ S.boots storage + 1) }
    {
        let mut storage = storage;
        let tags = TagIssuer::open(me, &mut storage)?;
        Ok(ReplicaHost {
            host: Host::start(alloc, servers, usize::from(me), storage)?,
            tree: WatchedTree::new(alloc),
            shown: 0,
            tags,
            tape: Tape::new(alloc, usize::from(me)),
        })
    }

    /// Ends the host's process, and returns its store for the next start.
    pub fn into_storage(self) -> S
        ensures { result ≡ self.host.storage }
    {
        let ReplicaHost {
            host,
            tree,
            shown: _,
            tags,
            tape,
        } = self;
        drop(tree);
        drop(tags);
        drop(tape);
        host.into_storage()
    }

    /// Whether it accepts clients' calls and syncs: it leads, and a quorum has taken its history, or
    /// it follows, and has taken its leader's.
    pub fn is_serving(&self) -> bool
        ensures { result ≡ is_serving self.now.host.state.peer.role }
    {
        self.host.is_serving()
    }

    /// Returns its server's role, borrowed.
    pub fn role(&self) -> &Role
        ensures { result.now ≡ self.now.host.state.peer.role }
    {
        self.host.role()
    }

    /// Returns its server's vote for itself in an election.
    pub fn vote(&self) -> Vote
        ensures { result ≡ vote_of self.now.host.state }
    {
        self.host.vote()
    }

    /// The number of messages that wait for the next release.
    pub fn outbox_len(&self) -> usize
        ensures { result ≡ length self.now.host.outbox }
    {
        self.host.outbox_len()
    }

    /// Issues the tag of the next call or sync at this host; `None` once 4,294,967,295 are issued
    /// since its start. No two requests of any hosts share one.
    pub fn issue_tag(&mut self) -> Option<u64>
        ensures tag { IfSome result (λ tag. tag ≡ tag_of self.old.tags.host self.old.tags.boot self.old.tags.used) }
        ensures counted { OnSome result (self.new.tags ≡ record self.old.tags { used = self.old.tags.used + 1 }) }
        ensures room { OnSome result (self.old.tags.used < 4294967295) }
        ensures full { IfNone result (self.old.tags.used ≡ 4294967295) }
        ensures unchanged { IfNone result (self.new.tags ≡ self.old.tags) }
        ensures rest { (self.new.host ≡ self.old.host) × ((self.new.tree ≡ self.old.tree) × (self.new.shown ≡ self.old.shown)) }
    {
        self.tags.issue()
    }

    /// Receives a message that appends at most one entry.
    pub fn receive<Q: Quorums>(
        &mut self,
        alloc: Global,
        quorums: &Q,
        message: &Message<Call>,
    ) -> Result<(), HostFault>
        requires short { IsShortBody message.now.body }
        requires append_only { IsAppendOnlyBody message.now.body }
        ensures steps { StepsTo (profile_by (Q.passes quorums.now)).setting self.old.host (Receives message.now)
            self.new.host result }
        ensures rest { (self.new.tree ≡ self.old.tree) × ((self.new.shown ≡ self.old.shown) × (self.new.tags ≡ self.old.tags)) }
    {
        let before = self.host.outbox_len();
        let received = self.host.receive(alloc, quorums, message);
        self.finish(before, &received);
        received
    }

    /// Receives any message. Applies its rule, and stores the server's stable part atomically: a
    /// crash recovers the change whole, with all inputs before it, or not at all.
    pub fn receive_and_store<Q: Quorums>(
        &mut self,
        alloc: Global,
        quorums: &Q,
        message: &Message<Call>,
    ) -> Result<(), ReceiveFault>
        requires short { IsShortBody message.now.body }
        ensures mine { OnOk result (message.now.addressee ≡ self.old.host.state.peer.me) }
        ensures state { OnOk result (self.new.host.state
            ≡ (acts_of (profile_by (Q.passes quorums.now)).setting self.old.host.state (Receives message.now)).0) }
        ensures outbox { OnOk result (self.new.host.outbox ≡ self.old.host.outbox ++ messages_of
            (acts_of (profile_by (Q.passes quorums.now)).setting self.old.host.state (Receives message.now)).1) }
        ensures stored { OnOk result (IsStored S.may_recover self.new.host) }
        ensures rejected { IfErr result (λ fault. IsRejected S.may_recover (profile_by (Q.passes quorums.now)).setting
            self.old.host (Receives message.now) self.new.host fault) }
        ensures crash { (found : Stable) → S.may_recover self.new.host.storage found
            → S.may_recover self.old.host.storage found ⊎ (found ≡ self.new.host.state.peer.stable) }
        ensures boots { S.boots self.new.host.storage ≡ S.boots self.old.host.storage }
        ensures rest { (self.new.tree ≡ self.old.tree) × ((self.new.shown ≡ self.old.shown) × (self.new.tags ≡ self.old.tags)) }
    {
        let before = self.host.outbox_len();
        let received = self.host.receive_and_store(alloc, quorums, message);
        self.finish_stored(before, &received);
        received
    }

    /// Submits a client's call. No other call has its tag.
    pub fn submit<Q: Quorums>(
        &mut self,
        alloc: Global,
        quorums: &Q,
        call: Call,
    ) -> Result<(), HostFault>
        ensures steps { StepsTo (profile_by (Q.passes quorums.now)).setting self.old.host (Submits call)
            self.new.host result }
        ensures rest { (self.new.tree ≡ self.old.tree) × ((self.new.shown ≡ self.old.shown) × (self.new.tags ≡ self.old.tags)) }
    {
        let before = self.host.outbox_len();
        self.tape.submit(&call);
        let stepped = self.host.submit(alloc, quorums, call);
        self.finish(before, &stepped);
        stepped
    }

    /// Asks the server's leader how much it has delivered, for a client's sync. No other sync has
    /// this tag.
    pub fn sync<Q: Quorums>(
        &mut self,
        alloc: Global,
        quorums: &Q,
        tag: u64,
    ) -> Result<(), HostFault>
        ensures steps { StepsTo (profile_by (Q.passes quorums.now)).setting self.old.host (Syncs tag)
            self.new.host result }
        ensures rest { (self.new.tree ≡ self.old.tree) × ((self.new.shown ≡ self.old.shown) × (self.new.tags ≡ self.old.tags)) }
    {
        let before = self.host.outbox_len();
        self.tape.sync(tag);
        let stepped = self.host.sync(alloc, quorums, tag);
        self.finish(before, &stepped);
        stepped
    }

    /// Begins to lead.
    pub fn lead<Q: Quorums>(&mut self, alloc: Global, quorums: &Q) -> Result<(), HostFault>
        ensures steps { StepsTo (profile_by (Q.passes quorums.now)).setting self.old.host Leads self.new.host result }
        ensures rest { (self.new.tree ≡ self.old.tree) × ((self.new.shown ≡ self.old.shown) × (self.new.tags ≡ self.old.tags)) }
    {
        let before = self.host.outbox_len();
        self.tape.lead();
        let stepped = self.host.lead(alloc, quorums);
        self.finish(before, &stepped);
        stepped
    }

    /// Begins to follow a leader.
    pub fn follow<Q: Quorums>(
        &mut self,
        alloc: Global,
        quorums: &Q,
        leader: usize,
    ) -> Result<(), HostFault>
        ensures steps { StepsTo (profile_by (Q.passes quorums.now)).setting self.old.host (Follows leader)
            self.new.host result }
        ensures rest { (self.new.tree ≡ self.old.tree) × ((self.new.shown ≡ self.old.shown) × (self.new.tags ≡ self.old.tags)) }
    {
        let before = self.host.outbox_len();
        self.tape.follow(leader);
        let stepped = self.host.follow(alloc, quorums, leader);
        self.finish(before, &stepped);
        stepped
    }

    /// Stores what the server has, delivers to the tree what the server has delivered since the
    /// last release, and releases the server's messages.
    ///
    /// After [`ReleaseFault::NoMemory`] the tree starts again as empty: the caller closes all
    /// connections.
    pub fn release(&mut self, alloc: Global) -> Result<Messages<Call>, ReleaseFault>
        ensures messages { IfOk result (λ messages. messages ≡ self.old.host.outbox) }
        ensures stored { OnOk result (IsStored S.may_recover self.new.host) }
        ensures state { self.new.host.state ≡ self.old.host.state }
        ensures empty { OnOk result (self.new.host.outbox ≡ []) }
        ensures delivered { OnOk result (self.new.tree
            ≡ after_entries self.old.tree (drop self.old.shown (delivered_in self.new.host.state))) }
        ensures shown { OnOk result (self.new.shown ≡ length (delivered_in self.new.host.state)) }
        ensures fault { IfErr result (λ fault. fault ≢ faults.NoMemory
            → (self.new.tree ≡ self.old.tree) × (self.new.shown ≡ self.old.shown)) }
        ensures forgets { IsErrOf result faults.NoMemory → (self.new.tree ≡ new_tree) × (self.new.shown ≡ 0) }
        ensures fails { IfErr result (ReleaseFails S.may_recover self.old self.new) }
        ensures tags { self.new.tags ≡ self.old.tags }
        ensures crash { (found : Stable) → S.may_recover self.new.host.storage found
            → S.may_recover self.old.host.storage found
            ⊎ IsPartialStore (S.may_recover self.old.host.storage) self.old.host.state.peer.stable found }
        ensures boots { S.boots self.new.host.storage ≡ S.boots self.old.host.storage }
    {
        let messages = self.release_stored(alloc)?;
        let delivered = self.host.delivered();
        if delivered.len() < self.shown {
            return Err(ReleaseFault::Shrunk);
        }
        let entries = delivered.behind(self.shown);
        if self.tree.deliver_all(alloc, &entries).is_err() {
            self.shown = 0;
            return Err(ReleaseFault::NoMemory);
        }
        self.shown = delivered.len();
        Ok(messages)
    }

    /// Stores what the server has, and releases its messages.
    fn release_stored(&mut self, alloc: Global) -> Result<Messages<Call>, StoreFault>
        ensures messages { IfOk result (λ messages. messages ≡ self.old.host.outbox) }
        ensures stored { OnOk result (IsStored S.may_recover self.new.host) }
        ensures state { self.new.host.state ≡ self.old.host.state }
        ensures empty { OnOk result (self.new.host.outbox ≡ []) }
        ensures waits { OnErr result (self.new.host.outbox ≡ self.old.host.outbox) }
        ensures rest { (self.new.tree ≡ self.old.tree) × ((self.new.shown ≡ self.old.shown) × (self.new.tags ≡ self.old.tags)) }
        ensures crash { (found : Stable) → S.may_recover self.new.host.storage found
            → S.may_recover self.old.host.storage found
            ⊎ IsPartialStore (S.may_recover self.old.host.storage) self.old.host.state.peer.stable found }
        ensures boots { S.boots self.new.host.storage ≡ S.boots self.old.host.storage }
    {
        let released = self.host.release(alloc);
        match &released {
            Ok(_) => self.tape.store(),
            Err(_) => self.tape.fail(RecordFault::Store),
        }
        released
    }

    /// Replies to a connection's read from the tree, and sets its watch.
    pub fn read(&mut self, connection: u64, question: &Question) -> Result<ReadReply, ReadFault>
        ensures near { OnOk result (int_lt self.old.tree.tree.last question.now.seen ≡ false) }
        ensures reply { IfOk result (λ reply. reply ≡ reply_of question.now self.old.tree.tree) }
        ensures watches { IfOk result (λ reply. self.new.tree ≡ after_read connection question.now reply self.old.tree) }
        ensures behind { int_lt self.old.tree.tree.last question.now.seen ≡ true
            → IsErrOf result (read_faults.Behind question.now.seen self.old.tree.tree.last) }
        ensures fault { IfErr result (CannotRead question.now self.old.tree) }
        ensures unchanged { OnErr result (self.new.tree ≡ self.old.tree) }
        ensures rest { (self.new.host ≡ self.old.host) × ((self.new.shown ≡ self.old.shown) × (self.new.tags ≡ self.old.tags)) }
    {
        let last = self.tree.last();
        if last < question.seen {
            let seen = question.seen;
            return Err(ReadFault::Behind { seen, last });
        }
        self.tape.read(question);
        let reply = self.tree.read(connection, question)?;
        self.tape.finish(Fate::Applied { sent: 0 });
        Ok(reply)
    }

    /// Drops the watches of a connection.
    pub fn close_connection(&mut self, connection: u64)
        ensures tree { self.new.tree ≡ after_close connection self.old.tree }
        ensures rest { (self.new.host ≡ self.old.host) × ((self.new.shown ≡ self.old.shown) × (self.new.tags ≡ self.old.tags)) }
    {
        self.tree.close_connection(connection);
    }

    /// Takes the results and events since they were last taken, in delivered order: an entry's
    /// events come before its result.
    pub fn take_news(&mut self) -> Vec<News>
        ensures news { result.items ≡ self.old.tree.news }
        ensures tree { self.new.tree ≡ record self.old.tree { news = [] } }
        ensures rest { (self.new.host ≡ self.old.host) × ((self.new.shown ≡ self.old.shown) × (self.new.tags ≡ self.old.tags)) }
    {
        self.tree.take_news()
    }

    /// Returns the server's completed syncs that were not taken yet, borrowed. Clients see them only
    /// once all that the server has is stored.
    pub fn syncs(&self) -> &[Caught]
        requires stored { IsStored S.may_recover self.now.host }
        ensures { result.now ≡ self.now.host.state.caught }
    {
        self.host.syncs()
    }

    /// Takes the syncs that the server has completed since they were last taken, under the condition
    /// of [`ReplicaHost::syncs`].
    pub fn take_syncs(&mut self, alloc: Global) -> CaughtSyncs
        requires stored { IsStored S.may_recover self.old.host }
        ensures syncs { result ≡ self.old.host.state.caught }
        ensures state { self.new.host.state ≡ record self.old.host.state { caught = [] } }
        ensures host { (self.new.host.outbox ≡ self.old.host.outbox) × (self.new.host.storage ≡ self.old.host.storage) }
        ensures rest { (self.new.tree ≡ self.old.tree) × ((self.new.shown ≡ self.old.shown) × (self.new.tags ≡ self.old.tags)) }
    {
        self.host.take_syncs(alloc)
    }

    /// Begins to record what the server does. It has had no input since its start.
    pub fn begin_record(&mut self)
        ensures { self.new ≡ self.old }
    {
        self.tape.begin();
    }

    /// Records no more, and drops what was not taken.
    pub fn end_record(&mut self)
        ensures { self.new ≡ self.old }
    {
        self.tape.end();
    }

    /// The message that is received next has this number among all messages of the ensemble.
    pub fn number_next(&mut self, number: usize)
        ensures { self.new ≡ self.old }
    {
        self.tape.arrive(number);
    }

    /// Takes the events that are recorded and that a crash recovers.
    pub fn take_record(&mut self) -> Steps
        ensures { self.new ≡ self.old }
    {
        self.tape.take_stored()
    }

    /// Why recording has ended by itself, if it has.
    pub fn record_fault(&self) -> Option<RecordFault> {
        self.tape.fault()
    }

    /// Records what an input has come to, and the messages since the first `before`.
    fn finish(&mut self, before: usize, stepped: &Result<(), HostFault>)
        ensures { self.new ≡ self.old }
    {
        let sent = self.host.outbox_len().saturating_sub(before);
        self.tape.finish(fate_of(stepped, sent));
    }

    /// Records what a message that was stored has come to.
    fn finish_stored(&mut self, before: usize, received: &Result<(), ReceiveFault>)
        ensures { self.new ≡ self.old }
    {
        match received {
            Ok(()) => self.finish(before, &Ok(())),
            Err(ReceiveFault::Host(fault)) => self.finish(before, &Err(*fault)),
            Err(ReceiveFault::Store(_)) => self.tape.fail(RecordFault::Store),
        }
        self.tape.store();
    }

    /// The last transaction that the tree shows, and 0 before the first.
    pub fn last(&self) -> i64
        ensures { result ≡ self.now.tree.tree.last }
    {
        self.tree.last()
    }

    /// The number of delivered entries that the tree shows.
    pub fn shown(&self) -> usize
        ensures { result ≡ self.now.shown }
    {
        self.shown
    }

    /// The sessions that the delivered entries after the first `count` close, in order. Clients'
    /// connections end with their session. Under the condition of [`ReplicaHost::syncs`].
    #[tactic(auto, using(crate::proofs::NoClosings::none_closed))]
    pub fn closed_after(&self, alloc: Global, count: usize) -> Result<Vec<i64>, NoMemory>
        requires stored { IsStored S.may_recover self.now.host }
        ensures { IfOk result (λ it. it.items ≡ closed_in (drop count (delivered_in self.now.host.state))) }
    {
        let delivered = self.host.delivered();
        if count > delivered.len() {
            return Ok(Vec::new(alloc));
        }
        let txns = delivered.behind(count).txns().read(alloc)?;
        closed_by(alloc, txns.as_slice())
    }

    /// The tree, borrowed; `None` before its first entry, when it has a new server's nodes alone.
    pub fn tree(&self) -> Option<&Tree>
        ensures shown { IfSome result (λ tree. tree.now ≡ self.now.tree.tree.nodes) }
        ensures new { IfNone result (self.now.tree.tree ≡ start_state) }
    {
        self.tree.tree()
    }

    /// The machine of the tree, borrowed; `None` before its first entry.
    pub fn as_machine(&self) -> Option<&Machine>
        ensures shown { IfSome result (λ machine. (machine.now.state ≡ self.now.tree.tree) × (machine.now.failed ≡ false)) }
        ensures new { IfNone result (self.now.tree.tree ≡ start_state) }
    {
        self.tree.as_machine()
    }

    /// A machine in the state of the tree.
    pub fn machine(&self, alloc: Global) -> Result<Machine, NoMemory>
        ensures { IfOk result (λ machine. machine ≡ record { state = self.now.tree.tree; steps = 0; failed = false }) }
    {
        self.tree.machine(alloc)
    }
}

/// What an input that has sent a number of messages has come to.
fn fate_of(stepped: &Result<(), HostFault>, sent: usize) -> Fate {
    match stepped {
        Ok(()) | Err(HostFault::NotServing | HostFault::EpochFull) => Fate::Applied { sent },
        Err(HostFault::NoServer | HostFault::OutOfOrder) => Fate::Rejected,
        Err(HostFault::NoMemory) => Fate::Lost,
    }
}
