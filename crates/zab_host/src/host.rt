use crate::dispatch::{dispatch, dispatch_append_only, ends_below, submit};
use crate::fault::{HostFault, ReceiveFault};
use crate::storage::{Storage, StoreFault};
use crate::vote::Vote;
use std::alloc::Global;
use std::marker::Model;
use std::mem::replace;
use zab_broadcast::{Caught, CaughtSyncs, Primary, Server};
use zab_epoch::{Entries, Message, Messages, Quorums, Role};

/// One server and its store. Its messages wait in an outbox until all that they depend on is
/// stored.
pub struct Host<P: Primary, S: Storage> {
    server: Server<P>,
    outbox: Messages<P::Call>,
    storage: S,
    /// How many entries of the server's history are stored.
    stored: usize,
}

impl<P: Primary + Drop, S: Storage + Drop> Drop for Host<P, S> {
    fn drop(self) {
        let Host {
            server: _,
            outbox: _,
            storage: _,
            stored: _,
        } = self;
    }
}

impl<P: Primary, S: Storage> Model for Host<P, S> {
    ghost use Rattle.zab_host.specs.Durability.{IsStoredUpTo};
    ghost use Rattle.zab_host.specs.Hosts.{HostView, host};

    ghost Value = { HostView P.Call S };

    ghost view = { λ it. host it.server it.outbox it.storage };

    ghost invariant = { λ it. IsStoredUpTo (S.may_recover it.storage) it.stored it.server.peer.stable };
}

impl<P: Primary, S: Storage> Host<P, S> {
    ghost use Rattle.std.specs.Prelude.{◌≡◌, ◌≤◌, ◌⊎◌, ◌++◌, [], length, take, IfOk, IfErr, OnOk, OnErr};
    ghost use Rattle.zab_epoch.specs.declared.stable.Stable.{Stable};
    ghost use Rattle.zab_epoch.specs.Shortness.{IsShortBody};
    ghost use Rattle.zab_broadcast.specs.Calls.{setting_of};
    ghost use Rattle.zab_broadcast.specs.Guards.{EndsBelow};
    ghost use Rattle.zab_broadcast.specs.Rules.{restored, is_serving};
    ghost use Rattle.zab_host.specs.declared.fault.HostFault.TheVariants as faults;
    ghost use Rattle.zab_host.specs.Hosts.{acts_of, messages_of, IsAppendOnlyBody, Receives, Submits, Syncs, Leads, Follows, StepsTo, IsOutside, IsRejected, IsStored};
    ghost use Rattle.zab_host.specs.Durability.{IsDurable, IsPartialStore, IsRecoverable};
    ghost use Rattle.zab_host.specs.Votes.{vote_of};

    /// Starts a host on what its store recovers. It has delivered nothing, follows no leader, and
    /// has no messages.
    #[tactic(auto, using(crate::proofs::Growth::all_stored))]
    pub fn start(
        alloc: Global,
        servers: usize,
        me: usize,
        storage: S,
    ) -> Result<Host<P, S>, StoreFault>
        ensures state { IfOk result (λ it. (stable : Stable) × ((S.is_clean it.storage → S.may_recover storage stable)
            × ((it.state ≡ restored servers me stable) × ((it.outbox ≡ [])
            × IsDurable stable (S.may_recover it.storage))))) }
        ensures found { IfOk result (λ it. S.is_clean it.storage
            → S.may_recover it.storage it.state.peer.stable) }
        ensures clean { IfOk result (λ it. S.is_clean it.storage → S.is_clean storage) }
        ensures boots { IfOk result (λ it. S.boots it.storage ≡ S.boots storage) }
    {
        let mut storage = storage;
        let stable = storage.load(alloc)?;
        let stored = stable.history.len();
        Ok(Host {
            server: Server::restored(alloc, servers, me, stable),
            outbox: Messages::new(alloc),
            storage,
            stored,
        })
    }

    /// Ends the host's process, and returns its store for the next start.
    pub fn into_storage(self) -> S
        ensures { result ≡ self.storage }
    {
        let Host {
            server,
            outbox,
            storage,
            stored: _,
        } = self;
        drop(server);
        drop(outbox);
        storage
    }

    /// Whether it accepts calls of clients: it leads in Broadcast, or is a synced follower.
    pub fn is_serving(&self) -> bool
        ensures { result ≡ is_serving self.now.state.peer.role }
    {
        self.server.is_serving()
    }

    /// Returns its server's role, borrowed.
    pub fn role(&self) -> &Role
        ensures { result.now ≡ self.now.state.peer.role }
    {
        &self.server.state().peer.role
    }

    /// Returns its server's vote for itself in an election.
    pub fn vote(&self) -> Vote
        ensures { result ≡ vote_of self.now.state }
    {
        let peer = &self.server.state().peer;
        Vote {
            epoch: peer.stable.current,
            zxid: peer.stable.history.last_zxid(),
            server: peer.me,
        }
    }

    /// The number of messages that wait for the next release.
    pub fn outbox_len(&self) -> usize
        ensures { result ≡ length self.now.outbox }
    {
        self.outbox.len()
    }

    /// Receives a message that appends at most one entry.
    #[tactic(auto, using(crate::proofs::Growth::still_stored, crate::proofs::Outside::rejected))]
    pub fn receive<Q: Quorums>(
        &mut self,
        alloc: Global,
        quorums: &Q,
        message: &Message<P::Call>,
    ) -> Result<(), HostFault>
        requires short { IsShortBody message.now.body }
        requires append_only { IsAppendOnlyBody message.now.body }
        ensures { StepsTo (setting_of (Q.passes quorums.now) P.made_of P.tag_of) self.old
            (Receives message.now) self.new result }
    {
        self.admit(message)?;
        let server = &mut self.server;
        let messages = dispatch_append_only(alloc, quorums, server, message.sender, &message.body)?;
        self.outbox.append(messages)?;
        Ok(())
    }

    /// Receives any message. Applies its rule, and stores the server's stable part atomically: a
    /// crash recovers the change whole, with all inputs before it, or not at all.
    #[tactic(auto, using(crate::proofs::Failing::store_fails))]
    pub fn receive_and_store<Q: Quorums>(
        &mut self,
        alloc: Global,
        quorums: &Q,
        message: &Message<P::Call>,
    ) -> Result<(), ReceiveFault>
        requires short { IsShortBody message.now.body }
        ensures mine { OnOk result (message.now.addressee ≡ self.old.state.peer.me) }
        ensures state { OnOk result (self.new.state
            ≡ (acts_of (setting_of (Q.passes quorums.now) P.made_of P.tag_of) self.old.state (Receives message.now)).0) }
        ensures outbox { OnOk result (self.new.outbox ≡ self.old.outbox ++ messages_of
            (acts_of (setting_of (Q.passes quorums.now) P.made_of P.tag_of) self.old.state (Receives message.now)).1) }
        ensures stored { OnOk result (IsStored S.may_recover self.new) }
        ensures found { OnOk result (S.is_clean self.new.storage
            → S.may_recover self.new.storage self.new.state.peer.stable) }
        ensures remains { S.is_clean self.new.storage → IsRecoverable (S.may_recover self.old.storage)
            → IsRecoverable (S.may_recover self.new.storage) }
        ensures clean { S.is_clean self.new.storage → S.is_clean self.old.storage }
        ensures rejected { IfErr result (λ fault. IsRejected S.may_recover (setting_of (Q.passes quorums.now) P.made_of P.tag_of)
            self.old (Receives message.now) self.new fault) }
        ensures crash { (found : Stable) → S.may_recover self.new.storage found
            → S.may_recover self.old.storage found ⊎ (found ≡ self.new.state.peer.stable) }
        ensures boots { S.boots self.new.storage ≡ S.boots self.old.storage }
    {
        let received = self.apply_message(alloc, quorums, message);
        self.store_atomically()?;
        received?;
        Ok(())
    }

    /// Stores what the server has: the entries that are not stored yet.
    #[tactic(auto, using(crate::proofs::Growth::none_stored, crate::proofs::Growth::all_stored))]
    fn store(&mut self) -> Result<(), StoreFault>
        ensures stored { OnOk result (IsStored S.may_recover self.new) }
        ensures found { OnOk result (S.is_clean self.new.storage
            → S.may_recover self.new.storage self.new.state.peer.stable) }
        ensures remains { S.is_clean self.new.storage → IsRecoverable (S.may_recover self.old.storage)
            → IsRecoverable (S.may_recover self.new.storage) }
        ensures clean { S.is_clean self.new.storage → S.is_clean self.old.storage }
        ensures state { self.new.state ≡ self.old.state }
        ensures outbox { self.new.outbox ≡ self.old.outbox }
        ensures crash { (found : Stable) → S.may_recover self.new.storage found
            → S.may_recover self.old.storage found
            ⊎ IsPartialStore (S.may_recover self.old.storage) self.old.state.peer.stable found }
        ensures boots { S.boots self.new.storage ≡ S.boots self.old.storage }
    {
        let stored = replace(&mut self.stored, 0);
        let stable = &self.server.state().peer.stable;
        self.storage.store(stable, stored)?;
        self.stored = stable.history.len();
        Ok(())
    }

    /// Stores what the server has, atomically.
    #[tactic(auto, using(crate::proofs::Growth::none_stored, crate::proofs::Growth::all_stored))]
    fn store_atomically(&mut self) -> Result<(), StoreFault>
        ensures stored { OnOk result (IsStored S.may_recover self.new) }
        ensures found { OnOk result (S.is_clean self.new.storage
            → S.may_recover self.new.storage self.new.state.peer.stable) }
        ensures remains { S.is_clean self.new.storage → IsRecoverable (S.may_recover self.old.storage)
            → IsRecoverable (S.may_recover self.new.storage) }
        ensures clean { S.is_clean self.new.storage → S.is_clean self.old.storage }
        ensures state { self.new.state ≡ self.old.state }
        ensures outbox { self.new.outbox ≡ self.old.outbox }
        ensures crash { (found : Stable) → S.may_recover self.new.storage found
            → S.may_recover self.old.storage found ⊎ (found ≡ self.old.state.peer.stable) }
        ensures boots { S.boots self.new.storage ≡ S.boots self.old.storage }
    {
        self.stored = 0;
        let stable = &self.server.state().peer.stable;
        self.storage.store_atomically(stable)?;
        self.stored = stable.history.len();
        Ok(())
    }

    /// Rejects a message for another server, or one that is out of order.
    fn admit(&self, message: &Message<P::Call>) -> Result<(), HostFault>
        ensures mine { OnOk result (message.now.addressee ≡ self.now.state.peer.me) }
        ensures below { OnOk result (EndsBelow self.now.state) }
        ensures rejected { IfErr result (IsOutside self.now.state (Receives message.now)) }
    {
        let state = self.server.state();
        if message.addressee != state.peer.me {
            return Err(HostFault::NoServer);
        }
        if !ends_below(state) {
            return Err(HostFault::OutOfOrder);
        }
        Ok(())
    }

    #[tactic(auto, using(crate::proofs::Growth::none_stored, crate::proofs::Outside::rejected))]
    fn apply_message<Q: Quorums>(
        &mut self,
        alloc: Global,
        quorums: &Q,
        message: &Message<P::Call>,
    ) -> Result<(), HostFault>
        requires short { IsShortBody message.now.body }
        ensures steps { StepsTo (setting_of (Q.passes quorums.now) P.made_of P.tag_of) self.old
            (Receives message.now) self.new result }
        ensures storage { self.new.storage ≡ self.old.storage }
    {
        self.admit(message)?;
        self.stored = 0;
        let server = &mut self.server;
        let messages = dispatch(alloc, quorums, server, message.sender, &message.body)?;
        self.outbox.append(messages)?;
        Ok(())
    }

    /// Submits a client's call. No other call has its tag.
    #[tactic(auto, using(crate::proofs::Growth::still_stored))]
    pub fn submit<Q: Quorums>(
        &mut self,
        alloc: Global,
        quorums: &Q,
        call: P::Call,
    ) -> Result<(), HostFault>
        ensures { StepsTo (setting_of (Q.passes quorums.now) P.made_of P.tag_of) self.old
            (Submits call) self.new result }
    {
        if !ends_below(self.server.state()) {
            return Err(HostFault::OutOfOrder);
        }
        let messages = submit(alloc, quorums, &mut self.server, call)?;
        self.outbox.append(messages)?;
        Ok(())
    }

    /// Asks the server's leader how much it has delivered, for a client's sync. No other sync has
    /// this tag.
    #[tactic(auto, using(crate::proofs::Growth::sync_keeps))]
    pub fn sync<Q: Quorums>(
        &mut self,
        alloc: Global,
        _quorums: &Q,
        tag: u64,
    ) -> Result<(), HostFault>
        ensures { StepsTo (setting_of (Q.passes _quorums.now) P.made_of P.tag_of) self.old
            (Syncs tag) self.new result }
    {
        let messages = self.server.sync(alloc, tag)?;
        self.outbox.append(messages)?;
        Ok(())
    }

    /// Begins to lead.
    #[tactic(auto, using(crate::proofs::Growth::lead_keeps))]
    pub fn lead<Q: Quorums>(&mut self, alloc: Global, _quorums: &Q) -> Result<(), HostFault>
        ensures { StepsTo (setting_of (Q.passes _quorums.now) P.made_of P.tag_of) self.old
            Leads self.new result }
    {
        let messages = self.server.lead(alloc)?;
        self.outbox.append(messages)?;
        Ok(())
    }

    /// Begins to follow a leader.
    #[tactic(auto, using(crate::proofs::Growth::follow_keeps))]
    pub fn follow<Q: Quorums>(
        &mut self,
        alloc: Global,
        _quorums: &Q,
        leader: usize,
    ) -> Result<(), HostFault>
        ensures { StepsTo (setting_of (Q.passes _quorums.now) P.made_of P.tag_of) self.old
            (Follows leader) self.new result }
    {
        let peer = &self.server.state().peer;
        if leader == 0 || leader > peer.servers || leader == peer.me {
            return Err(HostFault::NoServer);
        }
        let messages = self.server.follow(alloc, leader)?;
        self.outbox.append(messages)?;
        Ok(())
    }

    /// Stores what the server has, and releases the messages of its outbox. No other function
    /// returns a message.
    pub fn release(&mut self, alloc: Global) -> Result<Messages<P::Call>, StoreFault>
        ensures messages { IfOk result (λ messages. messages ≡ self.old.outbox) }
        ensures stored { OnOk result (IsStored S.may_recover self.new) }
        ensures found { OnOk result (S.is_clean self.new.storage
            → S.may_recover self.new.storage self.new.state.peer.stable) }
        ensures remains { S.is_clean self.new.storage → IsRecoverable (S.may_recover self.old.storage)
            → IsRecoverable (S.may_recover self.new.storage) }
        ensures clean { S.is_clean self.new.storage → S.is_clean self.old.storage }
        ensures state { self.new.state ≡ self.old.state }
        ensures empty { OnOk result (self.new.outbox ≡ []) }
        ensures waits { OnErr result (self.new.outbox ≡ self.old.outbox) }
        ensures crash { (found : Stable) → S.may_recover self.new.storage found
            → S.may_recover self.old.storage found
            ⊎ IsPartialStore (S.may_recover self.old.storage) self.old.state.peer.stable found }
        ensures boots { S.boots self.new.storage ≡ S.boots self.old.storage }
    {
        self.store()?;
        Ok(replace(&mut self.outbox, Messages::new(alloc)))
    }

    /// The entries that it has delivered, borrowed. A client sees them only once all that the
    /// server has is stored.
    pub fn delivered(&self) -> Entries<'_>
        requires stored { IsStored S.may_recover self.now }
        ensures { result ≡ take self.now.state.delivered self.now.state.peer.stable.history }
    {
        self.server.delivered()
    }

    /// Returns the server's completed syncs that were not taken yet, borrowed, under the condition of
    /// [`Host::delivered`].
    pub fn syncs(&self) -> &[Caught]
        requires stored { IsStored S.may_recover self.now }
        ensures { result.now ≡ self.now.state.caught }
    {
        self.server.state().caught.as_slice()
    }

    /// Takes the syncs that the server has completed since they were last taken, under the condition
    /// of [`Host::delivered`].
    pub fn take_syncs(&mut self, alloc: Global) -> CaughtSyncs
        requires stored { IsStored S.may_recover self.old }
        ensures syncs { result ≡ self.old.state.caught }
        ensures state { self.new.state ≡ record self.old.state { caught = [] } }
        ensures outbox { self.new.outbox ≡ self.old.outbox }
        ensures storage { self.new.storage ≡ self.old.storage }
    {
        self.server.take_caught(alloc)
    }
}
