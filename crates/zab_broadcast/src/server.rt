use crate::counting::{commit_count, next_zxid};
use crate::primary::Primary;
use crate::state::State;
use crate::syncs::{AskedSyncs, CaughtSyncs};
use crate::tags::Tags;
use std::alloc::Global;
use std::marker::Model;
use std::mem::replace;
use zab_epoch::{
    Body, Entries, Entry, History, Messages, Payload, Peer, Quorums, Role, RuleFault, Stable,
    Table, Vote,
};
use zk_path::NoMemory;

/// A server, with its primary while it leads.
///
/// Each rule returns the messages to send. If an allocation fails, the server's state is unchanged;
/// its primary may be lost, which no value shows, and a leader's next call starts another.
pub struct Server<P: Primary> {
    state: State,
    primary: Option<P>,
}

impl<P: Primary + Drop> Drop for Server<P> {
    fn drop(self) {
        let Server {
            state: _,
            primary: _,
        } = self;
    }
}

/// Contracts see the server's state. Its primary, if there is one, represents its history.
impl<P: Primary> Model for Server<P> {
    ghost use Rattle.std.specs.Prelude.{IfSome, ◌≤◌, length};
    ghost use Rattle.zab_broadcast.specs.declared.state.State.{State};

    ghost Value = { State };

    ghost view = { λ server. server.state };

    ghost invariant = { λ server. (server.state.delivered ≤ length server.state.peer.stable.history)
        × IfSome server.primary
        (λ primary. P.stands_for primary server.state.peer.stable.history server.state.delivered) };
}

impl<P: Primary> Server<P> {
    ghost use Rattle.std.specs.Prelude.{◌≡◌, ◌≢◌, ◌≤◌, ◌<◌, ◌<ℤ◌, ◌-◌, ◌++◌, [], max, set, length, take, None, if◌then◌else◌, IfOk, OnOk, OnErr};
    ghost use Rattle.zab_epoch.specs.declared.rule_fault.RuleFault.TheVariants as faults;
    ghost use Rattle.zab_epoch.specs.Entries.{last_zxid};
    ghost use Rattle.zab_epoch.specs.Shortness.{IsShort};
    ghost use Rattle.zab_broadcast.specs.Calls.{setting_of};
    ghost use Rattle.zab_broadcast.specs.Guards.{EndsBelow, IsBelowNext};
    ghost use Rattle.zab_broadcast.specs.Rules.{restored, is_serving, lead, follow, c_epoch, new_epoch, ack_epoch};
    ghost use Rattle.zab_broadcast.specs.Rules.{new_leader, ack_leader, submit, request, propose, ack, commit};
    ghost use Rattle.zab_broadcast.specs.Rules.{begun, joined, counted, settles, raised, enters, catching_up, tells_news};
    ghost use Rattle.zab_broadcast.specs.Rules.{silent, took, appends, with_history};
    ghost use Rattle.zab_broadcast.specs.Rules.{sync, sync_ask, sync_tell};
    ghost use Rattle.zab_epoch.specs.Tables.{marks_of};
    ghost use Rattle.zab_epoch.specs.Rules.{ack_epoch as peer_ack_epoch, new_leader as peer_new_leader};

    /// A server that has restarted from its stable part: it has delivered nothing, and looks for a
    /// leader.
    pub fn restored(alloc: Global, servers: usize, me: usize, stable: Stable) -> Server<P>
        ensures { result ≡ restored servers me stable }
    {
        Server {
            state: State {
                peer: Peer::restored(servers, me, stable),
                delivered: 0,
                has: Table::empty(alloc),
                top: 0,
                made: 0,
                taken: Tags::new(alloc),
                asked: AskedSyncs::new(alloc),
                caught: CaughtSyncs::new(alloc),
            },
            primary: None,
        }
    }

    pub fn state(&self) -> &State
        ensures same { result.now ≡ self.now }
        ensures delivered { self.now.delivered ≤ length self.now.peer.stable.history }
    {
        &self.state
    }

    /// Borrows the entries that it has delivered.
    pub fn delivered(&self) -> Entries<'_>
        ensures { result ≡ take self.now.delivered self.now.peer.stable.history }
    {
        self.state
            .peer
            .stable
            .history
            .entries()
            .first(self.state.delivered)
    }

    /// Crashes, and returns what survives.
    pub fn into_stable(self) -> Stable
        ensures { result ≡ self.peer.stable }
    {
        let Server { state, primary } = self;
        drop(primary);
        let State { peer, .. } = state;
        let Peer { stable, .. } = peer;
        stable
    }

    /// Takes the syncs that it has completed since they were last taken.
    pub fn take_caught(&mut self, alloc: Global) -> CaughtSyncs
        ensures taken { result ≡ self.old.caught }
        ensures rest { self.new ≡ record self.old { caught = [] } }
    {
        replace(&mut self.state.caught, CaughtSyncs::new(alloc))
    }

    /// Whether it takes client calls: as a leader in Broadcast, or as a synced follower.
    pub fn is_serving(&self) -> bool
        ensures { result ≡ is_serving self.now.peer.role }
    {
        match &self.state.peer.role {
            Role::Broadcast => true,
            Role::Following { synced, .. } => *synced,
            Role::Looking | Role::Discover { .. } | Role::Choose { .. } | Role::Sync => false,
        }
    }

    /// Begins to lead, from any role.
    pub fn lead(&mut self, alloc: Global) -> Result<Messages<P::Call>, NoMemory>
        ensures acts { IfOk result (λ messages. (self.new, Ok messages) ≡ lead self.old) }
        ensures err { OnErr result (self.new ≡ self.old) }
    {
        self.primary = None;
        let messages = self.state.peer.lead(alloc)?;
        self.state.asked = AskedSyncs::new(alloc);
        Ok(messages)
    }

    /// Begins to follow a leader, from any role.
    pub fn follow(&mut self, alloc: Global, leader: usize) -> Result<Messages<P::Call>, NoMemory>
        ensures acts { IfOk result (λ messages. (self.new, Ok messages) ≡ follow self.old leader) }
        ensures err { OnErr result (self.new ≡ self.old) }
    {
        self.primary = None;
        let messages = self.state.peer.follow(alloc, leader)?;
        self.state.asked = AskedSyncs::new(alloc);
        Ok(messages)
    }

    /// Handles a CEpoch.
    pub fn c_epoch<Q: Quorums>(
        &mut self,
        alloc: Global,
        quorums: &Q,
        from: usize,
        promised: u32,
    ) -> Result<Messages<P::Call>, RuleFault>
        ensures acts { result ≢ Err faults.NoMemory
            → (self.new, result) ≡ c_epoch (Q.passes quorums.now) self.old from promised }
        ensures err { OnErr result (self.new.peer.stable ≡ self.old.peer.stable) }
        ensures unchanged { result ≡ Err faults.NoMemory → self.new ≡ self.old }
    {
        self.state.peer.c_epoch(alloc, quorums, from, promised)
    }

    /// Handles a NewEpoch.
    pub fn new_epoch(
        &mut self,
        alloc: Global,
        from: usize,
        epoch: u32,
    ) -> Result<Messages<P::Call>, NoMemory>
        ensures acts { IfOk result (λ messages. (self.new, Ok messages)
            ≡ new_epoch self.old from epoch) }
        ensures err { OnErr result (self.new ≡ self.old) }
    {
        self.state.peer.new_epoch(alloc, from, epoch)
    }

    /// Handles an AckEpoch.
    pub fn ack_epoch<Q: Quorums>(
        &mut self,
        alloc: Global,
        quorums: &Q,
        from: usize,
        epoch: u32,
        vote: bool,
        said: Vote,
    ) -> Result<Messages<P::Call>, NoMemory>
        ensures acts { IfOk result (λ messages. (self.new, Ok messages)
            ≡ ack_epoch (Q.passes quorums.now) self.old from epoch vote said) }
        ensures err { OnErr result (self.new.peer.stable ≡ self.old.peer.stable) }
        ensures unchanged { OnErr result (self.new ≡ self.old) }
    {
        if self.state.peer.role.is_choosing() {
            self.gather(alloc, quorums, from, epoch, vote, said)
        } else {
            self.state
                .peer
                .ack_epoch(alloc, quorums, from, epoch, vote, said)
        }
    }

    /// Handles an AckEpoch at a leader that collects votes. If its epoch begins, it knows only its
    /// own length.
    fn gather<Q: Quorums>(
        &mut self,
        alloc: Global,
        quorums: &Q,
        from: usize,
        epoch: u32,
        vote: bool,
        said: Vote,
    ) -> Result<Messages<P::Call>, NoMemory>
        ensures acts { IfOk result (λ messages. (self.new, Ok messages)
            ≡ begun self.old (peer_ack_epoch (Q.passes quorums.now) self.old.peer from epoch vote said)) }
        ensures err { OnErr result (self.new.peer.stable ≡ self.old.peer.stable) }
        ensures unchanged { OnErr result (self.new ≡ self.old) }
    {
        let mut has = Table::new(alloc, self.state.peer.servers)?;
        self.primary = None;
        let messages = self
            .state
            .peer
            .ack_epoch(alloc, quorums, from, epoch, vote, said)?;
        let length = self.state.peer.stable.history.len();
        has.put(self.state.peer.me, length as u64);
        self.state.has = has;
        self.state.delivered = self.state.delivered.min(length);
        Ok(messages)
    }

    /// Handles a NewLeader.
    pub fn new_leader(
        &mut self,
        alloc: Global,
        from: usize,
        epoch: u32,
        keep: i64,
        rest: &History,
    ) -> Result<Messages<P::Call>, NoMemory>
        ensures acts { IfOk result (λ messages. (self.new, Ok messages)
            ≡ new_leader self.old from epoch keep rest.now) }
        ensures err { OnErr result (self.new ≡ self.old) }
    {
        if !self.state.peer.role.follows(from) {
            return Ok(Messages::new(alloc));
        }
        self.join(alloc, from, epoch, keep, rest)
    }

    /// Handles a NewLeader from the server's leader. Delivered entries stay within the new history.
    fn join(
        &mut self,
        alloc: Global,
        from: usize,
        epoch: u32,
        keep: i64,
        rest: &History,
    ) -> Result<Messages<P::Call>, NoMemory>
        ensures acts { IfOk result (λ messages. (self.new, Ok messages)
            ≡ joined self.old (peer_new_leader self.old.peer from epoch keep rest.now)) }
        ensures err { OnErr result (self.new ≡ self.old) }
    {
        self.primary = None;
        let messages = self.state.peer.new_leader(alloc, from, epoch, keep, rest)?;
        let length = self.state.peer.stable.history.len();
        self.state.delivered = self.state.delivered.min(length);
        Ok(messages)
    }

    /// Delivers at least `count` entries.
    fn deliver(&mut self, count: usize)
        requires { count ≤ length self.old.peer.stable.history }
        ensures { self.new ≡ record self.old { delivered = max self.old.delivered count } }
    {
        let _length = self.state.peer.stable.history.len();
        let delivered = self.state.delivered;
        if delivered < count {
            let more = count - delivered;
            if let Some(primary) = &mut self.primary {
                primary.delivered(more);
            }
            self.state.delivered = delivered + more;
        }
    }

    /// Returns the commit count.
    fn counted<Q: Quorums>(&self, alloc: Global, quorums: &Q) -> Result<u64, NoMemory>
        ensures value { IfOk result (λ count. count ≡ counted (Q.passes quorums.now) self.now) }
        ensures within { IfOk result (λ count. count ≤ length self.now.peer.stable.history) }
    {
        let length = self.state.peer.stable.history.len() as u64;
        commit_count(alloc, quorums, self.state.has.as_slice(), length)
    }

    /// Delivers what a quorum has; this count is above each earlier one of this Broadcast.
    fn settle(&mut self, count: u64)
        requires { count ≤ length self.old.peer.stable.history }
        ensures { self.new ≡ record self.old { top = count; delivered = max self.old.delivered count } }
    {
        self.deliver(count as usize);
        self.state.top = count;
    }

    /// Records that a server has at least `count` entries. Returns the number known so far.
    fn raise(&mut self, from: usize, count: u64) -> Option<u64>
        ensures raised { self.new ≡ raised self.old from count }
        ensures back { set self.new.has (from - 1) result ≡ self.old.has }
    {
        let most = match self.state.has.said_by(from) {
            Some(before) => (*before).max(count),
            None => count,
        };
        self.state.has.replace(from, Some(most))
    }

    /// Handles an AckLeader.
    pub fn ack_leader<Q: Quorums>(
        &mut self,
        alloc: Global,
        quorums: &Q,
        from: usize,
        epoch: u32,
        length: u64,
    ) -> Result<Messages<P::Call>, NoMemory>
        ensures acts { IfOk result (λ messages. (self.new, Ok messages)
            ≡ ack_leader (Q.passes quorums.now) self.old from epoch length) }
        ensures err { OnErr result (self.new.peer.stable ≡ self.old.peer.stable) }
        ensures unchanged { OnErr result (self.new ≡ self.old) }
    {
        if epoch != self.state.peer.stable.promised {
            return Ok(Messages::new(alloc));
        }
        match &self.state.peer.role {
            Role::Sync => {
                let before = self.raise(from, length);
                match self.enter(alloc, quorums) {
                    Ok(messages) => Ok(messages),
                    Err(NoMemory) => {
                        self.state.has.replace(from, before);
                        Err(NoMemory)
                    }
                }
            }
            Role::Broadcast => {
                let before = self.raise(from, length);
                match self.catch_up(alloc, quorums, from, length as usize) {
                    Ok(messages) => Ok(messages),
                    Err(NoMemory) => {
                        self.state.has.replace(from, before);
                        Err(NoMemory)
                    }
                }
            }
            _ => Ok(Messages::new(alloc)),
        }
    }

    /// Enters Broadcast if the servers known to have entries are a quorum.
    fn enter<Q: Quorums>(
        &mut self,
        alloc: Global,
        quorums: &Q,
    ) -> Result<Messages<P::Call>, NoMemory>
        ensures acts { IfOk result (λ messages. (self.new, Ok messages)
            ≡ (if Q.passes quorums.now (marks_of self.old.has)
            then enters (Q.passes quorums.now) self.old
            else silent self.old)) }
        ensures unchanged { OnErr result (self.new ≡ self.old) }
    {
        let marks = self.state.has.marks()?;
        if !quorums.is_quorum(&marks) {
            return Ok(Messages::new(alloc));
        }
        let count = self.counted(alloc, quorums)?;
        let above = self.state.peer.stable.history.len();
        let messages = self.state.news(alloc, None, above, Some(count))?;
        self.primary = Some(self.start_primary(alloc)?);
        self.deliver(count as usize);
        self.state.peer.role = Role::Broadcast;
        self.state.made = 0;
        self.state.taken = Tags::new(alloc);
        self.state.top = count;
        Ok(messages)
    }

    /// Starts a primary for the history and what is delivered of it.
    fn start_primary(&self, alloc: Global) -> Result<P, NoMemory>
        ensures { IfOk result (λ primary. P.stands_for primary self.now.peer.stable.history self.now.delivered) }
    {
        let mut primary = P::start(alloc, &self.state.peer.stable.history.entries())?;
        primary.delivered(self.state.delivered);
        Ok(primary)
    }

    /// Sends a server that has `count` entries the rest, and delivers what may be delivered.
    fn catch_up<Q: Quorums>(
        &mut self,
        alloc: Global,
        quorums: &Q,
        to: usize,
        above: usize,
    ) -> Result<Messages<P::Call>, NoMemory>
        ensures acts { IfOk result (λ messages. (self.new, Ok messages)
            ≡ catching_up (Q.passes quorums.now) to above (settles (Q.passes quorums.now) self.old)) }
        ensures unchanged { OnErr result (self.new ≡ self.old) }
    {
        let count = self.counted(alloc, quorums)?;
        if count <= self.state.top {
            return self.state.tell(alloc, to, above, Some(count));
        }
        let messages = self.state.news(alloc, Some(to), above, Some(count))?;
        self.settle(count);
        Ok(messages)
    }

    /// Takes a client's call. A leader's history ends below the zxid that it assigns.
    pub fn submit<Q: Quorums>(
        &mut self,
        alloc: Global,
        quorums: &Q,
        call: P::Call,
    ) -> Result<Messages<P::Call>, RuleFault>
        requires below { EndsBelow self.old }
        ensures acts { result ≢ Err faults.NoMemory
            → (self.new, result) ≡ submit (setting_of (Q.passes quorums.now) P.made_of P.tag_of) self.old call }
        ensures err { OnErr result (self.new.peer.stable ≡ self.old.peer.stable) }
        ensures unchanged { result ≡ Err faults.NoMemory → self.new ≡ self.old }
    {
        match &self.state.peer.role {
            Role::Broadcast => self.append(alloc, quorums, &call),
            Role::Following {
                leader,
                synced: true,
            } => {
                let mut messages = Messages::new(alloc);
                let epoch = self.state.peer.stable.current;
                let call = Payload::new(alloc, call)?;
                messages.send(self.state.peer.me, *leader, Body::Request { epoch, call })?;
                Ok(messages)
            }
            _ => Err(RuleFault::NotServing),
        }
    }

    /// Handles a Request. A leader's history ends below the zxid that it assigns.
    pub fn request<Q: Quorums>(
        &mut self,
        alloc: Global,
        quorums: &Q,
        epoch: u32,
        call: &P::Call,
    ) -> Result<Messages<P::Call>, RuleFault>
        requires below { EndsBelow self.old }
        ensures acts { result ≢ Err faults.NoMemory
            → (self.new, result) ≡ request (setting_of (Q.passes quorums.now) P.made_of P.tag_of) self.old epoch call.now }
        ensures err { OnErr result (self.new.peer.stable ≡ self.old.peer.stable) }
        ensures unchanged { result ≡ Err faults.NoMemory → self.new ≡ self.old }
    {
        match &self.state.peer.role {
            Role::Broadcast => {
                let tag = P::tag(call);
                if epoch == self.state.peer.stable.promised && !self.state.taken.has(tag) {
                    return self.append(alloc, quorums, call);
                }
            }
            _ => {}
        }
        Ok(Messages::new(alloc))
    }

    /// Takes a call at a leader.
    #[tactic(auto, using(crate::proofs::Appending::dropped_again))]
    fn append<Q: Quorums>(
        &mut self,
        alloc: Global,
        quorums: &Q,
        call: &P::Call,
    ) -> Result<Messages<P::Call>, RuleFault>
        requires below { IsBelowNext self.old }
        ensures acts { result ≢ Err faults.NoMemory
            → (self.new, result) ≡ appends (setting_of (Q.passes quorums.now) P.made_of P.tag_of) self.old call.now }
        ensures err { OnErr result (self.new.peer.stable ≡ self.old.peer.stable) }
        ensures unchanged { result ≡ Err faults.NoMemory → self.new ≡ self.old }
    {
        let Some(zxid) = next_zxid(self.state.peer.stable.promised, self.state.made) else {
            self.primary = None;
            self.state.peer.role = Role::Looking;
            return Err(RuleFault::EpochFull);
        };
        let above = self.state.peer.stable.history.len();
        let before = self.take_call(alloc, call, zxid)?;
        match self.announce(alloc, quorums, above) {
            Ok(messages) => Ok(messages),
            Err(NoMemory) => {
                self.forget(above);
                self.state.has.replace(self.state.peer.me, before);
                Err(RuleFault::NoMemory)
            }
        }
    }

    /// Takes the primary out, or starts another if an earlier call lost it to a failed allocation.
    fn take_primary(&mut self, alloc: Global) -> Result<P, NoMemory>
        ensures stands { IfOk result (λ primary. P.stands_for primary self.old.peer.stable.history self.old.delivered) }
        ensures same { self.new ≡ self.old }
    {
        match self.primary.take() {
            Some(primary) => Ok(primary),
            None => self.start_primary(alloc),
        }
    }

    /// Builds an entry from a call and appends it. Returns what the leader was known to have.
    fn take_call(
        &mut self,
        alloc: Global,
        call: &P::Call,
        zxid: i64,
    ) -> Result<Option<u64>, NoMemory>
        requires made { self.old.made < 4294967295 }
        requires below { last_zxid self.old.peer.stable.history <ℤ zxid }
        ensures took { OnOk result
            (self.new ≡ took self.old (P.made_of self.old.peer.stable.history call.now zxid)) }
        ensures back { IfOk result (λ before. set self.new.has (self.new.peer.me - 1) before ≡ self.old.has) }
        ensures unchanged { OnErr result (self.new ≡ self.old) }
    {
        let mut primary = self.take_primary(alloc)?;
        let entry = primary.make(call, zxid)?;
        primary.taken(&entry)?;
        self.state.taken.push(entry.tag)?;
        if let Err(NoMemory) = self.state.peer.stable.history.push(entry) {
            self.state.taken.drop_last();
            return Err(NoMemory);
        }
        let length = self.state.peer.stable.history.len() as u64;
        let before = self.state.has.replace(self.state.peer.me, Some(length));
        self.state.made += 1;
        self.primary = Some(primary);
        Ok(before)
    }

    /// Delivers what may be delivered, and proposes the entries above a length.
    fn announce<Q: Quorums>(
        &mut self,
        alloc: Global,
        quorums: &Q,
        above: usize,
    ) -> Result<Messages<P::Call>, NoMemory>
        ensures acts { IfOk result (λ messages. (self.new, Ok messages)
            ≡ tells_news None above (settles (Q.passes quorums.now) self.old)) }
        ensures err { self.new.peer.stable ≡ self.old.peer.stable }
        ensures unchanged { OnErr result (self.new ≡ self.old) }
    {
        let count = self.counted(alloc, quorums)?;
        if count <= self.state.top {
            return self.state.news(alloc, None, above, None);
        }
        let messages = self.state.news(alloc, None, above, Some(count))?;
        self.settle(count);
        Ok(messages)
    }

    /// Removes the last entry, which no server has heard of and no server delivered, and its call's
    /// tag.
    fn forget(&mut self, above: usize)
        requires made { 0 < self.old.made }
        requires delivered { self.old.delivered ≤ above }
        ensures { self.new ≡ record self.old {
          peer = with_history self.old.peer (take above self.old.peer.stable.history);
          made = self.old.made - 1;
          taken = take (length self.old.taken - 1) self.old.taken;
        } }
    {
        self.primary = None;
        self.state.peer.stable.history.truncate(above);
        self.state.made -= 1;
        self.state.taken.drop_last();
    }

    /// Handles a Propose of an entry whose record has at most 16,777,216 bytes.
    pub fn propose(
        &mut self,
        alloc: Global,
        from: usize,
        epoch: u32,
        index: u64,
        entry: &Entry,
    ) -> Result<Messages<P::Call>, NoMemory>
        requires short { IsShort entry.now }
        ensures acts { IfOk result (λ messages. (self.new, Ok messages)
            ≡ propose self.old from epoch index entry.now) }
        ensures err { OnErr result (self.new ≡ self.old) }
    {
        let mut messages = Messages::new(alloc);
        if self.state.peer.role.follows(from) && is_next(&self.state.peer.stable, epoch, index) {
            if is_above(&self.state.peer.stable, entry) {
                let length = index;
                messages.send(self.state.peer.me, from, Body::Ack { epoch, length })?;
                self.primary = None;
                self.state.peer.stable.history.push(entry.copy()?)?;
            }
        }
        Ok(messages)
    }

    /// Handles an Ack.
    pub fn ack<Q: Quorums>(
        &mut self,
        alloc: Global,
        quorums: &Q,
        from: usize,
        epoch: u32,
        length: u64,
    ) -> Result<Messages<P::Call>, NoMemory>
        ensures acts { IfOk result (λ messages. (self.new, Ok messages)
            ≡ ack (Q.passes quorums.now) self.old from epoch length) }
        ensures err { OnErr result (self.new.peer.stable ≡ self.old.peer.stable) }
        ensures unchanged { OnErr result (self.new ≡ self.old) }
    {
        match &self.state.peer.role {
            Role::Broadcast => {
                if epoch == self.state.peer.stable.promised {
                    let above = self.state.peer.stable.history.len();
                    let before = self.raise(from, length);
                    return match self.announce(alloc, quorums, above) {
                        Ok(messages) => Ok(messages),
                        Err(NoMemory) => {
                            self.state.has.replace(from, before);
                            Err(NoMemory)
                        }
                    };
                }
            }
            _ => {}
        }
        Ok(Messages::new(alloc))
    }

    /// Handles a Commit.
    pub fn commit(
        &mut self,
        alloc: Global,
        from: usize,
        epoch: u32,
        length: u64,
    ) -> Result<Messages<P::Call>, NoMemory>
        ensures acts { IfOk result (λ messages. (self.new, Ok messages) ≡ commit self.old from epoch length) }
        ensures err { OnErr result (self.new ≡ self.old) }
    {
        let peer = &self.state.peer;
        if peer.role.follows(from) && epoch == peer.stable.current {
            let count = peer.stable.history.len().min(length as usize);
            let delivered = self.state.delivered.max(count) as u64;
            let left = self.state.asked.left(delivered)?;
            let caught = self.state.asked.caught(delivered)?;
            self.deliver_and_answer(count, left, caught)?;
        }
        Ok(Messages::new(alloc))
    }

    /// Delivers at least `count` entries and completes syncs; `left` are those still pending.
    fn deliver_and_answer(
        &mut self,
        count: usize,
        left: AskedSyncs,
        caught: CaughtSyncs,
    ) -> Result<(), NoMemory>
        requires { count ≤ length self.old.peer.stable.history }
        ensures ok { OnOk result (self.new ≡ record self.old {
          delivered = max self.old.delivered count;
          asked = left;
          caught = self.old.caught ++ caught;
        }) }
        ensures err { OnErr result (self.new ≡ self.old) }
    {
        self.state.caught.append(caught)?;
        self.state.asked = left;
        self.deliver(count);
        Ok(())
    }

    /// Starts a client's sync with the leader.
    pub fn sync(&mut self, alloc: Global, tag: u64) -> Result<Messages<P::Call>, RuleFault>
        ensures acts { result ≢ Err faults.NoMemory → (self.new, result) ≡ sync self.old tag }
        ensures err { OnErr result (self.new ≡ self.old) }
    {
        let mut messages = Messages::new(alloc);
        match &self.state.peer.role {
            Role::Broadcast => self.state.caught.push(tag, self.state.delivered as u64)?,
            Role::Following {
                leader,
                synced: true,
            } => {
                let epoch = self.state.peer.stable.current;
                messages.send(self.state.peer.me, *leader, Body::SyncAsk { epoch, tag })?;
                self.state.asked.ask(tag)?;
            }
            _ => return Err(RuleFault::NotServing),
        }
        Ok(messages)
    }

    /// Handles a SyncAsk.
    pub fn sync_ask(
        &self,
        alloc: Global,
        from: usize,
        epoch: u32,
        tag: u64,
    ) -> Result<Messages<P::Call>, NoMemory>
        ensures { IfOk result (λ messages. (self.now, Ok messages) ≡ sync_ask self.now from epoch tag) }
    {
        let mut messages = Messages::new(alloc);
        match &self.state.peer.role {
            Role::Broadcast => {
                if epoch == self.state.peer.stable.promised {
                    let length = self.state.delivered as u64;
                    let body = Body::SyncTell { epoch, tag, length };
                    messages.send(self.state.peer.me, from, body)?;
                }
            }
            _ => {}
        }
        Ok(messages)
    }

    /// Handles a SyncTell.
    pub fn sync_tell(
        &mut self,
        alloc: Global,
        from: usize,
        epoch: u32,
        tag: u64,
        length: u64,
    ) -> Result<Messages<P::Call>, NoMemory>
        ensures acts { IfOk result (λ messages. (self.new, Ok messages)
            ≡ sync_tell self.old from epoch tag length) }
        ensures err { OnErr result (self.new ≡ self.old) }
    {
        let peer = &self.state.peer;
        if peer.role.follows(from) && epoch == peer.stable.current && self.state.asked.has(tag) {
            let count = peer.stable.history.len().min(length as usize);
            let delivered = self.state.delivered.max(count) as u64;
            let asked = self.state.asked.told(tag, length)?;
            let left = asked.left(delivered)?;
            let caught = asked.caught(delivered)?;
            self.deliver_and_answer(count, left, caught)?;
        }
        Ok(Messages::new(alloc))
    }
}

ghost use Rattle.std.specs.Prelude.{◌≡◌};
ghost use Rattle.zab_broadcast.specs.Rules.{is_next, is_above};

/// Whether an epoch is promised and current, and an index that of the next entry.
fn is_next(stable: &Stable, epoch: u32, index: u64) -> bool
    ensures { result ≡ is_next stable.now epoch index }
{
    epoch == stable.promised && epoch == stable.current && index == stable.history.len() as u64 + 1
}

/// Whether an entry's zxid is above the last.
fn is_above(stable: &Stable, entry: &Entry) -> bool
    ensures { result ≡ is_above stable.now entry.now }
{
    stable.history.last_zxid() < entry.txn.zxid
}
