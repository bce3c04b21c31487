use crate::cut::{Cut, is_cut};
use crate::election::winner;
use crate::fault::PeersFault;
use crate::place::{Place, start};
use crate::places::{
    collect, count_heard, crash, end_record, receive, rejoin, restart, take_role, take_roles,
};
use crate::state::PeerState;
use std::alloc::Global;
use std::mem::replace;
use zab_epoch::{Messages, Role};
use zab_host::{Storage, Vote, own_messages};
use zk_host::{Record, RecordFault, ReplicaHost};
use zk_model::Event;
use zk_path::NoMemory;
use zk_requests::Call;

/// The least and the greatest number of servers.
pub const FEWEST: usize = 1;

pub const MOST: usize = 15;

/// The servers of an ensemble, numbered from 1. The majorities are the quorums.
///
/// A round of mail: [`Peers::next_round`], then for each server [`Peers::receive`], the release of
/// its host by the caller, and [`Peers::post`] with the messages that it released.
pub struct Peers<S: Storage> {
    alloc: Global,
    places: Vec<Place<S>>,
    leader: Option<usize>,
    cuts: Vec<Cut>,
    /// Mail of the next round.
    posted: Messages<Call>,
    /// Mail of this round.
    arriving: Messages<Call>,
    /// What the servers have done.
    recorded: Record,
}

impl<S: Storage + Drop> Drop for Peers<S> {
    fn drop(self) {
        let Peers {
            alloc: _,
            places: _,
            leader: _,
            cuts: _,
            posted: _,
            arriving: _,
            recorded: _,
        } = self;
    }
}

impl<S: Storage> Peers<S> {
    ghost use Rattle.std.specs.Prelude.{◌≡◌, ◌≤◌, ◌<◌, ◌++◌, ◌∷◌, [], length, nat_lt, Some, None, true, false, IfOk, OnOk, OnErr, IsErrOf};
    ghost use Rattle.std.specs.Borrow.{sem};
    ghost use Rattle.std.specs.Option.{option_copied_mut, option_map};
    ghost use Rattle.zk_peers.specs.Lending.{lends_place};
    ghost use Rattle.zk_peers.specs.Links.{is_cut, with_cut, listed};
    ghost use Rattle.zk_peers.specs.Peers.{is_server, is_link, host_at, is_up_at, place_at, has_quorum, candidate, candidates, is_leading_host, is_led, serves, is_leader, state_of, SameAround, Starts, own_mail, Leads, Elects, Rejoin, Heals, FollowsIf, Crashes, RestartsAt, Receives, FailsAt};
    ghost use Rattle.zk_peers.specs.declared.fault.PeersFault.TheVariants as faults;

    /// Starts 1 to 15 servers, each on its store. They have no leader, and all links are healthy.
    pub fn start(alloc: Global, storages: Vec<S>) -> Result<Peers<S>, PeersFault>
        ensures started { IfOk result (Starts S.is_clean S.may_recover S.boots storages.items) }
        ensures range { OnOk result ((1 ≤ length storages.items) × (length storages.items ≤ 15)) }
        ensures few { length storages.items < 1 → IsErrOf result faults.Count }
        ensures many { 15 < length storages.items → IsErrOf result faults.Count }
    {
        let servers = storages.len();
        if servers < FEWEST || servers > MOST {
            return Err(PeersFault::Count);
        }
        Ok(Peers {
            alloc,
            places: start_all(alloc, storages)?,
            leader: None,
            cuts: Vec::new(alloc),
            posted: Messages::new(alloc),
            arriving: Messages::new(alloc),
            recorded: Record::new(alloc),
        })
    }

    /// The number of servers, up or not.
    pub fn len(&self) -> usize
        ensures { result ≡ length self.now.places.items }
    {
        self.places.len()
    }

    /// The host of a server that is up, borrowed; `None` otherwise.
    pub fn host(&self, server: usize) -> Option<&ReplicaHost<S>>
        ensures { option_map (λ it. it.now) result ≡ host_at self.now.places.items server }
    {
        if server == 0 {
            return None;
        }
        self.places.as_slice().get(server - 1)?.host()
    }

    /// The place of a server, borrowed; `None` if no server has the number.
    pub fn place_mut(&mut self, server: usize) -> Option<&mut Place<S>>
        ensures* writes_back { sem 𝓛 (lends_place S.row S.Storage self.entry server result) }
        ensures value { option_copied_mut result ≡ place_at self.old.places.items server }
    {
        if server == 0 {
            return None;
        }
        self.places.get_mut(server - 1)
    }

    /// Whether a server is up.
    pub fn is_up(&self, server: usize) -> bool
        ensures { result ≡ is_up_at self.now.places.items server }
    {
        matches!(self.host(server), Some(_))
    }

    /// The server that was elected last, or made to lead, and has not crashed since then.
    pub fn leader(&self) -> Option<usize>
        ensures { result ≡ self.now.leader }
    {
        self.leader
    }

    /// Whether a server is up, and it and the servers that are up and whose link to it is not cut
    /// are a quorum. A leader that has none steps down: the caller elects another.
    #[tactic(auto, using(crate::proofs::Quorums::is_quorum, crate::proofs::Quorums::no_quorum))]
    pub fn has_quorum(&self, server: usize) -> bool
        ensures { result ≡ has_quorum self.now.cuts.items self.now.places.items server }
    {
        if !self.is_up(server) {
            return false;
        }
        let heard = count_heard(&self.cuts, server, &self.places);
        self.places.len() - heard < heard
    }

    /// Whether there is a leader that still leads and has a quorum. If not, the caller holds an
    /// election.
    pub fn is_led(&self) -> bool
        ensures { result ≡ is_led self.now.cuts.items self.now.places.items self.now.leader }
    {
        match self.leader {
            Some(leader) => self.has_quorum(leader) && self.is_leading(leader),
            None => false,
        }
    }

    fn is_leading(&self, server: usize) -> bool
        ensures { result ≡ is_leading_host (host_at self.now.places.items server) }
    {
        match self.host(server) {
            Some(host) => !matches!(host.role(), Role::Looking | Role::Following { .. }),
            None => false,
        }
    }

    /// Whether a server serves clients: its host accepts their calls, the leader has a quorum, and
    /// the server's link to the leader is not cut. If not, the caller ends its connections.
    pub fn serves(&self, server: usize) -> bool
        ensures { result ≡ serves self.now.cuts.items self.now.places.items self.now.leader server }
    {
        let Some(leader) = self.leader else {
            return false;
        };
        if !self.has_quorum(leader) || is_cut(&self.cuts, server, leader) {
            return false;
        }
        match self.host(server) {
            Some(host) => host.is_serving(),
            None => false,
        }
    }

    /// What a server does; `Down` for an unknown number.
    pub fn state(&self, server: usize) -> PeerState
        ensures { result ≡ state_of self.now.cuts.items self.now.places.items self.now.leader server }
    {
        if self.serves(server) {
            if self.is_leader(server) {
                return PeerState::Leading;
            }
            return PeerState::Following;
        }
        if self.is_up(server) {
            return PeerState::Looking;
        }
        PeerState::Down
    }

    fn is_leader(&self, server: usize) -> bool
        ensures { result ≡ is_leader self.now.leader server }
    {
        match self.leader {
            Some(leader) => leader == server,
            None => false,
        }
    }

    /// Makes a server lead, and each other that is up follow it. It serves once a quorum has
    /// exchanged mail with it; a lone server exchanges it with itself.
    pub fn lead(&mut self, server: usize) -> Result<(), PeersFault>
        ensures leads { OnOk result (Leads S.may_recover S.boots server self.old self.new) }
        ensures up { OnOk result (is_up_at self.old.places.items server ≡ true) }
        ensures unknown { is_server self.old.places.items server ≡ false → IsErrOf result faults.NoServer × (self.new ≡ self.old) }
        ensures down { is_server self.old.places.items server ≡ true → is_up_at self.old.places.items server ≡ false
            → IsErrOf result faults.Down × (self.new ≡ self.old) }
    {
        self.check_up(server)?;
        self.make_leader(server)
    }

    /// Holds an election: of the servers that hear a quorum, the one with the greatest epoch, zxid
    /// and number leads at once, and the others follow it. `None` if no server hears a quorum.
    #[tactic(auto, using(crate::proofs::Steps::elects_one, crate::proofs::Steps::elects_none))]
    pub fn elect(&mut self) -> Result<Option<usize>, PeersFault>
        ensures { IfOk result (λ it. Elects S.may_recover S.boots it self.old self.new) }
    {
        let votes = self.candidates()?;
        let Some(vote) = winner(&votes) else {
            self.leader = None;
            return Ok(None);
        };
        self.make_leader(vote.server)?;
        Ok(Some(vote.server))
    }

    /// Makes a server lead, and each other that is up follow it.
    #[tactic(auto, using(crate::proofs::Steps::leads))]
    fn make_leader(&mut self, server: usize) -> Result<(), PeersFault>
        ensures { OnOk result (Leads S.may_recover S.boots server self.old self.new) }
    {
        take_roles(self.alloc, &mut self.places, server)?;
        self.leader = Some(server);
        let mail = self.own_mail(server)?;
        self.post(mail)?;
        Ok(())
    }

    /// What the only server of an ensemble sends itself; no messages if there are others.
    fn own_mail(&self, server: usize) -> Result<Messages<Call>, NoMemory>
        ensures { IfOk result (λ mail. mail ≡ own_mail self.now.places.items server) }
    {
        if self.places.len() != 1 {
            return Ok(Messages::new(self.alloc));
        }
        match self.host(server) {
            Some(host) => own_messages(self.alloc, host.role(), &host.vote()),
            None => Ok(Messages::new(self.alloc)),
        }
    }

    /// Stops a server. What it has not stored is lost.
    #[tactic(auto, using(crate::proofs::Steps::crashes))]
    pub fn crash(&mut self, server: usize) -> Result<(), PeersFault>
        ensures crashes { OnOk result (Crashes S.may_recover S.boots server self.old self.new) }
        ensures unknown { is_server self.old.places.items server ≡ false → IsErrOf result faults.NoServer }
        ensures down { is_server self.old.places.items server ≡ true → is_up_at self.old.places.items server ≡ false → IsErrOf result faults.Down }
        ensures unchanged { OnErr result (self.new ≡ self.old) }
    {
        self.check_up(server)?;
        collect(&mut self.places, server, &mut self.recorded);
        self.recorded.crash(server);
        crash(&mut self.places, server);
        self.leader = leader_without(self.leader, server);
        Ok(())
    }

    /// Starts a server that is down on its store. It follows the leader.
    #[tactic(auto, using(crate::proofs::Steps::restarts))]
    pub fn restart(&mut self, server: usize) -> Result<(), PeersFault>
        ensures restarts { OnOk result (RestartsAt S.may_recover S.boots S.is_clean server self.old self.new) }
        ensures unknown { is_server self.old.places.items server ≡ false → IsErrOf result faults.NoServer × (self.new ≡ self.old) }
        ensures up { is_server self.old.places.items server ≡ true → is_up_at self.old.places.items server ≡ true
            → IsErrOf result faults.NotDown × (self.new ≡ self.old) }
    {
        if !self.is_server(server) {
            return Err(PeersFault::NoServer);
        }
        if self.is_up(server) {
            return Err(PeersFault::NotDown);
        }
        restart(self.alloc, &mut self.places, server)?;
        self.record_restart(server);
        self.follow_leader(server)
    }

    /// Records that a server has started again; without a record, its host records nothing.
    fn record_restart(&mut self, server: usize)
        requires { is_server self.old.places.items server ≡ true }
        ensures { self.new ≡ self.old }
    {
        if self.recorded.is_on() {
            self.recorded.restart(server);
        } else {
            end_record(&mut self.places, server);
        }
    }

    /// Makes a server that is up follow the leader, if there is one.
    fn follow_leader(&mut self, server: usize) -> Result<(), PeersFault>
        requires { is_server self.old.places.items server ≡ true }
        ensures follows { OnOk result (FollowsIf S.may_recover S.boots self.old.leader server self.old.places.items self.new.places.items) }
        ensures leader { self.new.leader ≡ self.old.leader }
        ensures around { SameAround self.old self.new }
    {
        match self.leader {
            Some(leader) => take_role(self.alloc, &mut self.places, server, leader),
            None => Ok(()),
        }
    }

    /// Cuts the link between two servers: messages over it are lost.
    pub fn cut(&mut self, one: usize, other: usize) -> Result<(), PeersFault>
        ensures cut { OnOk result (self.new.cuts.items ≡ with_cut one other self.old.cuts.items) }
        ensures rest { (self.new.places ≡ self.old.places) × ((self.new.leader ≡ self.old.leader)
            × ((self.new.posted ≡ self.old.posted) × (self.new.arriving ≡ self.old.arriving))) }
        ensures unknown { is_link self.old.places.items one other ≡ false → IsErrOf result faults.NoServer }
        ensures known { OnOk result (is_link self.old.places.items one other ≡ true) }
        ensures unchanged { OnErr result (self.new.cuts.items ≡ self.old.cuts.items) }
    {
        if !self.is_server(one) || !self.is_server(other) || one == other {
            return Err(PeersFault::NoServer);
        }
        if is_cut(&self.cuts, one, other) {
            return Ok(());
        }
        if self.cuts.push(Cut { one, other }).is_err() {
            return Err(PeersFault::NoMemory);
        }
        Ok(())
    }

    /// Makes all links healthy. A server whose link to the leader was cut has missed messages, and
    /// follows it again.
    #[tactic(auto, using(crate::proofs::Steps::heals))]
    pub fn heal(&mut self) -> Result<(), PeersFault>
        ensures { OnOk result (Heals S.may_recover S.boots self.old self.new) }
    {
        self.rejoin_all()?;
        self.cuts.clear();
        Ok(())
    }

    /// Makes each server whose link to the leader is cut follow it again.
    fn rejoin_all(&mut self) -> Result<(), PeersFault>
        ensures rejoin { OnOk result (Rejoin S.may_recover S.boots self.old.cuts.items self.old.leader self.old.places.items self.new.places.items) }
        ensures leader { self.new.leader ≡ self.old.leader }
        ensures around { SameAround self.old self.new }
    {
        match self.leader {
            Some(leader) => rejoin(self.alloc, &mut self.places, &self.cuts, leader),
            None => Ok(()),
        }
    }

    /// Begins a round: the mail that was posted arrives. Returns whether there is any. What arrived
    /// in the round before and was not received is lost.
    pub fn next_round(&mut self) -> bool
        ensures mail { result ≡ nat_lt 0 (length self.old.posted) }
        ensures arrives { self.new.arriving ≡ self.old.posted }
        ensures posted { self.new.posted ≡ [] }
        ensures rest { (self.new.places ≡ self.old.places) × ((self.new.leader ≡ self.old.leader) × (self.new.cuts ≡ self.old.cuts)) }
    {
        let posted = replace(&mut self.posted, Messages::new(self.alloc));
        self.arriving = posted;
        self.recorded.next_round();
        self.arriving.len() > 0
    }

    /// Whether mail was posted for the next round.
    pub fn has_mail(&self) -> bool
        ensures { result ≡ nat_lt 0 (length self.now.posted) }
    {
        self.posted.len() > 0
    }

    /// A server that is up receives its mail of this round: the messages that are addressed to it,
    /// over links that are not cut.
    #[tactic(auto, using(crate::proofs::Steps::receives, crate::proofs::Steps::fails))]
    pub fn receive(&mut self, server: usize) -> Result<(), PeersFault>
        ensures receives { OnOk result (Receives S.may_recover S.boots server self.old self.new) }
        ensures failed { is_server self.old.places.items server ≡ true → OnErr result (FailsAt server self.old self.new) }
        ensures unknown { is_server self.old.places.items server ≡ false → IsErrOf result faults.NoServer }
    {
        if !self.is_server(server) {
            return Err(PeersFault::NoServer);
        }
        receive(
            self.alloc,
            &mut self.places,
            &self.cuts,
            server,
            &self.arriving,
            &self.recorded,
        )
    }

    /// Posts what a host has released: mail of the next round.
    pub fn post(&mut self, messages: Messages<Call>) -> Result<(), NoMemory>
        ensures posted { OnOk result (self.new.posted ≡ self.old.posted ++ messages) }
        ensures unchanged { OnErr result (self.new.posted ≡ self.old.posted) }
        ensures rest { (self.new.places ≡ self.old.places) × ((self.new.leader ≡ self.old.leader)
            × ((self.new.cuts ≡ self.old.cuts) × (self.new.arriving ≡ self.old.arriving))) }
    {
        self.collect_all(messages.len());
        self.posted.append(messages)
    }

    /// Records what the servers have stored. The last of their messages, a number of them, are
    /// posted.
    fn collect_all(&mut self, posted: usize)
        ensures { self.new ≡ self.old }
    {
        let before = self.recorded.sent();
        for index in 0..self.places.len() {
            collect(&mut self.places, index + 1, &mut self.recorded);
        }
        self.recorded.post(before, posted);
    }

    /// Takes the events that the servers' inputs have been since the last call: a run of these
    /// events, from new servers on, has the same histories and delivered entries at each server that
    /// is up, once it has released what it has.
    pub fn take_events(&mut self) -> Vec<Event>
        ensures { self.new ≡ self.old }
    {
        self.recorded.take_events()
    }

    /// Why the events are recorded no more, if they are not; those recorded before can be taken.
    pub fn record_fault(&self) -> Option<RecordFault> {
        self.recorded.fault()
    }

    /// Records no more events, and drops those that were not taken.
    pub fn end_record(&mut self)
        ensures { self.new ≡ self.old }
    {
        self.recorded.end();
        let events = self.recorded.take_events();
        drop(events);
        for index in 0..self.places.len() {
            end_record(&mut self.places, index + 1);
        }
    }

    /// The votes of the servers that hear a quorum.
    #[tactic(auto, using(crate::proofs::Votes::vote_more, crate::proofs::Votes::none_more))]
    fn candidates(&self) -> Result<Vec<Vote>, NoMemory>
        ensures { IfOk result (λ votes. votes.items ≡ candidates self.now.cuts.items self.now.places.items) }
    {
        let mut votes = Vec::new(self.alloc);
        for index in 0..self.places.len() {
            if let Some(vote) = self.candidate(index + 1) {
                votes.push(vote)?;
            }
        }
        Ok(votes)
    }

    /// The vote of a server that hears a quorum.
    #[tactic(auto, using(crate::proofs::Votes::no_quorum, crate::proofs::Votes::no_host, crate::proofs::Votes::votes))]
    fn candidate(&self, server: usize) -> Option<Vote>
        ensures { listed result ≡ candidate self.now.cuts.items self.now.places.items server }
    {
        if !self.has_quorum(server) {
            return None;
        }
        let vote = self.host(server)?.vote();
        Some(Vote { server, ..vote })
    }

    fn is_server(&self, server: usize) -> bool
        ensures { result ≡ is_server self.now.places.items server }
    {
        0 < server && server <= self.places.len()
    }

    fn check_up(&self, server: usize) -> Result<(), PeersFault>
        ensures up { OnOk result ((is_server self.now.places.items server ≡ true) × (is_up_at self.now.places.items server ≡ true)) }
        ensures unknown { is_server self.now.places.items server ≡ false → IsErrOf result faults.NoServer }
        ensures down { is_server self.now.places.items server ≡ true → is_up_at self.now.places.items server ≡ false → IsErrOf result faults.Down }
    {
        if !self.is_server(server) {
            return Err(PeersFault::NoServer);
        }
        if !self.is_up(server) {
            return Err(PeersFault::Down);
        }
        Ok(())
    }
}

ghost use Rattle.std.specs.Prelude.{◌≡◌, ◌<◌, ◌≤◌, ◌+◌, ◌++◌, ◌∷◌, [], length, IfOk, OnOk};
ghost use Rattle.zk_peers.specs.Peers.{leader_without, StartAll, StartsNext};

/// The leader after a server has crashed.
fn leader_without(leader: Option<usize>, server: usize) -> Option<usize>
    ensures { result ≡ leader_without leader server }
{
    match leader {
        Some(leader) if leader == server => None,
        _ => leader,
    }
}

/// Starts a host on each store.
#[tactic(auto, using(crate::proofs::Starting::first))]
fn start_all<S: Storage>(alloc: Global, storages: Vec<S>) -> Result<Vec<Place<S>>, PeersFault>
    requires { length storages.items ≤ 15 }
    ensures { IfOk result (λ places. StartAll S.is_clean S.may_recover S.boots (length storages.items) 1 storages.items places.items) }
{
    let servers = storages.len();
    let mut places = Vec::new(alloc);
    for storage in storages {
        start_next(alloc, servers, &mut places, storage)?;
    }
    Ok(places)
}

/// Starts a host on the next server's store.
fn start_next<S: Storage>(
    alloc: Global,
    servers: usize,
    places: &mut Vec<Place<S>>,
    storage: S,
) -> Result<(), PeersFault>
    requires { length places.old.items < 255 }
    ensures { OnOk result (StartsNext S.is_clean S.may_recover S.boots servers storage places.old.items places.new.items) }
{
    let me = next_number(places);
    let host = start(alloc, servers, me, storage)?;
    push(places, Place::Up(host))?;
    Ok(())
}

/// The number of the next server.
fn next_number<S: Storage>(places: &Vec<Place<S>>) -> u8
    requires { length places.now.items < 255 }
    ensures { result ≡ length places.now.items + 1 }
{
    places.len() as u8 + 1
}

fn push<S: Storage>(places: &mut Vec<Place<S>>, place: Place<S>) -> Result<(), NoMemory>
    ensures { OnOk result (places.new.items ≡ places.old.items ++ place ∷ []) }
{
    places.push(place)?;
    Ok(())
}
