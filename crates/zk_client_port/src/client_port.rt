ghost use Rattle.std.specs.Prelude.{◌≡◌, ◌<◌, ◌⊎◌, [], length, map, nat_eq, if◌then◌else◌, IfOk, OnOk, OnErr};
ghost use Rattle.std.specs.List.{list_any};
ghost use Rattle.std.specs.Ordering.{int_eq};
ghost use Rattle.zk_client_port.specs.Ports.{all_detached, closed_if, cut_off_if, is_among, is_selected, numbers_over, without_over, without_requests};
ghost use Rattle.zk_client_port.specs.declared.client_port.Selection.TheVariants as selections;
ghost use Rattle.zk_client_port.specs.Asking.{FailsAsking, HasAsked};
ghost use Rattle.zk_client_port.specs.Serving.{Breaks, KeepsTree};
ghost use Rattle.zk_client_port.specs.Turns.{clients, cut_off_with, server, synced, written, FailsAtPlace, FailsToServe, ServesFirst, ServesPlace, TakesSyncs, Turns, WritesReleased};
ghost use Rattle.zk_client_port.specs.Sessions.{after_ends};
ghost use Rattle.zk_hub.specs.Deliveries.{left_after, outputs_of};
ghost use Rattle.zk_model.specs.Ensembles.{profile_by};
ghost use Rattle.zab_epoch.specs.declared.stable.Stable.{Stable};
ghost use Rattle.zab_host.specs.Durability.{IsPartialStore};
ghost use Rattle.zab_host.specs.Hosts.{IsStored};

use crate::admission::Admission;
use crate::execution::Moment;
use crate::expected::Expected;
use crate::fault::ServeFault;
use crate::outputs::{PortOutput, write_outputs};
use crate::turn::serve;
use std::alloc::Global;
use std::mem::replace;
use zab_broadcast::CaughtSyncs;
use zab_epoch::{Messages, Quorums};
use zab_host::Storage;
use zk_connections::{ClientSessions, Connection};
use zk_host::{ReleaseFault, ReplicaHost};
use zk_hub::{Hub, News, Outcome, release};
use zk_path::NoMemory;
use zk_requests::Call;
use zk_watch::Fired;

/// A server's connections, and their outstanding requests.
pub struct ClientPort {
    pub connections: Vec<Connection>,
    hub: Hub<Expected, Outcome>,
}

impl Drop for ClientPort {
    fn drop(self) {
        let ClientPort {
            connections: _,
            hub: _,
        } = self;
    }
}

/// Connections of a server.
#[derive(Clone, Copy, Debug, PartialEq, Eq)]
pub enum Selection {
    /// The one with a number, if it is one of the server's.
    Number(u64),
    /// Those that have a session, or have asked for one.
    Served,
    All,
}

impl Selection {
    fn has(&self, connection: &Connection) -> bool
        ensures { result ≡ is_selected self.now connection.now }
    {
        match self {
            Selection::Number(number) => connection.number() == *number,
            Selection::Served => !connection.is_new(),
            Selection::All => true,
        }
    }
}

/// What a turn of a server gives.
pub struct Turned {
    /// For the other servers.
    pub messages: Messages<Call>,
    /// The connections, maybe of other servers, whose session another connection has got.
    pub displaced: Vec<u64>,
    /// The sessions that have ended.
    pub closed: Vec<i64>,
}

impl Drop for Turned {
    fn drop(self) {
        let Turned {
            messages: _,
            displaced: _,
            closed: _,
        } = self;
    }
}

impl Turned {
    /// The messages, without the rest.
    pub fn into_messages(self, alloc: Global) -> Messages<Call>
        ensures { result ≡ self.messages }
    {
        let mut turned = self;
        replace(&mut turned.messages, Messages::new(alloc))
    }
}

impl ClientPort {
    /// Allocates no memory.
    pub fn new(alloc: Global) -> ClientPort
        ensures connections { result.connections.items ≡ [] }
        ensures hub { result.hub ≡ [] }
    {
        ClientPort {
            connections: Vec::new(alloc),
            hub: Hub::new(alloc),
        }
    }

    /// The number of outstanding requests.
    pub fn outstanding(&self) -> usize
        ensures { result ≡ length self.now.hub }
    {
        self.hub.len()
    }

    /// A turn of the server: releases what its host has, and then takes what the connections have
    /// sent.
    ///
    /// After an error, the caller closes all connections of the server, and stops it.
    pub fn turn<S: Storage, Q: Quorums>(
        &mut self,
        alloc: Global,
        host: &mut ReplicaHost<S>,
        quorums: &Q,
        admission: &mut Admission,
        moment: Moment,
    ) -> Result<Turned, ReleaseFault>
        ensures messages { IfOk result (λ it. it.messages ≡ host.old.host.outbox) }
        ensures turns { IfOk result (λ it. Turns (profile_by (Q.passes quorums.now)).setting moment
            (server host.old self.old.hub self.old.connections.items admission.old)
            (server host.new self.new.hub self.new.connections.items admission.new) it.displaced.items it.closed.items) }
    {
        let turned = self.release(alloc, host, admission, moment.now)?;
        match self.serve_all(alloc, host, quorums, admission, moment) {
            Ok(()) => Ok(turned),
            Err(NoMemory) => Err(ReleaseFault::NoMemory),
        }
    }

    /// Releases what the server's host has: stores it, and writes the events and replies of the newly
    /// delivered entries, and of completed syncs, to the connections. What these have sent is not
    /// taken.
    ///
    /// After an error, the caller closes all connections of the server, and stops it.
    pub fn release<S: Storage>(
        &mut self,
        alloc: Global,
        host: &mut ReplicaHost<S>,
        admission: &mut Admission,
        now: i64,
    ) -> Result<Turned, ReleaseFault>
        ensures messages { IfOk result (λ it. it.messages ≡ host.old.host.outbox) }
        ensures stored { OnOk result (IsStored S.may_recover host.new.host) }
        ensures writes { IfOk result (λ it. WritesReleased now
            (server host.old self.old.hub self.old.connections.items admission.old)
            (server host.new self.new.hub self.new.connections.items admission.new) it.displaced.items it.closed.items) }
        ensures tags { host.new.tags ≡ host.old.tags }
        ensures crash { (found : Stable) → S.may_recover host.new.host.storage found
            → S.may_recover host.old.host.storage found
            ⊎ IsPartialStore (S.may_recover host.old.host.storage) host.old.host.state.peer.stable found }
        ensures boots { S.boots host.new.host.storage ≡ S.boots host.old.host.storage }
    {
        // The release's replies are written before the later events of it: their headers go no
        // further than what has been written before.
        let before = host.last();
        let mut released = release(alloc, host, &mut self.hub)?;
        let outputs = replace(&mut released.outputs, Vec::new(alloc));
        let closed = replace(&mut released.closed, Vec::new(alloc));
        let messages = replace(&mut released.messages, Messages::new(alloc));
        let mut displaced = Vec::new(alloc);
        let last = host.last();
        self.write(alloc, admission, before, now, outputs, &mut displaced)?;
        let Ok(synced) = self.synced(alloc, host) else {
            return Err(ReleaseFault::NoMemory);
        };
        self.write(alloc, admission, last, now, synced, &mut displaced)?;
        self.end_sessions(admission, &closed);
        Ok(Turned {
            messages,
            displaced,
            closed,
        })
    }

    /// Writes outputs, and gives sessions to the connections that have got them. Appends the
    /// connections that have lost theirs by it.
    fn write(
        &mut self,
        alloc: Global,
        admission: &mut Admission,
        last: i64,
        now: i64,
        outputs: Vec<PortOutput>,
        displaced: &mut Vec<u64>,
    ) -> Result<(), ReleaseFault>
        ensures written { OnOk result (clients self.new.connections.items admission.new displaced.new.items
            ≡ written last now outputs.items (clients self.old.connections.items admission.old displaced.old.items)) }
        ensures hub { self.new.hub ≡ self.old.hub }
    {
        match write_outputs(alloc, admission, last, &mut self.connections, outputs) {
            Ok(gained) => match admission.attach_all(&gained, now, displaced) {
                Ok(()) => Ok(()),
                Err(NoMemory) => Err(ReleaseFault::NoMemory),
            },
            Err(_) => Err(ReleaseFault::NoMemory),
        }
    }

    /// The outputs of the syncs that the server has completed.
    fn synced<S: Storage>(
        &mut self,
        alloc: Global,
        host: &mut ReplicaHost<S>,
    ) -> Result<Vec<PortOutput>, NoMemory>
        requires { IsStored S.may_recover host.old.host }
        ensures outputs { IfOk result (λ it. it.items ≡ outputs_of (map synced host.old.host.state.caught) self.old.hub) }
        ensures hub { OnOk result (self.new.hub ≡ left_after (map synced host.old.host.state.caught) self.old.hub) }
        ensures syncs { TakesSyncs host.old host.new }
        ensures connections { self.new.connections ≡ self.old.connections }
    {
        let caught = host.take_syncs(alloc);
        let news = news_of(alloc, &caught)?;
        self.hub.deliver(alloc, news)
    }

    /// Ends sessions, and closes their connections.
    fn end_sessions(&mut self, admission: &mut Admission, closed: &[i64])
        ensures connections { self.new.connections.items ≡ map (closed_if closed.now) self.old.connections.items }
        ensures sessions { admission.new ≡ record admission.old { sessions = after_ends closed.now admission.old.sessions } }
        ensures hub { self.new.hub ≡ self.old.hub }
    {
        close_ended(&mut self.connections, closed);
        admission.end_all(closed);
    }

    /// Takes what the connections have sent, in the order of the connections, and executes each frame
    /// once. A connection for which an allocation fails is lost; an error is an allocation of the host
    /// that failed, and the caller stops the server.
    #[tactic(auto, using(crate::proofs::Serving::none_served, crate::proofs::Serving::one_more))]
    pub fn serve_all<S: Storage, Q: Quorums>(
        &mut self,
        alloc: Global,
        host: &mut ReplicaHost<S>,
        quorums: &Q,
        admission: &mut Admission,
        moment: Moment,
    ) -> Result<(), NoMemory>
        requires { host.old.tree.news ≡ [] }
        ensures serves { OnOk result (ServesFirst (profile_by (Q.passes quorums.now)).setting moment (length self.old.connections.items)
            (server host.old self.old.hub self.old.connections.items admission.old)
            (server host.new self.new.hub self.new.connections.items admission.new)) }
        ensures asks { OnOk result (HasAsked (profile_by (Q.passes quorums.now)).setting host.old host.new) }
        ensures kept { OnOk result (KeepsTree host.old host.new) }
        ensures breaks { OnErr result (FailsToServe (profile_by (Q.passes quorums.now)).setting moment
            (server host.old self.old.hub self.old.connections.items admission.old) host.new) }
        ensures fails { OnErr result (FailsAsking (profile_by (Q.passes quorums.now)).setting host.old host.new) }
    {
        'connections: for index in 0..self.connections.len() {
            self.serve_at(alloc, host, quorums, admission, moment, index)?;
        }
        Ok(())
    }

    /// Takes what the connection at a place has sent.
    #[tactic(auto, using(crate::proofs::Serving::executed, crate::proofs::Serving::lost_at))]
    fn serve_at<S: Storage, Q: Quorums>(
        &mut self,
        alloc: Global,
        host: &mut ReplicaHost<S>,
        quorums: &Q,
        admission: &mut Admission,
        moment: Moment,
        index: usize,
    ) -> Result<(), NoMemory>
        requires written { host.old.tree.news ≡ [] }
        requires within { index < length self.old.connections.items }
        ensures serves { OnOk result (ServesPlace (profile_by (Q.passes quorums.now)).setting moment index
            (server host.old self.old.hub self.old.connections.items admission.old)
            (server host.new self.new.hub self.new.connections.items admission.new)) }
        ensures breaks { OnErr result (FailsAtPlace (profile_by (Q.passes quorums.now)).setting moment index
            (server host.old self.old.hub self.old.connections.items admission.old) host.new) }
        ensures kept { KeepsTree host.old host.new }
        ensures count { length self.new.connections.items ≡ length self.old.connections.items }
    {
        let connection = &mut self.connections[index];
        let hub = &mut self.hub;
        match serve(alloc, host, quorums, hub, connection, admission, moment) {
            Ok(()) => Ok(()),
            Err(ServeFault::Connection) => {
                connection.cut_off();
                self.cut_off_if_lost();
                Ok(())
            }
            Err(ServeFault::Host) => Err(NoMemory),
        }
    }

    /// Cuts off all connections if there are no outstanding requests: a failed allocation may have
    /// lost those of all, whose replies would never come.
    fn cut_off_if_lost(&mut self)
        ensures connections { self.new.connections.items ≡ cut_off_with self.old.hub self.old.connections.items }
        ensures hub { self.new.hub ≡ self.old.hub }
    {
        if self.hub.len() == 0 {
            self.cut_off(Selection::All);
        }
    }

    /// Removes the connections that are over with their outstanding requests, and takes them from
    /// their sessions. Returns their numbers. After an allocation failure, nothing has changed.
    pub fn remove_over(
        &mut self,
        alloc: Global,
        admission: &mut Admission,
    ) -> Result<Vec<u64>, NoMemory>
        ensures numbers { IfOk result (λ over. over.items ≡ numbers_over self.old.connections.items) }
        ensures connections { OnOk result (self.new.connections.items ≡ without_over self.old.connections.items) }
        ensures hub { OnOk result (self.new.hub ≡ without_requests (numbers_over self.old.connections.items) self.old.hub) }
        ensures sessions { OnOk result (admission.new ≡ record admission.old { sessions = all_detached (numbers_over self.old.connections.items) admission.old.sessions }) }
        ensures unchanged { OnErr result ((self.new ≡ self.old) × (admission.new ≡ admission.old)) }
    {
        let over = numbers_over(alloc, &self.connections)?;
        forget_all(&mut self.hub, &mut admission.sessions, &over);
        retain_open(&mut self.connections);
        Ok(over)
    }

    /// Cuts off connections.
    pub fn cut_off(&mut self, selection: Selection)
        ensures connections { self.new.connections.items ≡ map (cut_off_if selection) self.old.connections.items }
        ensures hub { self.new.hub ≡ self.old.hub }
    {
        cut_off_in(&mut self.connections, selection);
    }
}

fn cut_off_in(connections: &mut Vec<Connection>, selection: Selection)
    ensures { connections.new.items ≡ map (cut_off_if selection) connections.old.items }
{
    for index in 0..connections.len() {
        cut_off_if(&mut connections[index], selection);
    }
}

fn cut_off_if(connection: &mut Connection, selection: Selection)
    ensures { connection.new ≡ cut_off_if selection connection.old }
{
    if selection.has(connection) {
        connection.cut_off();
    }
}

/// Ends the connections of sessions that have ended.
#[tactic(auto, using(crate::proofs::Idle::closed_none))]
fn close_ended(connections: &mut Vec<Connection>, ended: &[i64])
    ensures { connections.new.items ≡ map (closed_if ended.now) connections.old.items }
{
    if ended.is_empty() {
        return;
    }
    for index in 0..connections.len() {
        close_if(&mut connections[index], ended);
    }
}

fn close_if(connection: &mut Connection, ended: &[i64])
    ensures { connection.new ≡ closed_if ended.now connection.old }
{
    if is_among(ended, connection.session()) {
        connection.close();
    }
}

fn is_among(ended: &[i64], session: Option<i64>) -> bool
    ensures { result ≡ is_among ended.now session }
{
    match session {
        Some(session) => has(ended, session),
        None => false,
    }
}

fn has(ended: &[i64], session: i64) -> bool
    ensures { result ≡ list_any (λ it. int_eq it session) ended.now }
{
    ended.iter().any(|it| *it == session)
}

/// Drops the outstanding requests of connections, and takes them from their sessions.
fn forget_all(hub: &mut Hub<Expected, Outcome>, sessions: &mut ClientSessions, numbers: &[u64])
    ensures hub { hub.new ≡ without_requests numbers.now hub.old }
    ensures sessions { sessions.new ≡ all_detached numbers.now sessions.old }
{
    for number in numbers {
        hub.close(*number);
        sessions.detach(*number);
    }
}

fn retain_open(connections: &mut Vec<Connection>)
    ensures { connections.new.items ≡ without_over connections.old.items }
{
    connections.retain(|it| !it.is_over());
}

fn numbers_over(alloc: Global, connections: &[Connection]) -> Result<Vec<u64>, NoMemory>
    ensures { IfOk result (λ it. it.items ≡ numbers_over connections.now) }
{
    let mut over = Vec::new(alloc);
    for connection in connections {
        if connection.is_over() {
            over.push(connection.number())?;
        }
    }
    Ok(over)
}

/// Completed syncs, as a hub takes them.
fn news_of(alloc: Global, caught: &CaughtSyncs) -> Result<Vec<News<Fired, Outcome>>, NoMemory>
    ensures { IfOk result (λ it. it.items ≡ map synced caught.now) }
{
    let mut news = Vec::new(alloc);
    for one in caught.as_slice() {
        news.push(News::Outcome {
            tag: one.tag,
            outcome: Outcome::Synced,
        })?;
    }
    Ok(news)
}
