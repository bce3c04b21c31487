//! The place of a server.

use crate::cut::Cut;
use crate::fault::PeersFault;
use crate::mail::receive_all;
use std::alloc::Global;
use zab_epoch::{Majority, Messages};
use zab_host::{HostFault, Storage, StoreFault};
use zk_host::{Record, ReplicaHost};
use zk_requests::Call;

/// A server of the ensemble.
pub enum Place<S: Storage> {
    /// It runs.
    Up(ReplicaHost<S>),
    /// It has crashed, and has its store alone.
    Down(S),
    /// Its store has failed at a start. It does not run again.
    Failed,
}

impl<S: Storage + Drop> Drop for Place<S> {
    fn drop(self) {
        match self {
            Place::Up(_) => (),
            Place::Down(_) => (),
            Place::Failed => (),
        }
    }
}

impl<S: Storage> Place<S> {
    ghost use Rattle.std.specs.Prelude.{◌≡◌, true, IfOk, OnErr, OnOk};
    ghost use Rattle.std.specs.Option.{option_map};
    ghost use Rattle.zk_peers.specs.Hosts.{setting_for};
    ghost use Rattle.zk_peers.specs.Links.{mail_for};
    ghost use Rattle.zk_peers.specs.Places.{host_in, is_up, after_crash, Restarts, TakesRole, HearsAt};

    /// Whether the server runs.
    pub fn is_up(&self) -> bool
        ensures { result ≡ is_up self.now }
    {
        matches!(self, Place::Up(_))
    }

    /// The server's host, borrowed; `None` if it is not up.
    pub fn host(&self) -> Option<&ReplicaHost<S>>
        ensures { option_map (λ it. it.now) result ≡ host_in self.now }
    {
        match self {
            Place::Up(host) => Some(host),
            _ => None,
        }
    }

    /// The place after a crash.
    pub(crate) fn crash(self) -> Place<S>
        ensures { result ≡ after_crash self }
    {
        match self {
            Place::Up(host) => Place::Down(host.into_storage()),
            Place::Down(storage) => Place::Down(storage),
            Place::Failed => Place::Failed,
        }
    }

    /// Starts a server that is down.
    pub(crate) fn restart(
        self,
        alloc: Global,
        servers: usize,
        me: u8,
    ) -> Result<Place<S>, PeersFault>
        ensures { IfOk result (Restarts S.is_clean S.may_recover S.boots servers me self) }
    {
        match self {
            Place::Down(storage) => Ok(Place::Up(start(alloc, servers, me, storage)?)),
            _ => Err(PeersFault::NotDown),
        }
    }

    /// Makes a server that is up lead, or follow the leader.
    pub(crate) fn take_role(
        &mut self,
        alloc: Global,
        quorums: &Majority,
        server: usize,
        leader: usize,
    ) -> Result<(), PeersFault>
        ensures { OnOk result (TakesRole S.may_recover S.boots (setting_for quorums.now.servers) server leader self.old self.new) }
    {
        match self {
            Place::Up(host) => Ok(take_role(alloc, quorums, host, server, leader)?),
            _ => Ok(()),
        }
    }

    /// Gives a server that is up those of these messages that arrive at it.
    pub(crate) fn receive(
        &mut self,
        alloc: Global,
        quorums: &Majority,
        cuts: &[Cut],
        server: usize,
        mail: &Messages<Call>,
        recorded: &Record,
    ) -> Result<(), PeersFault>
        ensures hears { OnOk result (HearsAt S.may_recover S.boots (setting_for quorums.now.servers) (mail_for cuts.now server mail.now) self.old self.new) }
        ensures failed { OnErr result (is_up self.new ≡ true) }
    {
        match self {
            Place::Up(host) => { receive_all(alloc, quorums, host, cuts, server, mail, recorded) }
            _ => Ok(()),
        }
    }

    /// Moves what the server has stored to the record.
    pub(crate) fn collect(&mut self, recorded: &mut Record)
        ensures { self.new ≡ self.old }
    {
        if let Place::Up(host) = self {
            let steps = host.take_record();
            recorded.add(steps, host.record_fault());
        }
    }

    /// Records no more of the server.
    pub(crate) fn end_record(&mut self)
        ensures { self.new ≡ self.old }
    {
        if let Place::Up(host) = self {
            host.end_record();
        }
    }
}

ghost use Rattle.std.specs.Prelude.{IfOk, OnOk, Ok};
ghost use Rattle.zk_peers.specs.Hosts.{setting_for, HasStarted, Takes, role_input};

/// Starts a host on its store. It records what it does.
#[tactic(auto, using(crate::proofs::Starting::started))]
pub(crate) fn start<S: Storage>(
    alloc: Global,
    servers: usize,
    me: u8,
    storage: S,
) -> Result<ReplicaHost<S>, StoreFault>
    ensures { IfOk result (HasStarted S.is_clean S.may_recover S.boots servers me storage) }
{
    let mut host = ReplicaHost::start(alloc, servers, me, storage)?;
    host.begin_record();
    Ok(host)
}

/// Makes a host lead, or follow the leader.
#[tactic(auto, using(crate::proofs::Taking::taken))]
fn take_role<S: Storage>(
    alloc: Global,
    quorums: &Majority,
    host: &mut ReplicaHost<S>,
    server: usize,
    leader: usize,
) -> Result<(), HostFault>
    ensures { OnOk result (Takes S.may_recover S.boots (setting_for quorums.now.servers) (role_input server leader) host.old host.new (Ok tt)) }
{
    if server == leader {
        host.lead(alloc, quorums)
    } else {
        host.follow(alloc, quorums, leader)
    }
}
