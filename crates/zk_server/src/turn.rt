//! A turn of a server that runs.

ghost use Rattle.std.specs.Prelude.{◌≡◌, ◌⊎◌, [], IfOk, OnOk, OnErr};
ghost use Rattle.zab_epoch.specs.declared.stable.Stable.{Stable};
ghost use Rattle.zab_host.specs.Durability.{IsPartialStore};
ghost use Rattle.zab_host.specs.Hosts.{IsStored};
ghost use Rattle.zk_server.specs.Deeds.{FailsAt, FailsToAct, HearsAll};
ghost use Rattle.zk_server.specs.Elections.{after_arrivals};
ghost use Rattle.zk_server.specs.Mail.{mail_in, mail_of, mail_for};
ghost use Rattle.zk_server.specs.Sites.{IsReady};
ghost use Rattle.zk_server.specs.Turns.{Decides, HasFailed, HasTurned, Ran};

use crate::choices::act;
use crate::election::Election;
use crate::mail::receive_all;
use crate::member::Member;
use crate::site::Site;
use crate::stopped::Stopped;
use std::alloc::Global;
use zab_epoch::{Majority, Messages};
use zab_host::Storage;
use zk_host::{ReleaseFault, ReplicaHost};
use zk_model::Preparer;
use zk_path::NoMemory;
use zk_peer_links::Arrival;
use zk_requests::Call;
use zk_server_laws::stores_keep_first_inputs;

/// A turn of a host. If it fails, the host stops, and leaves its store.
#[tactic(auto, using(crate::proofs::Settling::failed_at))]
pub(crate) fn run<S: Storage>(
    alloc: Global,
    me: Member,
    election: &mut Election,
    host: ReplicaHost<S>,
    arrivals: &[Arrival],
) -> (Site<S>, Result<Messages<Call>, Stopped>)
    requires { IsReady S.may_recover me host }
    ensures { Ran S.may_recover S.boots me
        arrivals.now election.old host election.new result.0 result.1 }
{
    let mut host = host;
    match step(alloc, me, election, &mut host, arrivals) {
        Ok(messages) => (Site::Runs(host), Ok(messages)),
        Err(why) => (Site::Stopped(Some(host.into_storage())), Err(why)),
    }
}

#[tactic(auto, using(crate::proofs::Turning::turned, crate::proofs::Turning::hearing_fails, crate::proofs::Turning::acting_fails, crate::proofs::Turning::storing_fails))]
fn step<S: Storage>(
    alloc: Global,
    me: Member,
    election: &mut Election,
    host: &mut ReplicaHost<S>,
    arrivals: &[Arrival],
) -> Result<Messages<Call>, Stopped>
    requires { IsReady S.may_recover me host.old }
    ensures turns { IfOk result (HasTurned S.may_recover S.boots me arrivals.now election.old
        host.old election.new host.new) }
    ensures stops { OnErr result (HasFailed S.may_recover S.boots me arrivals.now host.old
        host.new.host.storage) }
{
    let quorums = Majority {
        servers: me.servers,
    };
    stores_keep_first_inputs::<Preparer, Majority, S>(&quorums);
    hear(alloc, me, election, host, arrivals)?;
    decide(alloc, me, election, host)?;
    release(alloc, host)
}

/// Takes notice of all arrivals, and receives their messages.
#[tactic(auto, using(crate::proofs::Turning::no_memory_to_hear))]
pub fn hear<S: Storage>(
    alloc: Global,
    me: Member,
    election: &mut Election,
    host: &mut ReplicaHost<S>,
    arrivals: &[Arrival],
) -> Result<(), Stopped>
    ensures notes { OnOk result (election.new ≡ after_arrivals arrivals.now election.old) }
    ensures hears { OnOk result (HearsAll S.may_recover S.boots me (mail_for me arrivals.now)
        host.old host.new) }
    ensures fails { OnErr result (FailsAt S.may_recover S.boots me (mail_for me arrivals.now)
        host.old host.new) }
{
    note_all(election, arrivals)?;
    receive_mail(alloc, me, host, arrivals)
}

#[tactic(auto, using(crate::proofs::Turning::notes_whole))]
fn note_all(election: &mut Election, arrivals: &[Arrival]) -> Result<(), NoMemory>
    ensures { OnOk result (election.new ≡ after_arrivals arrivals.now election.old) }
{
    for index in 0..arrivals.len() {
        election.note(&arrivals[index])?;
    }
    Ok(())
}

/// Receives the messages that connections have brought. The only server of its ensemble has none.
#[tactic(auto, using(crate::proofs::Turning::hears_alone, crate::proofs::Turning::hears_others, crate::proofs::Turning::fails_others))]
fn receive_mail<S: Storage>(
    alloc: Global,
    me: Member,
    host: &mut ReplicaHost<S>,
    arrivals: &[Arrival],
) -> Result<(), Stopped>
    ensures hears { OnOk result (HearsAll S.may_recover S.boots me (mail_for me arrivals.now)
        host.old host.new) }
    ensures fails { OnErr result (FailsAt S.may_recover S.boots me (mail_for me arrivals.now)
        host.old host.new) }
{
    if me.servers == 1 {
        return Ok(());
    }
    receive_arrivals(alloc, me, host, arrivals)
}

#[tactic(auto, using(crate::proofs::Turning::mail_whole))]
fn receive_arrivals<S: Storage>(
    alloc: Global,
    me: Member,
    host: &mut ReplicaHost<S>,
    arrivals: &[Arrival],
) -> Result<(), Stopped>
    ensures hears { OnOk result (HearsAll S.may_recover S.boots me (mail_in arrivals.now) host.old
        host.new) }
    ensures fails { OnErr result (FailsAt S.may_recover S.boots me (mail_in arrivals.now) host.old
        host.new) }
{
    for index in 0..arrivals.len() {
        receive_arrival(alloc, me, host, &arrivals[index])?;
    }
    Ok(())
}

#[tactic(auto, using(crate::proofs::Hearing::hears_nothing))]
fn receive_arrival<S: Storage>(
    alloc: Global,
    me: Member,
    host: &mut ReplicaHost<S>,
    arrival: &Arrival,
) -> Result<(), Stopped>
    ensures hears { OnOk result (HearsAll S.may_recover S.boots me (mail_of arrival.now) host.old
        host.new) }
    ensures fails { OnErr result (FailsAt S.may_recover S.boots me (mail_of arrival.now) host.old
        host.new) }
{
    match arrival {
        Arrival::Mail { messages, .. } => receive_all(alloc, me, host, messages),
        _ => Ok(()),
    }
}

/// Does what the election decides.
#[tactic(auto, using(crate::proofs::Turning::decides))]
pub fn decide<S: Storage>(
    alloc: Global,
    me: Member,
    election: &mut Election,
    host: &mut ReplicaHost<S>,
) -> Result<(), Stopped>
    ensures decides { OnOk result (Decides S.may_recover S.boots me election.old
        host.old election.new host.new) }
    ensures fails { OnErr result (FailsToAct S.may_recover S.boots me host.old host.new) }
{
    let choice = election.choose(host.vote());
    act(alloc, me, host, choice)
}

/// Stores what the host has, and takes its messages.
pub fn release<S: Storage>(
    alloc: Global,
    host: &mut ReplicaHost<S>,
) -> Result<Messages<Call>, Stopped>
    ensures messages { IfOk result (λ messages. messages ≡ host.old.host.outbox) }
    ensures stored { OnOk result (IsStored S.may_recover host.new.host) }
    ensures state { host.new.host.state ≡ host.old.host.state }
    ensures empty { OnOk result (host.new.host.outbox ≡ []) }
    ensures tags { host.new.tags ≡ host.old.tags }
    ensures crash { (found : Stable) → S.may_recover host.new.host.storage found
        → S.may_recover host.old.host.storage found
        ⊎ IsPartialStore (S.may_recover host.old.host.storage) host.old.host.state.peer.stable found }
    ensures boots { S.boots host.new.host.storage ≡ S.boots host.old.host.storage }
{
    match host.release(alloc) {
        Ok(messages) => Ok(messages),
        Err(ReleaseFault::Store(fault)) => Err(Stopped::Store(fault)),
        Err(ReleaseFault::Shrunk) => Err(Stopped::Shrunk),
        Err(ReleaseFault::NoMemory) => Err(Stopped::NoMemory),
    }
}
