//! What a server's host does when an election decides.

ghost use Rattle.std.specs.Prelude.{◌≡◌, OnOk, OnErr};
ghost use Rattle.zab_host.specs.Hosts.{Follows, Leads};
ghost use Rattle.zk_server.specs.Deeds.{ActsBy, FailsBy, FailsToAct, LeadsNow, TakesBy};

use crate::election::Choice;
use crate::mail::{receive_all, stop_if_lost};
use crate::member::Member;
use crate::stopped::Stopped;
use std::alloc::Global;
use zab_epoch::Majority;
use zab_host::{Storage, own_messages};
use zk_host::ReplicaHost;
use zk_model::Preparer;
use zk_server_laws::stores_keep_first_inputs;

/// A host leads or follows, as an election has decided.
#[tactic(auto, using(crate::proofs::Acting::follow_fails))]
pub(crate) fn act<S: Storage>(
    alloc: Global,
    me: Member,
    host: &mut ReplicaHost<S>,
    choice: Choice,
) -> Result<(), Stopped>
    ensures acts { OnOk result (ActsBy S.may_recover S.boots me choice host.old host.new) }
    ensures fails { OnErr result (FailsToAct S.may_recover S.boots me host.old host.new) }
{
    match choice {
        Choice::Wait => Ok(()),
        Choice::Lead => lead(alloc, me, host),
        Choice::Follow(leader) => follow(alloc, me, host, leader),
    }
}

#[tactic(auto, using(crate::proofs::Taking::takes_light, crate::proofs::Taking::fails_light))]
fn follow<S: Storage>(
    alloc: Global,
    me: Member,
    host: &mut ReplicaHost<S>,
    leader: usize,
) -> Result<(), Stopped>
    ensures follows { OnOk result (TakesBy S.may_recover S.boots me (Follows leader) host.old
        host.new) }
    ensures fails { OnErr result (FailsBy S.may_recover S.boots me (Follows leader) host.old
        host.new) }
{
    let quorums = Majority {
        servers: me.servers,
    };
    stores_keep_first_inputs::<Preparer, Majority, S>(&quorums);
    let stepped = host.follow(alloc, &quorums, leader);
    stop_if_lost(stepped)
}

#[tactic(auto, using(crate::proofs::Taking::takes_light, crate::proofs::Taking::fails_light))]
fn begin<S: Storage>(alloc: Global, me: Member, host: &mut ReplicaHost<S>) -> Result<(), Stopped>
    ensures leads { OnOk result (TakesBy S.may_recover S.boots me Leads host.old host.new) }
    ensures fails { OnErr result (FailsBy S.may_recover S.boots me Leads host.old host.new) }
{
    let quorums = Majority {
        servers: me.servers,
    };
    stores_keep_first_inputs::<Preparer, Majority, S>(&quorums);
    let stepped = host.lead(alloc, &quorums);
    stop_if_lost(stepped)
}

/// A host leads. The only one of its ensemble acknowledges itself.
#[tactic(auto, using(crate::proofs::Acting::lead_fails, crate::proofs::Acting::no_memory_for_own, crate::proofs::Acting::own_fails, crate::proofs::Acting::leads_alone, crate::proofs::Acting::leads_others))]
fn lead<S: Storage>(alloc: Global, me: Member, host: &mut ReplicaHost<S>) -> Result<(), Stopped>
    ensures leads { OnOk result (LeadsNow S.may_recover S.boots me host.old host.new) }
    ensures fails { OnErr result (FailsToAct S.may_recover S.boots me host.old host.new) }
{
    begin(alloc, me, host)?;
    if me.servers != 1 {
        return Ok(());
    }
    let own = own_messages(alloc, host.role(), &host.vote())?;
    receive_all(alloc, me, host, &own)
}
