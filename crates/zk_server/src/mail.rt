//! The messages that a server's host receives.

ghost use Rattle.std.specs.Prelude.{◌≡◌, ◌≢◌, Some, None, Err, OnOk, OnErr, IfSome, IfNone, slice_get};
ghost use Rattle.zab_epoch.specs.Shortness.{IsShortBody};
ghost use Rattle.zab_host.specs.Hosts.{IsAppendOnlyBody, Receives};
ghost use Rattle.zab_host.specs.declared.fault.HostFault.TheVariants as host_faults;
ghost use Rattle.zk_server.specs.Deeds.{FailsAt, FailsBy, HearsAll, TakesBy};
ghost use Rattle.zk_server.specs.Mail.{listed};

use crate::member::Member;
use crate::stopped::Stopped;
use std::alloc::Global;
use zab_epoch::{Majority, Message, Messages};
use zab_host::{HostFault, ReceiveFault, Storage, is_append_only};
use zk_host::ReplicaHost;
use zk_model::Preparer;
use zk_requests::Call;
use zk_server_laws::stores_keep_first_inputs;

/// A host receives messages, in order. One that has no rule here changes nothing.
#[tactic(auto, using(crate::proofs::Hearing::hears_more, crate::proofs::Hearing::hears_whole, crate::proofs::Hearing::fails_later))]
pub(crate) fn receive_all<S: Storage>(
    alloc: Global,
    me: Member,
    host: &mut ReplicaHost<S>,
    messages: &Messages<Call>,
) -> Result<(), Stopped>
    ensures hears { OnOk result (HearsAll S.may_recover S.boots me messages.now host.old host.new) }
    ensures fails { OnErr result (FailsAt S.may_recover S.boots me messages.now host.old
        host.new) }
{
    for index in 0..messages.len() {
        receive_at(alloc, me, host, messages, index)?;
    }
    Ok(())
}

/// Receives the message at an index.
#[tactic(auto, using(crate::proofs::Hearing::hears_none, crate::proofs::Hearing::hears_found, crate::proofs::Hearing::fails_found))]
fn receive_at<S: Storage>(
    alloc: Global,
    me: Member,
    host: &mut ReplicaHost<S>,
    messages: &Messages<Call>,
    index: usize,
) -> Result<(), Stopped>
    ensures hears { OnOk result (HearsAll S.may_recover S.boots me (listed (slice_get
        messages.now index)) host.old host.new) }
    ensures fails { OnErr result (FailsAt S.may_recover S.boots me (listed (slice_get
        messages.now index)) host.old host.new) }
{
    let Some(message) = message_at(messages, index) else {
        return Ok(());
    };
    receive(alloc, me, host, message)
}

/// The message at an index.
#[tactic(auto, using(zab_epoch::proofs::Shortness::short_at))]
fn message_at(messages: &Messages<Call>, index: usize) -> Option<&Message<Call>>
    ensures found { IfSome result (λ message. Some message.now ≡ slice_get messages.now index) }
    ensures none { IfNone result (None ≡ slice_get messages.now index) }
    ensures short { IfSome result (λ message. IsShortBody message.now.body) }
{
    messages.as_slice().get(index)
}

/// A host receives a message. One that has no rule here changes nothing.
fn receive<S: Storage>(
    alloc: Global,
    me: Member,
    host: &mut ReplicaHost<S>,
    message: &Message<Call>,
) -> Result<(), Stopped>
    requires short { IsShortBody message.now.body }
    ensures hears { OnOk result (TakesBy S.may_recover S.boots me (Receives message.now) host.old
        host.new) }
    ensures fails { OnErr result (FailsBy S.may_recover S.boots me (Receives message.now) host.old
        host.new) }
{
    if is_append_only(&message.body) {
        return receive_light(alloc, me, host, message);
    }
    receive_whole(alloc, me, host, message)
}

/// Receives a message that appends at most one entry. It is stored later.
#[tactic(auto, using(crate::proofs::Taking::takes_light, crate::proofs::Taking::fails_light))]
fn receive_light<S: Storage>(
    alloc: Global,
    me: Member,
    host: &mut ReplicaHost<S>,
    message: &Message<Call>,
) -> Result<(), Stopped>
    requires short { IsShortBody message.now.body }
    requires append_only { IsAppendOnlyBody message.now.body }
    ensures hears { OnOk result (TakesBy S.may_recover S.boots me (Receives message.now) host.old
        host.new) }
    ensures fails { OnErr result (FailsBy S.may_recover S.boots me (Receives message.now) host.old
        host.new) }
{
    let quorums = Majority {
        servers: me.servers,
    };
    stores_keep_first_inputs::<Preparer, Majority, S>(&quorums);
    let received = host.receive(alloc, &quorums, message);
    stop_if_lost(received)
}

/// Receives a message, and stores what it changes.
#[tactic(auto, using(crate::proofs::Taking::takes_whole, crate::proofs::Taking::takes_rejected, crate::proofs::Taking::fails_rejected, crate::proofs::Taking::fails_to_store))]
fn receive_whole<S: Storage>(
    alloc: Global,
    me: Member,
    host: &mut ReplicaHost<S>,
    message: &Message<Call>,
) -> Result<(), Stopped>
    requires short { IsShortBody message.now.body }
    ensures hears { OnOk result (TakesBy S.may_recover S.boots me (Receives message.now) host.old
        host.new) }
    ensures fails { OnErr result (FailsBy S.may_recover S.boots me (Receives message.now) host.old
        host.new) }
{
    let quorums = Majority {
        servers: me.servers,
    };
    stores_keep_first_inputs::<Preparer, Majority, S>(&quorums);
    match host.receive_and_store(alloc, &quorums, message) {
        Ok(()) => Ok(()),
        Err(ReceiveFault::Host(fault)) => stop_if_lost(Err(fault)),
        Err(ReceiveFault::Store(fault)) => Err(Stopped::Store(fault)),
    }
}

/// An input that its rule rejects stops no server; one whose messages may be lost does.
pub(crate) fn stop_if_lost(stepped: Result<(), HostFault>) -> Result<(), Stopped>
    ensures goes_on { OnOk result (stepped ≢ Err host_faults.NoMemory) }
    ensures stops { OnErr result (stepped ≡ Err host_faults.NoMemory) }
{
    match stepped {
        Err(HostFault::NoMemory) => Err(Stopped::NoMemory),
        _ => Ok(()),
    }
}
