//! The messages that a host receives.

ghost use Rattle.std.specs.Prelude.{◌≡◌, Some, None, OnOk, IfOk, IfSome, IfNone, slice_get};
ghost use Rattle.zab_epoch.specs.Shortness.{IsShortBody};
ghost use Rattle.zab_host.specs.Hosts.{Receives};
ghost use Rattle.zk_peers.specs.Hosts.{setting_for, Takes, Hears, HearsAll};
ghost use Rattle.zk_peers.specs.Links.{mail_for, listed};

use crate::cut::{Cut, is_cut};
use crate::fault::PeersFault;
use std::alloc::Global;
use zab_epoch::{Majority, Message, Messages};
use zab_host::{HostFault, ReceiveFault, Storage, is_append_only};
use zk_host::{Record, ReplicaHost};
use zk_requests::Call;

/// A host receives the messages that arrive at it, in order.
#[tactic(auto, using(crate::proofs::Hearing::hears_more, crate::proofs::Hearing::hears_whole))]
pub(crate) fn receive_all<S: Storage>(
    alloc: Global,
    quorums: &Majority,
    host: &mut ReplicaHost<S>,
    cuts: &[Cut],
    server: usize,
    mail: &Messages<Call>,
    recorded: &Record,
) -> Result<(), PeersFault>
    ensures { OnOk result (HearsAll S.may_recover S.boots (setting_for quorums.now.servers) (mail_for cuts.now server mail.now) host.old host.new) }
{
    for index in 0..mail.len() {
        receive_at(alloc, quorums, host, cuts, server, mail, recorded, index)?;
    }
    Ok(())
}

/// Receives one of these messages if it arrives.
#[tactic(auto, using(crate::proofs::Hearing::hears_none, crate::proofs::Hearing::hears_other, crate::proofs::Hearing::hears_cut, crate::proofs::Hearing::hears_own))]
fn receive_at<S: Storage>(
    alloc: Global,
    quorums: &Majority,
    host: &mut ReplicaHost<S>,
    cuts: &[Cut],
    server: usize,
    mail: &Messages<Call>,
    recorded: &Record,
    index: usize,
) -> Result<(), PeersFault>
    ensures { OnOk result (HearsAll S.may_recover S.boots (setting_for quorums.now.servers) (mail_for cuts.now server (listed (slice_get mail.now index))) host.old host.new) }
{
    let Some(message) = message_at(mail, index) else {
        return Ok(());
    };
    if message.addressee != server {
        return Ok(());
    }
    if is_cut(cuts, message.sender, server) {
        return Ok(());
    }
    number_next(host, recorded, index);
    receive(alloc, quorums, host, message)?;
    Ok(())
}

/// Gives a host the number of the message at an index.
fn number_next<S: Storage>(host: &mut ReplicaHost<S>, recorded: &Record, index: usize)
    ensures { host.new ≡ host.old }
{
    if let Some(number) = recorded.number_at(index) {
        host.number_next(number);
    }
}

/// The message at an index.
#[tactic(auto, using(zab_epoch::proofs::Shortness::short_at))]
fn message_at(mail: &Messages<Call>, index: usize) -> Option<&Message<Call>>
    ensures found { IfSome result (λ message. Some message.now ≡ slice_get mail.now index) }
    ensures none { IfNone result (None ≡ slice_get mail.now index) }
    ensures short { IfSome result (λ message. IsShortBody message.now.body) }
{
    mail.as_slice().get(index)
}

/// Receives a message. One that its rule rejects is dropped.
#[tactic(auto, using(crate::proofs::Hearing::hears))]
fn receive<S: Storage>(
    alloc: Global,
    quorums: &Majority,
    host: &mut ReplicaHost<S>,
    message: &Message<Call>,
) -> Result<(), PeersFault>
    requires short { IsShortBody message.now.body }
    ensures { OnOk result (Hears S.may_recover S.boots (setting_for quorums.now.servers) message.now host.old host.new) }
{
    match hear(alloc, quorums, host, message)? {
        Err(HostFault::NoMemory) => Err(PeersFault::NoMemory),
        _ => Ok(()),
    }
}

/// Receives a message. The outer error is that of the store.
#[tactic(auto, using(crate::proofs::Taking::taken, crate::proofs::Taking::stored))]
fn hear<S: Storage>(
    alloc: Global,
    quorums: &Majority,
    host: &mut ReplicaHost<S>,
    message: &Message<Call>,
) -> Result<Result<(), HostFault>, PeersFault>
    requires short { IsShortBody message.now.body }
    ensures { IfOk result (Takes S.may_recover S.boots (setting_for quorums.now.servers) (Receives message.now) host.old host.new) }
{
    if is_append_only(&message.body) {
        return Ok(host.receive(alloc, quorums, message));
    }
    match host.receive_and_store(alloc, quorums, message) {
        Ok(()) => Ok(Ok(())),
        Err(ReceiveFault::Host(fault)) => Ok(Err(fault)),
        Err(ReceiveFault::Store(fault)) => Err(PeersFault::Store(fault)),
    }
}
