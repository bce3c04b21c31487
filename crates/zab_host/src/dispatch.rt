//! A message's rule at the server that it is addressed to.

ghost use Rattle.std.specs.Prelude.{◌≡◌, ◌≢◌, true, false, Err};
ghost use Rattle.zab_epoch.specs.declared.rule_fault.RuleFault.TheVariants as faults;
ghost use Rattle.zab_epoch.specs.Shortness.{IsShortBody};
ghost use Rattle.zab_broadcast.specs.Calls.{setting_of};
ghost use Rattle.zab_broadcast.specs.Guards.{EndsBelow};
ghost use Rattle.zab_model.specs.Worlds.{receives};
ghost use Rattle.zab_broadcast.specs.Rules.{submit};
ghost use Rattle.zab_host.specs.Growth.{GrowsByOne};
ghost use Rattle.zab_host.specs.Hosts.{IsAppendOnlyBody};

use std::alloc::Global;
use zab_broadcast::{Primary, Server, State, next_zxid};
use zab_epoch::{Body, Messages, Quorums, Role, RuleFault, Vote};

/// Whether a leader's history ends below the zxid of its next entry. In each run it does.
pub(crate) fn ends_below(state: &State) -> bool
    ensures below { result ≡ true → EndsBelow state.now }
    ensures above { result ≡ false → EndsBelow state.now → ⊥ }
{
    match &state.peer.role {
        Role::Broadcast => match next_zxid(state.peer.stable.promised, state.made) {
            Some(zxid) => state.peer.stable.history.last_zxid() < zxid,
            None => true,
        },
        _ => true,
    }
}

/// Whether a message appends at most one entry to what its server stores. The four others, of
/// discovery and synchronization, may replace what it stores.
pub fn is_append_only<C>(body: &Body<C>) -> bool
    ensures one { result ≡ true → IsAppendOnlyBody body.now }
    ensures more { result ≡ false → IsAppendOnlyBody body.now → ⊥ }
{
    !matches!(
        body,
        Body::CEpoch { .. } | Body::NewEpoch { .. } | Body::AckEpoch { .. } | Body::NewLeader { .. }
    )
}

/// Applies the rule of a message that appends at most one entry.
#[tactic(auto, using(crate::proofs::Growth::receive_grows))]
pub(crate) fn dispatch_append_only<P: Primary, Q: Quorums>(
    alloc: Global,
    quorums: &Q,
    server: &mut Server<P>,
    from: usize,
    body: &Body<P::Call>,
) -> Result<Messages<P::Call>, RuleFault>
    requires below { EndsBelow server.old }
    requires short { IsShortBody body.now }
    requires append_only { IsAppendOnlyBody body.now }
    ensures acts { result ≢ Err faults.NoMemory → (server.new, result)
        ≡ receives (setting_of (Q.passes quorums.now) P.made_of P.tag_of) from body.now server.old }
    ensures unchanged { result ≡ Err faults.NoMemory → server.new ≡ server.old }
    ensures grows { GrowsByOne server.old.peer.stable server.new.peer.stable }
{
    dispatch(alloc, quorums, server, from, body)
}

/// Submits a client's call.
#[tactic(auto, using(crate::proofs::Growth::submit_grows))]
pub(crate) fn submit<P: Primary, Q: Quorums>(
    alloc: Global,
    quorums: &Q,
    server: &mut Server<P>,
    call: P::Call,
) -> Result<Messages<P::Call>, RuleFault>
    requires below { EndsBelow server.old }
    ensures acts { result ≢ Err faults.NoMemory → (server.new, result)
        ≡ submit (setting_of (Q.passes quorums.now) P.made_of P.tag_of) server.old call }
    ensures unchanged { result ≡ Err faults.NoMemory → server.new ≡ server.old }
    ensures grows { GrowsByOne server.old.peer.stable server.new.peer.stable }
{
    server.submit(alloc, quorums, call)
}

/// Applies a message's rule to its server, and returns the server's messages.
pub(crate) fn dispatch<P: Primary, Q: Quorums>(
    alloc: Global,
    quorums: &Q,
    server: &mut Server<P>,
    from: usize,
    body: &Body<P::Call>,
) -> Result<Messages<P::Call>, RuleFault>
    requires below { EndsBelow server.old }
    requires short { IsShortBody body.now }
    ensures acts { result ≢ Err faults.NoMemory → (server.new, result)
        ≡ receives (setting_of (Q.passes quorums.now) P.made_of P.tag_of) from body.now server.old }
    ensures unchanged { result ≡ Err faults.NoMemory → server.new ≡ server.old }
{
    match body {
        Body::CEpoch { promised } => server.c_epoch(alloc, quorums, from, *promised),
        Body::NewEpoch { epoch } => Ok(server.new_epoch(alloc, from, *epoch)?),
        Body::AckEpoch {
            epoch,
            vote,
            current,
            last,
        } => {
            let said = Vote {
                current: *current,
                last: *last,
            };
            Ok(server.ack_epoch(alloc, quorums, from, *epoch, *vote, said)?)
        }
        Body::NewLeader { epoch, keep, rest } => {
            Ok(server.new_leader(alloc, from, *epoch, *keep, rest)?)
        }
        Body::AckLeader { epoch, length } => {
            Ok(server.ack_leader(alloc, quorums, from, *epoch, *length)?)
        }
        Body::Propose {
            epoch,
            index,
            entry,
        } => Ok(server.propose(alloc, from, *epoch, *index, entry)?),
        Body::Ack { epoch, length } => Ok(server.ack(alloc, quorums, from, *epoch, *length)?),
        Body::Commit { epoch, length } => Ok(server.commit(alloc, from, *epoch, *length)?),
        Body::Request { epoch, call } => server.request(alloc, quorums, *epoch, call),
        Body::SyncAsk { epoch, tag } => Ok(server.sync_ask(alloc, from, *epoch, *tag)?),
        Body::SyncTell { epoch, tag, length } => {
            Ok(server.sync_tell(alloc, from, *epoch, *tag, *length)?)
        }
    }
}
