ghost use Rattle.std.specs.Prelude.{◌≡◌, IfOk};
ghost use Rattle.zab_host.specs.LoneLeaders.{acknowledgments, own_messages, own_promise};

use crate::Vote;
use std::alloc::Global;
use zab_epoch::{Body, Messages, Role, next_epoch};
use zk_path::NoMemory;

/// The messages that a leader which has just begun to lead sends itself, if no other server can
/// acknowledge it: by its role, and its vote for itself. None if it does not begin to lead, or if no
/// epoch is left.
///
/// ZooKeeper, class `Leader`, method `lead`: `waitForEpochAck` and `waitForNewLeaderAck` with the
/// leader's own number.
pub fn own_messages<C: Drop>(
    alloc: Global,
    role: &Role,
    vote: &Vote,
) -> Result<Messages<C>, NoMemory>
    ensures { IfOk result (λ messages. messages ≡ own_messages role.now vote.now) }
{
    let Some(promised) = own_promise(role, vote.server) else {
        return Ok(Messages::new(alloc));
    };
    match next_epoch(promised) {
        Some(epoch) => acknowledgments(alloc, vote, promised, epoch),
        None => Ok(Messages::new(alloc)),
    }
}

/// The epoch that a leader has promised, as it has heard from itself.
fn own_promise(role: &Role, server: usize) -> Option<u32>
    ensures { result ≡ own_promise role.now server }
{
    match role {
        Role::Discover { heard } => heard.said_by(server).copied(),
        _ => None,
    }
}

/// What a leader that had promised an epoch sends itself in the next one.
fn acknowledgments<C: Drop>(
    alloc: Global,
    vote: &Vote,
    promised: u32,
    epoch: u32,
) -> Result<Messages<C>, NoMemory>
    ensures { IfOk result (λ messages. messages ≡ acknowledgments vote.now promised epoch) }
{
    let me = vote.server;
    let mut messages = Messages::new(alloc);
    messages.send(me, me, Body::CEpoch { promised })?;
    messages.send(
        me,
        me,
        Body::AckEpoch {
            epoch,
            vote: true,
            current: vote.epoch,
            last: vote.zxid,
        },
    )?;
    messages.send(me, me, Body::AckLeader { epoch, length: 0 })?;
    Ok(messages)
}
