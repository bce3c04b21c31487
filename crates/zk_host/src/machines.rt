//! The machine of a host's tree.

ghost use Rattle.std.specs.Prelude.{◌≡◌, ◌<◌, ◌-◌, ◌^◌, false, None, IfOk};
ghost use Rattle.zk_replicas.specs.Views.{tree_by, HasNotFailed};
ghost use Rattle.zk_model.specs.Ensembles.{kind_set, reply_of};

use std::alloc::Global;
use zk_machine::Machine;
use zk_model::Question;
use zk_path::NoMemory;
use zk_table::codes::{NO_NODE, SESSION_EXPIRED};
use zk_table::{ReadCall, ReadReply};
use zk_watch::WatchKind;

/// Takes the machine, or a new one, ready for one more step. After [`NoMemory`] there is none.
pub(crate) fn take_machine(
    alloc: Global,
    machine: &mut Option<Machine>,
) -> Result<Machine, NoMemory>
    requires { HasNotFailed machine.old }
    ensures state { IfOk result (λ it. it.state ≡ tree_by machine.old) }
    ensures running { IfOk result (λ it. it.failed ≡ false) }
    ensures room { IfOk result (λ it. it.steps < 2 ^ 64 - 1) }
    ensures taken { machine.new ≡ None }
{
    let mut it = match machine.take() {
        Some(it) => it,
        None => Machine::new(alloc)?,
    };
    it.make_countable()?;
    Ok(it)
}

/// The reply to a client's question.
pub(crate) fn reply_from(machine: &Machine, question: &Question) -> Result<ReadReply, NoMemory>
    requires { machine.now.failed ≡ false }
    ensures { IfOk result (λ reply. reply ≡ reply_of question.now machine.now.state) }
{
    let Ok(session) = machine.session(question.session.cast_unsigned()) else {
        unreachable!()
    };
    if session.is_none() {
        return Ok(ReadReply::Refused(SESSION_EXPIRED));
    }
    let Ok(reply) = machine.read(&question.call, question.auths.as_slice()) else {
        return Err(NoMemory);
    };
    Ok(reply)
}

/// The kind of the watch that a read with this reply sets.
pub(crate) fn watch_set(call: &ReadCall, reply: &ReadReply) -> Option<WatchKind>
    ensures { result ≡ kind_set call.now reply.now }
{
    match (call, reply) {
        (ReadCall::GetData { .. }, ReadReply::Content { .. }) => Some(WatchKind::Content),
        (ReadCall::Exists { .. }, ReadReply::Found(_)) => Some(WatchKind::Content),
        (ReadCall::Exists { .. }, ReadReply::Refused(code)) if *code == NO_NODE => Some(
            WatchKind::Content,
        ),
        (ReadCall::GetChildren { .. }, ReadReply::Children { .. }) => Some(WatchKind::Children),
        _ => None,
    }
}
