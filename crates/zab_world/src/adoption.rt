ghost use Rattle.std.specs.Prelude.{◌≡◌, ◌≢◌, true, false, None, IfSome, IfOk, IfErr, Ok, Err};
ghost use Rattle.zab_broadcast.specs.Calls.{setting_of};
ghost use Rattle.zab_model.specs.declared.event.Event.TheVariants as events;
ghost use Rattle.zab_model.specs.declared.fault.WorldFault.TheVariants as faults;
ghost use Rattle.zab_model.specs.declared.used_tags.UsedTags.{UsedTags};
ghost use Rattle.zab_model.specs.Counting.{counted, IsAnswered};
ghost use Rattle.zab_model.specs.Movers.{mover};
ghost use Rattle.zab_model.specs.Running.{is_running};
ghost use Rattle.zab_model.specs.Runs.{after};
ghost use Rattle.zab_model.specs.ProcessStates.{ProcessState};
ghost use Rattle.zab_model.specs.Worlds.{world, running, arrives, message_at, profile_of};
ghost use Rattle.zab_agreement_laws.specs.Promises.{EachEndsBelow};
ghost use Rattle.zab_world.specs.Adoptions.{brings_new_leader, acked_by, IsPredicted, MayFall};
ghost use Rattle.zab_world.specs.Rollbacks.{fallen_by, moved_in};
ghost use Rattle.zab_world.specs.Outputs.{IsLiving};

use crate::output::{arrive, find_message};
use crate::steps::{check_running, take_step};
use crate::{Process, Rollback};
use std::alloc::Global;
use zab_broadcast::Primary;
use zab_epoch::{Body, History, Messages, Quorums, Stable};
use zab_model::{Event, Moved, UsedTags, WorldFault};

/// A NewLeader that arrives, and its addressee's reply if it takes the history.
#[derive(Clone, Copy, Debug, Drop)]
pub(crate) struct Adoption {
    /// The NewLeader's number.
    pub(crate) number: usize,
    /// The server that replies, and the leader.
    pub(crate) sender: usize,
    pub(crate) addressee: usize,
    pub(crate) epoch: u32,
    /// The number of entries that the server then has.
    pub(crate) length: u64,
}

/// Returns the number of entries that a server acknowledges if it takes this NewLeader.
#[tactic(auto, using(crate::proofs::Adoptions::meant_length))]
fn acknowledged(stable: &Stable, epoch: u32, keep: i64, rest: &History) -> u64
    ensures { result ≡ acked_by stable.now epoch keep rest.now }
{
    let own = stable.history.len();
    let total = stable.history.count_up_to(keep) + rest.len();
    if stable.current < epoch || (stable.current == epoch && own < total) {
        total as u64
    } else {
        own as u64
    }
}

/// Predicts a running server's reply to the NewLeader that an event delivers; `None` if the event
/// delivers none, or the server does not run.
pub(crate) fn predict_adoption<P: Primary>(
    places: &[Process<P>],
    messages: &Messages<P::Call>,
    event: &Event<P::Call>,
) -> Option<Adoption>
    ensures foreseen { IfSome result (λ joining. IsPredicted places.now messages.now event.now joining) }
    ensures other { result ≡ None → (tags : UsedTags) (it : ProcessState)
        → running places.now (mover (world places.now messages.now tags) event.now) ≡ Ok it
        → brings_new_leader (world places.now messages.now tags) event.now ≡ false }
{
    let Event::Arrive { message: number } = event else {
        return None;
    };
    let number = *number;
    let Some(message) = find_message(messages, number) else {
        return None;
    };
    let Body::NewLeader { epoch, keep, rest } = &message.body else {
        return None;
    };
    if check_running(places, message.addressee).is_err() {
        return None;
    }
    let place = &places[message.addressee - 1];
    let state = place.server.state();
    Some(Adoption {
        number,
        sender: state.peer.me,
        addressee: message.sender,
        epoch: *epoch,
        length: acknowledged(&state.peer.stable, *epoch, *keep, rest),
    })
}

/// Handles a NewLeader. The predicted reply is sent first and withdrawn if the server sends none:
/// entries that the server drops need not be kept for an undo.
pub(crate) fn join<P: Primary, Q: Quorums>(
    alloc: Global,
    quorums: &Q,
    places: &mut [Process<P>],
    messages: &mut Messages<P::Call>,
    joining: Adoption,
) -> Result<Moved, WorldFault>
    requires below { EachEndsBelow places.old }
    requires foreseen { IsPredicted places.old messages.old (events.Arrive joining.number) joining }
    ensures acts { (tags : UsedTags) → result ≢ Err faults.NoMemory → (world places.new messages.new tags, result)
        ≡ arrives (setting_of (Q.passes quorums.now) P.made_of P.tag_of) (world places.old messages.old tags)
        (message_at messages.old joining.number) }
    ensures unchanged { result ≡ Err faults.NoMemory → (places.new ≡ places.old) × (messages.new ≡ messages.old) }
    ensures living { IfErr result IsLiving }
{
    let before = messages.len();
    let Adoption {
        number,
        sender,
        addressee,
        epoch,
        length,
    } = joining;
    messages.send(sender, addressee, Body::AckLeader { epoch, length })?;
    let said = match arrive(alloc, quorums, places, messages, number) {
        Ok(said) => said,
        Err(fault) => {
            messages.cut(before);
            return Err(fault);
        }
    };
    if said.len() == 0 {
        messages.cut(before);
        return Ok(Moved { first: 0, count: 0 });
    }
    Ok(Moved {
        first: before + 1,
        count: 1,
    })
}

/// Executes an event; each leader's history ends below the zxid that it assigns. Returns what
/// undoes it, or nothing if a server handled a NewLeader, for which it delivers no more.
pub(crate) fn advance<P: Primary, Q: Quorums>(
    alloc: Global,
    quorums: &Q,
    places: &mut [Process<P>],
    messages: &mut Messages<P::Call>,
    tags: &mut UsedTags,
    event: Event<P::Call>,
) -> Result<(Option<Rollback>, Moved), WorldFault>
    requires { EachEndsBelow places.old }
    ensures counts { world places.new messages.new tags.new
        ≡ after (profile_of (Q.passes quorums.now) P.made_of P.tag_of P.closing_of)
        (world places.old messages.old tags.old) (counted event (moved_in result)) }
    ensures answers { IsAnswered (profile_of (Q.passes quorums.now) P.made_of P.tag_of P.closing_of)
        (world places.old messages.old tags.old) event (moved_in result) }
    ensures falls { IfOk result (λ told.
        is_running (world places.old messages.old tags.old) (mover (world places.old messages.old tags.old) event) ≡ true
        → MayFall (profile_of (Q.passes quorums.now) P.made_of P.tag_of P.closing_of)
        (world places.old messages.old tags.old) event (world places.new messages.new tags.new)
        (fallen_by places.new messages.new tags.new told.0)) }
    ensures rests { IfOk result (λ told.
        is_running (world places.old messages.old tags.old) (mover (world places.old messages.old tags.old) event) ≡ false
        → told.0 ≡ None) }
{
    let Some(joining) = predict_adoption(places, messages, &event) else {
        return take_step(alloc, quorums, places, messages, tags, event);
    };
    let moved = join(alloc, quorums, places, messages, joining)?;
    Ok((None, moved))
}
