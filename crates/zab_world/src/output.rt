ghost use Rattle.std.specs.Prelude.{◌≡◌, ◌≢◌, ◌-◌, List, [], true, false, Some, IfOk, IfSome, IfErr, OnOk, Ok, Err};
ghost use Rattle.std.specs.Option.{option_copied};
ghost use Rattle.zab_epoch.specs.declared.rule_fault.RuleFault.TheVariants as rule_faults;
ghost use Rattle.zab_epoch.specs.declared.message.Message.{Message};
ghost use Rattle.zab_epoch.specs.Shortness.{IsShortBody};
ghost use Rattle.zab_broadcast.specs.Calls.{setting_of};
ghost use Rattle.zab_broadcast.specs.Guards.{EndsBelow};
ghost use Rattle.zab_broadcast.specs.Rules as rules;
ghost use Rattle.zab_model.specs.declared.fault.WorldFault.TheVariants as faults;
ghost use Rattle.zab_model.specs.declared.used_tags.UsedTags.{UsedTags};
ghost use Rattle.zab_model.specs.Movers.{addressee_of, mover};
ghost use Rattle.zab_model.specs.Running.{is_up, is_running};
ghost use Rattle.zab_model.specs.Worlds.{world, running, resting, server_at, message_at, told};
ghost use Rattle.zab_model.specs.Worlds.{acts, receives, arrives, submits, syncs, follows, crashes, restarts, happens, profile_of};
ghost use Rattle.zab_agreement_laws.specs.Promises.{EachEndsBelow};
ghost use Rattle.zab_world.specs.Outputs.{sent, silence, IsLiving, IsPlain};

use crate::Process;
use crate::steps::{check_down, check_running, is_server};
use std::alloc::Global;
use zab_broadcast::{Primary, Server};
use zab_epoch::{Body, Message, Messages, Quorums, RuleFault, Vote};
use zab_model::{Event, UsedTags, WorldFault};

/// What a server outputs at an event: the messages to send, and the tag that is used up.
#[derive(Debug, Drop)]
pub(crate) struct Output<C: Drop> {
    pub(crate) messages: Messages<C>,
    pub(crate) spends: ConsumedTag,
}

/// The tag that an event uses up.
#[derive(Clone, Copy, Debug, Drop)]
pub(crate) enum ConsumedTag {
    Nothing,
    OfCall(u64),
    OfSync(u64),
}

impl<C: Drop> Output<C> {
    ghost use Rattle.std.specs.Prelude.{◌≡◌};
    ghost use Rattle.zab_world.specs.declared.output.ConsumedTag.TheVariants as spends;
    ghost use Rattle.zab_world.specs.Outputs.{silence};

    /// No output.
    fn nothing(alloc: Global) -> Output<C>
        ensures { result ≡ silence }
    {
        Output::of(Messages::new(alloc))
    }

    /// Only messages.
    fn of(messages: Messages<C>) -> Output<C>
        ensures { result ≡ record { messages = messages; spends = spends.Nothing } }
    {
        Output {
            messages,
            spends: ConsumedTag::Nothing,
        }
    }
}

/// Makes a server lead.
fn lead<P: Primary>(
    alloc: Global,
    places: &mut [Process<P>],
    number: usize,
) -> Result<Messages<P::Call>, WorldFault>
    ensures acts { (messages : List (Message P.Call)) (tags : UsedTags) → result ≢ Err faults.NoMemory
        → told (world places.new messages tags) result
        ≡ acts (world places.old messages tags) number rules.lead (running places.old number) }
    ensures unchanged { result ≡ Err faults.NoMemory → places.new ≡ places.old }
    ensures living { IfErr result IsLiving }
    ensures ran { OnOk result (is_up (server_at places.old number) ≡ true) }
{
    check_running(places, number)?;
    let place = &mut places[number - 1];
    Ok(place.server.lead(alloc)?)
}

/// Makes a server follow another.
fn follow<P: Primary>(
    alloc: Global,
    places: &mut [Process<P>],
    number: usize,
    leader: usize,
) -> Result<Messages<P::Call>, WorldFault>
    ensures acts { (messages : List (Message P.Call)) (tags : UsedTags) → result ≢ Err faults.NoMemory
        → told (world places.new messages tags) result
        ≡ follows (world places.old messages tags) number leader }
    ensures unchanged { result ≡ Err faults.NoMemory → places.new ≡ places.old }
    ensures living { IfErr result IsLiving }
    ensures ran { OnOk result (is_up (server_at places.old number) ≡ true) }
{
    if !is_server(places.len(), leader) || number == leader {
        return Err(WorldFault::NoServer);
    }
    check_running(places, number)?;
    let place = &mut places[number - 1];
    Ok(place.server.follow(alloc, leader)?)
}

/// Handles a message at its addressee.
fn receive<P: Primary, Q: Quorums>(
    alloc: Global,
    quorums: &Q,
    server: &mut Server<P>,
    from: usize,
    body: &Body<P::Call>,
) -> Result<Messages<P::Call>, RuleFault>
    requires below { EndsBelow server.old }
    requires short { IsShortBody body.now }
    ensures acts { result ≢ Err rule_faults.NoMemory → (server.new, result)
        ≡ receives (setting_of (Q.passes quorums.now) P.made_of P.tag_of) from body.now server.old }
    ensures unchanged { result ≡ Err rule_faults.NoMemory → server.new ≡ server.old }
{
    match body {
        Body::CEpoch { promised } => server.c_epoch(alloc, quorums, from, *promised),
        Body::NewEpoch { epoch } => Ok(server.new_epoch(alloc, from, *epoch)?),
        Body::AckEpoch {
            epoch,
            vote,
            current,
            last,
        } => {
            let said = Vote {
                current: *current,
                last: *last,
            };
            Ok(server.ack_epoch(alloc, quorums, from, *epoch, *vote, said)?)
        }
        Body::NewLeader { epoch, keep, rest } => {
            Ok(server.new_leader(alloc, from, *epoch, *keep, rest)?)
        }
        Body::AckLeader { epoch, length } => {
            Ok(server.ack_leader(alloc, quorums, from, *epoch, *length)?)
        }
        Body::Propose {
            epoch,
            index,
            entry,
        } => Ok(server.propose(alloc, from, *epoch, *index, entry)?),
        Body::Ack { epoch, length } => Ok(server.ack(alloc, quorums, from, *epoch, *length)?),
        Body::Commit { epoch, length } => Ok(server.commit(alloc, from, *epoch, *length)?),
        Body::Request { epoch, call } => server.request(alloc, quorums, *epoch, call),
        Body::SyncAsk { epoch, tag } => Ok(server.sync_ask(alloc, from, *epoch, *tag)?),
        Body::SyncTell { epoch, tag, length } => {
            Ok(server.sync_tell(alloc, from, *epoch, *tag, *length)?)
        }
    }
}

/// Delivers a message to its addressee, which may reply with others.
#[tactic(auto, using(crate::proofs::Numbers::ends_below))]
fn hear<P: Primary, Q: Quorums>(
    alloc: Global,
    quorums: &Q,
    places: &mut [Process<P>],
    message: &Message<P::Call>,
) -> Result<Messages<P::Call>, WorldFault>
    requires below { EachEndsBelow places.old }
    requires short { IsShortBody message.now.body }
    ensures acts { (messages : List (Message P.Call)) (tags : UsedTags) → result ≢ Err faults.NoMemory
        → told (world places.new messages tags) result
        ≡ arrives (setting_of (Q.passes quorums.now) P.made_of P.tag_of) (world places.old messages tags)
        (Some message.now) }
    ensures unchanged { result ≡ Err faults.NoMemory → places.new ≡ places.old }
    ensures living { IfErr result IsLiving }
    ensures ran { OnOk result (is_up (server_at places.old message.now.addressee) ≡ true) }
{
    let number = message.addressee;
    check_running(places, number)?;
    let place = &mut places[number - 1];
    let server = &mut place.server;
    Ok(receive(alloc, quorums, server, message.sender, &message.body)?)
}

/// Borrows the message with a number.
#[tactic(auto, using(zab_epoch::proofs::Shortness::short_at))]
pub(crate) fn find_message<C: Drop>(messages: &Messages<C>, number: usize) -> Option<&Message<C>>
    ensures message { option_copied result ≡ message_at messages.now number }
    ensures short { IfSome result (λ message. IsShortBody message.now.body) }
{
    if number == 0 {
        None
    } else {
        messages.as_slice().get(number - 1)
    }
}

/// Delivers a message, by its number.
pub(crate) fn arrive<P: Primary, Q: Quorums>(
    alloc: Global,
    quorums: &Q,
    places: &mut [Process<P>],
    messages: &Messages<P::Call>,
    number: usize,
) -> Result<Messages<P::Call>, WorldFault>
    requires { EachEndsBelow places.old }
    ensures acts { (before : List (Message P.Call)) (tags : UsedTags) → result ≢ Err faults.NoMemory
        → told (world places.new before tags) result
        ≡ arrives (setting_of (Q.passes quorums.now) P.made_of P.tag_of) (world places.old before tags)
        (message_at messages.now number) }
    ensures unchanged { result ≡ Err faults.NoMemory → places.new ≡ places.old }
    ensures living { IfErr result IsLiving }
    ensures ran { OnOk result (is_up (server_at places.old (addressee_of (message_at messages.now number))) ≡ true) }
{
    let Some(message) = find_message(messages, number) else {
        return Err(WorldFault::NoMessage);
    };
    hear(alloc, quorums, places, message)
}

/// Submits a client's call at a server.
#[tactic(auto, using(crate::proofs::Numbers::ends_below))]
fn submit<P: Primary, Q: Quorums>(
    alloc: Global,
    quorums: &Q,
    places: &mut [Process<P>],
    tags: &UsedTags,
    number: usize,
    call: P::Call,
) -> Result<Output<P::Call>, WorldFault>
    requires { EachEndsBelow places.old }
    ensures acts { (messages : List (Message P.Call)) → result ≢ Err faults.NoMemory
        → sent (world places.new messages tags.now) result
        ≡ submits (setting_of (Q.passes quorums.now) P.made_of P.tag_of)
        (world places.old messages tags.now) number call (running places.old number) }
    ensures unchanged { result ≡ Err faults.NoMemory → places.new ≡ places.old }
    ensures living { IfErr result IsLiving }
    ensures ran { OnOk result (is_up (server_at places.old number) ≡ true) }
{
    check_running(places, number)?;
    let place = &mut places[number - 1];
    if !place.server.is_serving() {
        return Err(WorldFault::NotServing);
    }
    let tag = P::tag(&call);
    if tags.calls.has(tag) {
        return Err(WorldFault::DuplicateCall);
    }
    Ok(Output {
        messages: place.server.submit(alloc, quorums, call)?,
        spends: ConsumedTag::OfCall(tag),
    })
}

/// Starts a client's sync at a server.
fn sync<P: Primary>(
    alloc: Global,
    places: &mut [Process<P>],
    tags: &UsedTags,
    number: usize,
    tag: u64,
) -> Result<Output<P::Call>, WorldFault>
    ensures acts { (messages : List (Message P.Call)) → result ≢ Err faults.NoMemory
        → sent (world places.new messages tags.now) result
        ≡ syncs (world places.old messages tags.now) number tag (running places.old number) }
    ensures unchanged { result ≡ Err faults.NoMemory → places.new ≡ places.old }
    ensures living { IfErr result IsLiving }
    ensures ran { OnOk result (is_up (server_at places.old number) ≡ true) }
{
    check_running(places, number)?;
    let place = &mut places[number - 1];
    if !place.server.is_serving() {
        return Err(WorldFault::NotServing);
    }
    if tags.syncs.has(tag) {
        return Err(WorldFault::DuplicateCall);
    }
    Ok(Output {
        messages: place.server.sync(alloc, tag)?,
        spends: ConsumedTag::OfSync(tag),
    })
}

/// Crashes a server.
fn crash<P: Primary>(
    alloc: Global,
    places: &mut [Process<P>],
    number: usize,
) -> Result<Messages<P::Call>, WorldFault>
    ensures acts { (messages : List (Message P.Call)) (tags : UsedTags) → told (world places.new messages tags) result
        ≡ crashes (world places.old messages tags) number (running places.old number) }
    ensures plain { IfErr result IsPlain }
    ensures ran { OnOk result (is_up (server_at places.old number) ≡ true) }
{
    check_running(places, number)?;
    let place = &mut places[number - 1];
    place.crash(alloc);
    Ok(Messages::new(alloc))
}

/// Restarts a server that has crashed.
fn restart<P: Primary>(
    alloc: Global,
    places: &mut [Process<P>],
    number: usize,
) -> Result<Messages<P::Call>, WorldFault>
    ensures acts { (messages : List (Message P.Call)) (tags : UsedTags) → told (world places.new messages tags) result
        ≡ restarts (world places.old messages tags) number (resting places.old number) }
    ensures plain { IfErr result IsPlain }
    ensures silent { IfOk result (λ said. said ≡ []) }
{
    check_down(places, number)?;
    let place = &mut places[number - 1];
    place.up = true;
    Ok(Messages::new(alloc))
}

/// Executes an event at its server and returns the output; each leader's history ends below the
/// zxid that it assigns.
pub(crate) fn act<P: Primary, Q: Quorums>(
    alloc: Global,
    quorums: &Q,
    places: &mut [Process<P>],
    messages: &Messages<P::Call>,
    tags: &UsedTags,
    event: Event<P::Call>,
) -> Result<Output<P::Call>, WorldFault>
    requires { EachEndsBelow places.old }
    ensures acts { result ≢ Err faults.NoMemory → sent (world places.new messages.now tags.now) result
        ≡ happens (profile_of (Q.passes quorums.now) P.made_of P.tag_of P.closing_of)
        (world places.old messages.now tags.now) event }
    ensures unchanged { result ≡ Err faults.NoMemory → places.new ≡ places.old }
    ensures living { IfErr result IsLiving }
    ensures silent { IfOk result (λ saying.
        is_running (world places.old messages.now tags.now) (mover (world places.old messages.now tags.now) event) ≡ false
        → saying ≡ silence) }
{
    match event {
        Event::Lead { server } => Ok(Output::of(lead(alloc, places, server)?)),
        Event::Follow { server, leader } => {
            Ok(Output::of(follow(alloc, places, server, leader)?))
        }
        Event::Arrive { message } => {
            Ok(Output::of(arrive(alloc, quorums, places, messages, message)?))
        }
        Event::Submit { server, call } => submit(alloc, quorums, places, tags, server, call),
        Event::Expire {
            server,
            tag,
            session,
            now,
        } => {
            let call = P::closing(alloc, tag, session, now);
            submit(alloc, quorums, places, tags, server, call)
        }
        Event::Sync { server, tag } => sync(alloc, places, tags, server, tag),
        Event::Crash { server } => Ok(Output::of(crash(alloc, places, server)?)),
        Event::Restart { server } => Ok(Output::of(restart(alloc, places, server)?)),
    }
}
