//! Worlds of echoes: the contents of messages, absent servers, and replays, each a new world with
//! the same quorums, after a list of events.

use crate::happenings::Happening::{Arrive, Follow, Lead};
use crate::happenings::{
    EchoWorld, JOINED, SHORTER_LEADS, SUBMIT, SYNCS, Story, TERMS, echo_event, event_at, takes,
};
use std::alloc::Global;
use zab_broadcast::{Echo, EchoCall};
use zab_epoch::{Body, Message, WeightFault, Weighted};
use zab_world::{Event, Moved, World, WorldFault};
use zk_path::NoMemory;

/// Returns the contents of a NewLeader: the zxid up to which a history is kept, and the number of
/// entries that come with it.
fn keeps(messages: &[Message<EchoCall>], number: usize) -> Option<(i64, usize)> {
    match &messages.get(number.checked_sub(1)?)?.body {
        Body::NewLeader { keep, rest, .. } => Some((*keep, rest.len())),
        _ => None,
    }
}

/// Whether a fourth server is absent.
fn hides_a_fourth(world: &EchoWorld) -> bool {
    world.delivered(4).len() == 0
        && world.syncs(4).is_empty()
        && world.stable(4).is_none()
        && world.running(4) == Err(WorldFault::NoServer)
}

/// Returns the contents of a NewLeader after a story, if a fourth server is absent.
fn told(alloc: Global, story: Story, number: usize) -> Result<Option<(i64, usize)>, NoMemory> {
    let mut world = EchoWorld::new(alloc, 3)?;
    if takes(&mut world, story, usize::MAX) && hides_a_fourth(&world) {
        Ok(keeps(world.messages(), number))
    } else {
        Ok(None)
    }
}

/// An empty history sends no entry. A server with an empty history, or that keeps no entry, gets
/// all entries; one that has them gets none; and one that keeps the first gets the second.
static NEW_LEADERS: [(Story, usize, (i64, usize)); 5] = [
    (SYNCS, 4, (0, 0)),
    (SHORTER_LEADS, 16, (0, 1)),
    (TERMS, 20, (0, 1)),
    (TERMS, 28, (0x2_0000_0001, 0)),
    (TERMS, 37, (0x2_0000_0001, 1)),
];

#[test]
fn new_leaders_tell_what_followers_lack(rt: HostRuntime) {
    for (story, number, said) in &NEW_LEADERS {
        assert_eq!(rt; told(rt.alloc(), story, *number), Ok(Some(*said)));
    }
}

/// Returns the events of a story.
fn events(alloc: Global, story: Story) -> Result<Vec<Event<EchoCall>>, NoMemory> {
    let mut events = Vec::new(alloc);
    for number in 0..usize::MAX {
        let Some(moment) = event_at(story, number) else {
            break;
        };
        events.push(echo_event(moment))?;
    }
    Ok(events)
}

/// The last event is the arrival of an absent message.
const REFUSED_LAST: Story = &[&[Lead(1), Follow(2, 1), Arrive(&[2])]];

/// The answers to the events.
static ANSWERS: [Result<Moved, WorldFault>; 3] = [
    Ok(Moved { first: 0, count: 0 }),
    Ok(Moved { first: 1, count: 1 }),
    Err(WorldFault::NoMessage),
];

/// Whether a replay of those events returns a world with one message, and these answers.
fn replays(alloc: Global, world: &EchoWorld) -> Result<bool, NoMemory> {
    let (after, answers) = world.replay(events(alloc, REFUSED_LAST)?)?;
    Ok(after.messages().len() == 1 && answers.as_slice() == ANSWERS.as_slice())
}

/// Does the same with a new world.
fn a_new_world_replays(alloc: Global) -> Result<bool, NoMemory> {
    let world = EchoWorld::new(alloc, 3)?;
    replays(alloc, &world)
}

#[test]
fn replay_gives_the_same_world(rt: HostRuntime) {
    assert_eq!(rt; a_new_world_replays(rt.alloc()), Ok(true));
}

/// Whether server 1, which outweighs the others, has delivered its call when a world has replayed
/// the events up to it.
fn delivers_alone(alloc: Global, world: &World<Echo, Weighted>) -> Result<bool, NoMemory> {
    let (after, _) = world.replay(events(alloc, &[JOINED, SUBMIT])?)?;
    Ok(after.delivered(1).len() == 1)
}

/// Does the same with a new world.
fn a_new_world_delivers_alone(alloc: Global) -> Result<bool, WeightFault> {
    let world = World::with(alloc, 3, Weighted::read(alloc, &[3, 1, 1])?)?;
    Ok(delivers_alone(alloc, &world)?)
}

#[test]
fn replayed_with_the_same_weights(rt: HostRuntime) {
    assert_eq!(rt; a_new_world_delivers_alone(rt.alloc()), Ok(true));
}
