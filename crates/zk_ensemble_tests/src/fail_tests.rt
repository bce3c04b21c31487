//! Tests of `fail`: after each successful event, it leaves the world that has the crash of the
//! event's server in place of the event. And of `step`, which has the effect of `advance`, the call
//! that ensembles use.

use crate::happenings::Happening::{Arrive, Crash, Expire, Follow, Lead, Restart, Submit, Sync};
use crate::happenings::{
    COMMIT, EchoWorld, Happening, JOINED, Moment, SHORTER_LEADS, SUBMIT, SYNC, SYNCS, Story, TERMS,
    echo_event, event_at, takes,
};
use std::alloc::Global;
use zab_broadcast::EchoCall;
use zab_epoch::Stable;
use zab_world::Event;
use zk_path::NoMemory;

/// Events that both worlds execute afterwards. They show whether the tags are the same.
const AFTERWARDS: Story = &[
    &[Restart(1), Restart(2), Restart(3)],
    &[Submit(1, 1), Submit(2, 4), Expire(1, 7)],
    &[Sync(1, 9), Sync(2, 1), Lead(1), Submit(3, 5), Crash(2)],
];

/// Two worlds, of which one fails and in the other a server crashes.
#[derive(Drop)]
struct Pair {
    one: EchoWorld,
    other: EchoWorld,
}

/// Returns two new worlds of three servers.
fn new_pair(alloc: Global) -> Result<Pair, NoMemory> {
    let one = EchoWorld::new(alloc, 3)?;
    let other = EchoWorld::new(alloc, 3)?;
    Ok(Pair { one, other })
}

/// Whether two servers have the same stable state.
fn keep_alike(one: &Stable, other: &Stable) -> bool {
    one.promised == other.promised
        && one.current == other.current
        && one.history.tags() == other.history.tags()
        && one.history.bytes() == other.history.bytes()
}

/// Whether a server has the same state in two worlds.
fn stands_alike(one: &EchoWorld, other: &EchoWorld, server: usize) -> bool {
    let kept = match (one.stable(server), other.stable(server)) {
        (Some(kept), Some(other)) => keep_alike(kept, other),
        _ => false,
    };
    kept && one.running(server) == other.running(server)
        && one.delivered(server).len() == other.delivered(server).len()
        && one.syncs(server).len() == other.syncs(server).len()
}

/// Whether two worlds have the same state.
fn are_the_same(one: &EchoWorld, other: &EchoWorld) -> bool {
    one.messages().len() == other.messages().len()
        && [1, 2, 3]
            .iter()
            .all(|server| stands_alike(one, other, *server))
}

/// Executes a story's events, in the first world by `advance` if `advances`. Returns whether all
/// answers and the two worlds are the same.
fn go_on_alike(pair: &mut Pair, story: Story, advances: bool) -> bool {
    for number in 0..usize::MAX {
        let Some(moment) = event_at(story, number) else {
            break;
        };
        let answer = if advances {
            pair.one.advance(echo_event(moment))
        } else {
            pair.one.step(echo_event(moment))
        };
        if answer != pair.other.step(echo_event(moment)) {
            return false;
        }
    }
    are_the_same(&pair.one, &pair.other)
}

/// Executes an event of a running server, and has that server fail. Returns whether the event
/// succeeded.
fn fails(world: &mut EchoWorld, event: Event<EchoCall>) -> bool {
    let server = world.mover(&event);
    if world.running(server).is_err() || world.step(event).is_err() {
        return false;
    }
    world.fail();
    true
}

/// Crashes the event's server. Returns whether it ran.
fn crashes(world: &mut EchoWorld, event: &Event<EchoCall>) -> bool {
    let server = world.mover(event);
    world.step(Event::Crash { server }).is_ok()
}

/// Whether the first world, after a failed event of a story, is the second one, in which its server
/// crashed. Both execute the story's events before it.
fn fails_as_a_crash(pair: &mut Pair, story: Story, number: usize, moment: Moment) -> bool {
    takes(&mut pair.one, story, number)
        && takes(&mut pair.other, story, number)
        && crashes(&mut pair.other, &echo_event(moment))
        && fails(&mut pair.one, echo_event(moment))
        && are_the_same(&pair.one, &pair.other)
        && go_on_alike(pair, AFTERWARDS, false)
}

/// Does the same with two new worlds.
fn fails_at(alloc: Global, story: Story, number: usize, at: Moment) -> Result<bool, NoMemory> {
    let mut pair = new_pair(alloc)?;
    Ok(fails_as_a_crash(&mut pair, story, number, at))
}

/// Returns the number of events of a story after which `fail` leaves such a world: all, or those
/// before the first after which it does not. A restart is no event of a running server.
fn fail_alike(alloc: Global, story: Story) -> Result<usize, NoMemory> {
    for number in 0..usize::MAX {
        match event_at(story, number) {
            Some((Restart(_), _)) => {}
            Some(moment) => {
                if !fails_at(alloc, story, number, moment)? {
                    return Ok(number);
                }
            }
            None => return Ok(number),
        }
    }
    Ok(0)
}

/// Two calls whose acknowledgements arrive in reverse order.
const TWO_MORE: &[Happening] = &[Submit(1, 2), Submit(1, 3), Arrive(&[10, 11, 13, 12])];

/// The session is closed.
const CLOSING: &[Happening] = &[Expire(1, 7), Arrive(&[15, 16])];

/// A follower's call arrives at the leader three times.
const THRICE: &[Happening] = &[Submit(2, 4), Arrive(&[15, 15, 15])];

/// Stories, and their numbers of events.
static STORIES: [(Story, usize); 5] = [
    (&[JOINED, SUBMIT, COMMIT, TWO_MORE, CLOSING], 20),
    (&[JOINED, SUBMIT, COMMIT, TWO_MORE, THRICE], 21),
    (TERMS, 49),
    (SHORTER_LEADS, 24),
    (SYNCS, 17),
];

#[test]
fn events_fail_as_crashes(rt: HostRuntime) {
    for (story, count) in &STORIES {
        assert_eq!(rt; fail_alike(rt.alloc(), story), Ok(*count));
    }
}

/// Events that a world rejects after syncs. The faults are tested of an ensemble in
/// `checks/golden/ensembles.golden`.
const REFUSED: Story = &[
    JOINED,
    SUBMIT,
    SYNC,
    &[Lead(4), Follow(1, 1), Sync(4, 1), Arrive(&[0, 99])],
    &[Restart(1), Submit(3, 1), Sync(3, 1)],
    &[Crash(3), Lead(3), Crash(3), Submit(3, 1), Sync(3, 1)],
    &[Submit(1, 1), Expire(1, 1), Sync(2, 1)],
];

/// Whether two new worlds are the same, one after `advance` and the other after `step`, and stay
/// the same afterwards.
fn advances_alike(alloc: Global, story: Story) -> Result<bool, NoMemory> {
    let mut pair = new_pair(alloc)?;
    Ok(go_on_alike(&mut pair, story, true) && go_on_alike(&mut pair, AFTERWARDS, false))
}

#[test]
fn advances_as_it_steps(rt: HostRuntime) {
    // in these terms a follower drops an entry for a NewLeader
    for story in [TERMS, REFUSED] {
        assert_eq!(rt; advances_alike(rt.alloc(), story), Ok(true));
    }
}
