//! Events of three servers, as plain values, and stories of them. The messages of each event are
//! tested in `checks/golden/ensembles.golden` and in `examples/runs`.

use crate::happenings::Happening::{Arrive, Crash, Expire, Follow, Lead, Restart, Submit, Sync};
use zab_broadcast::{Echo, EchoCall};
use zab_epoch::Majority;
use zab_model::Event;
use zab_world::World;

/// A world of echoes.
pub type EchoWorld = World<Echo, Majority>;

/// The session that the first call of the first epoch opens.
pub const FIRST: i64 = 0x1_0000_0001;

/// An event, or arrivals. Servers and messages are numbered from 1, and a call is its tag.
#[derive(Clone, Copy)]
pub enum Happening {
    Lead(usize),
    Follow(usize, usize),
    /// Messages arrive, one after the other: an event for each.
    Arrive(&'static [usize]),
    Crash(usize),
    Restart(usize),
    Submit(usize, u64),
    /// The first session's expiry.
    Expire(usize, u64),
    /// A client's sync with a tag.
    Sync(usize, u64),
}

/// Events in order, one line after the other.
pub type Story = &'static [&'static [Happening]];

/// An event, or one of several arrivals by its index from 0 on.
pub type Moment = (Happening, usize);

/// Returns the event of a story at an index from 0 on.
pub fn event_at(story: Story, number: usize) -> Option<Moment> {
    let mut left = number;
    for line in story {
        for happening in *line {
            let count = match happening {
                Arrive(messages) => messages.len(),
                _ => 1,
            };
            if left < count {
                return Some((*happening, left));
            }
            left = left.saturating_sub(count);
        }
    }
    None
}

/// Returns the tag of a submitted call.
pub fn tag_of(moment: Moment) -> u64 {
    match moment {
        (Submit(_, tag), _) => tag,
        _ => 0,
    }
}

/// Returns the event, with a call if one is submitted.
pub fn event_with<C: Drop>(moment: Moment, call: C) -> Event<C> {
    let (happening, place) = moment;
    match happening {
        Submit(server, _) => Event::Submit { server, call },
        Lead(server) => Event::Lead { server },
        Follow(server, leader) => Event::Follow { server, leader },
        Arrive(messages) => Event::Arrive {
            message: messages.get(place).copied().unwrap_or(0),
        },
        Crash(server) => Event::Crash { server },
        Restart(server) => Event::Restart { server },
        Expire(server, tag) => Event::Expire {
            server,
            tag,
            session: FIRST,
            now: 3000,
        },
        Sync(server, tag) => Event::Sync { server, tag },
    }
}

/// Returns the event of a world of echoes.
pub fn echo_event(moment: Moment) -> Event<EchoCall> {
    let tag = tag_of(moment);
    event_with(moment, EchoCall { tag })
}

/// Executes the first `count` events of a story, or all. Returns whether each succeeded.
pub fn takes(world: &mut EchoWorld, story: Story, count: usize) -> bool {
    for number in 0..count {
        let Some(moment) = event_at(story, number) else {
            return true;
        };
        if world.step(echo_event(moment)).is_err() {
            return false;
        }
    }
    true
}

/// Server 1 leads, and server 2 follows it and has its history.
pub const JOINED: &[Happening] = &[Lead(1), Follow(2, 1), Arrive(&[1, 2, 3, 4, 5])];

/// The first call is proposed.
pub const SUBMIT: &[Happening] = &[Submit(1, 1)];

/// It is acknowledged, and committed at server 1; then server 2 delivers it.
pub const COMMIT: &[Happening] = &[Arrive(&[7, 8, 9])];

/// Instead: it is committed, and server 2 learns of it by a sync before the commit arrives.
pub const SYNC: &[Happening] = &[Arrive(&[7, 8]), Sync(2, 1), Arrive(&[10, 11, 11, 9])];

/// Then the leader completes its own syncs at once.
pub const SYNCS: Story = &[JOINED, SUBMIT, SYNC, &[Sync(1, 9), Sync(1, 2)]];

/// Crashes, and one leader's history replaced by another's.
pub const TERMS: Story = &[
    // server 1 crashes before its entry is acknowledged; servers 2 and 3 continue without it
    JOINED,
    &[Submit(1, 1), Crash(1), Lead(2), Follow(3, 2)],
    &[Arrive(&[8, 9, 10, 11, 12]), Submit(2, 2)],
    &[Arrive(&[14, 15, 16])],
    // server 1 restarts, and follows server 2
    &[Restart(1), Follow(1, 2)],
    &[Arrive(&[17, 18, 19, 20, 21, 22])],
    // server 2 appends an entry that no other server gets, and crashes; servers 3 and 1, with equal
    // histories, continue without it
    &[Submit(2, 3), Crash(2), Lead(3), Follow(1, 3)],
    &[Arrive(&[25, 26, 27, 28, 29]), Submit(3, 4)],
    &[Arrive(&[31, 32, 33])],
    // server 2 restarts, and follows server 3
    &[Restart(2), Follow(2, 3)],
    &[Arrive(&[34, 35, 36, 37, 38, 39])],
];

/// Server 3, with an empty history, leads, and gets the vote of server 2; then server 2 leads, and
/// server 3 follows it.
pub const SHORTER_LEADS: Story = &[
    JOINED,
    SUBMIT,
    COMMIT,
    &[Lead(3), Follow(2, 3), Arrive(&[10, 11, 12])],
    &[Lead(2), Follow(3, 2)],
    &[Arrive(&[13, 14, 15, 16, 17, 18])],
];
