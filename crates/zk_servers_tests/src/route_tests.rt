//! The inbox that each message of an event is sent to.

ghost use Rattle.std.specs.Prelude.{◌≡◌};

use crate::events::{Happening, event_of};
use std::alloc::Global;
use std::marker::Brand;
use std::sync::Wait;
use std::sync::ledger::Blank;
use std::test::Fail;
use zk_front::servers::{CallLedger, Inbox, Post, Seat, Senders, Shared, Started, inboxes};
use zk_path::NoMemory;

/// The second server follows the first, and then the third one does. At last a session is opened.
static EVENTS: [Happening; 16] = [
    Happening::Lead(1),
    Happening::Follow(2, 1),
    Happening::Arrive(1),
    Happening::Arrive(2),
    Happening::Arrive(3),
    Happening::Arrive(4),
    Happening::Arrive(5),
    Happening::Arrive(6),
    Happening::Follow(3, 1),
    Happening::Arrive(7),
    Happening::Arrive(8),
    Happening::Arrive(9),
    Happening::Arrive(10),
    Happening::Arrive(11),
    Happening::Arrive(12),
    Happening::Open(1),
];

/// The messages for each server: a follower's and the leader's take turns, and the session's
/// proposals, 13 and 14, go to both followers.
static ROUTES: [&[usize]; 3] = [&[1, 3, 5, 7, 9, 11], &[2, 4, 6, 13], &[8, 10, 12, 14]];

/// Calls each event, and sends its messages.
fn call_all<L: CallLedger, R: Wait>(
    rt: &R,
    alloc: Global,
    shared: &Shared<L>,
    seats: &mut [Seat<L>],
    senders: &Senders,
) -> Result<(), Fail> {
    let seat = seats.last_mut().ok_or(NoMemory)?;
    for happening in &EVENTS {
        let event = event_of(alloc, *happening)?;
        shared.call_routed(rt, senders, seat, event)?;
    }
    Ok(())
}

/// Does so over three new servers.
fn run<L: CallLedger, R: Wait>(
    rt: &R,
    alloc: Global,
    blank: Blank,
    senders: &Senders,
) -> Result<(), Fail>
    requires name { blank.name ≡ L.name }
    requires parts { blank.parts ≡ L.parts }
    requires servers { 3 ≡ L.servers }
    requires enough { blank.parts ≡ 2 }
{
    let Started {
        shared,
        mut seats,
        readers: _,
    } = Shared::<L>::start(rt, alloc, blank, 3, 1, 0)?;
    call_all(rt, alloc, &shared, &mut seats, senders)
}

/// Whether an inbox that was ended holds these numbers, in order.
fn holds<R: Wait>(rt: &R, inbox: &mut Inbox, numbers: &[usize]) -> bool {
    for number in numbers {
        if inbox.next(rt) != Some(*number) {
            return false;
        }
    }
    inbox.next(rt).is_none()
}

/// Returns the index of the first inbox that holds other numbers.
fn first_wrong<R: Wait>(rt: &R, inboxes: &mut [Inbox]) -> Option<usize> {
    for (place, inbox) in inboxes.iter_mut().enumerate() {
        let Some(numbers) = ROUTES.get(place) else {
            return Some(place);
        };
        if !holds(rt, inbox, numbers) {
            return Some(place);
        }
    }
    None
}

/// Returns the index of the first inbox that holds other numbers after the events. Chooses the type
/// of the ledger.
fn misrouted<R: Wait>(rt: &R, alloc: Global) -> Result<Option<usize>, Fail> {
    let Post {
        mut inboxes,
        senders,
    } = inboxes(alloc, 3)?;
    let called = run::<Brand, R>(rt, alloc, Blank::new(2), &senders);
    senders.end_all();
    match called {
        Ok(()) => Ok(first_wrong(rt, &mut inboxes)),
        Err(fail) => Err(fail),
    }
}

#[test]
fn each_message_goes_to_its_own_server(rt: HostRuntime) -> Result<(), Fail> {
    assert_eq!(rt; misrouted(&rt, rt.alloc())?, None);
    Ok(())
}
