//! A world that fails to allocate can continue, and its state is that after the run of the events
//! that count.

use crate::seen::Seen;
use std::alloc::Global;
use zab_broadcast::{Echo, EchoCall};
use zab_epoch::Majority;
use zab_model::Event;
use zab_world::{World, WorldFault};
use zk_path::NoMemory;

/// An event.
#[derive(Clone, Copy)]
enum Happening {
    Lead(usize),
    Follow(usize, usize),
    Arrive(usize),
    Submit(usize, u64),
    Sync(usize, u64),
    Crash(usize),
    Restart(usize),
}

fn event_of(happening: Happening) -> Event<EchoCall> {
    match happening {
        Happening::Lead(server) => Event::Lead { server },
        Happening::Follow(server, leader) => Event::Follow { server, leader },
        Happening::Arrive(message) => Event::Arrive { message },
        Happening::Submit(server, tag) => Event::Submit {
            server,
            call: EchoCall { tag },
        },
        Happening::Sync(server, tag) => Event::Sync { server, tag },
        Happening::Crash(server) => Event::Crash { server },
        Happening::Restart(server) => Event::Restart { server },
    }
}

const SERVERS: usize = 3;

/// The first leader crashes with an entry that no other server has. Another leads, and its
/// NewLeader replaces that entry.
static STORY: [Happening; 30] = [
    Happening::Lead(1),
    Happening::Follow(2, 1),
    Happening::Arrive(1),
    Happening::Arrive(2),
    Happening::Arrive(3),
    Happening::Arrive(4),
    Happening::Arrive(5),
    Happening::Submit(1, 1),
    Happening::Crash(1),
    Happening::Lead(2),
    Happening::Follow(3, 2),
    Happening::Arrive(8),
    Happening::Arrive(9),
    Happening::Arrive(10),
    Happening::Arrive(11),
    Happening::Arrive(12),
    Happening::Submit(2, 2),
    Happening::Arrive(14),
    Happening::Arrive(15),
    Happening::Arrive(16),
    Happening::Restart(1),
    Happening::Follow(1, 2),
    Happening::Arrive(17),
    Happening::Arrive(18),
    Happening::Arrive(19),
    Happening::Arrive(20),
    Happening::Arrive(21),
    Happening::Arrive(22),
    Happening::Sync(3, 1),
    Happening::Arrive(23),
];

type Small = World<Echo, Majority>;

/// Calls each event, and restarts a server that died. Keeps the events that count. Returns whether
/// an allocation failed.
fn walk(world: &mut Small, counts: &mut Vec<Event<EchoCall>>) -> Result<bool, NoMemory> {
    let mut was_refused = false;
    for happening in &STORY {
        match world.step(event_of(*happening)) {
            Err(WorldFault::NoMemory) => was_refused = true,
            Err(WorldFault::Died(server)) => {
                was_refused = true;
                starts_again(world, counts, server)?;
            }
            _ => counts.push(event_of(*happening))?,
        }
    }
    Ok(was_refused)
}

/// Appends the crash of a server, and its restart, to the events that count.
fn starts_again(
    world: &mut Small,
    counts: &mut Vec<Event<EchoCall>>,
    server: usize,
) -> Result<(), NoMemory> {
    counts.push(Event::Crash { server })?;
    counts.push(Event::Restart { server })?;
    match world.step(Event::Restart { server }) {
        Ok(_) => Ok(()),
        Err(_) => Err(NoMemory),
    }
}

/// Returns the state of a world in debug format.
fn shown(alloc: Global, world: &Small) -> Result<String, NoMemory> {
    let mut text = String::new(alloc);
    write!(text, "{:?}\n", world.messages())?;
    for server in 1..=SERVERS {
        push_server(&mut text, world, server)?;
    }
    Ok(text)
}

/// Appends the state of a server.
fn push_server(text: &mut String, world: &Small, server: usize) -> Result<(), NoMemory> {
    write!(text, "{:?} ", world.running(server))?;
    write!(text, "{:?} ", world.stable(server))?;
    write!(text, "{:?} ", world.delivered(server).tags())?;
    write!(text, "{:?}\n", world.syncs(server))?;
    Ok(())
}

/// Whether two worlds have the same state.
fn show_the_same(alloc: Global, one: &Small, other: &Small) -> Result<bool, NoMemory> {
    let shown_by_one = shown(alloc, one)?;
    let shown_by_other = shown(alloc, other)?;
    Ok(shown_by_one.as_str() == shown_by_other.as_str())
}

/// Whether a world's state is that after the run of these events.
fn is_led_to(alloc: Global, world: &Small, counts: Vec<Event<EchoCall>>) -> Result<bool, NoMemory> {
    let (replayed, _) = world.replay(counts)?;
    show_the_same(alloc, world, &replayed)
}

/// Calls the story, and checks that the world's state is that after the run.
fn walk_and_look(alloc: Global, world: &mut Small) -> Result<Seen, NoMemory> {
    let mut counts = Vec::new(alloc);
    let was_refused = walk(world, &mut counts)?;
    let holds = is_led_to(alloc, world, counts)?;
    Ok(if was_refused {
        Seen::refused(holds)
    } else {
        Seen::done(holds)
    })
}

pub(crate) fn step(alloc: Global) -> Result<Seen, NoMemory> {
    let mut world = Small::new(alloc, SERVERS)?;
    walk_and_look(alloc, &mut world)
}
