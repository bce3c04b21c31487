//! Agreement over lists of events from a fixed random generator. A favourite leads for some time,
//! and most events are arrivals of new messages; but messages are lost, repeated and reordered,
//! servers crash, and others lead beside it.

ghost use Rattle.std.specs.Prelude.{◌<◌};

use crate::happenings::EchoWorld;
use std::alloc::Global;
use zab_broadcast::EchoCall;
use zab_epoch::{Body, Entries};
use zab_world::{Caught, Event, Moved, WorldFault};
use zk_path::NoMemory;

/// A linear congruential generator, with Knuth's multiplier for 64 bits.
#[derive(Debug, Drop)]
struct Draws {
    seed: u64,
}

impl Draws {
    /// Returns a number below `limit`.
    fn below(&mut self, limit: u64) -> u64
        requires { 0 < limit }
        ensures { result < limit }
    {
        self.seed = self
            .seed
            .wrapping_mul(6_364_136_223_846_793_005)
            .wrapping_add(1_442_695_040_888_963_407);
        (self.seed >> 33) % limit
    }

    /// Returns one of `servers` servers.
    fn server(&mut self, servers: u64) -> usize
        requires { 0 < servers }
    {
        (self.below(servers) as usize).saturating_add(1)
    }

    /// A message arrives: mostly one of the last, the newest most often; one in sixteen times any
    /// that was ever sent.
    fn arrival(&mut self, sent: usize) -> Event<EchoCall> {
        let span = match self.below(16) {
            0 => (sent as u64).max(1),
            _ => self.below(8).saturating_add(1),
        };
        Event::Arrive {
            message: sent.saturating_sub(self.below(span) as usize),
        }
    }

    /// Any other event, or an arrival. The favourite gets most followers and most calls.
    fn event(&mut self, servers: u64, favourite: usize, tag: u64, sent: usize) -> Event<EchoCall>
        requires { 0 < servers }
    {
        let server = self.server(servers);
        let call = EchoCall { tag };
        match self.below(200) {
            0 => Event::Crash { server },
            1 => Event::Lead { server },
            2..10 => Event::Restart { server },
            10..26 => Event::Follow {
                server,
                leader: favourite,
            },
            26..28 => Event::Follow {
                server,
                leader: self.server(servers),
            },
            28..36 => Event::Submit { server, call },
            36..56 => Event::Submit {
                server: favourite,
                call,
            },
            56..60 => Event::Sync { server, tag },
            _ => self.arrival(sent),
        }
    }
}

/// The number of events of a favourite's term. Each term begins with its favourite's lead, while
/// the one before still leads.
const TERM: u64 = 250;

/// Returns the running server with the greatest current epoch and last zxid, the last of several:
/// no vote of another running one is greater than its own. Returns the first one if none runs.
fn fullest(world: &EchoWorld, servers: usize) -> usize {
    let (mut best, mut current, mut last) = (1, 0, 0);
    for server in 1..servers.saturating_add(1) {
        if world.running(server).is_err() {
            continue;
        }
        if let Some(stable) = world.stable(server) {
            let zxid = stable.history.last_zxid();
            if stable.current > current || (stable.current == current && zxid >= last) {
                best = server;
                current = stable.current;
                last = zxid;
            }
        }
    }
    best
}

/// Whether a delivered list agrees with the longest one so far, in the tags and zxids of its
/// entries, and no allocation failed. A longer list extends the longest one.
fn agrees(longest: &mut Vec<(u64, i64)>, delivered: &Entries<'_>) -> bool {
    let Ok(txns) = delivered.txns().read(*longest.allocator()) else {
        return false;
    };
    let told = delivered.tags().iter().zip(txns.as_slice());
    for (index, (tag, txn)) in told.enumerate() {
        let entry = (*tag, txn.zxid);
        let is_told = match longest.as_slice().get(index) {
            Some(other) => *other == entry,
            None => longest.push(entry).is_ok(),
        };
        if !is_told {
            return false;
        }
    }
    true
}

/// A sync that was accepted: its tag, its server, and the number of entries that the leader of the
/// server's epoch had delivered then.
#[derive(Clone, Copy, Drop)]
struct Taken {
    tag: u64,
    server: usize,
    delivered: u64,
}

/// What was observed of a world: the longest list that was ever delivered, in tags and zxids; the
/// accepted syncs; and the greatest number of completed ones at a server.
#[derive(Drop)]
struct Seen {
    longest: Vec<(u64, i64)>,
    taken: Vec<Taken>,
    answered: usize,
}

/// Returns the sync that a server accepted just now. The leader of its epoch is the addressee of
/// the sync's message; if there is no message, the server leads.
fn taken_now(world: &EchoWorld, server: usize, tag: u64, moved: Moved) -> Taken {
    let leader = match world.messages().get(moved.first.wrapping_sub(1)) {
        Some(message) if matches!(message.body, Body::SyncAsk { .. }) => message.addressee,
        _ => server,
    };
    Taken {
        tag,
        server,
        delivered: world.delivered(leader).len() as u64,
    }
}

/// Whether a completed sync keeps the law of syncs. Its server accepted it, and has delivered at
/// least as many entries as the sync's length. The leader of the epoch had delivered no more when
/// it was accepted. All delivered lists agree, and so the leader's list then is a prefix of the
/// server's.
fn is_caught(taken: &[Taken], server: usize, caught: &Caught, delivered: u64) -> bool {
    caught.length <= delivered
        && taken.iter().any(|it| {
            it.tag == caught.tag && it.server == server && it.delivered <= caught.length
        })
}

/// Whether all servers' delivered lists agree with the longest one so far, and all completed syncs
/// keep the law of syncs.
fn all_agree(world: &EchoWorld, servers: usize, seen: &mut Seen) -> bool {
    for server in 1..servers.saturating_add(1) {
        let delivered = world.delivered(server);
        if !agrees(&mut seen.longest, &delivered) {
            return false;
        }
        let length = delivered.len() as u64;
        let syncs = world.syncs(server);
        let taken = seen.taken.as_slice();
        if !syncs
            .iter()
            .all(|caught| is_caught(taken, server, caught, length))
        {
            return false;
        }
        seen.answered = seen.answered.max(syncs.len());
    }
    true
}

/// Whether this holds after one more event, and no allocation failed.
fn agree_after(
    world: &mut EchoWorld,
    servers: usize,
    event: Event<EchoCall>,
    seen: &mut Seen,
) -> bool {
    let sync = match event {
        Event::Sync { server, tag } => Some((server, tag)),
        _ => None,
    };
    let answer = world.step(event);
    if matches!(answer, Err(WorldFault::NoMemory | WorldFault::Died(_))) {
        return false;
    }
    if let (Some((server, tag)), Ok(moved)) = (sync, answer) {
        let taken = taken_now(world, server, tag, moved);
        if seen.taken.push(taken).is_err() {
            return false;
        }
    }
    all_agree(world, servers, seen)
}

/// Whether this holds after each of 2,000 random events.
fn agree_throughout(world: &mut EchoWorld, servers: usize, seen: &mut Seen) -> bool
    requires { 0 < servers }
{
    let mut draws = Draws { seed: 2012 };
    let mut favourite = 1;
    for number in 0..2000 {
        let event = if number % TERM == 0 {
            favourite = fullest(world, servers);
            Event::Lead { server: favourite }
        } else {
            draws.event(servers as u64, favourite, number, world.messages().len())
        };
        if !agree_after(world, servers, event, seen) {
            return false;
        }
    }
    true
}

/// Counts the epochs of a list's entries.
fn epochs(told: &[(u64, i64)]) -> usize {
    let mut count: usize = 0;
    let mut last = 0;
    for (_tag, zxid) in told {
        if *zxid >> 32 != last {
            last = *zxid >> 32;
            count = count.saturating_add(1);
        }
    }
    count
}

/// Returns the number of epochs of the longest delivered list, and the greatest number of completed
/// syncs at a server. `None` if two lists differ, a sync breaks its law, or an allocation failed.
fn all_reached(alloc: Global, world: &mut EchoWorld, servers: usize) -> Option<(usize, usize)>
    requires { 0 < servers }
{
    let mut seen = Seen {
        longest: Vec::new(alloc),
        taken: Vec::new(alloc),
        answered: 0,
    };
    if !agree_throughout(world, servers, &mut seen) {
        return None;
    }
    Some((epochs(seen.longest.as_slice()), seen.answered))
}

/// Does the same in a new world of `servers` servers.
fn reached_among(alloc: Global, servers: usize) -> Result<Option<(usize, usize)>, NoMemory>
    requires { 0 < servers }
{
    let mut world = EchoWorld::new(alloc, servers)?;
    Ok(all_reached(alloc, &mut world, servers))
}

#[test]
fn delivered_lists_agree_and_syncs_catch_up(rt: HostRuntime) {
    for servers in [3, 4, 5] {
        let told = reached_among(rt.alloc(), servers);
        assert!(rt;
            matches!(told, Ok(Some((epochs, syncs))) if epochs >= 3 && syncs >= 1),
            "{servers} servers: {told:?}"
        );
    }
}
