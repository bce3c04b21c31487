//! After an allocation failure a chronicle has as many records as before, or one more: the crash of
//! the server that died.

use crate::events::{Happening, event_of};
use crate::seen::Seen;
use std::alloc::Global;
use zk_model::{EnsembleFault, Event};
use zk_path::NoMemory;
use zk_servers::{CallFault, Chronicle, Receipt};

const SERVERS: usize = 3;

/// A leader and a follower agree on a session, its node, and its end, which fires a watch. The
/// follower restarts.
static STORY: [Happening; 19] = [
    Happening::Lead(1),
    Happening::Follow(2, 1),
    Happening::Arrive(1),
    Happening::Arrive(2),
    Happening::Arrive(3),
    Happening::Arrive(4),
    Happening::Arrive(5),
    Happening::Open(1),
    Happening::Arrive(7),
    Happening::Arrive(8),
    Happening::Make(1),
    Happening::Arrive(10),
    Happening::Arrive(11),
    Happening::Look(1),
    Happening::Close(1),
    Happening::Arrive(13),
    Happening::Arrive(14),
    Happening::Crash(2),
    Happening::Restart(2),
];

/// Whether the last record is the crash of a server that died.
fn tells_death(chronicle: &Chronicle, server: usize) -> bool {
    let Some(record) = chronicle.records().last() else {
        return false;
    };
    matches!(&record.event, Event::World(zab_model::Event::Crash { server: at }) if *at == server)
        && matches!(&record.answer, Err(EnsembleFault::Died(at)) if *at == server)
}

/// Whether there is one record more, with its number, and it records a crash if the receipt does.
fn is_recorded(chronicle: &Chronicle, before: usize, receipt: &Receipt) -> Seen {
    let after = chronicle.records().len();
    let counts = before < after && receipt.number as usize == after;
    match receipt.answer {
        Err(EnsembleFault::Died(server)) => Seen::refused(counts && tells_death(chronicle, server)),
        _ => Seen::done(counts),
    }
}

/// Calls an event that is to be recorded.
fn recorded(chronicle: &mut Chronicle, event: Event) -> Seen {
    let before = chronicle.records().len();
    match chronicle.add(event) {
        Ok(receipt) => is_recorded(chronicle, before, &receipt),
        Err(CallFault::NoMemory) => Seen::refused(chronicle.records().len() == before),
        Err(CallFault::Full) => Seen::Differs,
    }
}

/// Calls each event of the story, up to the first that fails to allocate.
fn tell(alloc: Global, chronicle: &mut Chronicle) -> Result<Seen, NoMemory> {
    for happening in &STORY {
        let seen = recorded(chronicle, event_of(alloc, *happening)?);
        if seen != Seen::Done {
            return Ok(seen);
        }
    }
    Ok(Seen::Done)
}

/// Calls a crash and a restart, which never fail to allocate.
fn goes_on(alloc: Global, chronicle: &mut Chronicle) -> Result<bool, NoMemory> {
    for more in [Happening::Crash(3), Happening::Restart(3)] {
        if recorded(chronicle, event_of(alloc, more)?) != Seen::Done {
            return Ok(false);
        }
    }
    Ok(true)
}

/// Calls the story, and then a crash and a restart.
fn tell_on(alloc: Global, chronicle: &mut Chronicle) -> Result<Seen, NoMemory> {
    let seen = tell(alloc, chronicle)?;
    Ok(if goes_on(alloc, chronicle)? {
        seen
    } else {
        Seen::Differs
    })
}

pub(crate) fn add(alloc: Global) -> Result<Seen, NoMemory> {
    let mut chronicle = Chronicle::new(alloc, SERVERS)?;
    tell_on(alloc, &mut chronicle)
}
