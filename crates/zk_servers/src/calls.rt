ghost use Rattle.std.specs.Prelude.{◌≡◌, ◌≢◌, ◌<◌, false, true, length};
ghost use Rattle.zk_model.specs.declared.event.Event.TheVariants as events;
ghost use Rattle.zab_model.specs.declared.event.Event.TheVariants.{Crash};
ghost use Rattle.zk_servers.specs.Calls.{AllStand, IsRecordFor, Stands, StandsAt};

use crate::record::Record;
use zk_model::{EnsembleFault, Equals, Event};

/// A call of a seat: the number of its record, and the event that was passed in.
#[derive(Debug, Drop)]
pub struct Made {
    pub number: u32,
    pub event: Event,
}

/// Whether each call is in the chronicle at its number, and the numbers increase.
pub fn calls_stand(records: &[Record], calls: &[Made]) -> bool
    ensures yes { result ≡ true → AllStand records.now calls.now }
    ensures no { result ≡ false → AllStand records.now calls.now → ⊥ }
{
    for at in 0..calls.len() {
        if !stands_at(records, calls, at) {
            return false;
        }
    }
    true
}

fn stands_at(records: &[Record], calls: &[Made], at: usize) -> bool
    requires { at < length calls.now }
    ensures yes { result ≡ true → StandsAt records.now calls.now at }
    ensures no { result ≡ false → StandsAt records.now calls.now at → ⊥ }
{
    let call = &calls[at];
    if at > 0 && calls[at - 1].number >= call.number {
        return false;
    }
    stands(records, call)
}

fn stands(records: &[Record], call: &Made) -> bool
    ensures yes { result ≡ true → Stands records.now call.now }
    ensures no { result ≡ false → Stands records.now call.now → ⊥ }
{
    if call.number == 0 {
        return false;
    }
    let place = (call.number - 1) as usize;
    match records.get(place) {
        Some(it) => is_record_for(it, &call.event),
        None => false,
    }
}

/// Whether an event counted as the one that is recorded.
fn is_record_for(it: &Record, event: &Event) -> bool
    ensures yes { result ≡ true → IsRecordFor event.now it.now }
    ensures no { result ≡ false → IsRecordFor event.now it.now → ⊥ }
{
    match &it.answer {
        Err(EnsembleFault::NoMemory) => false,
        Err(EnsembleFault::Died(server)) => is_crash(&it.event, *server),
        _ => it.event.equals(event),
    }
}

fn is_crash(event: &Event, server: usize) -> bool
    ensures yes { result ≡ true → event.now ≡ events.World (Crash server) }
    ensures no { result ≡ false → event.now ≢ events.World (Crash server) }
{
    match event {
        Event::World(zab_model::Event::Crash { server: crashed }) => *crashed == server,
        _ => false,
    }
}
