//! Two servers in threads that fail to allocate: if they ran, closing returns the chronicle, at
//! once or as soon as there is memory.

ghost use Rattle.std.specs.Prelude.{◌≡◌, IfOk, length};

use crate::seen::Seen;
use std::alloc::Global;
use std::marker::Brand;
use std::sync::Wait;
use std::sync::ledger::Blank;
use std::thread::Threads;
use zk_model::Event;
use zk_path::NoMemory;
use zk_servers::{
    CallLedger, CloseFault, Gate, Receipt, Run, Seat, Shared, Started, Unclosed, inboxes,
    run_servers,
};

/// Holds no server.
#[derive(Drop)]
struct Open;

impl Gate for Open {
    fn enter(&self, _server: usize, _turn: u32) {}
}

/// Returns a list with one job.
fn job(alloc: Global, event: zab_model::Event<zk_prepare::Call>) -> Result<Vec<Event>, NoMemory> {
    let mut jobs = Vec::new(alloc);
    jobs.push(Event::World(event))?;
    Ok(jobs)
}

/// The jobs by which the first server leads, and the second one follows it.
fn jobs_of_two(alloc: Global) -> Result<Vec<Vec<Event>>, NoMemory>
    ensures { IfOk result (λ jobs. length jobs.items ≡ 2) }
{
    let lead = zab_model::Event::Lead { server: 1 };
    let follow = zab_model::Event::Follow {
        server: 2,
        leader: 1,
    };
    let first = job(alloc, lead)?;
    let second = job(alloc, follow)?;
    let mut jobs = Vec::new(alloc);
    jobs.reserve(2)?;
    jobs.push_reserved(first);
    jobs.push_reserved(second);
    Ok(jobs)
}

/// Closes the chronicle; after an allocation failure, closes it again.
fn closes<L: CallLedger, R: Wait>(
    rt: &R,
    alloc: Global,
    shared: Shared<L>,
    seats: Vec<Seat<L>>,
    receipts: Vec<Receipt>,
) -> Seen {
    match shared.close(rt, alloc, seats, receipts) {
        Ok(_) => Seen::Done,
        Err(it) => closes_then(rt, alloc, it),
    }
}

/// Closes again.
fn closes_then<L: CallLedger, R: Wait>(rt: &R, alloc: Global, it: Unclosed<L>) -> Seen {
    let Unclosed {
        fault,
        board,
        seats,
        receipts,
    } = it;
    let closed = Shared::over(board).close(rt, alloc, seats, receipts);
    Seen::refused(fault == CloseFault::NoMemory && closed.is_ok())
}

/// Returns the outcome of a run, with or without an allocation failure in it.
fn ended<L: CallLedger, R: Wait>(
    rt: &R,
    alloc: Global,
    shared: Shared<L>,
    ran: Result<Run<L>, NoMemory>,
) -> Seen {
    let Ok(
        Run {
            seats,
            receipts,
            passed,
        },
    ) = ran
    else {
        return Seen::Refused;
    };
    let is_short = passed.iter().any(|count| *count > 0);
    match closes(rt, alloc, shared, seats, receipts) {
        Seen::Done if is_short => Seen::Refused,
        seen => seen,
    }
}

/// Runs two servers in threads, for one turn each.
fn run<L: CallLedger + Send + Sync, R: Threads + Wait + Sync>(
    rt: &R,
    alloc: Global,
    blank: Blank,
) -> Result<Seen, NoMemory>
    requires name { blank.name ≡ L.name }
    requires parts { blank.parts ≡ L.parts }
    requires servers { 2 ≡ L.servers }
    requires enough { blank.parts ≡ 3 }
{
    let jobs = jobs_of_two(alloc)?;
    let post = inboxes(alloc, 2)?;
    let Started {
        shared,
        seats,
        readers: _,
    } = Shared::<L>::start(rt, alloc, blank, 2, 2, 1)?;
    let ran = run_servers(rt, alloc, &shared, &Open, post, seats, jobs, 1);
    Ok(ended(rt, alloc, shared, ran))
}

/// Chooses the type of the ledger.
pub(crate) fn serve<R: Threads + Wait + Sync>(rt: &R, alloc: Global) -> Result<Seen, NoMemory> {
    run::<Brand, R>(rt, alloc, Blank::new(3))
}
