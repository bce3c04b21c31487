ghost use Rattle.std.specs.Prelude.{◌≡◌, length, map, IfOk, vec_len};
ghost use Rattle.zk_servers.specs.Running.{AllDid, ArePromised, AreWorkers, DidRun, IsRunOf};
ghost use Rattle.zk_servers.specs.Turns.{DidTurns};

use crate::Receipt;
use crate::inbox::{Inbox, Post, Senders};
use crate::ledger::CallLedger;
use crate::seat::Seat;
use crate::serving::{Gate, Worked, Worker, serve};
use crate::shared::Shared;
use std::alloc::Global;
use std::snapshot::Snapshot;
use std::sync::Wait;
use std::sync::ledger::Ledger;
use std::thread;
use std::thread::{Promise, PromisedHandle, Scope, Threads};
use zk_model::Event;
use zk_path::NoMemory;

/// The input of a server's thread.
#[derive(Drop)]
pub struct Turns<L: Ledger> {
    worker: Snapshot<Worker<L>>,
    turns: u32,
}

impl<L: Ledger> Promise<Worked<L>> for Turns<L> {
    ghost kept_by = { λ p w. DidTurns p.worker.value.seat p.worker.value.jobs.items p.turns w.seat w.receipts.items w.passed };
}

/// The effect of all servers' turns.
#[derive(Drop)]
pub struct Run<L: Ledger> {
    /// The seats, with the calls that were made.
    pub seats: Vec<Seat<L>>,
    /// One for each call, seat by seat.
    pub receipts: Vec<Receipt>,
    /// The number of each server's jobs that were passed over, since their calls failed.
    pub passed: Vec<usize>,
}

/// Runs each server in a thread of its own, for `turns` turns. In each turn a server passes the
/// gate, and then takes its next job; without jobs it waits for the number of an arriving message
/// in its inbox. It calls the event, and sends the numbers of new messages to their addressees. The
/// number 0 ends the thread.
///
/// Fails with [`NoMemory`] also if a thread can't be spawned. Then no thread continues, the records
/// remain, and the seats are lost.
pub fn run_servers<L: CallLedger + Send + Sync, G: Gate + Sync, R: Threads + Wait + Sync>(
    rt: &R,
    alloc: Global,
    shared: &Shared<L>,
    gate: &G,
    post: Post,
    seats: Vec<Seat<L>>,
    jobs: Vec<Vec<Event>>,
    turns: u32,
) -> Result<Run<L>, NoMemory>
    requires inboxes { length post.inboxes.items ≡ length seats.items }
    requires jobs { length jobs.items ≡ length seats.items }
    ensures { IfOk result (λ run. DidRun seats.items (map (λ list. list.items) jobs.items) turns run.seats.items run.receipts.items run.passed.items) }
{
    let Post { inboxes, senders } = post;
    let workers = workers_of(alloc, inboxes, seats, jobs)?;
    let worked = run_workers(rt, alloc, shared, gate, &senders, workers, turns)?;
    let done = run_of(alloc, worked)?;
    Ok(done)
}

/// Returns the input of each server's thread.
fn workers_of<L: Ledger>(
    alloc: Global,
    inboxes: Vec<Inbox>,
    seats: Vec<Seat<L>>,
    jobs: Vec<Vec<Event>>,
) -> Result<Vec<Worker<L>>, NoMemory>
    requires inboxes { length inboxes.items ≡ length seats.items }
    requires jobs { length jobs.items ≡ length seats.items }
    ensures { IfOk result (λ workers. AreWorkers seats.items (map (λ list. list.items) jobs.items) workers.items) }
{
    let mut workers = Vec::new(alloc);
    workers.reserve(seats.len())?;
    let mut ends = inboxes.into_iter();
    let mut lists = jobs.into_iter();
    for seat in seats {
        let (Some(inbox), Some(jobs)) = (ends.next(), lists.next()) else {
            unreachable!()
        };
        workers.push_reserved(Worker {
            server: workers.len() + 1,
            seat,
            inbox,
            jobs,
        });
    }
    Ok(workers)
}

/// Returns the results of the threads, in three lists.
fn run_of<L: Ledger>(alloc: Global, worked: Vec<Worked<L>>) -> Result<Run<L>, NoMemory>
    ensures { IfOk result (λ run. IsRunOf worked.items run.seats.items run.receipts.items run.passed.items) }
{
    let mut seats = Vec::new(alloc);
    seats.reserve(worked.len())?;
    let mut receipts = Vec::new(alloc);
    let mut passed = Vec::new(alloc);
    passed.reserve(worked.len())?;
    for one in worked {
        let Worked {
            seat,
            receipts: told,
            passed: count,
        } = one;
        let mut told = told;
        receipts.append(&mut told)?;
        seats.push_reserved(seat);
        passed.push_reserved(count);
    }
    Ok(Run {
        seats,
        receipts,
        passed,
    })
}

/// Spawns a thread for each server. If one can't be spawned, ends the others, and waits for them.
pub(crate) fn run_workers<L: CallLedger + Send + Sync, G: Gate + Sync, R: Threads + Wait + Sync>(
    rt: &R,
    alloc: Global,
    shared: &Shared<L>,
    gate: &G,
    senders: &Senders,
    workers: Vec<Worker<L>>,
    turns: u32,
) -> Result<Vec<Worked<L>>, NoMemory>
    ensures { IfOk result (λ worked. AllDid workers.items turns worked.items) }
{
    thread::scope(
        thread::scope_env(),
        rt,
        move |scope| -> Result<Vec<Worked<L>>, NoMemory>
            ensures { IfOk result (λ worked. AllDid workers.items turns worked.items) }
        {
            let children = start_all(scope, rt, alloc, shared, gate, senders, workers, turns)?;
            let Ok(worked) = thread::join_promised(rt, children) else {
                return Err(NoMemory);
            };
            Ok(worked)
        },
    )
}

fn start_all<'s, E, L: CallLedger + Send + Sync, G: Gate + Sync, R: Threads + Wait + Sync>(
    scope: &Scope<'s, E>,
    rt: &'s R,
    alloc: Global,
    shared: &'s Shared<L>,
    gate: &'s G,
    senders: &'s Senders,
    workers: Vec<Worker<L>>,
    turns: u32,
) -> Result<Vec<PromisedHandle<Worked<L>, Turns<L>>>, NoMemory>
    ensures { IfOk result (λ children. ArePromised workers.items turns children.items) }
{
    let mut children = Vec::new(alloc);
    if children.reserve(workers.len()).is_err() {
        return Err(NoMemory);
    }
    for worker in workers {
        let promise = Turns {
            worker: Snapshot::of(&worker),
            turns,
        };
        let started = scope.spawn_with(
            promise,
            move || serve(rt, alloc, shared, gate, senders, worker, turns),
        );
        match started {
            Ok(child) => children.push_reserved(child),
            Err(_) => {
                senders.end_all();
                return Err(NoMemory);
            }
        }
    }
    Ok(children)
}
