//! Servers as threads, and connections that server 1 serves.
ghost use Rattle.std.specs.Prelude.{◌≡◌, ◌+◌, ◌≤◌, ◌++◌, ◌∷◌, [], IfOk, length};
ghost use Rattle.zk_serve.specs.Closing.{Closes};

use crate::accepting::{Served, serve_connections};
use crate::start_barrier::StartBarrier;
use std::alloc::Global;
use std::marker::Brand;
use std::net::TcpListener;
use std::sync::Wait;
use std::sync::ledger::{Blank, Ledger};
use std::thread::Threads;
use std::{thread, time};
use zk_front::servers::{
    CallLedger, CloseFault, Event, Post, Receipt, Run, Seat, Shared, Started, inboxes, run_servers,
};
use zk_front::{Clock, Remote, ServiceFault, Unstarted};
use zk_path::NoMemory;

/// What the threads return.
#[derive(Drop)]
struct Ended<L: Ledger> {
    served: Served,
    run: Run<L>,
    /// The seat of the connections.
    seat: Seat<L>,
    receipts: Vec<Receipt>,
}

/// Starts servers, and serves connections at server 1.
pub(crate) fn serve_clients<R: Threads + Wait + time::Clock + Sync, C: Clock>(
    rt: &R,
    alloc: Global,
    listener: &TcpListener,
    servers: usize,
    connections: u32,
    clock: C,
) -> Result<Served, NoMemory>
    requires servers { (2 ≤ servers) × (servers ≤ 15) }
{
    // This call chooses the ledger.
    serve_over::<Brand, R, C>(
        rt,
        alloc,
        Blank::new(servers as u64 + 2),
        listener,
        servers,
        connections,
        clock,
    )
}

/// Like [`serve_clients`], over any ledger.
fn serve_over<L: CallLedger + Send + Sync, R: Threads + Wait + time::Clock + Sync, C: Clock>(
    rt: &R,
    alloc: Global,
    blank: Blank,
    listener: &TcpListener,
    servers: usize,
    connections: u32,
    clock: C,
) -> Result<Served, NoMemory>
    requires name { blank.name ≡ L.name }
    requires parts { blank.parts ≡ L.parts }
    requires enough { blank.parts ≡ servers + 2 }
    requires ledger { servers ≡ L.servers }
    requires servers { (2 ≤ servers) × (servers ≤ 15) }
{
    // The readers of views are unused: every read takes the lock.
    let Started {
        shared,
        mut seats,
        ..
    } = Shared::<L>::start(rt, alloc, blank, servers, servers + 1, 0)?;
    let Some(seat) = seats.pop() else {
        unreachable!()
    };
    let post = inboxes(alloc, servers)?;
    let senders = post.senders.copy(alloc)?;
    let remote = match Remote::start(rt, alloc, &shared, seat, senders, clock, servers) {
        Ok(remote) => remote,
        Err(unstarted) => return why_unserved(&unstarted),
    };
    let ended = run_and_serve(
        rt,
        alloc,
        &shared,
        post,
        seats,
        remote,
        listener,
        connections,
    )?;
    close(rt, alloc, shared, ended)
}

/// The result for the connections if the servers did not start.
fn why_unserved<L: Ledger>(unstarted: &Unstarted<L>) -> Result<Served, NoMemory> {
    match unstarted.fault {
        ServiceFault::Memory => Err(NoMemory),
        ServiceFault::Server | ServiceFault::Behind => Ok(Served::Unheard),
    }
}

/// Runs servers and serves connections, and then ends the servers.
fn run_and_serve<L: CallLedger + Send + Sync, R: Threads + Wait + time::Clock + Sync, C: Clock>(
    rt: &R,
    alloc: Global,
    shared: &Shared<L>,
    post: Post,
    seats: Vec<Seat<L>>,
    remote: Remote<'_, L, R, C>,
    listener: &TcpListener,
    connections: u32,
) -> Result<Ended<L>, NoMemory>
    requires inboxes { length post.inboxes.items ≡ length seats.items }
{
    let senders = post.senders.copy(alloc)?;
    let servers = seats.len();
    let doors = StartBarrier::new();
    let doors = &doors;
    thread::scope(
        thread::scope_env(),
        rt,
        move |scope| -> Result<Ended<L>, NoMemory>
            requires { length post.inboxes.items ≡ length seats.items }
        {
            let started = scope.spawn(
                move ||
                    requires { length post.inboxes.items ≡ length seats.items }
                { run_all(rt, alloc, shared, doors, post, seats) },
            );
            let Ok(running) = started else {
                return Err(NoMemory);
            };
            let mut remote = remote;
            let served = if doors.wait(rt, servers) {
                serve_connections(alloc, listener, connections, &mut remote)
            } else {
                Err(NoMemory)
            };
            senders.end_all();
            let run = running.join(rt)?;
            let (seat, receipts) = remote.end();
            Ok(Ended {
                served: served?,
                run,
                seat,
                receipts,
            })
        },
    )
}

/// Runs servers that only process what they receive, and closes the barrier when they end.
fn run_all<L: CallLedger + Send + Sync, R: Threads + Wait + Sync>(
    rt: &R,
    alloc: Global,
    shared: &Shared<L>,
    doors: &StartBarrier,
    post: Post,
    seats: Vec<Seat<L>>,
) -> Result<Run<L>, NoMemory>
    requires inboxes { length post.inboxes.items ≡ length seats.items }
{
    let run = match no_jobs(alloc, seats.len()) {
        Ok(jobs) => run_servers(rt, alloc, shared, doors, post, seats, jobs, u32::MAX),
        Err(NoMemory) => Err(NoMemory),
    };
    doors.close();
    run
}

/// An empty list of jobs for each server.
fn no_jobs(alloc: Global, servers: usize) -> Result<Vec<Vec<Event>>, NoMemory>
    ensures { IfOk result (λ jobs. length jobs.items ≡ servers) }
{
    let mut jobs = Vec::new(alloc);
    jobs.reserve(servers)?;
    for _ in 0..servers {
        jobs.push_reserved(Vec::new(alloc));
    }
    Ok(jobs)
}

/// Closes the shared ensemble, with all seats and receipts. A rejected chronicle is returned before
/// what the connections ended with.
fn close<L: CallLedger, R: Wait>(
    rt: &R,
    alloc: Global,
    shared: Shared<L>,
    ended: Ended<L>,
) -> Result<Served, NoMemory>
    ensures { IfOk result (λ after. Closes (ended.run.seats.items ++ ended.seat ∷ []) (ended.run.receipts.items ++ ended.receipts.items) ended.served after) }
{
    let Ended {
        served,
        run,
        seat,
        receipts: own,
    } = ended;
    let Run {
        mut seats,
        mut receipts,
        passed: _,
    } = run;
    let mut own = own;
    seats.push(seat)?;
    receipts.append(&mut own)?;
    match shared.close(rt, alloc, seats, receipts) {
        Ok(_) => Ok(served),
        Err(unclosed) => match unclosed.fault {
            CloseFault::Count => Ok(Served::Miscounted),
            CloseFault::Receipt(at) => Ok(Served::Mismatched(at)),
            CloseFault::NoMemory => Err(NoMemory),
        },
    }
}
