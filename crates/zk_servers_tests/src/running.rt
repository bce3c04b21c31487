//! Servers in threads, and a client beside them.

ghost use Rattle.std.specs.Prelude.{◌≡◌, ◌+◌, ◌<◌, ◌^◌, IfOk, length};

use crate::asks::{Row, Times, ask_of, is_told};
use crate::gate::Open;
use std::alloc::Global;
use std::marker::Brand;
use std::sync::Wait;
use std::sync::ledger::Blank;
use std::thread::Threads;
use std::time::Duration;
use std::{thread, time};
use zk_front::Remote;
use zk_front::servers::{
    CallLedger, Pass, Post, Reader, Receipt, Run, Seat, Senders, Shared, Started, ViewFault,
    inboxes, run_servers,
};
use zk_model::Event;
use zk_path::{NoMemory, Path};
use zk_table::ReadCall;

/// The outcome of a script.
#[derive(Clone, Copy, Debug)]
pub struct Played {
    /// The index of the first ask with another result.
    pub wrong: Option<usize>,
    /// The first server whose view did not show the script's last transaction in the end.
    pub late: Option<usize>,
    /// Whether closing had all calls and receipts.
    pub whole: bool,
}

/// What a client asks, and the last transaction after that.
#[derive(Clone, Copy)]
pub struct Script {
    pub times: &'static [i64],
    pub rows: &'static [Row],
    pub last: i64,
}

pub fn no_jobs(alloc: Global, servers: usize) -> Result<Vec<Vec<Event>>, NoMemory>
    ensures { IfOk result (λ jobs. length jobs.items ≡ servers) }
{
    let mut jobs = Vec::new(alloc);
    jobs.reserve(servers)?;
    for _ in 0..servers {
        jobs.push_reserved(Vec::new(alloc));
    }
    Ok(jobs)
}

/// The client's results, and its seat.
#[derive(Drop)]
struct Told<L: CallLedger> {
    wrong: Option<usize>,
    late: Option<usize>,
    seat: Seat<L>,
    receipts: Vec<Receipt>,
}

/// Returns the index of the first ask with another result.
fn play<L: CallLedger, R: Wait + time::Clock>(
    alloc: Global,
    remote: &mut Remote<'_, L, R, Times>,
    rows: &[Row],
) -> Result<Option<usize>, NoMemory> {
    for (place, row) in rows.iter().enumerate() {
        let ask = ask_of(alloc, row.session, row.asking)?;
        if !is_told(alloc, remote, ask, row.told)? {
            return Ok(Some(place));
        }
    }
    Ok(None)
}

/// The most looks at a view, and the microseconds between two: ten seconds or more in all.
const LOOKS: u32 = 100_000;

const PAUSE: u64 = 100;

/// Whether a reader's view finally shows a transaction, as the last one.
fn comes_to<R: Wait + time::Clock>(
    rt: &R,
    alloc: Global,
    reader: &mut Reader,
    zxid: i64,
) -> Result<bool, NoMemory> {
    let path = Path::read(alloc, "/").ok().ok_or(NoMemory)?;
    let call = ReadCall::Exists { path };
    let mut pass = Pass::new();
    pass.take(zxid);
    for _ in 0..LOOKS {
        match reader.read(&mut pass, &call, &[]) {
            Ok(seen) => return Ok(seen.zxid == zxid),
            Err(ViewFault::Behind { .. }) => thread::sleep(rt, Duration::from_micros(PAUSE)),
            Err(_) => return Ok(false),
        }
    }
    Ok(false)
}

/// The first server, by its number, whose view does not show a transaction in the end.
fn first_late<R: Wait + time::Clock>(
    rt: &R,
    alloc: Global,
    readers: &mut [Vec<Reader>],
    zxid: i64,
) -> Result<Option<usize>, NoMemory> {
    for (place, list) in readers.iter_mut().enumerate() {
        let reader = list.last_mut().ok_or(NoMemory)?;
        if !comes_to(rt, alloc, reader, zxid)? {
            return Ok(Some(place));
        }
    }
    Ok(None)
}

/// Runs servers without jobs, which only take messages from their inboxes.
fn run_all<L: CallLedger + Send + Sync, R: Threads + Wait + Sync>(
    rt: &R,
    alloc: Global,
    shared: &Shared<L>,
    post: Post,
    seats: Vec<Seat<L>>,
) -> Result<Run<L>, NoMemory>
    requires inboxes { length post.inboxes.items ≡ length seats.items }
{
    let jobs = no_jobs(alloc, seats.len())?;
    run_servers(rt, alloc, shared, &Open, post, seats, jobs, 1_000_000)
}

/// A client's script, once all views show it; and then the end of all inboxes.
fn ask_all<L: CallLedger, R: Wait + time::Clock>(
    rt: &R,
    alloc: Global,
    mut remote: Remote<'_, L, R, Times>,
    senders: &Senders,
    mut readers: Vec<Vec<Reader>>,
    script: Script,
) -> Result<Told<L>, NoMemory> {
    let wrong = play(alloc, &mut remote, script.rows);
    let late = first_late(rt, alloc, readers.as_mut_slice(), script.last);
    drop(readers);
    let (seat, receipts) = remote.end();
    senders.end_all();
    Ok(Told {
        wrong: wrong?,
        late: late?,
        seat,
        receipts,
    })
}

/// Runs the servers, with the client beside them.
fn run_and_ask<L: CallLedger + Send + Sync, R: Threads + Wait + Sync + time::Clock>(
    rt: &R,
    alloc: Global,
    shared: &Shared<L>,
    post: Post,
    seats: Vec<Seat<L>>,
    remote: Remote<'_, L, R, Times>,
    ends: &Senders,
    readers: Vec<Vec<Reader>>,
    script: Script,
) -> (Result<Run<L>, NoMemory>, Result<Told<L>, NoMemory>)
    requires inboxes { length post.inboxes.items ≡ length seats.items }
{
    thread::join(
        rt,
        move ||
            requires { length post.inboxes.items ≡ length seats.items }
        { run_all(rt, alloc, shared, post, seats) },
        move || ask_all(rt, alloc, remote, ends, readers, script),
    )
}

/// Returns the inboxes of servers, and two more sets of senders into them.
fn posts(alloc: Global, servers: usize) -> Result<(Post, Senders, Senders), NoMemory>
    ensures { IfOk result (λ it. length it.0.inboxes.items ≡ servers) }
{
    let post = inboxes(alloc, servers)?;
    let senders = post.senders.copy(alloc)?;
    let ends = post.senders.copy(alloc)?;
    Ok((post, senders, ends))
}

/// The input of closing, and the client's results.
#[derive(Drop)]
struct Ended<L: CallLedger> {
    wrong: Option<usize>,
    late: Option<usize>,
    seats: Vec<Seat<L>>,
    receipts: Vec<Receipt>,
}

fn both_ended<L: CallLedger>(
    ran: Result<Run<L>, NoMemory>,
    told: Result<Told<L>, NoMemory>,
) -> Result<Ended<L>, NoMemory> {
    let Run {
        mut seats,
        mut receipts,
        passed: _,
    } = ran?;
    let Told {
        wrong,
        late,
        seat,
        receipts: mut own,
    } = told?;
    seats.push(seat)?;
    receipts.append(&mut own)?;
    Ok(Ended {
        wrong,
        late,
        seats,
        receipts,
    })
}

/// Closes after a script.
fn close_played<L: CallLedger, R: Wait>(
    rt: &R,
    alloc: Global,
    shared: Shared<L>,
    ended: Result<Ended<L>, NoMemory>,
) -> Result<Played, NoMemory> {
    let Ended {
        wrong,
        late,
        seats,
        receipts,
    } = ended?;
    let whole = shared.close(rt, alloc, seats, receipts).is_ok();
    Ok(Played { wrong, late, whole })
}

/// Runs servers in threads, and a client that plays a script; and then closes.
fn run<L: CallLedger + Send + Sync, R: Threads + Wait + Sync + time::Clock>(
    rt: &R,
    alloc: Global,
    blank: Blank,
    servers: usize,
    script: Script,
) -> Result<Played, NoMemory>
    requires name { blank.name ≡ L.name }
    requires parts { blank.parts ≡ L.parts }
    requires servers { servers ≡ L.servers }
    requires enough { blank.parts ≡ servers + 2 }
    requires many { servers + 1 < 2 ^ 32 }
{
    let (post, senders, ends) = posts(alloc, servers)?;
    let clock = Times {
        times: script.times,
        at: 0,
    };
    let Started {
        shared,
        mut seats,
        readers,
    } = Shared::<L>::start(rt, alloc, blank, servers, servers + 1, 1)?;
    let Some(seat) = seats.pop() else {
        unreachable!()
    };
    let told = match Remote::start(rt, alloc, &shared, seat, senders, clock, servers) {
        Ok(remote) => {
            let (ran, told) = run_and_ask(
                rt, alloc, &shared, post, seats, remote, &ends, readers, script,
            );
            both_ended(ran, told)
        }
        Err(_) => Err(NoMemory),
    };
    close_played(rt, alloc, shared, told)
}

/// Chooses the type of the ledger.
pub fn played_by_two<R: Threads + Wait + Sync + time::Clock>(
    rt: &R,
    alloc: Global,
    script: Script,
) -> Result<Played, NoMemory> {
    run::<Brand, R>(rt, alloc, Blank::new(4), 2, script)
}

/// Chooses the type of the ledger.
pub fn played_by_three<R: Threads + Wait + Sync + time::Clock>(
    rt: &R,
    alloc: Global,
    script: Script,
) -> Result<Played, NoMemory> {
    run::<Brand, R>(rt, alloc, Blank::new(5), 3, script)
}

/// Chooses the type of the ledger.
pub fn played_by_five<R: Threads + Wait + Sync + time::Clock>(
    rt: &R,
    alloc: Global,
    script: Script,
) -> Result<Played, NoMemory> {
    run::<Brand, R>(rt, alloc, Blank::new(7), 5, script)
}
