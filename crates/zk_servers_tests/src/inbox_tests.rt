//! What servers take out of their inboxes.

ghost use Rattle.std.specs.Prelude.{◌≡◌, ◌+◌, ◌<◌, ◌^◌, IfOk, length};

use crate::events::jobs_of_two;
use crate::gate::Turned;
use crate::running::no_jobs;
use std::alloc::Global;
use std::marker::Brand;
use std::sync::Wait;
use std::sync::ledger::Blank;
use std::thread::Threads;
use zk_front::servers::{
    CallLedger, Inbox, Post, Run, Seat, Shared, Started, inboxes, run_servers,
};
use zk_model::{EnsembleFault, Event};
use zk_path::NoMemory;

/// The results of servers.
#[derive(Clone, Copy, Debug)]
struct Answered {
    receipts: usize,
    /// The number of calls that failed since no message has the number.
    no_message: usize,
    /// The number of recorded events, when closing had the receipts.
    events: Option<usize>,
    /// In which turns the servers entered.
    turns: [u64; 2],
}

/// Returns the results of servers that ran, and then closes.
fn close_answered<L: CallLedger, R: Wait>(
    rt: &R,
    alloc: Global,
    shared: Shared<L>,
    turns: [u64; 2],
    ran: Result<Run<L>, NoMemory>,
) -> Result<Answered, NoMemory> {
    let Run {
        seats,
        receipts,
        passed: _,
    } = ran?;
    let count = receipts.len();
    let no_message = receipts
        .iter()
        .filter(|it| matches!(it.answer, Err(EnsembleFault::NoMessage)))
        .count();
    let closed = shared.close(rt, alloc, seats, receipts);
    Ok(Answered {
        receipts: count,
        no_message,
        events: closed.ok().map(|it| it.records().len()),
        turns,
    })
}

/// Returns one server's inbox, which holds 99 and then 0.
fn with_99_and_0<R: Wait>(rt: &R, alloc: Global) -> Result<Post, NoMemory>
    ensures { IfOk result (λ post. length post.inboxes.items ≡ 1) }
{
    let post = inboxes(alloc, 1)?;
    let end = post.senders.sender(1).ok_or(NoMemory)?;
    let _ = end.send(rt, 99);
    let _ = end.send(rt, 0);
    Ok(post)
}

/// What is received from an inbox that holds 5 and 6 and was ended, and then from one that is ended
/// while its thread may wait.
fn given_at_the_end<R: Wait>(rt: &R, alloc: Global) -> Result<[Option<usize>; 4], NoMemory> {
    let Post {
        mut inboxes,
        senders,
    } = inboxes(alloc, 1)?;
    senders.send(rt, 1, 5);
    senders.send(rt, 1, 6);
    senders.end_all();
    senders.send(rt, 1, 7);
    let inbox = inboxes.get_mut(0).ok_or(NoMemory)?;
    Ok([
        inbox.next(rt),
        inbox.next(rt),
        inbox.next(rt),
        inbox.next(rt),
    ])
}

#[test]
fn an_inbox_ends_behind_what_it_holds(rt: HostRuntime) -> Result<(), NoMemory> {
    let given = given_at_the_end(&rt, rt.alloc())?;
    assert_eq!(rt; given, [Some(5), Some(6), Some(7), None]);
    Ok(())
}

/// Runs servers for `turns` turns, with these jobs and inboxes, and returns their results.
fn run<L: CallLedger + Send + Sync, R: Threads + Wait + Sync>(
    rt: &R,
    alloc: Global,
    blank: Blank,
    servers: usize,
    jobs: Vec<Vec<Event>>,
    post: Post,
    turns: u32,
) -> Result<Answered, NoMemory>
    requires name { blank.name ≡ L.name }
    requires parts { blank.parts ≡ L.parts }
    requires servers { servers ≡ L.servers }
    requires enough { blank.parts ≡ servers + 1 }
    requires many { (0 < servers) × (servers < 2 ^ 32) }
    requires jobs { length jobs.items ≡ servers }
    requires inboxes { length post.inboxes.items ≡ servers }
{
    let Started {
        shared,
        seats,
        readers: _,
    } = Shared::<L>::start(rt, alloc, blank, servers, servers, 1)?;
    let gate = Turned::new();
    let ran = run_servers(rt, alloc, &shared, &gate, post, seats, jobs, turns);
    close_answered(rt, alloc, shared, gate.turns(), ran)
}

/// The first server's inbox, and in place of the second's, which is dropped, another one into which
/// nothing is sent.
fn with_second_dropped(alloc: Global) -> Result<Post, NoMemory>
    ensures { IfOk result (λ post. length post.inboxes.items ≡ 2) }
{
    let post = inboxes(alloc, 2)?;
    let other = inboxes(alloc, 2)?;
    let Post { inboxes, senders } = post;
    let Post {
        inboxes: others,
        ..
    } = other;
    let first: Inbox = inboxes.into_iter().next().ok_or(NoMemory)?;
    let second: Inbox = others.into_iter().next().ok_or(NoMemory)?;
    let mut inboxes = Vec::new(alloc);
    inboxes.reserve(2)?;
    inboxes.push_reserved(first);
    inboxes.push_reserved(second);
    Ok(Post { inboxes, senders })
}

/// One server without jobs, whose inbox holds 99 and then 0. Chooses the type of the ledger.
fn one_server<R: Threads + Wait + Sync>(rt: &R, alloc: Global) -> Result<Answered, NoMemory> {
    let jobs = no_jobs(alloc, 1)?;
    let post = with_99_and_0(rt, alloc)?;
    run::<Brand, R>(rt, alloc, Blank::new(2), 1, jobs, post, 5)
}

/// One server leads, and the other follows it and has lost its inbox. Chooses the type of the
/// ledger.
fn two_servers<R: Threads + Wait + Sync>(rt: &R, alloc: Global) -> Result<Answered, NoMemory> {
    let jobs = jobs_of_two(alloc)?;
    let post = with_second_dropped(alloc)?;
    run::<Brand, R>(rt, alloc, Blank::new(3), 2, jobs, post, 2)
}

#[test]
fn inbox_of_99_and_0(rt: HostRuntime) -> Result<(), NoMemory> {
    let told = one_server(&rt, rt.alloc())?;
    assert_eq!(rt; told.receipts, 1);
    assert_eq!(rt; told.no_message, 1);
    assert_eq!(rt; told.events, Some(1));
    // the number 99, and then the end
    assert_eq!(rt; told.turns, [0x101, 0]);
    Ok(())
}

/// Message 1 informs the leader that the second server follows it. The leader's reply, message 2,
/// is lost.
#[test]
fn inbox_dropped_early_loses_its_numbers(rt: HostRuntime) -> Result<(), NoMemory> {
    let told = two_servers(&rt, rt.alloc())?;
    assert_eq!(rt; told.receipts, 3);
    assert_eq!(rt; told.no_message, 0);
    assert_eq!(rt; told.events, Some(3));
    assert_eq!(rt; told.turns, [0x101, 0x101]);
    Ok(())
}
