//! Two servers in threads that meet at a gate; and closing with receipts omitted, changed, doubled
//! and reordered.

ghost use Rattle.std.specs.Prelude.{◌≡◌};

use crate::events::jobs_of_two;
use crate::gate::Both;
use std::alloc::Global;
use std::marker::Brand;
use std::sync::Wait;
use std::sync::ledger::Blank;
use std::thread::Threads;
use zk_front::servers::{
    CallLedger, CloseFault, Receipt, Run, Seat, Shared, Started, Unclosed, inboxes, run_servers,
};
use zk_model::Answer;
use zk_path::NoMemory;

/// The outcome of two servers that each had one job.
#[derive(Debug, Drop)]
pub struct Met {
    /// Whether each saw the other at the gate.
    pub both: bool,
    pub passed: usize,
    pub refusals: Refusals,
    /// The number of recorded events, when closing had all receipts, reordered.
    pub events: Option<usize>,
}

/// The faults of closing with half of the seats, without one receipt, with a changed one, and with
/// one twice in place of another.
#[derive(Clone, Copy, Debug)]
pub struct Refusals {
    pub half: CloseFault,
    pub left_out: CloseFault,
    pub changed: CloseFault,
    pub doubled: CloseFault,
}

/// Returns the number of jobs that were passed over, in all.
fn passed_in_all(passed: &[usize]) -> usize {
    let mut sum = 0usize;
    for count in passed {
        sum = sum.wrapping_add(*count);
    }
    sum
}

/// Runs two servers with a job each, in threads; and then closes in each way.
fn run_two<L: CallLedger + Send + Sync, R: Threads + Wait + Sync>(
    rt: &R,
    alloc: Global,
    blank: Blank,
) -> Result<Met, NoMemory>
    requires name { blank.name ≡ L.name }
    requires parts { blank.parts ≡ L.parts }
    requires servers { 2 ≡ L.servers }
    requires enough { blank.parts ≡ 3 }
{
    let jobs = jobs_of_two(alloc)?;
    let post = inboxes(alloc, 2)?;
    let Started {
        shared,
        seats,
        readers: _,
    } = Shared::<L>::start(rt, alloc, blank, 2, 2, 1)?;
    let gate = Both::new();
    let ran = run_servers(rt, alloc, &shared, &gate, post, seats, jobs, 1);
    close_met(rt, alloc, shared, gate.saw_both(), ran)
}

/// Returns the outcome of servers that ran, and that met at the gate or not.
fn close_met<L: CallLedger, R: Wait>(
    rt: &R,
    alloc: Global,
    shared: Shared<L>,
    both: bool,
    ran: Result<Run<L>, NoMemory>,
) -> Result<Met, NoMemory> {
    let Run {
        seats,
        receipts,
        passed,
    } = ran?;
    let passed = passed_in_all(&passed);
    let open = Open { shared, seats };
    let (refusals, events) = close_each_way(rt, alloc, open, &receipts)?;
    Ok(Met {
        both,
        passed,
        refusals,
        events,
    })
}

/// What can be closed.
#[derive(Drop)]
struct Open<L: CallLedger> {
    shared: Shared<L>,
    seats: Vec<Seat<L>>,
}

/// A receipt for closing: the one at this index, with another transaction or its own.
type Given = (usize, Option<i64>);

const BOTH: [Given; 2] = [(0, None), (1, None)];

const LEFT_OUT: [Given; 1] = [(0, None)];

const CHANGED: [Given; 2] = [(0, Some(77)), (1, None)];

const DOUBLED: [Given; 2] = [(0, None), (0, None)];

const TURNED: [Given; 2] = [(1, None), (0, None)];

/// Closes with receipts that are not those of the chronicle, and at last with all of them, the last
/// one first.
fn close_each_way<L: CallLedger, R: Wait>(
    rt: &R,
    alloc: Global,
    open: Open<L>,
    receipts: &[Receipt],
) -> Result<(Refusals, Option<usize>), NoMemory> {
    let (half, open) = refused_with_half(rt, alloc, open, receipts)?;
    let (left_out, open) = refused(rt, alloc, open, receipts, &LEFT_OUT)?;
    let (changed, open) = refused(rt, alloc, open, receipts, &CHANGED)?;
    let (doubled, open) = refused(rt, alloc, open, receipts, &DOUBLED)?;
    let events = closed(rt, alloc, open, receipts)?;
    let refusals = Refusals {
        half,
        left_out,
        changed,
        doubled,
    };
    Ok((refusals, events))
}

/// Closes with one seat less, which fails. Returns the fault, and what can still be closed.
fn refused_with_half<L: CallLedger, R: Wait>(
    rt: &R,
    alloc: Global,
    mut open: Open<L>,
    receipts: &[Receipt],
) -> Result<(CloseFault, Open<L>), NoMemory> {
    let seat = open.seats.pop().ok_or(NoMemory)?;
    let (fault, mut open) = refused(rt, alloc, open, receipts, &BOTH)?;
    open.seats.push(seat)?;
    Ok((fault, open))
}

/// Closes, which fails. Returns the fault, and what can still be closed.
fn refused<L: CallLedger, R: Wait>(
    rt: &R,
    alloc: Global,
    open: Open<L>,
    receipts: &[Receipt],
    given: &[Given],
) -> Result<(CloseFault, Open<L>), NoMemory> {
    let given = given_of(alloc, receipts, given)?;
    let Open { shared, seats } = open;
    match shared.close(rt, alloc, seats, given) {
        Ok(_) => Err(NoMemory),
        Err(it) => {
            let Unclosed {
                fault,
                board,
                seats,
                receipts: _,
            } = it;
            let shared = Shared::over(board);
            Ok((fault, Open { shared, seats }))
        }
    }
}

/// Returns the number of recorded events, if closing with all receipts succeeds.
fn closed<L: CallLedger, R: Wait>(
    rt: &R,
    alloc: Global,
    open: Open<L>,
    receipts: &[Receipt],
) -> Result<Option<usize>, NoMemory> {
    let given = given_of(alloc, receipts, &TURNED)?;
    let Open { shared, seats } = open;
    let closed = shared.close(rt, alloc, seats, given);
    Ok(closed.ok().map(|it| it.records().len()))
}

fn given_of(
    alloc: Global,
    receipts: &[Receipt],
    given: &[Given],
) -> Result<Vec<Receipt>, NoMemory> {
    let mut list = Vec::new(alloc);
    for (place, zxid) in given {
        let receipt = receipts.get(*place).ok_or(NoMemory)?;
        list.push(told(receipt, zxid.unwrap_or(receipt.zxid))?)?;
    }
    Ok(list)
}

/// Returns a copy of a receipt, with this transaction.
fn told(receipt: &Receipt, zxid: i64) -> Result<Receipt, NoMemory> {
    match &receipt.answer {
        Ok(Answer::Moved(moved)) => Ok(Receipt {
            number: receipt.number,
            answer: Ok(Answer::Moved(*moved)),
            zxid,
        }),
        _ => Err(NoMemory),
    }
}

/// Chooses the type of the ledger.
fn two_servers<R: Threads + Wait + Sync>(rt: &R, alloc: Global) -> Result<Met, NoMemory> {
    run_two::<Brand, R>(rt, alloc, Blank::new(3))
}

#[test]
fn two_servers_meet_at_the_gate(rt: HostRuntime) -> Result<(), NoMemory> {
    let met = two_servers(&rt, rt.alloc())?;
    assert!(rt; met.both);
    assert_eq!(rt; met.passed, 0);
    assert_eq!(rt; met.refusals.half, CloseFault::Count);
    assert_eq!(rt; met.refusals.left_out, CloseFault::Count);
    assert_eq!(rt; met.refusals.changed, CloseFault::Receipt(0));
    assert_eq!(rt; met.refusals.doubled, CloseFault::Receipt(1));
    assert_eq!(rt; met.events, Some(2));
    Ok(())
}
