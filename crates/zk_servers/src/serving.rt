ghost use Rattle.std.specs.Prelude.{◌≡◌, ◌++◌, ◌∷◌, [], true, false};
ghost use Rattle.zk_servers.specs.Calls.{made};
ghost use Rattle.zk_servers.specs.Turns.{DidTurns};

use crate::Receipt;
use crate::inbox::{Inbox, Senders};
use crate::ledger::CallLedger;
use crate::seat::Seat;
use crate::shared::Shared;
use std::alloc::Global;
use std::sync::Wait;
use std::sync::ledger::Ledger;
use zk_model::Event;

/// Each thread passes it before each of its turns.
pub trait Gate {
    fn enter(&self, server: usize, turn: u32);
}

/// The input of a server's thread.
#[derive(Drop)]
pub struct Worker<L: Ledger> {
    pub server: usize,
    pub seat: Seat<L>,
    pub inbox: Inbox,
    pub jobs: Vec<Event>,
}

/// The result of a server's thread.
#[derive(Drop)]
pub struct Worked<L: Ledger> {
    pub seat: Seat<L>,
    pub receipts: Vec<Receipt>,
    pub passed: usize,
}

/// Runs a server's turns.
pub(crate) fn serve<L: CallLedger, G: Gate, R: Wait>(
    rt: &R,
    alloc: Global,
    shared: &Shared<L>,
    gate: &G,
    senders: &Senders,
    worker: Worker<L>,
    turns: u32,
) -> Worked<L>
    ensures { DidTurns worker.seat worker.jobs.items turns result.seat result.receipts.items result.passed }
{
    let Worker {
        server,
        seat,
        inbox,
        jobs,
    } = worker;
    let mut seat = seat;
    let mut inbox = inbox;
    let mut jobs = jobs;
    jobs.truncate(turns as usize);
    let first = jobs.len() as u32;
    let mut receipts = Vec::new(alloc);
    let mut passed: usize = 0;
    let mut turn: u32 = 0;
    for job in jobs {
        gate.enter(server, turn);
        turn += 1;
        if !call_once(rt, shared, senders, &mut seat, &mut receipts, job) {
            passed += 1;
        }
    }
    for turn in first..turns {
        gate.enter(server, turn);
        let Some(message) = inbox.next(rt) else {
            break;
        };
        call_once(
            rt,
            shared,
            senders,
            &mut seat,
            &mut receipts,
            Event::World(zab_model::Event::Arrive { message }),
        );
    }
    Worked {
        seat,
        receipts,
        passed,
    }
}

/// Makes one call, and sends its new messages to their addressees. Returns whether it was made.
fn call_once<L: CallLedger, R: Wait>(
    rt: &R,
    shared: &Shared<L>,
    senders: &Senders,
    seat: &mut Seat<L>,
    receipts: &mut Vec<Receipt>,
    event: Event,
) -> bool
    ensures made { result ≡ true → (receipt : Receipt) × (receipts.new.items ≡ receipts.old.items ++ receipt ∷ []) × (seat.new ≡ seat.old ++ made receipt.number event ∷ []) }
    ensures refused { result ≡ false → (receipts.new.items ≡ receipts.old.items) × (seat.new ≡ seat.old) }
{
    if receipts.reserve(1).is_err() {
        return false;
    }
    let Ok(receipt) = shared.call_routed(rt, senders, seat, event) else {
        return false;
    };
    receipts.push_reserved(receipt);
    true
}
