//! A service over servers that run as threads.

ghost use Rattle.std.specs.Prelude.{◌≡◌, [], IfOk, IfErr};
ghost use Rattle.zk_front.specs.Calling.{unused};
ghost use Rattle.zk_front.specs.Keeping.{keeping_of, none_kept};
ghost use Rattle.zk_front.specs.Remotes.{Asks, serving};
ghost use Rattle.zk_front.specs.Starting.{Begins};
ghost use Rattle.zk_servers.specs.Turns.{numbers_of, numbers_told};

use crate::request_driver::RequestDriver;
use crate::seat_caller::SeatCaller;
use crate::session_table::SessionTable;
use crate::{Ask, Clock, Service, ServiceFault, Told};
use std::alloc::Global;
use std::sync::Wait;
use std::sync::ledger::Ledger;
use std::time;
use zk_servers::{CallLedger, Mark, Receipt, Seat, Senders, Shared};

/// A service over servers that run as threads: executes each ask at server 1, by calls of a seat,
/// and keeps a receipt for each call.
///
/// A session that it opened is kept until it closes. An ask first closes each session whose
/// deadline has passed, and then moves the deadline of its own session. It waits for the outcome of
/// a write or a sync, and fails with [`ServiceFault::Server`] after 1,048,576 looks without one,
/// most of them 50 microseconds apart.
#[derive(Drop)]
pub struct Remote<'s, L: CallLedger, R: Wait, C: Clock> {
    asker: RequestDriver<'s, L, R>,
    clock: C,
}

/// What is returned if a service can't start.
#[derive(Drop)]
pub struct Unstarted<L: Ledger> {
    pub fault: ServiceFault,
    /// The seat, with the calls that were made.
    pub seat: Seat<L>,
    /// One for each call.
    pub receipts: Vec<Receipt>,
}

impl<'s, L: CallLedger, R: Wait, C: Clock> Remote<'s, L, R, C> {
    /// Has server 1 lead, the others follow it, and each message arrive once, in order of number;
    /// fails after 1,048,576 messages. Start the servers' threads after this call. The senders are
    /// those of the servers' inboxes.
    pub fn start(
        rt: &'s R,
        alloc: Global,
        shared: &'s Shared<L>,
        seat: Seat<L>,
        senders: Senders,
        clock: C,
        servers: usize,
    ) -> Result<Remote<'s, L, R, C>, Unstarted<L>>
        requires first { seat ≡ [] }
        ensures begun { IfOk result (λ it. Begins servers unused it.asker.caller) }
        ensures none { IfOk result (λ it. keeping_of it.asker.clients ≡ none_kept) }
        ensures refused { IfErr result (λ it. numbers_told it.receipts.items ≡ numbers_of it.seat) }
    {
        let mut caller = SeatCaller {
            rt,
            alloc,
            shared,
            senders,
            seat,
            receipts: Vec::new(alloc),
            tag: 0,
        };
        if let Err(fault) = caller.begin(servers) {
            let (seat, receipts) = caller.end();
            return Err(Unstarted {
                fault,
                seat,
                receipts,
            });
        }
        let asker = RequestDriver {
            caller,
            clients: SessionTable::new(alloc),
            mark: Mark::new(),
        };
        Ok(Remote { asker, clock })
    }

    /// Returns the seat, and a receipt for each of its calls, in order.
    pub fn end(self) -> (Seat<L>, Vec<Receipt>)
        ensures seat { result.0 ≡ self.entry.asker.caller.calls }
        ensures receipts { result.1.items ≡ self.entry.asker.caller.receipts }
        ensures told { numbers_told result.1.items ≡ numbers_of result.0 }
    {
        let Remote { asker, .. } = self;
        let RequestDriver { caller, .. } = asker;
        caller.end()
    }
}

impl<L: CallLedger, R: Wait + time::Clock, C: Clock> Service for Remote<'_, L, R, C> {
    ghost does = { λ old ask told new. Asks C.tells old.clock new.clock (serving old.asker.caller old.asker.clients) ask told (serving new.asker.caller new.asker.clients) };

    fn ask(&mut self, ask: Ask) -> Result<Told, ServiceFault> {
        let now = self.clock.now();
        self.asker.ask(ask, now)
    }
}
