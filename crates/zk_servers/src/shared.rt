ghost use Rattle.std.specs.Prelude.{◌^◌, All, length, map, ◌≡◌, ◌+◌, ◌<◌, ◌++◌, ◌∷◌, [], replicate, IfErr, IfOk, OnErr};
ghost use Rattle.zk_servers.specs.Calls.{made};
ghost use Rattle.zk_servers.specs.Closing.{IsRefusal, IsWhole};
ghost use Rattle.zk_servers.specs.Looking.{IsToldBefore};
ghost use Rattle.zk_views.specs.Catching.{AreOfOneView};

use crate::closing::compare;
use crate::counted_chronicle::CountedChronicle;
use crate::inbox::Senders;
use crate::ledger::CallLedger;
use crate::looked::Looked;
use crate::pausing::pause;
use crate::seat::Seat;
use crate::shared_state::SharedState;
use crate::{CallFault, Chronicle, CloseFault, Mark, Outcome, Receipt};
use std::alloc::Global;
use std::array;
use std::sync::atomic::{AtomicU64, Ordering};
use std::sync::ledger::{Blank, Ledger, Share};
use std::sync::{Mutex, MutexGuard, Wait};
use zk_model::Event;
use zk_path::NoMemory;
use zk_views::{Reader, Viewed, views_of};

/// The number of attempts to lock before a thread sleeps: some hundred microseconds. An event takes
/// a few. A sleeping thread makes the others hand over the lock, and then they sleep too.
const TRIES: u32 = 256;

/// A counter for each server, and one for the number 0, which is no server's.
const COUNTERS: usize = 16;

/// A chronicle that threads share, and a view of each server, which readers read without the lock.
pub struct Shared<L: CallLedger> {
    board: Mutex<SharedState<L>>,
    /// The number of calls about each server, in 64 bits that wrap.
    called: [AtomicU64; COUNTERS],
}

impl<L: CallLedger> Drop for Shared<L> {
    fn drop(self) {
        let Shared {
            board: _,
            called: _,
        } = self;
    }
}

/// The parts of a new ensemble.
#[derive(Drop)]
pub struct Started<L: CallLedger> {
    pub shared: Shared<L>,
    pub seats: Vec<Seat<L>>,
    /// The readers of each server's view, from server 1 on.
    pub readers: Vec<Vec<Reader>>,
}

/// What is returned if a chronicle is not.
#[derive(Drop)]
pub struct Unclosed<L: CallLedger> {
    pub fault: CloseFault,
    /// What was under the lock; [`Shared::over`] puts it back there.
    pub board: SharedState<L>,
    pub seats: Vec<Seat<L>>,
    pub receipts: Vec<Receipt>,
}

impl<L: CallLedger> Shared<L> {
    /// Creates an ensemble of the ledger's servers without events, seats without calls, and for
    /// each server `readers` readers of its empty view. Without readers there are no views. Fails
    /// with [`NoMemory`] also if a view can't have that many readers.
    pub fn start<R: Wait>(
        rt: &R,
        alloc: Global,
        blank: Blank,
        servers: usize,
        seats: usize,
        readers: usize,
    ) -> Result<Started<L>, NoMemory>
        requires name { blank.name ≡ L.name }
        requires parts { blank.parts ≡ L.parts }
        requires servers { servers ≡ L.servers }
        requires enough { blank.parts ≡ seats + 1 }
        requires many { (0 < seats) × (seats < 2 ^ 32) }
        requires few { readers < 2 ^ 32 }
        ensures seats { IfOk result (λ started. started.seats.items ≡ replicate seats []) }
        ensures views { IfOk result (λ started. length started.readers.items ≡ servers) }
        ensures readers { IfOk result (λ started. All (AreOfOneView readers) (map (λ list. list.items) started.readers.items)) }
    {
        let chronicle = Chronicle::new(alloc, servers)?;
        let (calls, mut rest) = blank.open::<L>();
        let seats = seats_of(alloc, &mut rest, seats)?;
        let Viewed { views, readers } = views_of(rt, alloc, servers, readers)?;
        let board = SharedState::new(CountedChronicle::new(chronicle, calls), views);
        Ok(Started {
            shared: Shared::over(board),
            seats,
            readers,
        })
    }

    /// Puts under a lock what was under one.
    pub fn over(board: SharedState<L>) -> Shared<L> {
        Shared {
            board: Mutex::new(board),
            called: array::from_fn(|_| AtomicU64::new(0)),
        }
    }

    /// Locks, and waits until no other thread holds the lock.
    fn held<R: Wait>(&self, rt: &R) -> MutexGuard<'_, SharedState<L>> {
        for _ in 0..TRIES {
            if let Some(board) = self.board.try_lock() {
                return board;
            }
            pause();
        }
        self.board.lock(rt)
    }

    /// Counts a call about a server.
    fn count(&self, server: usize) {
        if let Some(calls) = self.called.get(server) {
            calls.fetch_add(1, Ordering::SeqCst);
        }
    }

    /// Calls one event, under the lock, and the seat keeps the call. A [`CallFault`] leaves the
    /// seat and the records unchanged.
    pub fn call<R: Wait>(
        &self,
        rt: &R,
        seat: &mut Seat<L>,
        event: Event,
    ) -> Result<Receipt, CallFault>
        ensures seated { IfOk result (λ receipt. seat.new ≡ seat.old ++ made receipt.number event ∷ []) }
        ensures refused { OnErr result (seat.new ≡ seat.old) }
    {
        let mut board = self.held(rt);
        let server = board.server_of(&event);
        let told = board.add(rt, seat, event);
        drop(board);
        self.count(server);
        told
    }

    /// Does the same, and sends the numbers of the event's messages to their addressees; one that
    /// can't be sent is lost.
    pub fn call_routed<R: Wait>(
        &self,
        rt: &R,
        senders: &Senders,
        seat: &mut Seat<L>,
        event: Event,
    ) -> Result<Receipt, CallFault>
        ensures seated { IfOk result (λ receipt. seat.new ≡ seat.old ++ made receipt.number event ∷ []) }
        ensures refused { OnErr result (seat.new ≡ seat.old) }
    {
        let mut board = self.held(rt);
        let server = board.server_of(&event);
        let receipt = board.add(rt, seat, event)?;
        // Under the lock, each inbox gets its numbers in the order of the events. If threads sent
        // after releasing it, a commit could overtake its proposal, and its server would reject it.
        board.send_messages(rt, senders, &receipt);
        drop(board);
        self.count(server);
        Ok(receipt)
    }

    /// Calls a read under the lock; the seat keeps the call. Returns it with the events of its
    /// session after the mark that fired before the read. An error leaves the seat and the records
    /// unchanged.
    pub fn look<R: Wait>(
        &self,
        rt: &R,
        seat: &mut Seat<L>,
        event: Event,
        number: usize,
        tag: u64,
        session: i64,
        from: Mark,
    ) -> Result<Looked, CallFault>
        ensures told { IfOk result (λ it. IsToldBefore event number tag session from it.receipt it.outcome) }
        ensures seated { IfOk result (λ it. seat.new ≡ seat.old ++ made it.receipt.number event ∷ []) }
        ensures refused { OnErr result (seat.new ≡ seat.old) }
    {
        let mut board = self.held(rt);
        let server = board.server_of(&event);
        let looked = board.look(rt, seat, event, number, tag, session, from);
        drop(board);
        self.count(server);
        looked
    }

    /// Returns a number that changes with each call about a server, after its event has happened; 0
    /// if no server has this number. A thread that waits for an outcome reads it first, and takes
    /// the lock only if it has changed.
    pub fn called(&self, server: usize) -> u64 {
        match self.called.get(server) {
            Some(calls) => calls.load(Ordering::SeqCst),
            None => 0,
        }
    }

    /// Returns the outcome of a call or a sync with this tag at a server, and a session's events
    /// there, all after the mark. It is the result of [`SharedState::outcome`] under the lock: no
    /// clause can name what is under a lock.
    pub fn outcome<R: Wait>(
        &self,
        rt: &R,
        number: usize,
        tag: u64,
        session: i64,
        from: Mark,
    ) -> Result<Outcome, NoMemory> {
        self.held(rt).outcome(number, tag, session, from)
    }

    /// Ends the sharing. Returns the chronicle exactly if each of its events was called by one of
    /// these seats and has one of these receipts, in any order. It is that of the ledger's servers.
    /// No reader enters a view afterwards.
    pub fn close<R: Wait>(
        self,
        rt: &R,
        alloc: Global,
        seats: Vec<Seat<L>>,
        receipts: Vec<Receipt>,
    ) -> Result<Chronicle, Unclosed<L>>
        ensures whole { IfOk result (λ it. IsWhole it.records seats.items receipts.items) }
        ensures servers { IfOk result (λ it. it.servers ≡ L.servers) }
        ensures refused { IfErr result (λ it. IsRefusal it.board.records seats.items receipts.items it.fault) }
        ensures seats { IfErr result (λ it. it.seats.items ≡ seats.items) }
        ensures receipts { IfErr result (λ it. it.receipts.items ≡ receipts.items) }
    {
        let Shared { board, called: _ } = self;
        let board = board.into_inner();
        match compare(
            alloc,
            board.records(),
            seats.as_slice(),
            receipts.as_slice(),
        ) {
            Ok(()) => Ok(board.into_chronicle(rt)),
            Err(fault) => Err(Unclosed {
                fault,
                board,
                seats,
                receipts,
            }),
        }
    }
}

fn seats_of<L: Ledger>(
    alloc: Global,
    rest: &mut Share<L>,
    count: usize,
) -> Result<Vec<Seat<L>>, NoMemory>
    requires { (rest.old.parts ≡ count + 1) × (rest.old.amount ≡ 0) }
    ensures { IfOk result (λ seats. seats.items ≡ replicate count []) }
{
    let mut seats = Vec::new(alloc);
    seats.reserve(count)?;
    for _ in 0..count {
        seats.push_reserved(Seat::new(alloc, rest.split_off(1, 0)));
    }
    Ok(seats)
}
