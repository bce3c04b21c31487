//! One caller of three servers, of which two agree on a session. The tests check the server of each
//! call, the outcome of a call, and the results of readers beside the calls.

ghost use Rattle.std.specs.Prelude.{◌≡◌, ◌<◌, ◌^◌};

use crate::events::{FIRST, Happening, event_of};
use std::alloc::Global;
use std::marker::Brand;
use std::sync::Wait;
use std::sync::ledger::Blank;
use std::test::Fail;
use zk_front::servers::{
    CallLedger, Mark, Pass, Reader, Receipt, Seat, Shared, Started, ViewFault,
};
use zk_path::{NoMemory, Path};
use zk_table::{ReadCall, ReadReply};

/// The transaction that opens the first session, and the one that creates `/q`.
const OPENED: i64 = 0x1_0000_0001;

const MADE: i64 = 0x1_0000_0002;

/// The tag of the call that creates the node.
const NODE_TAG: u64 = 2;

/// The first server becomes the leader of the second, and a session is opened.
static BEGINNING: [Happening; 8] = [
    Happening::Lead(1),
    Happening::Follow(2, 1),
    Happening::Arrive(1),
    Happening::Arrive(2),
    Happening::Arrive(3),
    Happening::Arrive(4),
    Happening::Arrive(5),
    Happening::Open(1),
];

/// The two servers agree on the session.
static AGREED: [Happening; 3] = [
    Happening::Arrive(7),
    Happening::Arrive(8),
    Happening::Arrive(9),
];

/// The index of the receipt of the event in which the leader delivers the session.
const ARRIVE_8: usize = 9;

/// The session creates a node, which the last of these events delivers at the leader.
static NODE: [Happening; 3] = [
    Happening::Make(1),
    Happening::Arrive(10),
    Happening::Arrive(11),
];

/// The last transaction of a view, and whether it has `/q`; `None` without readers.
type Shown = Option<Result<(i64, bool), ViewFault>>;

/// The transaction of the call that creates the node, if it has a result, and the number of results
/// that were read.
type Outcome = (Option<i64>, usize);

/// What was seen while events were called.
#[derive(Clone, Copy, Debug)]
struct Open {
    /// The numbers of calls at servers 1, 2, 3 and 16 after the beginning.
    called: [u64; 4],
    /// The outcome of the call at the first server before it was called.
    before: Outcome,
    /// What the third server's reader and the first one's returned to a client that had seen the
    /// session.
    third: Shown,
    first: Shown,
    /// The outcome of the call at the first server after that, and at the third server, which
    /// follows no leader.
    after: Outcome,
    unheard: Outcome,
    /// What the first server's reader returned after the node was created.
    made: Shown,
}

/// What was seen.
#[derive(Clone, Copy, Debug)]
struct Seen {
    open: Open,
    /// Whether closing had all receipts, and what the first server's reader returned then.
    whole: bool,
    closed: Shown,
    /// The number of servers with a list of readers, and whether each list is empty.
    servers: usize,
    unread: bool,
}

/// Calls events in turn.
fn call_all<L: CallLedger, R: Wait>(
    rt: &R,
    alloc: Global,
    shared: &Shared<L>,
    seat: &mut Seat<L>,
    happenings: &[Happening],
    receipts: &mut Vec<Receipt>,
) -> Result<(), Fail> {
    for happening in happenings {
        let event = event_of(alloc, *happening)?;
        receipts.push(shared.call(rt, seat, event)?)?;
    }
    Ok(())
}

/// Returns the outcome, at a server after a mark, of the call that creates the node, and the mark
/// after that.
fn outcome<L: CallLedger, R: Wait>(
    rt: &R,
    shared: &Shared<L>,
    server: usize,
    from: Mark,
) -> Result<(Outcome, Mark), Fail> {
    let outcome = shared.outcome(rt, server, NODE_TAG, FIRST, from)?;
    let zxid = outcome.answered.as_ref().map(|it| it.result.zxid);
    Ok(((zxid, outcome.mark.answers), outcome.mark))
}

/// Reads `/q` with a reader.
fn ask_one(
    alloc: Global,
    reader: &mut Reader,
    pass: &mut Pass,
) -> Result<Result<(i64, bool), ViewFault>, NoMemory> {
    let path = Path::read(alloc, "/q").ok().ok_or(NoMemory)?;
    match reader.read(pass, &ReadCall::Exists { path }, &[]) {
        Ok(seen) => Ok(Ok((seen.zxid, matches!(&seen.reply, ReadReply::Found(_))))),
        Err(fault) => Ok(Err(fault)),
    }
}

/// Reads `/q` with the last reader of a view, if it has one.
fn ask(
    alloc: Global,
    readers: &mut [Vec<Reader>],
    view: usize,
    pass: &mut Pass,
) -> Result<Shown, NoMemory> {
    match readers.get_mut(view).and_then(|list| list.last_mut()) {
        Some(reader) => Ok(Some(ask_one(alloc, reader, pass)?)),
        None => Ok(None),
    }
}

/// Returns what is seen while the events are called. All is borrowed: a function that has several
/// exits and owns servers is expensive to prove.
fn watch<L: CallLedger, R: Wait>(
    rt: &R,
    alloc: Global,
    shared: &Shared<L>,
    seats: &mut [Seat<L>],
    readers: &mut [Vec<Reader>],
    receipts: &mut Vec<Receipt>,
    pass: &mut Pass,
) -> Result<Open, Fail> {
    let seat = seats.last_mut().ok_or(NoMemory)?;
    call_all(rt, alloc, shared, seat, &BEGINNING, receipts)?;
    let called = [1, 2, 3, 16].map(|server| shared.called(server));
    call_all(rt, alloc, shared, seat, &AGREED, receipts)?;
    receipts.get(ARRIVE_8).ok_or(NoMemory)?.show(pass);
    let (before, mark) = outcome(rt, shared, 1, Mark::new())?;
    let third = ask(alloc, readers, 2, pass)?;
    let first = ask(alloc, readers, 0, pass)?;
    call_all(rt, alloc, shared, seat, &NODE, receipts)?;
    let (after, _) = outcome(rt, shared, 1, mark)?;
    let (unheard, _) = outcome(rt, shared, 3, Mark::new())?;
    let made = ask(alloc, readers, 0, pass)?;
    Ok(Open {
        called,
        before,
        third,
        first,
        after,
        unheard,
        made,
    })
}

/// Returns what is seen if each server's view has `count` readers.
fn run<L: CallLedger, R: Wait>(
    rt: &R,
    alloc: Global,
    blank: Blank,
    count: usize,
) -> Result<Seen, Fail>
    requires name { blank.name ≡ L.name }
    requires parts { blank.parts ≡ L.parts }
    requires servers { 3 ≡ L.servers }
    requires enough { blank.parts ≡ 2 }
    requires few { count < 2 ^ 32 }
{
    let Started {
        shared,
        mut seats,
        mut readers,
    } = Shared::<L>::start(rt, alloc, blank, 3, 1, count)?;
    let mut receipts = Vec::new(alloc);
    let mut pass = Pass::new();
    let (lent, asked) = (&mut seats, &mut readers);
    let open = watch(rt, alloc, &shared, lent, asked, &mut receipts, &mut pass);
    let whole = shared.close(rt, alloc, seats, receipts).is_ok();
    let closed = ask(alloc, &mut readers, 0, &mut pass);
    let servers = readers.len();
    let unread = readers.iter().all(|list| list.is_empty());
    drop(readers);
    Ok(Seen {
        open: open?,
        whole,
        closed: closed?,
        servers,
        unread,
    })
}

/// Chooses the type of the ledger.
fn seen_by<R: Wait>(rt: &R, alloc: Global, count: u8) -> Result<Seen, Fail> {
    run::<Brand, R>(rt, alloc, Blank::new(2), usize::from(count))
}

#[test]
fn reader_behind_and_reader_current(rt: HostRuntime) -> Result<(), Fail> {
    let seen = seen_by(&rt, rt.alloc(), 1)?;
    let behind = ViewFault::Behind {
        seen: OPENED,
        zxid: 0,
    };
    assert_eq!(rt; seen.open.third, Some(Err(behind)));
    assert_eq!(rt; seen.open.first, Some(Ok((OPENED, false))));
    assert_eq!(rt; seen.open.made, Some(Ok((MADE, true))));
    assert_eq!(rt; seen.closed, Some(Err(ViewFault::Gone)));
    assert!(rt; seen.whole);
    Ok(())
}

#[test]
fn outcome_of_a_call_behind_a_mark(rt: HostRuntime) -> Result<(), Fail> {
    let open = seen_by(&rt, rt.alloc(), 1)?.open;
    assert_eq!(rt;
        [open.before, open.after, open.unheard],
        [(None, 1), (Some(MADE), 2), (None, 0)]
    );
    Ok(())
}

#[test]
fn calls_are_counted_by_server(rt: HostRuntime) -> Result<(), Fail> {
    let seen = seen_by(&rt, rt.alloc(), 0)?;
    assert_eq!(rt; seen.open.called, [5, 3, 0, 0]);
    assert_eq!(rt; (seen.servers, seen.unread), (3, true));
    Ok(())
}
