//! A server that joins late. It delivers at once what the others have delivered one by one, and its
//! view shows all of that.

ghost use Rattle.std.specs.Prelude.{◌≡◌};

use crate::events::{FIRST, Happening, event_of};
use std::alloc::Global;
use std::marker::Brand;
use std::sync::Wait;
use std::sync::ledger::Blank;
use std::test::Fail;
use zk_front::servers::{CallLedger, Pass, Reader, Receipt, Seat, Shared, Started, ViewFault};
use zk_path::{NoMemory, Path};
use zk_table::ReadCall;

/// The session creates a node, and seven times again, which fails: with its opening nine
/// transactions.
static CALLS: [Happening; 9] = [
    Happening::Open(1),
    Happening::Make(1),
    Happening::Again(3),
    Happening::Again(4),
    Happening::Again(5),
    Happening::Again(6),
    Happening::Again(7),
    Happening::Again(8),
    Happening::Again(9),
];

/// The last of them.
const LAST: i64 = FIRST + 8;

/// The messages by which the second server joins; each of the nine takes a proposal, an
/// acknowledgement and a commit; and those by which the third server joins.
const JOIN: [usize; 2] = [1, 6];

const AGREE: [usize; 2] = [7, 33];

const JOIN_LATE: [usize; 2] = [34, 39];

/// The last transaction of a view.
type Shown = Result<i64, ViewFault>;

fn call<L: CallLedger, R: Wait>(
    rt: &R,
    alloc: Global,
    shared: &Shared<L>,
    seat: &mut Seat<L>,
    receipts: &mut Vec<Receipt>,
    happening: Happening,
) -> Result<(), Fail> {
    let event = event_of(alloc, happening)?;
    receipts.push(shared.call(rt, seat, event)?)?;
    Ok(())
}

/// Delivers each message from the first to the last of these numbers.
fn arrive<L: CallLedger, R: Wait>(
    rt: &R,
    alloc: Global,
    shared: &Shared<L>,
    seat: &mut Seat<L>,
    receipts: &mut Vec<Receipt>,
    numbers: [usize; 2],
) -> Result<(), Fail> {
    let [first, last] = numbers;
    for message in first..last {
        call(
            rt,
            alloc,
            shared,
            seat,
            receipts,
            Happening::Arrive(message),
        )?;
    }
    call(rt, alloc, shared, seat, receipts, Happening::Arrive(last))
}

/// Two servers agree on the nine transactions.
fn agree<L: CallLedger, R: Wait>(
    rt: &R,
    alloc: Global,
    shared: &Shared<L>,
    seat: &mut Seat<L>,
    receipts: &mut Vec<Receipt>,
) -> Result<(), Fail> {
    call(rt, alloc, shared, seat, receipts, Happening::Lead(1))?;
    call(rt, alloc, shared, seat, receipts, Happening::Follow(2, 1))?;
    arrive(rt, alloc, shared, seat, receipts, JOIN)?;
    for happening in &CALLS {
        call(rt, alloc, shared, seat, receipts, *happening)?;
    }
    arrive(rt, alloc, shared, seat, receipts, AGREE)
}

/// Reads with the reader of a server's view, as a client that has seen all nine transactions.
fn shown(
    alloc: Global,
    readers: &mut [Vec<Reader>],
    server: usize,
) -> Result<Option<Shown>, NoMemory> {
    let Some(reader) = readers.get_mut(server).and_then(|list| list.last_mut()) else {
        return Ok(None);
    };
    let path = Path::read(alloc, "/q").ok().ok_or(NoMemory)?;
    let mut pass = Pass::new();
    pass.take(LAST);
    let seen = reader.read(&mut pass, &ReadCall::Exists { path }, &[]);
    Ok(Some(seen.map(|it| it.zxid)))
}

/// What the third server's view shows before it joins and afterwards.
fn watch<L: CallLedger, R: Wait>(
    rt: &R,
    alloc: Global,
    shared: &Shared<L>,
    seats: &mut [Seat<L>],
    readers: &mut [Vec<Reader>],
    receipts: &mut Vec<Receipt>,
) -> Result<[Option<Shown>; 2], Fail> {
    let seat = seats.last_mut().ok_or(NoMemory)?;
    agree(rt, alloc, shared, seat, receipts)?;
    let before = shown(alloc, readers, 2)?;
    call(rt, alloc, shared, seat, receipts, Happening::Follow(3, 1))?;
    arrive(rt, alloc, shared, seat, receipts, JOIN_LATE)?;
    let after = shown(alloc, readers, 2)?;
    Ok([before, after])
}

/// Does so over new servers, and closes them. Returns also whether closing had all receipts.
fn run<L: CallLedger, R: Wait>(
    rt: &R,
    alloc: Global,
    blank: Blank,
) -> Result<([Option<Shown>; 2], bool), Fail>
    requires name { blank.name ≡ L.name }
    requires parts { blank.parts ≡ L.parts }
    requires servers { 3 ≡ L.servers }
    requires enough { blank.parts ≡ 2 }
{
    let Started {
        shared,
        mut seats,
        mut readers,
    } = Shared::<L>::start(rt, alloc, blank, 3, 1, 1)?;
    let mut receipts = Vec::new(alloc);
    let (lent, asked) = (&mut seats, &mut readers);
    let seen = watch(rt, alloc, &shared, lent, asked, &mut receipts);
    let whole = shared.close(rt, alloc, seats, receipts).is_ok();
    drop(readers);
    Ok((seen?, whole))
}

/// Chooses the type of the ledger.
fn seen_by<R: Wait>(rt: &R, alloc: Global) -> Result<([Option<Shown>; 2], bool), Fail> {
    run::<Brand, R>(rt, alloc, Blank::new(2))
}

#[test]
fn a_late_server_shows_nine_transactions_at_once(rt: HostRuntime) -> Result<(), Fail> {
    let (seen, whole) = seen_by(&rt, rt.alloc())?;
    let behind = ViewFault::Behind {
        seen: LAST,
        zxid: 0,
    };
    assert_eq!(rt; seen, [Some(Err(behind)), Some(Ok(LAST))]);
    assert!(rt; whole);
    Ok(())
}
