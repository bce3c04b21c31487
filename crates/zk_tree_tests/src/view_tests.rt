//! Views that are published, read and closed.

use crate::watch_tests::path_of;
use std::alloc::Global;
use std::sync::Wait;
use std::test::Fail;
use zk_listing::assemble;
use zk_path::NoMemory;
use zk_table::{ReadCall, ReadReply, Txn};
use zk_views::{Pass, Publisher, Reader, Seen, ViewFault};

/// A session is opened.
const OPENED: &str = "0000000100000001 0000000100000001 0 1000 createSession 30000\n";

/// Then a node is created, with the two bytes `hi`.
const MADE: &str = "0000000100000001 0000000100000001 0 1000 createSession 30000\n\
    0000000100000002 0000000100000001 1 2000 create \"/q\" x6869 1 31 \"world\" \"anyone\" p 1\n";

/// What a reader returns: the content, the stat, the names of children, the access control list,
/// the code of an error, or a fault of the view.
#[derive(Clone, Copy)]
enum Answer {
    Holds(&'static [u8]),
    Exists,
    Children,
    Acl,
    Refuses(i32),
    Fails(ViewFault),
}

/// A step on a view.
#[derive(Clone, Copy)]
enum Step {
    Publish(&'static str),
    /// The client sees a transaction elsewhere.
    Note(i64),
    /// The client reads: the last transaction that it has seen after that, and the expected result.
    Ask(i64, Answer),
}

/// Assembles a listing.
pub(crate) fn txns_of(alloc: Global, listing: &str) -> Result<Vec<Txn>, NoMemory> {
    assemble(alloc, listing).ok().ok_or(NoMemory)
}

/// Returns the read of the node that may have this result.
fn call_of(alloc: Global, answer: Answer) -> Result<ReadCall, NoMemory> {
    let path = path_of(alloc, "/q")?;
    Ok(match answer {
        Answer::Exists => ReadCall::Exists { path },
        Answer::Children => ReadCall::GetChildren { path },
        Answer::Acl => ReadCall::GetAcl { path },
        Answer::Holds(_) | Answer::Refuses(_) | Answer::Fails(_) => ReadCall::GetData { path },
    })
}

/// Whether a reply has this content.
fn holds(reply: &ReadReply, bytes: &[u8]) -> bool {
    match reply {
        ReadReply::Content {
            content: Some(content),
            ..
        } => content.as_slice() == bytes,
        _ => false,
    }
}

/// Whether a reply is of this kind.
fn is_reply(reply: &ReadReply, answer: Answer) -> bool {
    match answer {
        Answer::Holds(bytes) => holds(reply, bytes),
        Answer::Exists => matches!(reply, ReadReply::Found(_)),
        Answer::Children => matches!(reply, ReadReply::Children { .. }),
        Answer::Acl => matches!(reply, ReadReply::AclIs { .. }),
        Answer::Refuses(code) => matches!(reply, ReadReply::Refused(told) if *told == code),
        Answer::Fails(_) => false,
    }
}

/// Whether a reader's result is this, with this last transaction seen.
fn is_told(told: &Result<Seen, ViewFault>, seen: i64, answer: Answer) -> bool {
    match told {
        Ok(told) => told.zxid == seen && is_reply(&told.reply, answer),
        Err(fault) => matches!(answer, Answer::Fails(expected) if expected == *fault),
    }
}

/// Whether a reader returns this, and the client's last transaction seen is then this.
fn answers(
    alloc: Global,
    reader: &mut Reader,
    pass: &mut Pass,
    seen: i64,
    answer: Answer,
) -> Result<bool, NoMemory> {
    let call = call_of(alloc, answer)?;
    let told = reader.read(pass, &call, &[]);
    Ok(is_told(&told, seen, answer) && pass.seen() == seen)
}

/// Publishes the part of a list after everything that was offered.
pub(crate) fn publish_beyond<R: Wait>(
    rt: &R,
    publisher: &mut Publisher,
    txns: &[Txn],
) -> Result<(), NoMemory> {
    let offered = publisher.offered().min(txns.len());
    publisher.publish(rt, &txns[offered..])
}

fn publish<R: Wait>(
    rt: &R,
    alloc: Global,
    publisher: &mut Publisher,
    listing: &str,
) -> Result<(), NoMemory> {
    let txns = txns_of(alloc, listing)?;
    publish_beyond(rt, publisher, txns.as_slice())
}

/// Whether a step has its expected result.
fn goes<R: Wait>(
    rt: &R,
    alloc: Global,
    publisher: &mut Publisher,
    reader: &mut Reader,
    pass: &mut Pass,
    step: Step,
) -> Result<bool, NoMemory> {
    match step {
        Step::Publish(listing) => {
            publish(rt, alloc, publisher, listing)?;
            Ok(true)
        }
        Step::Note(zxid) => {
            pass.take(zxid);
            Ok(true)
        }
        Step::Ask(seen, answer) => answers(alloc, reader, pass, seen, answer),
    }
}

/// Returns the first step with another result.
fn play<R: Wait>(
    rt: &R,
    alloc: Global,
    publisher: &mut Publisher,
    reader: &mut Reader,
    steps: &[Step],
) -> Result<Option<usize>, NoMemory> {
    let mut pass = Pass::new();
    for (place, step) in steps.iter().enumerate() {
        if !goes(rt, alloc, publisher, reader, &mut pass, *step)? {
            return Ok(Some(place));
        }
    }
    Ok(None)
}

/// Does the same over a new view with a number of readers, of which the last one reads. Then closes
/// the view, and returns the number of its transactions.
fn play_all<R: Wait>(
    rt: &R,
    alloc: Global,
    readers: u8,
    steps: &[Step],
) -> Result<(Option<usize>, usize), NoMemory> {
    let (mut publisher, mut readers) = Publisher::start(rt, alloc, usize::from(readers) + 1)?;
    let played = match readers.pop() {
        Some(mut reader) => play(rt, alloc, &mut publisher, &mut reader, steps),
        None => Err(NoMemory),
    };
    let left = publisher.close(rt).len();
    Ok((played?, left))
}

/// A view shows the start state first, and then what is published; the same list or a shorter one
/// changes nothing.
static GROWING: [Step; 9] = [
    Step::Ask(0, Answer::Refuses(-101)),
    Step::Publish(OPENED),
    Step::Ask(0x1_0000_0001, Answer::Refuses(-101)),
    Step::Publish(OPENED),
    Step::Publish(MADE),
    Step::Ask(0x1_0000_0002, Answer::Holds(&[104, 105])),
    Step::Publish(OPENED),
    Step::Publish(""),
    Step::Ask(0x1_0000_0002, Answer::Holds(&[104, 105])),
];

#[test]
fn what_is_published_is_read(rt: HostRuntime) -> Result<(), Fail> {
    assert_eq!(rt; play_all(&rt, rt.alloc(), 2, &GROWING)?, (None, 2));
    Ok(())
}

/// The fault for a client that has seen the second transaction, from a view of the first alone.
const BEHIND: ViewFault = ViewFault::Behind {
    seen: 0x1_0000_0002,
    zxid: 0x1_0000_0001,
};

/// A client that has seen the second transaction elsewhere reads before it is published here, and
/// after that. An older transaction seen in between changes nothing.
static CATCHING_UP: [Step; 6] = [
    Step::Publish(OPENED),
    Step::Note(0x1_0000_0002),
    Step::Ask(0x1_0000_0002, Answer::Fails(BEHIND)),
    Step::Note(0x1_0000_0001),
    Step::Publish(MADE),
    Step::Ask(0x1_0000_0002, Answer::Holds(&[104, 105])),
];

#[test]
fn reader_behind_and_reader_current(rt: HostRuntime) -> Result<(), Fail> {
    assert_eq!(rt; play_all(&rt, rt.alloc(), 1, &CATCHING_UP)?, (None, 2));
    Ok(())
}

/// Each kind of read, over an open view.
static EACH_KIND: [Step; 5] = [
    Step::Publish(MADE),
    Step::Ask(0x1_0000_0002, Answer::Holds(&[104, 105])),
    Step::Ask(0x1_0000_0002, Answer::Exists),
    Step::Ask(0x1_0000_0002, Answer::Children),
    Step::Ask(0x1_0000_0002, Answer::Acl),
];

#[test]
fn each_kind_of_read_is_answered(rt: HostRuntime) -> Result<(), Fail> {
    assert_eq!(rt; play_all(&rt, rt.alloc(), 0, &EACH_KIND)?, (None, 2));
    Ok(())
}

/// Whether a reader returns the fault of a closed view to a client that has seen the first
/// transaction.
fn is_gone(alloc: Global, reader: Option<Reader>) -> Result<bool, NoMemory> {
    let mut pass = Pass::new();
    pass.take(1);
    match reader {
        Some(mut reader) => {
            answers(
                alloc,
                &mut reader,
                &mut pass,
                1,
                Answer::Fails(ViewFault::Gone),
            )
        }
        None => Err(NoMemory),
    }
}

/// Whether a view with a published list shows it, is closed, and then returns the fault of a closed
/// view.
fn closes<R: Wait>(rt: &R, alloc: Global) -> Result<bool, NoMemory> {
    let (mut publisher, mut readers) = Publisher::start(rt, alloc, 1)?;
    let published = publish(rt, alloc, &mut publisher, MADE);
    let shown = publisher.published().len();
    publisher.close(rt);
    Ok(published.is_ok() && shown == 2 && is_gone(alloc, readers.pop())?)
}

#[test]
fn a_closed_view_is_gone(rt: HostRuntime) -> Result<(), Fail> {
    assert!(rt; closes(&rt, rt.alloc())?);
    Ok(())
}
