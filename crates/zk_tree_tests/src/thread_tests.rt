//! A thread that publishes while another one reads.

use crate::view_tests::{publish_beyond, txns_of};
use crate::watch_tests::path_of;
use std::alloc::Global;
use std::sync::Wait;
use std::test::Fail;
use std::thread::{Threads, join};
use zk_path::NoMemory;
use zk_table::{ReadCall, Txn};
use zk_views::{Pass, Publisher, Reader};

/// A session is opened, and three nodes are created.
const HISTORY: &str = "0000000100000001 0000000100000001 0 1000 createSession 30000\n\
    0000000100000002 0000000100000001 1 2000 create \"/q\" x6869 1 31 \"world\" \"anyone\" p 1\n\
    0000000100000003 0000000100000001 2 2000 create \"/q/a\" x 1 31 \"world\" \"anyone\" p 1\n\
    0000000100000004 0000000100000001 3 2000 create \"/q/b\" x 1 31 \"world\" \"anyone\" p 2\n";

/// The last transaction of that history.
const LAST: i64 = 0x1_0000_0004;

/// Publishes the list, one transaction more each time, and returns whether all succeeded.
fn publish_each<R: Wait>(rt: &R, publisher: &mut Publisher, txns: &[Txn]) -> bool {
    let mut fine = true;
    for count in 0..txns.len() {
        fine = fine && publish_beyond(rt, publisher, &txns[..count + 1]).is_ok();
    }
    fine
}

/// Reads until the last transaction was seen, or a fault. Returns the last transaction seen.
fn read_to_the_last<R: Wait>(rt: &R, mut reader: Reader, call: &ReadCall) -> i64 {
    let mut pass = Pass::new();
    for _ in rt.forever() {
        match reader.read(&mut pass, call, &[]) {
            Ok(seen) if seen.zxid < LAST => {}
            _ => break,
        }
    }
    pass.seen()
}

/// Publishes in one thread and reads in another.
fn publish_and_read<R: Threads + Wait + Sync>(
    rt: &R,
    publisher: &mut Publisher,
    reader: Reader,
    txns: &[Txn],
    call: &ReadCall,
) -> (bool, i64) {
    join(
        rt,
        move || publish_each(rt, publisher, txns),
        move || read_to_the_last(rt, reader, call),
    )
}

/// Does the same over a new view, and then closes it.
fn race<R: Threads + Wait + Sync>(
    rt: &R,
    alloc: Global,
    txns: &[Txn],
    call: &ReadCall,
) -> Result<(bool, i64), NoMemory> {
    let (mut publisher, mut readers) = Publisher::start(rt, alloc, 1)?;
    let raced = readers.pop().map(|reader| publish_and_read(
        rt,
        &mut publisher,
        reader,
        txns,
        call,
    ));
    publisher.close(rt);
    raced.ok_or(NoMemory)
}

#[test]
fn a_thread_reads_while_another_publishes(rt: HostRuntime) -> Result<(), Fail> {
    let txns = txns_of(rt.alloc(), HISTORY)?;
    let path = path_of(rt.alloc(), "/q")?;
    let call = ReadCall::GetData { path };
    assert_eq!(rt;
        race(&rt, rt.alloc(), txns.as_slice(), &call)?,
        (true, LAST)
    );
    Ok(())
}
