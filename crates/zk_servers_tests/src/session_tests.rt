//! Sessions: their requests, and what becomes of an expired one.

use crate::asks::{Asking, Row};
use crate::events::FIRST;
use crate::running::{Played, Script, played_by_five, played_by_three, played_by_two};
use std::test::Fail;

/// A session from its opening to its close.
static SESSION: [Row; 8] = [
    Row {
        session: 0,
        asking: Asking::Open(30000),
        told: "wrote 0000000100000001 0",
    },
    Row {
        session: FIRST,
        asking: Asking::Create("/a"),
        told: "wrote 0000000100000002 0 /a",
    },
    Row {
        session: FIRST,
        asking: Asking::Exists("/a"),
        told: "found 0000000100000002 at 0000000100000002",
    },
    Row {
        session: FIRST,
        asking: Asking::WatchChildren("/"),
        told: "children a zookeeper at 0000000100000002",
    },
    Row {
        session: FIRST,
        asking: Asking::Create("/b"),
        told: "ChildrenChanged / wrote 0000000100000003 0 /b",
    },
    Row {
        session: FIRST,
        asking: Asking::Create("/b"),
        told: "wrote 0000000100000004 -110",
    },
    Row {
        session: FIRST,
        asking: Asking::Sync,
        told: "caught",
    },
    Row {
        session: FIRST,
        asking: Asking::Close,
        told: "wrote 0000000100000005 0",
    },
];

fn is_right(played: &Played) -> bool {
    played.wrong.is_none() && played.late.is_none() && played.whole
}

fn one_session() -> Script {
    Script {
        times: &[1000],
        rows: &SESSION,
        last: FIRST + 4,
    }
}

#[test]
fn session_over_three_servers(rt: HostRuntime) -> Result<(), Fail> {
    let played = played_by_three(&rt, rt.alloc(), one_session())?;
    assert!(rt; is_right(&played), "{played:?}");
    Ok(())
}

#[test]
fn session_over_two_servers(rt: HostRuntime) -> Result<(), Fail> {
    let played = played_by_two(&rt, rt.alloc(), one_session())?;
    assert!(rt; is_right(&played), "{played:?}");
    Ok(())
}

// each server's view finally shows all five transactions
#[test]
fn session_over_five_servers(rt: HostRuntime) -> Result<(), Fail> {
    let played = played_by_five(&rt, rt.alloc(), one_session())?;
    assert!(rt; is_right(&played), "{played:?}");
    Ok(())
}

const SECOND: i64 = FIRST + 2;

/// The first session's deadline is 5000, and 7000 if it sends a request at 3000.
static DUE: [Row; 9] = [
    Row {
        session: 0,
        asking: Asking::Open(4000),
        told: "wrote 0000000100000001 0",
    },
    Row {
        session: FIRST,
        asking: Asking::CreateOwned("/e"),
        told: "wrote 0000000100000002 0 /e",
    },
    Row {
        session: 0,
        asking: Asking::Open(30000),
        told: "wrote 0000000100000003 0",
    },
    Row {
        session: SECOND,
        asking: Asking::Exists("/e"),
        told: "found 0000000100000002 at 0000000100000003",
    },
    Row {
        session: SECOND,
        asking: Asking::WatchChildren("/"),
        told: "children e zookeeper at 0000000100000003",
    },
    // its close, and then this
    Row {
        session: SECOND,
        asking: Asking::Create("/c"),
        told: "ChildrenChanged / wrote 0000000100000005 0 /c",
    },
    Row {
        session: SECOND,
        asking: Asking::Exists("/e"),
        told: "refused -101 at 0000000100000005",
    },
    Row {
        session: FIRST,
        asking: Asking::Create("/d"),
        told: "wrote 0000000100000006 -112",
    },
    // its own close, which has expired
    Row {
        session: SECOND,
        asking: Asking::Create("/d"),
        told: "wrote 0000000100000008 -112",
    },
];

static TIMES: [i64; 9] = [1000, 3000, 4000, 6999, 6999, 7000, 7000, 7000, 37000];

#[test]
fn session_that_is_due_is_expired(rt: HostRuntime) -> Result<(), Fail> {
    let script = Script {
        times: &TIMES,
        rows: &DUE,
        last: FIRST + 7,
    };
    let played = played_by_three(&rt, rt.alloc(), script)?;
    assert!(rt; is_right(&played), "{played:?}");
    Ok(())
}

/// The holder of a lock sends nothing more; a session that waits for the lock gets it when the
/// holder has expired, and not before.
static LOCKED: [Row; 8] = [
    Row {
        session: 0,
        asking: Asking::Open(30000),
        told: "wrote 0000000100000001 0",
    },
    Row {
        session: FIRST,
        asking: Asking::CreateOwned("/lock"),
        told: "wrote 0000000100000002 0 /lock",
    },
    Row {
        session: 0,
        asking: Asking::Open(40000),
        told: "wrote 0000000100000003 0",
    },
    Row {
        session: SECOND,
        asking: Asking::CreateOwned("/lock"),
        told: "wrote 0000000100000004 -110",
    },
    Row {
        session: SECOND,
        asking: Asking::WatchExistence("/lock"),
        told: "found 0000000100000002 at 0000000100000004",
    },
    // the holder's close, and then this
    Row {
        session: SECOND,
        asking: Asking::Create("/b"),
        told: "Deleted /lock wrote 0000000100000006 0 /b",
    },
    Row {
        session: SECOND,
        asking: Asking::Exists("/lock"),
        told: "refused -101 at 0000000100000006",
    },
    Row {
        session: SECOND,
        asking: Asking::CreateOwned("/lock"),
        told: "wrote 0000000100000007 0 /lock",
    },
];

static ONCE_DUE: [i64; 6] = [1000, 1000, 1000, 1000, 1000, 31_000];

#[test]
fn a_lock_is_free_once_its_holder_is_due(rt: HostRuntime) -> Result<(), Fail> {
    let script = Script {
        times: &ONCE_DUE,
        rows: &LOCKED,
        last: FIRST + 6,
    };
    let played = played_by_three(&rt, rt.alloc(), script)?;
    assert!(rt; is_right(&played), "{played:?}");
    Ok(())
}

/// Events that come with a read and with a sync: another session changed what is watched.
static TOLD_WITH: [Row; 9] = [
    Row {
        session: 0,
        asking: Asking::Open(30000),
        told: "wrote 0000000100000001 0",
    },
    Row {
        session: 0,
        asking: Asking::Open(30000),
        told: "wrote 0000000100000002 0",
    },
    Row {
        session: FIRST,
        asking: Asking::WatchChildren("/"),
        told: "children zookeeper at 0000000100000002",
    },
    Row {
        session: FIRST + 1,
        asking: Asking::Create("/a"),
        told: "wrote 0000000100000003 0 /a",
    },
    Row {
        session: FIRST,
        asking: Asking::WatchExistence("/b"),
        told: "ChildrenChanged / refused -101 at 0000000100000003",
    },
    Row {
        session: FIRST + 1,
        asking: Asking::Create("/b"),
        told: "wrote 0000000100000004 0 /b",
    },
    Row {
        session: FIRST,
        asking: Asking::Sync,
        told: "Created /b caught",
    },
    // each event is sent once
    Row {
        session: FIRST,
        asking: Asking::Sync,
        told: "caught",
    },
    Row {
        session: FIRST,
        asking: Asking::Exists("/b"),
        told: "found 0000000100000004 at 0000000100000004",
    },
];

#[test]
fn events_come_with_reads_and_syncs(rt: HostRuntime) -> Result<(), Fail> {
    let script = Script {
        times: &[1000],
        rows: &TOLD_WITH,
        last: FIRST + 3,
    };
    let played = played_by_three(&rt, rt.alloc(), script)?;
    assert!(rt; is_right(&played), "{played:?}");
    Ok(())
}
