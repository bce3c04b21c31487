//! Several sessions that expire at one read, which watches what one of them holds.

use crate::asks::{Asking, Row};
use crate::events::FIRST;
use crate::running::{Script, played_by_three};
use std::test::Fail;

/// The session that waits for a lock after eight that hold one each.
const LAST: i64 = FIRST + 16;

/// All locks are free once the eight sessions have expired, which the read finds. Mostly it sets
/// its watch before the leader has delivered the close of the last one. Then the event comes with
/// the next line, and never before the read's reply.
static WAITS: [Row; 20] = [
    Row {
        session: 0,
        asking: Asking::Open(4000),
        told: "wrote 0000000100000001 0",
    },
    Row {
        session: FIRST,
        asking: Asking::CreateOwned("/l0"),
        told: "wrote 0000000100000002 0 /l0",
    },
    Row {
        session: 0,
        asking: Asking::Open(4000),
        told: "wrote 0000000100000003 0",
    },
    Row {
        session: FIRST + 2,
        asking: Asking::CreateOwned("/l1"),
        told: "wrote 0000000100000004 0 /l1",
    },
    Row {
        session: 0,
        asking: Asking::Open(4000),
        told: "wrote 0000000100000005 0",
    },
    Row {
        session: FIRST + 4,
        asking: Asking::CreateOwned("/l2"),
        told: "wrote 0000000100000006 0 /l2",
    },
    Row {
        session: 0,
        asking: Asking::Open(4000),
        told: "wrote 0000000100000007 0",
    },
    Row {
        session: FIRST + 6,
        asking: Asking::CreateOwned("/l3"),
        told: "wrote 0000000100000008 0 /l3",
    },
    Row {
        session: 0,
        asking: Asking::Open(4000),
        told: "wrote 0000000100000009 0",
    },
    Row {
        session: FIRST + 8,
        asking: Asking::CreateOwned("/l4"),
        told: "wrote 000000010000000a 0 /l4",
    },
    Row {
        session: 0,
        asking: Asking::Open(4000),
        told: "wrote 000000010000000b 0",
    },
    Row {
        session: FIRST + 10,
        asking: Asking::CreateOwned("/l5"),
        told: "wrote 000000010000000c 0 /l5",
    },
    Row {
        session: 0,
        asking: Asking::Open(4000),
        told: "wrote 000000010000000d 0",
    },
    Row {
        session: FIRST + 12,
        asking: Asking::CreateOwned("/l6"),
        told: "wrote 000000010000000e 0 /l6",
    },
    Row {
        session: 0,
        asking: Asking::Open(4000),
        told: "wrote 000000010000000f 0",
    },
    Row {
        session: FIRST + 14,
        asking: Asking::CreateOwned("/l7"),
        told: "wrote 0000000100000010 0 /l7",
    },
    Row {
        session: 0,
        asking: Asking::Open(30000),
        told: "wrote 0000000100000011 0",
    },
    Row {
        session: LAST,
        asking: Asking::WatchExistence("/l7"),
        told: "found 0000000100000010 at *|refused -101 at *",
    },
    Row {
        session: LAST,
        asking: Asking::Create("/woken"),
        told: "Deleted /l7 wrote 000000010000001a 0 /woken|wrote 000000010000001a 0 /woken",
    },
    Row {
        session: LAST,
        asking: Asking::Exists("/l7"),
        told: "refused -101 at 000000010000001a",
    },
];

/// The eight sessions expire at 5000.
static TIMES: [i64; 18] = [
    1000, 1000, 1000, 1000, 1000, 1000, 1000, 1000, 1000, 1000, 1000, 1000, 1000, 1000, 1000, 1000,
    1000, 5000,
];

/// In how many runs: an event that overtakes its read does so in some alone.
const RUNS: u32 = 40;

#[test]
fn no_event_overtakes_the_read_that_watches(rt: HostRuntime) -> Result<(), Fail> {
    let script = Script {
        times: &TIMES,
        rows: &WAITS,
        last: FIRST + 25,
    };
    for _ in 0..RUNS {
        let played = played_by_three(&rt, rt.alloc(), script)?;
        assert!(rt;
            played.wrong.is_none() && played.late.is_none() && played.whole,
            "{played:?}"
        );
    }
    Ok(())
}
