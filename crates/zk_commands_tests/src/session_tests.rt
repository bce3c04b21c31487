//! Two sessions of one service: each receives its own events, once, also if the other made a
//! request in between.

use crate::memory_tests::Still;
use std::alloc::Global;
use std::test::Fail;
use zk_acl::Ids;
use zk_front::{Ask, Local, Reply, Service, ServiceFault, Told};
use zk_path::NoMemory;
use zk_request_syntax::{Lookup, read_lookup, read_request};

/// The sessions of the first two transactions.
const ALICE: i64 = 0x1_0000_0001;

const BOB: i64 = 0x1_0000_0002;

/// What a session asks: a request or a read, by its line, or a sync.
#[derive(Clone, Copy)]
enum Step {
    Writes(i64, &'static str),
    Reads(i64, &'static str),
    Syncs(i64),
}

const MAKE_A: &str = "create \"/a\" - 1 31 \"world\" \"anyone\"";

const MAKE_B: &str = "create \"/b\" - 1 31 \"world\" \"anyone\"";

/// Each step, and the paths of the events that come with its reply.
static STEPS: [(Step, &[&str]); 10] = [
    (Step::Writes(0, "open 30000"), &[]),
    (Step::Writes(0, "open 30000"), &[]),
    (Step::Reads(BOB, "ls -w \"/\""), &[]),
    (Step::Reads(ALICE, "ls -w \"/\""), &[]),
    (Step::Writes(ALICE, MAKE_A), &["/"]),
    (Step::Writes(ALICE, MAKE_B), &[]),
    (Step::Syncs(ALICE), &[]),
    // Bob's event occurred during Alice's request.
    (Step::Reads(BOB, "stat \"/\""), &["/"]),
    (Step::Reads(BOB, "stat \"/a\""), &[]),
    (Step::Syncs(BOB), &[]),
];

/// Returns the request of a line, from a session without proved identities.
pub fn write_of(alloc: Global, session: i64, cxid: i32, line: &str) -> Result<Ask, NoMemory> {
    match read_request(alloc, line) {
        Ok(request) => Ok(Ask::Write {
            session,
            cxid,
            auths: Ids::new(Vec::new(alloc)),
            request,
        }),
        Err(_) => Err(NoMemory),
    }
}

/// Returns the read of a line.
pub fn read_of(alloc: Global, session: i64, seen: i64, line: &str) -> Result<Ask, NoMemory> {
    match read_lookup(alloc, line) {
        Ok(Lookup::Asks { call, watch }) => Ok(Ask::Read {
            session,
            seen,
            auths: Ids::new(Vec::new(alloc)),
            call,
            watch,
        }),
        _ => Err(NoMemory),
    }
}

fn ask_of(alloc: Global, step: Step) -> Result<Ask, NoMemory> {
    match step {
        Step::Writes(session, line) => write_of(alloc, session, 1, line),
        Step::Reads(session, line) => read_of(alloc, session, 0, line),
        Step::Syncs(session) => Ok(Ask::Sync { session }),
    }
}

/// Whether a result is no error and has these events.
fn is_told(told: &Result<Told, ServiceFault>, expected: &[&str]) -> bool {
    match told {
        Ok(told) => is_done(&told.reply) && are_events(told, expected),
        Err(_) => false,
    }
}

fn is_done(reply: &Reply) -> bool {
    match reply {
        Reply::Wrote(result) => result.err == 0,
        Reply::Looked { zxid, .. } => *zxid > 0,
        Reply::Caught => true,
    }
}

fn are_events(told: &Told, expected: &[&str]) -> bool {
    let events = told.events.as_slice();
    if events.len() != expected.len() {
        return false;
    }
    for (event, path) in events.iter().zip(expected.iter()) {
        if event.path.text() != *path {
            return false;
        }
    }
    true
}

/// Whether a step returns these events.
fn tells(
    alloc: Global,
    local: &mut Local<Still>,
    step: Step,
    expected: &[&str],
) -> Result<bool, NoMemory> {
    let told = local.ask(ask_of(alloc, step)?);
    let is_it = is_told(&told, expected);
    drop(told);
    Ok(is_it)
}

/// Returns the index of the first step with other events.
fn walk(alloc: Global, local: &mut Local<Still>) -> Result<Option<usize>, NoMemory> {
    for (place, (step, expected)) in STEPS.iter().enumerate() {
        if !tells(alloc, local, *step, expected)? {
            return Ok(Some(place));
        }
    }
    Ok(None)
}

/// Does the same with a new ensemble.
fn other_step(alloc: Global) -> Result<Option<usize>, NoMemory> {
    match Local::start(alloc, 3, Still) {
        Ok(mut local) => {
            let place = walk(alloc, &mut local);
            drop(local);
            place
        }
        Err(_) => Err(NoMemory),
    }
}

#[test]
fn each_session_is_told_its_events(rt: HostRuntime) -> Result<(), Fail> {
    assert_eq!(rt; other_step(rt.alloc())?, None);
    Ok(())
}

/// Returns the fault, if any, of starting `servers` servers.
fn started(alloc: Global, servers: usize) -> Option<ServiceFault> {
    match Local::start(alloc, servers, Still) {
        Ok(local) => {
            drop(local);
            None
        }
        Err(fault) => Some(fault),
    }
}

// server 1 can't lead if it does not exist
#[test]
fn no_servers_serve_nobody(rt: HostRuntime) {
    assert_eq!(rt; started(rt.alloc(), 0), Some(ServiceFault::Server));
    assert_eq!(rt; started(rt.alloc(), 2), None);
}
