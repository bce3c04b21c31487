//! Services with replies that do not fit the request: the reply is `err server`, and changes
//! neither the session nor what the client has seen. Also an event that comes with the opening of a
//! session.

use crate::memory_tests::{Devices, Ended, GOOD, serves};
use std::alloc::Global;
use zk_front::{Ask, Events, FrontFault, Reply, Service, ServiceFault, Told};
use zk_machine::{Change, ChangeKind};
use zk_path::{NoMemory, Path};
use zk_table::{PartResults, ReadReply, TxnResult};

/// The kind of the service's reply.
#[derive(Clone, Copy)]
enum Kind {
    /// A transaction that was applied, whose result has neither path nor stat.
    Plain(i64),
    /// The same, with an event.
    Fired(i64),
    /// A read that failed.
    Looked(i64),
    /// A read that failed, whose code is the last transaction that the client has seen.
    Seen,
    /// A read, and a transaction, of a session that has expired.
    Unread(i64),
    Failed(i64),
    Caught,
    Fault(ServiceFault),
}

/// A service with these replies, one after the other.
#[derive(Drop)]
struct Odd {
    alloc: Global,
    kinds: &'static [Kind],
}

/// A transaction that was applied, with an empty result.
fn applied(alloc: Global, zxid: i64) -> TxnResult {
    TxnResult {
        zxid,
        err: 0,
        path: None,
        stat: None,
        parts: PartResults::new(Vec::new(alloc)),
    }
}

fn refused(code: i32, zxid: i64) -> Reply {
    Reply::Looked {
        reply: ReadReply::Refused(code),
        zxid,
    }
}

/// The last transaction that the client has seen, if it reads.
fn seen_by(ask: &Ask) -> i64 {
    match ask {
        Ask::Read { seen, .. } => *seen,
        _ => 0,
    }
}

fn reply_of(alloc: Global, kind: Kind, ask: &Ask) -> Result<Reply, ServiceFault> {
    match kind {
        Kind::Plain(zxid) => Ok(Reply::Wrote(applied(alloc, zxid))),
        Kind::Fired(zxid) => Ok(Reply::Wrote(applied(alloc, zxid))),
        Kind::Looked(zxid) => Ok(refused(-101, zxid)),
        Kind::Unread(zxid) => Ok(refused(-112, zxid)),
        Kind::Failed(zxid) => {
            let mut wrote = applied(alloc, zxid);
            wrote.err = -112;
            Ok(Reply::Wrote(wrote))
        }
        Kind::Seen => Ok(refused(i32::try_from(seen_by(ask)).unwrap_or(0), 0)),
        Kind::Caught => Ok(Reply::Caught),
        Kind::Fault(fault) => Err(fault),
    }
}

/// The event that `/a` was deleted.
fn one_event(alloc: Global) -> Result<Events, NoMemory> {
    let path = Path::read(alloc, "/a").ok().ok_or(NoMemory)?;
    let mut events = Vec::new(alloc);
    events.push(Change {
        path,
        kind: ChangeKind::Deleted,
    })?;
    Ok(Events::new(events))
}

fn events_of(alloc: Global, kind: Kind) -> Result<Events, NoMemory> {
    match kind {
        Kind::Fired(_) => one_event(alloc),
        _ => Ok(Events::new(Vec::new(alloc))),
    }
}

/// Returns the reply with its events.
fn told_with(alloc: Global, kind: Kind, reply: Reply) -> Result<Told, ServiceFault> {
    match events_of(alloc, kind) {
        Ok(events) => Ok(Told { events, reply }),
        Err(NoMemory) => Err(ServiceFault::Memory),
    }
}

impl Odd {
    /// Returns the next kind of reply.
    fn next(&mut self) -> Kind {
        let [kind, rest @ ..] = self.kinds else {
            return Kind::Fault(ServiceFault::Server);
        };
        self.kinds = rest;
        *kind
    }
}

impl Service for Odd {
    ghost use Rattle.std.specs.Prelude.{⊤};

    ghost does = { λ _ _ _ _. ⊤ };

    fn ask(&mut self, ask: Ask) -> Result<Told, ServiceFault> {
        let kind = self.next();
        let reply = reply_of(self.alloc, kind, &ask);
        drop(ask);
        told_with(self.alloc, kind, reply?)
    }
}

/// A line for each reply. The zxids of replies that do not fit are above those of others.
static KINDS: [Kind; 17] = [
    Kind::Fired(5),
    Kind::Seen,
    Kind::Looked(99),
    Kind::Plain(99),
    Kind::Plain(99),
    Kind::Caught,
    Kind::Looked(99),
    Kind::Caught,
    Kind::Caught,
    Kind::Plain(99),
    Kind::Plain(99),
    Kind::Seen,
    Kind::Fault(ServiceFault::Server),
    Kind::Fault(ServiceFault::Behind),
    Kind::Plain(3),
    Kind::Seen,
    Kind::Plain(7),
];

const LINES: &str = "open 30000
get \"/a\"
create \"/a\" x 1 31 \"world\" \"anyone\"
create \"/a\" x 1 31 \"world\" \"anyone\"
set \"/a\" x 0
close
close
ls \"/a\"
get \"/a\"
get \"/a\"
sync \"/a\"
get \"/a\"
delete \"/a\" 0
get \"/a\"
delete \"/a\" 0
get \"/a\"
close
get \"/a\"
";

/// The last transaction seen remains 5: a delete with a lower zxid is successful, and what is seen
/// never decreases.
const ANSWERS: &str = "event 2 \"/a\"
ok 0000000000000005 30000
err 5
err server
err server
err server
err server
err server
err server
err server
err server
err server
err 5
err server
err behind
ok
err 5
ok
err -112
";

/// Whether serving these lines ends as expected over these replies, and writes these answers.
fn are_answered(
    alloc: Global,
    lines: &str,
    kinds: &'static [Kind],
    devices: Devices,
    expected: Ended,
    answers: &str,
) -> bool {
    let mut service = Odd { alloc, kinds };
    let (lines, answers) = (lines.as_bytes(), answers.as_bytes());
    let is_it = serves(alloc, &mut service, lines, devices, expected, answers);
    drop(service);
    is_it
}

#[test]
fn replies_of_another_kind_change_nothing(rt: HostRuntime) {
    assert!(rt; are_answered(rt.alloc(), LINES, &KINDS, GOOD, Ok(18), ANSWERS));
}

/// The service fails to allocate after its first reply.
static NO_MEMORY: [Kind; 2] = [Kind::Plain(5), Kind::Fault(ServiceFault::Memory)];

// An allocation failure ends serving. If a read takes one byte, the answer of the line before was
// written.
#[test]
fn refused_memory_ends_serving(rt: HostRuntime) {
    let lines = "open 4000\nget \"/\"\nruok\n";
    let devices = Devices { piece: 1, ..GOOD };
    let ended = Err(FrontFault::NoMemory);
    let answers = "ok 0000000000000005 4000\n";
    assert!(rt; are_answered(rt.alloc(), lines, &NO_MEMORY, devices, ended, answers));
}

/// A read, a write, a multi and a close that fail because the session has expired, each in another
/// session.
static EXPIRED: [Kind; 12] = [
    Kind::Plain(5),
    Kind::Unread(6),
    Kind::Plain(7),
    Kind::Failed(8),
    Kind::Plain(9),
    Kind::Failed(10),
    Kind::Plain(11),
    Kind::Failed(12),
    Kind::Plain(13),
    Kind::Looked(14),
    Kind::Caught,
    Kind::Seen,
];

const EXPIRED_LINES: &str = "open 30000
get \"/a\"
get \"/a\"
close
open 30000
delete \"/a\" 0
sync \"/a\"
commit
open 30000
multi
check \"/a\" 0
commit
multi
open 30000
close
close
open 30000
get \"/a\"
sync \"/a\"
get \"/a\"
";

/// After that error a line gets the reply that it gets without a session, until another one opens.
/// What was seen stays.
const EXPIRED_ANSWERS: &str = "ok 0000000000000005 30000
err -112
err -112
err -112
ok 0000000000000007 30000
err -112
err -112
err -8
ok 0000000000000009 30000
err -112
err -112
ok 000000000000000b 30000
err -112
err -112
ok 000000000000000d 30000
err -101
ok \"/a\"
err 14
";

#[test]
fn a_session_that_has_expired_ends(rt: HostRuntime) {
    let ended = Ok(20);
    assert!(rt;
        are_answered(
            rt.alloc(),
            EXPIRED_LINES,
            &EXPIRED,
            GOOD,
            ended,
            EXPIRED_ANSWERS
        )
    );
}
