//! Servers that receive or send messages that no run has, or whose primary fails to allocate. If it
//! fails for a call, the leader accepts later calls. It fails to start after a call of its own
//! term, and therefore must start once a term, however long its history is.

ghost use Rattle.std.specs.Prelude.{refl, pos};
ghost use Rattle.zab_broadcast.specs.Echoes.{echo_of};
ghost use Rattle.zab_broadcast.specs.Shortness.{error_is_short};

use crate::asked::{are_shown, ends_below, entry, has_zxids, history_of, is_short};
use std::alloc::Global;
use zab_broadcast::{Caught, EchoCall, Primary, Server};
use zab_epoch::{
    Body, Entries, Entry, History, Majority, Message, Messages, RuleFault, Stable, Vote,
};
use zk_path::NoMemory;

/// The tag of the second term's first call. Earlier terms have lower tags.
const FIRST: u64 = 100;

/// An echo that fails to allocate for the call with tag 13, and if it starts after a call of the
/// second term.
#[derive(Clone, Copy, Debug, Drop)]
struct Refusing;

impl Primary for Refusing {
    type Call = EchoCall;

    ghost use Rattle.zab_epoch.specs.declared.history.Entry.{Entry};

    ghost stands_for = { λ _ _ _. Unit {0} };

    ghost tag_of = { λ call. call.tag };

    ghost closing_of = { λ tag session now. record { tag = tag } };

    ghost made_of = { λ history call zxid. echo_of call.tag zxid };

    fn tag(call: &EchoCall) -> u64 {
        call.tag
    }

    fn closing(_alloc: Global, tag: u64, _session: i64, _now: i64) -> EchoCall {
        EchoCall { tag }
    }

    fn start(_alloc: Global, history: &Entries<'_>) -> Result<Refusing, NoMemory> {
        if history.tags().iter().any(|tag| *tag >= FIRST) {
            return Err(NoMemory);
        }
        Ok(Refusing)
    }

    fn make(&self, call: &EchoCall, zxid: i64) -> Result<Entry, NoMemory> {
        if call.tag == 13 {
            return Err(NoMemory);
        }
        Ok(entry(call.tag, zxid))
    }

    fn taken(&mut self, _entry: &Entry) -> Result<(), NoMemory> {
        Ok(())
    }

    fn delivered(&mut self, _count: usize) {}

    ghost made_zxid = { λ history call zxid. refl };

    ghost made_tag = { λ history call zxid. refl };

    ghost made_short = { λ history call zxid. error_is_short call.tag (pos 0) (pos 0) zxid (pos 0) (pos 0) };

    ghost closing_tag = { λ tag session now. refl };
}

/// What a server receives, or does. Server 1 leads, and a follower receives messages of epoch 1.
#[derive(Clone, Copy)]
enum Heard {
    Lead,
    Follow,
    CEpoch(usize, u32),
    /// A vote in an epoch: a current epoch and a last zxid.
    AckEpoch(usize, u32, (u32, i64)),
    /// A NewLeader: the zxid up to which entries are kept, and the entries after them.
    NewLeader(i64, &'static [i64]),
    AckLeader(u32, u64),
    Submit(u64),
    /// The second entry, with this zxid.
    Propose(i64),
}

/// What a server sends, or its fault.
type Told = Result<Messages<EchoCall>, RuleFault>;

/// Receives a NewLeader, and returns what the server sends.
fn joins(alloc: Global, server: &mut Server<Refusing>, keep: i64, rest: &History) -> Told {
    Ok(server.new_leader(alloc, 1, 1, keep, rest)?)
}

/// Submits a call, and returns what the server sends.
fn submits(alloc: Global, server: &mut Server<Refusing>, quorums: &Majority, tag: u64) -> Told {
    if !ends_below(server) {
        return Err(RuleFault::EpochFull);
    }
    server.submit(alloc, quorums, EchoCall { tag })
}

/// Receives a proposed entry, and returns what the server sends.
fn accepts(alloc: Global, server: &mut Server<Refusing>, entry: &Entry) -> Told {
    if !is_short(entry) {
        return Err(RuleFault::EpochFull);
    }
    Ok(server.propose(alloc, 1, 1, 2, entry)?)
}

/// Receives or does this, and returns what the server sends.
fn told(alloc: Global, server: &mut Server<Refusing>, heard: Heard) -> Told {
    let servers = server.state().peer.servers;
    let quorums = Majority { servers };
    match heard {
        Heard::Lead => Ok(server.lead(alloc)?),
        Heard::Follow => Ok(server.follow(alloc, 1)?),
        Heard::CEpoch(from, promised) => server.c_epoch(alloc, &quorums, from, promised),
        Heard::AckEpoch(from, epoch, (current, last)) => {
            let said = Vote { current, last };
            Ok(server.ack_epoch(alloc, &quorums, from, epoch, true, said)?)
        }
        Heard::NewLeader(keep, zxids) => joins(alloc, server, keep, &history_of(alloc, zxids)?),
        Heard::AckLeader(epoch, length) => {
            Ok(server.ack_leader(alloc, &quorums, 1, epoch, length)?)
        }
        Heard::Submit(tag) => submits(alloc, server, &quorums, tag),
        Heard::Propose(zxid) => accepts(alloc, server, &entry(2, zxid)),
    }
}

/// What a server is expected to send.
#[derive(Clone, Copy)]
enum Said {
    /// Messages, in debug format.
    Shown(&'static str),
    /// A NewLeader of epoch 1 to server 3: the zxid up to which entries are kept, and the entries
    /// after them.
    Suffix(i64, &'static [i64]),
    Refused(RuleFault),
}

/// Whether messages are exactly this NewLeader to server 3.
fn are_suffix(messages: &[Message<EchoCall>], expected: i64, zxids: &[i64]) -> bool {
    let [message] = messages else {
        return false;
    };
    match &message.body {
        Body::NewLeader { epoch, keep, rest } => {
            message.addressee == 3 && *epoch == 1 && *keep == expected && has_zxids(rest, zxids)
        }
        _ => false,
    }
}

/// Whether this is sent.
fn is_said(alloc: Global, told: &Told, said: Said) -> bool {
    match (told, said) {
        (Ok(messages), Said::Shown(shown)) => are_shown(alloc, messages, shown),
        (Ok(messages), Said::Suffix(keep, zxids)) => are_suffix(messages.as_slice(), keep, zxids),
        (Err(fault), Said::Refused(expected)) => *fault == expected,
        _ => false,
    }
}

/// A server's expected final state: its current epoch, its zxids, its number of delivered entries,
/// and its role in debug format.
type End = (u32, &'static [i64], usize, &'static str);

/// Whether a server has this final state.
fn has(alloc: Global, server: &Server<Refusing>, (current, zxids, delivered, role): End) -> bool {
    let peer = &server.state().peer;
    peer.stable.current == current
        && has_zxids(&peer.stable.history, zxids)
        && server.delivered().len() == delivered
        && matches!(format!(in alloc; "{:?}", peer.role), Ok(text) if text.as_str() == role)
}

/// What a server receives, and is expected to send.
type Row = (Heard, Said);

/// Whether a server sends all this, and has this final state.
fn does(alloc: Global, server: &mut Server<Refusing>, rows: &[Row], end: End) -> bool {
    for (heard, said) in rows {
        if !is_said(alloc, &told(alloc, server, *heard), *said) {
            return false;
        }
    }
    has(alloc, server, end)
}

/// A server's start: the number of servers, its own number, its promise, its current epoch, and its
/// zxids.
type Start = (usize, usize, u32, u32, &'static [i64]);

/// Does the same with a server that starts like this.
fn plays(alloc: Global, start: Start, rows: &[Row], end: End) -> Result<bool, NoMemory> {
    let (servers, me, promised, current, zxids) = start;
    let history = history_of(alloc, zxids)?;
    let stable = Stable {
        promised,
        current,
        history,
    };
    let mut server = Server::restored(alloc, servers, me, stable);
    Ok(does(alloc, &mut server, rows, end))
}

const SILENT: Said = Said::Shown("[]");

const FOLLOWS: Row = (
    Heard::Follow,
    Said::Shown("[Message { sender: 2, addressee: 1, body: CEpoch { promised: 1 } }]"),
);

const CHOOSES: Said = Said::Shown(
    "[Message { sender: 1, addressee: 2, body: NewEpoch { epoch: 1 } }]",
);

const HAS_ONE: Said = Said::Shown(
    "[Message { sender: 2, addressee: 1, body: AckLeader { epoch: 1, length: 1 } }]",
);

const HAS_THREE: Said = Said::Shown(
    "[Message { sender: 2, addressee: 1, body: AckLeader { epoch: 1, length: 3 } }]",
);

const TAKES_TWO: Said = Said::Shown(
    "[Message { sender: 2, addressee: 1, body: Ack { epoch: 1, length: 2 } }]",
);

const JOINING: &str = "Following { leader: 1, synced: false }";

const SYNCED: &str = "Following { leader: 1, synced: true }";

/// Server 2, with zxids 1, 3 and 4 of epoch 0, has promised epoch 1.
const OLD: Start = (3, 2, 1, 0, &[1, 3, 4]);

/// The zxid that it keeps, and the zxids of the rest; what it sends, and its final state.
static JOINS: [(i64, &[i64], Said, End); 10] = [
    (0, &[2], HAS_ONE, (1, &[2], 0, SYNCED)),
    (1, &[], HAS_ONE, (1, &[1], 0, SYNCED)),
    (1, &[5, 6], HAS_THREE, (1, &[1, 5, 6], 0, SYNCED)),
    (3, &[5], HAS_THREE, (1, &[1, 3, 5], 0, SYNCED)),
    (4, &[], HAS_THREE, (1, &[1, 3, 4], 0, SYNCED)),
    // a_follower_ignores_what_does_not_fit: it has no entry with the zxid to keep,
    (2, &[5], SILENT, (0, &[1, 3, 4], 0, JOINING)),
    (5, &[6], SILENT, (0, &[1, 3, 4], 0, JOINING)),
    (2, &[], SILENT, (0, &[1, 3, 4], 0, JOINING)),
    // or the rest does not begin above that zxid
    (3, &[3], SILENT, (0, &[1, 3, 4], 0, JOINING)),
    (4, &[2, 5], SILENT, (0, &[1, 3, 4], 0, JOINING)),
];

#[test]
fn a_follower_cuts_to_what_it_keeps(rt: HostRuntime) {
    for (keep, rest, said, end) in &JOINS {
        let rows = [FOLLOWS, (Heard::NewLeader(*keep, rest), *said)];
        assert_eq!(rt; plays(rt.alloc(), OLD, &rows, *end), Ok(true), "{keep}");
    }
}

/// Server 1, with zxids 5 and 7 of epoch 0, has promised no epoch.
const LONGER: Start = (3, 1, 0, 0, &[5, 7]);

/// The last zxid in server 3's vote, once server 1 leads and has server 2's vote, and what server 3
/// receives.
static SUFFIXES: [(i64, Said); 5] = [
    (0, Said::Suffix(0, &[5, 7])),
    (4, Said::Suffix(0, &[5, 7])),
    (5, Said::Suffix(5, &[7])),
    (6, Said::Suffix(5, &[7])),
    (7, Said::Suffix(7, &[])),
];

#[test]
fn a_leader_tells_what_a_joiner_lacks(rt: HostRuntime) {
    for (last, said) in &SUFFIXES {
        let rows = [
            (Heard::Lead, SILENT),
            (Heard::CEpoch(2, 0), CHOOSES),
            (Heard::AckEpoch(3, 1, (0, *last)), *said),
        ];
        let end = (1, LONGER.4, 0, "Sync");
        assert_eq!(rt; plays(rt.alloc(), LONGER, &rows, end), Ok(true), "{last}");
    }
}

/// The first zxids of epochs 1 and 2.
const A: i64 = 0x1_0000_0001;

const D: i64 = 0x2_0000_0001;

/// How servers start, what they receive and are expected to send, and their final states.
static PLAYS: [(Start, &[Row], End); 4] = [
    // the_greatest_promise_is_the_last: a leader rejects a lower epoch, and leads no more
    (
        (3, 1, 2_147_483_647, 0, &[]),
        &[
            (Heard::Lead, SILENT),
            (Heard::CEpoch(2, 0), Said::Refused(RuleFault::EpochFull)),
        ],
        (0, &[], 0, "Looking"),
    ),
    // a_proposal_is_taken_above_the_last_zxid, and is ignored if its zxid is not above that
    (
        (3, 2, 1, 1, &[A]),
        &[
            FOLLOWS,
            (Heard::NewLeader(A, &[]), HAS_ONE),
            (Heard::Propose(A), SILENT),
            (Heard::Propose(A - 1), SILENT),
            (Heard::Propose(0), SILENT),
            (Heard::Propose(A + 1), TAKES_TWO),
        ],
        (1, &[A, A + 1], 0, SYNCED),
    ),
    // a_call_after_one_that_was_refused_memory, at a leader that is alone
    (
        (1, 1, 0, 0, &[]),
        &[
            (Heard::Lead, SILENT),
            (Heard::CEpoch(1, 0), SILENT),
            (Heard::AckEpoch(1, 1, (0, 0)), SILENT),
            (Heard::AckLeader(1, 0), SILENT),
            (Heard::Submit(13), Said::Refused(RuleFault::NoMemory)),
            (Heard::Submit(1), SILENT),
        ],
        (1, &[A], 1, "Broadcast"),
    ),
    // a_primary_is_begun_once_a_term, at a leader that is alone, after three entries of the term
    // before
    (
        (1, 1, 1, 1, &[A, A + 1, A + 2]),
        &[
            (Heard::Lead, SILENT),
            (Heard::CEpoch(1, 1), SILENT),
            (Heard::AckEpoch(1, 2, (1, A + 2)), SILENT),
            (Heard::AckLeader(2, 3), SILENT),
            (Heard::Submit(FIRST), SILENT),
            (Heard::Submit(FIRST + 1), SILENT),
            (Heard::Submit(FIRST + 2), SILENT),
        ],
        (2, &[A, A + 1, A + 2, D, D + 1, D + 2], 6, "Broadcast"),
    ),
];

#[test]
fn servers_hear_what_no_run_brings(rt: HostRuntime) {
    for (number, (start, rows, end)) in PLAYS.iter().enumerate() {
        assert_eq!(rt; plays(rt.alloc(), *start, rows, *end), Ok(true), "{number}");
    }
}

/// How a server that is alone begins to serve.
const ALONE: [Row; 4] = [
    (Heard::Lead, SILENT),
    (Heard::CEpoch(1, 0), SILENT),
    (Heard::AckEpoch(1, 1, (0, 0)), SILENT),
    (Heard::AckLeader(1, 0), SILENT),
];

/// Whether a leader that is alone completes a sync, which is taken once.
fn takes_a_sync(alloc: Global) -> bool {
    let mut server = Server::restored(alloc, 1, 1, Stable::new(alloc));
    does(alloc, &mut server, &ALONE, (1, &[], 0, "Broadcast"))
        && server.sync(alloc, 9).is_ok()
        && server.take_caught(alloc).as_slice() == [Caught { tag: 9, length: 0 }].as_slice()
        && server.take_caught(alloc).as_slice().is_empty()
}

#[test]
fn a_completed_sync_is_taken_once(rt: HostRuntime) {
    assert!(rt; takes_a_sync(rt.alloc()));
}
