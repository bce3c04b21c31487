//! Three hosts with trees, turned in one thread.

ghost use Rattle.std.specs.Prelude.{IfSome};
ghost use Rattle.zab_epoch.specs.Shortness.{IsShortBody};

use std::alloc::Global;
use zab_epoch::{Majority, Message, Messages};
use zab_host::{MemoryStorage, StoreFault, is_append_only};
use zk_acl::Ids;
use zk_host::{News, ReadFault, ReplicaHost};
use zk_model::Question;
use zk_path::NoMemory;
use zk_request_syntax::{Lookup, push_reply, read_lookup, read_request};
use zk_requests::Call;
use zk_table::ReadReply;

pub type TreeHost = ReplicaHost<MemoryStorage>;

/// Two of three hosts are a quorum.
pub const QUORUMS: Majority = Majority { servers: 3 };

/// The session that the first call of the first epoch opens.
pub const SESSION: i64 = 0x1_0000_0001;

/// Starts host `me` of three on a store.
pub fn start(alloc: Global, me: u8, storage: MemoryStorage) -> Result<TreeHost, StoreFault> {
    ReplicaHost::start(alloc, 3, me, storage)
}

/// Starts three hosts on empty stores; fewer if an allocation fails.
pub fn start_all(alloc: Global) -> Vec<TreeHost> {
    let mut hosts = Vec::new(alloc);
    for me in [1, 2, 3] {
        if let Ok(host) = start(alloc, me, MemoryStorage::new(alloc)) {
            let _ = hosts.push(host);
        }
    }
    hosts
}

/// Returns one of some messages, borrowed.
#[tactic(auto, using(zab_epoch::proofs::Shortness::short_at))]
fn find(messages: &Messages<Call>, place: usize) -> Option<&Message<Call>>
    ensures { IfSome result (λ message. IsShortBody message.now.body) }
{
    messages.as_slice().get(place)
}

/// A host receives a message, or rejects it.
fn receive(alloc: Global, host: &mut TreeHost, message: &Message<Call>) -> bool
    requires { IsShortBody message.now.body }
{
    if is_append_only(&message.body) {
        host.receive(alloc, &QUORUMS, message).is_ok()
    } else {
        host.receive_and_store(alloc, &QUORUMS, message).is_ok()
    }
}

/// Each message is received by its addressee. Whether all are accepted.
fn deliver(alloc: Global, hosts: &mut [TreeHost], messages: &Messages<Call>) -> bool {
    for place in 0..messages.len() {
        let Some(message) = find(messages, place) else {
            return false;
        };
        let accepted = match hosts.get_mut(message.addressee.wrapping_sub(1)) {
            Some(host) => receive(alloc, host, message),
            None => false,
        };
        if !accepted {
            return false;
        }
    }
    true
}

/// A host releases its messages to their addressees. Returns how many.
fn pass(alloc: Global, hosts: &mut [TreeHost], place: usize) -> Option<usize> {
    let released = match hosts.get_mut(place) {
        Some(host) => host.release(alloc),
        None => return Some(0),
    };
    match released {
        Ok(messages) => {
            let count = messages.len();
            if deliver(alloc, hosts, &messages) {
                Some(count)
            } else {
                None
            }
        }
        Err(_) => None,
    }
}

/// All hosts exchange messages until none has one. Whether that happens within 20 rounds.
pub fn settle(alloc: Global, hosts: &mut [TreeHost]) -> bool {
    for _ in 0..20 {
        match (
            pass(alloc, hosts, 0),
            pass(alloc, hosts, 1),
            pass(alloc, hosts, 2),
        ) {
            (Some(0), Some(0), Some(0)) => return true,
            (Some(_), Some(_), Some(_)) => (),
            _ => return false,
        }
    }
    false
}

/// Host 1 leads and the others follow it.
pub fn elect(alloc: Global, hosts: &mut [TreeHost]) -> bool {
    let all = match hosts {
        [one, two, three] => {
            one.lead(alloc, &QUORUMS).is_ok()
                && one.outbox_len() == 0
                && two.follow(alloc, &QUORUMS, 1).is_ok()
                && two.outbox_len() == 1
                && three.follow(alloc, &QUORUMS, 1).is_ok()
        }
        _ => false,
    };
    all && settle(alloc, hosts)
}

/// A client's call of the session, by its line and time.
fn call_of(alloc: Global, tag: u64, line: &str, now: i64) -> Option<Call> {
    match read_request(alloc, line) {
        Ok(request) => Some(Call {
            tag,
            session: SESSION,
            cxid: 1,
            auths: Ids::new(Vec::new(alloc)),
            now,
            request,
        }),
        Err(_) => None,
    }
}

/// Submits a call at a host, with the tag that it issues next. Whether that is this one.
pub fn submits(alloc: Global, host: &mut TreeHost, tag: u64, line: &str, now: i64) -> bool {
    match (host.issue_tag(), call_of(alloc, tag, line, now)) {
        (Some(issued), Some(call)) => {
            issued == tag && host.submit(alloc, &QUORUMS, call).is_ok()
        }
        _ => false,
    }
}

/// A client's read, by its line.
pub fn question_of(alloc: Global, seen: i64, line: &str) -> Option<Question> {
    match read_lookup(alloc, line) {
        Ok(Lookup::Asks { call, watch }) => Some(Question {
            server: 1,
            session: SESSION,
            seen,
            auths: Ids::new(Vec::new(alloc)),
            call,
            watch,
        }),
        _ => None,
    }
}

/// Whether a reply has this text.
pub fn is_reply(alloc: Global, reply: &ReadReply, text: &str) -> bool {
    let mut line = String::new(alloc);
    push_reply(&mut line, reply).is_ok() && line.as_str() == text
}

/// Whether a connection's read at a host has this reply.
pub fn reads(alloc: Global, host: &mut TreeHost, connection: u64, line: &str, text: &str) -> bool {
    match question_of(alloc, 0, line) {
        Some(question) => {
            matches!(host.read(connection, &question), Ok(reply) if is_reply(alloc, &reply, text))
        }
        None => false,
    }
}

/// Whether a host rejects the read of a client that has seen this zxid.
pub fn is_behind(alloc: Global, host: &mut TreeHost, seen: i64, last: i64) -> bool {
    match question_of(alloc, seen, "stat \"/\"") {
        Some(question) => host.read(9, &question).err() == Some(ReadFault::Behind { seen, last }),
        None => false,
    }
}

/// The news as text, each after a space: an event's connection, kind and path, or a result's tag
/// and code.
pub fn news_text(alloc: Global, news: &[News]) -> Result<String, NoMemory> {
    let mut text = String::new(alloc);
    for one in news {
        match one {
            News::Event(it) => write!(text, " {} {:?} {}", it.session, it.kind, it.path.text())?,
            News::Answer(it) => write!(text, " {:x}:{}", it.tag, it.result.err)?,
        }
    }
    Ok(text)
}

/// Whether a host's news, which are taken, are these.
pub fn has_news(alloc: Global, host: &mut TreeHost, expected: &str) -> bool {
    let news = host.take_news();
    matches!(news_text(alloc, news.as_slice()), Ok(text) if text.as_str() == expected)
}
