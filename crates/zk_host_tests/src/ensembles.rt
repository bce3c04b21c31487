//! An ensemble on stores in memory, whose mail is exchanged until there is none.

use std::alloc::Global;
use zab_epoch::Majority;
use zab_host::MemoryStorage;
use zk_acl::Ids;
use zk_model::Question;
use zk_peers::{PeerState, Peers, Place};
use zk_request_syntax::{Lookup, push_reply, read_lookup, read_request};
use zk_requests::Call;
use zk_table::ReadReply;

pub type Ensemble = Peers<MemoryStorage>;

/// The session that the first call of the first epoch opens.
pub const SESSION: i64 = 0x1_0000_0001;

/// Empty stores; fewer if an allocation fails.
pub fn stores(alloc: Global, servers: usize) -> Vec<MemoryStorage> {
    let mut storages = Vec::new(alloc);
    for _ in 0..servers {
        let _ = storages.push(MemoryStorage::new(alloc));
    }
    storages
}

/// An ensemble on empty stores.
pub fn ensemble(alloc: Global, servers: usize) -> Option<Ensemble> {
    Peers::start(alloc, stores(alloc, servers)).ok()
}

/// A server receives its mail, and posts what its host releases.
fn turn(alloc: Global, peers: &mut Ensemble, server: usize) -> bool {
    if peers.receive(server).is_err() {
        return false;
    }
    let released = match peers.place_mut(server) {
        Some(Place::Up(host)) => host.release(alloc),
        _ => return true,
    };
    match released {
        Ok(messages) => peers.post(messages).is_ok(),
        Err(_) => false,
    }
}

/// All servers exchange mail until there is none. Whether that happens within 30 rounds.
pub fn settle(alloc: Global, peers: &mut Ensemble) -> bool {
    for _ in 0..30 {
        let _ = peers.next_round();
        for index in 0..peers.len() {
            if !turn(alloc, peers, index + 1) {
                return false;
            }
        }
        if !peers.has_mail() {
            return true;
        }
    }
    false
}

/// Whether an election has this result, and the servers exchange their mail.
pub fn elects(alloc: Global, peers: &mut Ensemble, server: usize) -> bool {
    peers.elect() == Ok(Some(server))
        && peers.leader() == Some(server)
        && settle(alloc, peers)
        && peers.is_led()
        && peers.state(server) == PeerState::Leading
}

/// Submits a request of the session at a server, by its line. The servers exchange their mail.
pub fn writes(alloc: Global, peers: &mut Ensemble, server: usize, line: &str) -> bool {
    let Ok(request) = read_request(alloc, line) else {
        return false;
    };
    let quorums = Majority {
        servers: peers.len(),
    };
    let submitted = match peers.place_mut(server) {
        Some(Place::Up(host)) => match host.issue_tag() {
            Some(tag) => host.submit(
                alloc,
                &quorums,
                Call {
                    tag,
                    session: SESSION,
                    cxid: 1,
                    auths: Ids::new(Vec::new(alloc)),
                    now: 1000,
                    request,
                },
            ),
            None => return false,
        },
        _ => return false,
    };
    submitted.is_ok() && settle(alloc, peers)
}

/// Opens the session at a server.
pub fn opens(alloc: Global, peers: &mut Ensemble, server: usize) -> bool {
    writes(alloc, peers, server, "open 30000")
}

/// Whether a reply has this text.
fn is_reply(alloc: Global, reply: &ReadReply, text: &str) -> bool {
    let mut line = String::new(alloc);
    push_reply(&mut line, reply).is_ok() && line.as_str() == text
}

/// Whether the session's read at a server has this reply.
pub fn reads(alloc: Global, peers: &mut Ensemble, server: usize, line: &str, text: &str) -> bool {
    let Ok(Lookup::Asks { call, watch }) = read_lookup(alloc, line) else {
        return false;
    };
    let question = Question {
        server,
        session: SESSION,
        seen: 0,
        auths: Ids::new(Vec::new(alloc)),
        call,
        watch,
    };
    match peers.place_mut(server) {
        Some(Place::Up(host)) => {
            matches!(host.read(7, &question), Ok(reply) if is_reply(alloc, &reply, text))
        }
        _ => false,
    }
}

/// Whether the servers have these states, from server 1 on.
pub fn are(peers: &Ensemble, states: &[PeerState]) -> bool {
    for (index, state) in states.iter().enumerate() {
        if peers.state(index.wrapping_add(1)) != *state {
            return false;
        }
    }
    peers.len() == states.len()
}
