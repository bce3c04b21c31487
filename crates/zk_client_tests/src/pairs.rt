//! An ensemble of two servers, of which the second leads and has clients.

use std::alloc::Global;
use zab_epoch::Majority;
use zab_host::MemoryStorage;
use zk_client_port::{Admission, ClientPort, Moment, Turned};
use zk_connections::{ClientSessions, Connection, Mode};
use zk_peers::{Peers, Place};

/// The server that leads.
pub const LEADER: usize = 2;

/// The time of all requests.
pub const NOW: i64 = 5000;

pub struct Pair {
    pub alloc: Global,
    pub peers: Peers<MemoryStorage>,
    pub port: ClientPort,
    pub admission: Admission,
}

impl Drop for Pair {
    fn drop(self) {
        let Pair {
            alloc: _,
            peers: _,
            port: _,
            admission: _,
        } = self;
    }
}

/// Two servers that serve; `None` if an allocation fails.
pub fn start(alloc: Global) -> Option<Pair> {
    let mut storages = Vec::new(alloc);
    storages.push(MemoryStorage::new(alloc)).ok()?;
    storages.push(MemoryStorage::new(alloc)).ok()?;
    let mut pair = Pair {
        alloc,
        peers: Peers::start(alloc, storages).ok()?,
        port: ClientPort::new(alloc),
        admission: Admission {
            sessions: ClientSessions::new(alloc),
            secret: [7; 16],
        },
    };
    if pair.peers.elect() != Ok(Some(LEADER)) || !settle(&mut pair) {
        return None;
    }
    Some(pair)
}

/// The turn of the server without clients.
fn turn_other(pair: &mut Pair) -> bool {
    let released = match pair.peers.place_mut(1) {
        Some(Place::Up(host)) => host.release(pair.alloc),
        _ => return false,
    };
    match released {
        Ok(messages) => pair.peers.post(messages).is_ok(),
        Err(_) => false,
    }
}

fn moment(pair: &Pair) -> Moment {
    Moment {
        server: LEADER,
        now: NOW,
        mode: Mode::Leader,
        connections: pair.port.connections.len(),
    }
}

/// The turn of the leader.
pub fn turn(pair: &mut Pair) -> Option<Turned> {
    let quorums = Majority { servers: 2 };
    let moment = moment(pair);
    let Some(Place::Up(host)) = pair.peers.place_mut(LEADER) else {
        return None;
    };
    pair.port
        .turn(pair.alloc, host, &quorums, &mut pair.admission, moment)
        .ok()
}

fn turn_leader(pair: &mut Pair) -> bool {
    match turn(pair) {
        Some(turned) => {
            let messages = turned.into_messages(pair.alloc);
            pair.peers.post(messages).is_ok()
        }
        None => false,
    }
}

/// A round of mail.
fn round(pair: &mut Pair) -> bool {
    let _ = pair.peers.next_round();
    pair.peers.receive(1).is_ok()
        && turn_other(pair)
        && pair.peers.receive(LEADER).is_ok()
        && turn_leader(pair)
}

/// Rounds until all is done.
pub fn settle(pair: &mut Pair) -> bool {
    for _ in 0..12 {
        if !round(pair) {
            return false;
        }
    }
    !pair.peers.has_mail()
}

/// A client connects. Its connection's number is that of its place.
pub fn connect(pair: &mut Pair) -> bool {
    let number = pair.port.connections.len() as u64;
    let connection = Connection::new(pair.alloc, number);
    pair.port.connections.push(connection).is_ok()
}

/// A connection's client sends bytes.
pub fn hears(pair: &mut Pair, index: usize, bytes: &[u8]) -> bool {
    match pair.port.connections.get_mut(index) {
        Some(connection) => connection.hear(bytes).is_ok(),
        None => false,
    }
}

/// A connection's client sends bytes, and all is done.
pub fn sends(pair: &mut Pair, index: usize, bytes: &[u8]) -> bool {
    hears(pair, index, bytes) && settle(pair)
}

/// Rounds until bytes wait to be sent to a connection's client.
pub fn settle_until_written(pair: &mut Pair, index: usize) -> bool {
    for _ in 0..12 {
        match pair.port.connections.get(index) {
            Some(connection) if connection.unsent().is_empty() => {}
            Some(_) => return true,
            None => return false,
        }
        if !round(pair) {
            return false;
        }
    }
    false
}

/// Whether a connection's client is sent these bytes alone.
pub fn is_sent(pair: &mut Pair, index: usize, bytes: &[u8]) -> bool {
    let Some(connection) = pair.port.connections.get_mut(index) else {
        return false;
    };
    let is = connection.unsent() == bytes;
    let count = connection.unsent().len();
    connection.sent(count);
    is
}
