//! The only server of an ensemble, and its clients.

use std::alloc::Global;
use zab_host::MemoryStorage;
use zk_connections::Connection;
use zk_quorum_server::Server;
use zk_server::Member;

/// The time of all turns, in milliseconds.
const NOW: i64 = 5000;

pub type Lone = Server<MemoryStorage>;

/// A server that leads.
pub fn start(alloc: Global, storage: MemoryStorage) -> Option<Lone> {
    let me = Member {
        number: 1,
        servers: 1,
    };
    let mut lone = Server::start(alloc, me, storage, [7; 16]).ok()?;
    if turn(alloc, &mut lone) {
        return Some(lone);
    }
    None
}

/// Ends the server's process, and starts it on its store.
pub fn restart(alloc: Global, lone: Lone) -> Option<Lone> {
    start(alloc, lone.into_storage()?)
}

fn turn(alloc: Global, lone: &mut Lone) -> bool {
    lone.turn(alloc, &[], NOW).is_ok()
}

/// A client connects.
pub fn connect(alloc: Global, lone: &mut Lone, number: u64) -> bool {
    let connection = Connection::new(alloc, number);
    lone.port.connections.push(connection).is_ok()
}

/// The client at a place sends bytes, and the server has two turns: a read that waits for a write is
/// made in the second. Whether the client is sent these bytes alone.
pub fn exchanges(alloc: Global, lone: &mut Lone, place: usize, bytes: &[u8], reply: &[u8]) -> bool {
    hears(lone, place, bytes)
        && turn(alloc, lone)
        && turn(alloc, lone)
        && is_sent(lone, place, reply)
}

fn hears(lone: &mut Lone, place: usize, bytes: &[u8]) -> bool {
    match lone.port.connections.get_mut(place) {
        Some(connection) => connection.hear(bytes).is_ok(),
        None => false,
    }
}

fn is_sent(lone: &mut Lone, place: usize, bytes: &[u8]) -> bool {
    let Some(connection) = lone.port.connections.get_mut(place) else {
        return false;
    };
    let is = connection.unsent() == bytes;
    let count = connection.unsent().len();
    connection.sent(count);
    is
}

/// The client at a place closes its connection, and the server removes it. Whether it is the one with
/// this number.
pub fn is_removed(alloc: Global, lone: &mut Lone, place: usize, number: u64) -> bool {
    if let Some(connection) = lone.port.connections.get_mut(place) {
        connection.cut_off();
    }
    match lone.remove_over(alloc) {
        Ok(over) => over.as_slice() == [number].as_slice(),
        Err(_) => false,
    }
}
