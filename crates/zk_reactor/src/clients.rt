ghost use Rattle.std.specs.Ordering.{nat_cmp};
ghost use Rattle.std.specs.Prelude.{◌≡◌, ◌<◌, ◌≤◌, length, IfSome};

use crate::client::Client;
use crate::socket::{linger, read_socket, write_socket};
use std::alloc::Global;
use std::cmp::Ordering;
use std::mem::replace;
use std::net::IpAddr;
use zab_host::Storage;
use zk_client_service::ClientService;
use zk_connections::Connection;
use zk_path::NoMemory;

/// What has come of writing to clients.
#[derive(Clone, Copy, Debug, Default)]
pub(crate) struct Written {
    /// Frames that had to wait, for that or for another turn, may be taken.
    pub(crate) may_go_on: bool,
    /// A connection is over.
    pub(crate) is_over: bool,
}

impl Written {
    fn and(self, other: Written) -> Written {
        Written {
            may_go_on: self.may_go_on || other.may_go_on,
            is_over: self.is_over || other.is_over,
        }
    }
}

/// The sockets of all connections, at most `most`, in the order of the connections' numbers.
#[derive(Drop)]
pub(crate) struct Clients {
    list: Vec<Client>,
    most: usize,
    /// The connections that may have bytes.
    readable: Vec<u64>,
    ghost bounded: { length list.items ≤ most },
}

impl Clients {
    ghost use Rattle.std.specs.Prelude.{◌≡◌, ◌<◌, ◌≤◌, ◌↔◌, IsTrue, length};

    pub(crate) fn new(alloc: Global, most: usize) -> Clients
        ensures { result.most ≡ most }
    {
        Clients {
            list: Vec::new(alloc),
            most,
            readable: Vec::new(alloc),
        }
    }

    pub(crate) fn has_room(&self) -> bool
        ensures { IsTrue result ↔ length self.now.list.items < self.now.most }
    {
        self.list.len() < self.most
    }

    /// The number of clients at an address.
    pub(crate) fn count_at(&self, address: IpAddr) -> usize {
        self.list.iter().filter(|it| it.address == address).count()
    }

    /// Adds the client of a new connection, which may have bytes.
    pub(crate) fn push(&mut self, client: Client) -> Result<(), NoMemory>
        requires { length self.old.list.items < self.old.most }
        ensures { self.new.most ≡ self.old.most }
    {
        self.readable.push(client.number)?;
        self.list.push(client)?;
        Ok(())
    }

    /// Removes the client of a connection.
    pub(crate) fn remove(&mut self, number: u64)
        ensures { self.new.most ≡ self.old.most }
    {
        if let Some(place) = place_of(&self.list, number) {
            self.list.remove(place);
        }
    }

    /// Records that a connection may have bytes.
    pub(crate) fn note(&mut self, number: u64) -> Result<(), NoMemory>
        ensures { self.new.most ≡ self.old.most }
    {
        if note_readable(self.list.as_mut_slice(), number) {
            self.readable.push(number)?;
        }
        Ok(())
    }

    /// Reads what clients have sent: of each at most one chunk.
    pub(crate) fn read<S: Storage>(
        &mut self,
        service: &mut ClientService<S>,
        now: i64,
    ) -> Result<(), NoMemory>
        ensures { self.new.most ≡ self.old.most }
    {
        let none = Vec::new(*self.readable.allocator());
        let readable = replace(&mut self.readable, none);
        self.readable = read_all(self.list.as_mut_slice(), readable, service, now)?;
        Ok(())
    }

    /// Writes what clients are sent.
    pub(crate) fn write<S: Storage>(&mut self, service: &mut ClientService<S>) -> Written
        ensures { self.new.most ≡ self.old.most }
    {
        write_all(self.list.as_mut_slice(), service)
    }

    /// Counts a tick, and cuts off the connections that have been closing, or without a session, for
    /// too long.
    pub(crate) fn tick<S: Storage>(&mut self, service: &mut ClientService<S>)
        ensures { self.new.most ≡ self.old.most }
    {
        tick_all(self.list.as_mut_slice(), service);
    }

    /// Whether a client may have bytes that its connection takes.
    pub(crate) fn has_input<S: Storage>(&self, service: &mut ClientService<S>) -> bool {
        for number in &self.readable {
            if let Some(place) = place_of(&self.list, *number)
                && takes_input(&self.list[place], service)
            {
                return true;
            }
        }
        false
    }
}

/// The place of a connection's client. Numbers rise along the list, since new connections are put at
/// its end: a search of halves finds it.
fn place_of(clients: &[Client], number: u64) -> Option<usize>
    ensures { IfSome result (λ place. place < length clients.now) }
{
    clients
        .binary_search_by(
            |it: &Client| -> Ordering
                ensures { result ≡ nat_cmp it.now.number number }
            { it.number.cmp(&number) },
        )
        .ok()
}

fn takes_input<S: Storage>(client: &Client, service: &mut ClientService<S>) -> bool {
    match service.connection_mut(client.server, client.number) {
        Some(connection) => connection.wants_input(),
        None => false,
    }
}

/// Records that a connection may have bytes. Returns whether that is new.
fn note_readable(clients: &mut [Client], number: u64) -> bool {
    let Some(place) = place_of(clients, number) else {
        return false;
    };
    let client = &mut clients[place];
    let is_new = !client.readable;
    client.readable = true;
    is_new
}

/// Reads of these connections. Returns those that may have more bytes.
fn read_all<S: Storage>(
    clients: &mut [Client],
    readable: Vec<u64>,
    service: &mut ClientService<S>,
    now: i64,
) -> Result<Vec<u64>, NoMemory> {
    let mut left = Vec::new(*readable.allocator());
    for number in readable {
        if let Some(place) = place_of(clients, number)
            && read_client(&mut clients[place], service, now)
        {
            left.push(number)?;
        }
    }
    Ok(left)
}

/// Reads of a client. Its session was heard of then. Returns whether there may be more bytes.
fn read_client<S: Storage>(client: &mut Client, service: &mut ClientService<S>, now: i64) -> bool {
    let Some(connection) = service.connection_mut(client.server, client.number) else {
        return false;
    };
    let before = connection.unread_len();
    client.readable = read_socket(&mut client.stream, connection);
    let session = connection.session();
    if connection.unread_len() > before
        && let Some(session) = session
    {
        service.hear(session, now);
    }
    client.readable
}

fn write_all<S: Storage>(clients: &mut [Client], service: &mut ClientService<S>) -> Written {
    let mut written = Written::default();
    for server in 1..=service.len() {
        if let Some(connections) = service.connections_mut(server) {
            written = written.and(write_server(clients, connections));
        }
    }
    written
}

fn write_server(clients: &mut [Client], connections: &mut Vec<Connection>) -> Written {
    let mut written = Written::default();
    for connection in connections {
        written = written.and(end_turn(clients, connection));
    }
    written
}

/// Writes to a connection's client, and begins the connection's next turn.
fn end_turn(clients: &mut [Client], connection: &mut Connection) -> Written {
    let mut may_go_on = connection.begin_turn();
    if !connection.unsent().is_empty()
        && let Some(place) = place_of(clients, connection.number())
    {
        may_go_on = write_client(&mut clients[place], connection) || may_go_on;
    }
    Written {
        may_go_on,
        is_over: connection.is_over(),
    }
}

/// Writes to a client. Returns whether frames of it that had to wait for that may be taken.
fn write_client(client: &mut Client, connection: &mut Connection) -> bool {
    let was_slow = connection.is_slow();
    write_socket(&mut client.stream, connection);
    was_slow && !connection.is_slow()
}

fn tick_all<S: Storage>(clients: &mut [Client], service: &mut ClientService<S>) {
    for client in clients {
        if let Some(connection) = service.connection_mut(client.server, client.number) {
            client.ticks = linger(connection, client.ticks);
        }
    }
}
