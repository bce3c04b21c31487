use crate::client::Client;
use crate::clients::Clients;
use crate::commands::execute;
use crate::lines::Lines;
use crate::script::Script;
use crate::setup::{MOST_EVENTS, ReactorFault, Settings};
use crate::stops::Stops;
use crate::stores::Stores;
use mio::net::{TcpListener, TcpStream};
use mio::unix::SourceFd;
use mio::{Events, Interest, Poll, Token};
use std::alloc::Global;
use std::io::{ErrorKind, Read, Write};
use std::mem::replace;
use std::net::{IpAddr, Net, SocketAddr};
use std::time::Duration;
use zab_host::Storage;
use zk_client_service::ClientService;

/// The descriptor of standard input.
const STANDARD_INPUT: i32 = 0;

/// The token of standard input. Those of listeners are their server's number.
const INPUT: usize = 0;

/// The token of connection 0. Those of the others follow.
const FIRST_CONNECTION: usize = 16;

/// More connections than the system lets wait to be accepted. Each one that waits is accepted, or
/// closed: the system reports the listener again only when another comes.
const MOST_ACCEPTED: usize = 65_536;

/// How often the system is asked which sockets are ready, before those are read: it reports
/// [`MOST_EVENTS`] at once.
const MOST_POLLS: usize = 64;

/// The time of a tick in milliseconds: half of a session's shortest timeout.
const TICK: i64 = 2000;

/// The rounds of mail before what is written is sent.
const ROUNDS: usize = 64;

/// How long the reactor waits if nothing happens, in milliseconds.
const PAUSE: u64 = 500;

/// The bytes that are read of standard input at once.
const PAGE: usize = 4096;

/// The sockets of an ensemble, and its servers.
pub(crate) struct Reactor<S: Storage> {
    alloc: Global,
    poll: Poll,
    listeners: Vec<TcpListener>,
    /// The servers whose listeners may have connections that wait: the system had no room for them.
    waiting: Vec<usize>,
    most_per_address: usize,
    clients: Clients,
    service: ClientService<S>,
    stops: Stops,
    lines: Lines,
    /// Whether there may be bytes of standard input.
    is_typed: bool,
    /// Whether standard input can be waited for. A file cannot: it is read at once.
    waits_for_input: bool,
    /// Whether standard input has ended.
    has_ended: bool,
    /// Whether the servers have something to do.
    is_unsettled: bool,
    /// The time of the last tick, in milliseconds.
    ticked: i64,
}

impl<S: Storage + Drop> Drop for Reactor<S> {
    fn drop(self) {
        let Reactor {
            alloc: _,
            poll: _,
            listeners: _,
            waiting: _,
            most_per_address: _,
            clients: _,
            service: _,
            stops: _,
            lines: _,
            is_typed: _,
            waits_for_input: _,
            has_ended: _,
            is_unsettled: _,
            ticked: _,
        } = self;
    }
}

impl<S: Storage + Drop> Reactor<S> {
    /// Starts the servers, each on its store, and listens on their ports.
    pub(crate) fn start<N: Net>(
        net: &N,
        alloc: Global,
        settings: &Settings,
        storages: Vec<S>,
        secret: [u8; 16],
        now: i64,
    ) -> Result<Reactor<S>, ReactorFault> {
        let Ok(poll) = Poll::new(net) else {
            return Err(ReactorFault::Listen);
        };
        let mut listeners = Vec::new(alloc);
        for index in 0..settings.servers {
            let listener = listen(net, &poll, settings, index)?;
            listeners.push(listener)?;
        }
        let waits_for_input = poll
            .registry()
            .register(
                &mut SourceFd(&STANDARD_INPUT),
                Token(INPUT),
                Interest::READABLE,
            )
            .is_ok();
        Ok(Reactor {
            alloc,
            poll,
            listeners,
            waiting: Vec::new(alloc),
            most_per_address: settings.most_per_address(),
            clients: Clients::new(alloc, settings.most_connections),
            service: ClientService::start(alloc, storages, secret, now)?,
            stops: Stops::new(alloc),
            lines: Lines::new(alloc),
            is_typed: !waits_for_input,
            waits_for_input,
            has_ended: false,
            is_unsettled: false,
            ticked: now,
        })
    }

    /// Begins the script of what the servers do, from their start on.
    pub(crate) fn begin_script<W: Write + Drop>(&mut self, output: Option<W>) -> Script<W> {
        Script::begin(self.alloc, &mut self.service, output)
    }

    pub(crate) fn has_ended(&self) -> bool {
        self.has_ended
    }

    /// Waits until a socket is ready, or a pause is over. Records all sockets that are ready, and
    /// accepts connections.
    pub(crate) fn hear(&mut self, events: &mut Events<Global>) -> Result<(), ReactorFault> {
        for _ in 0..MOST_POLLS {
            self.wait(events)?;
            if self.note_all(events)? < MOST_EVENTS {
                break;
            }
        }
        Ok(())
    }

    /// Waits until a socket is ready, or a pause is over.
    fn wait(&mut self, events: &mut Events<Global>) -> Result<(), ReactorFault> {
        let pause = if self.has_work() { 0 } else { PAUSE };
        match self.poll.poll(events, Some(Duration::from_millis(pause))) {
            Ok(()) => Ok(()),
            Err(error) if error.kind() == ErrorKind::Interrupted => Ok(()),
            Err(_) => Err(ReactorFault::Listen),
        }
    }

    /// Records the sources of events. Returns the number of these.
    fn note_all(&mut self, events: &Events<Global>) -> Result<usize, ReactorFault> {
        let mut count: usize = 0;
        for event in events.iter() {
            self.note(event.token())?;
            count = count.saturating_add(1);
        }
        Ok(count)
    }

    /// Whether something was left undone, for the sake of others.
    fn has_work(&mut self) -> bool {
        self.is_unsettled
            || (self.is_typed && !self.has_ended)
            || self.clients.has_input(&mut self.service)
    }

    /// Records that a source is ready, and accepts connections.
    fn note(&mut self, token: Token) -> Result<(), ReactorFault> {
        let Token(token) = token;
        if token == INPUT {
            self.is_typed = true;
            return Ok(());
        }
        if token < FIRST_CONNECTION {
            return self.accept_all(token);
        }
        self.clients
            .note(token.saturating_sub(FIRST_CONNECTION) as u64)?;
        Ok(())
    }

    /// Accepts the connections to a server that wait.
    fn accept_all(&mut self, server: usize) -> Result<(), ReactorFault> {
        for _ in 0..MOST_ACCEPTED {
            if !self.accept(server)? {
                break;
            }
        }
        Ok(())
    }

    /// Accepts the connections that waited while the system had no room for them.
    fn accept_waiting(&mut self) -> Result<(), ReactorFault> {
        let none = Vec::new(self.alloc);
        for server in replace(&mut self.waiting, none) {
            self.accept_all(server)?;
        }
        Ok(())
    }

    /// Accepts a connection. Returns whether another may wait.
    fn accept(&mut self, server: usize) -> Result<bool, ReactorFault> {
        let Some(listener) = self.listeners.get(server.saturating_sub(1)) else {
            return Ok(false);
        };
        match listener.accept() {
            Ok((stream, peer)) => {
                self.open(server, stream, peer)?;
                Ok(true)
            }
            Err(error) => match error.kind() {
                ErrorKind::ConnectionAborted | ErrorKind::Interrupted => Ok(true),
                ErrorKind::WouldBlock => Ok(false),
                // The process may have as many sockets as it is allowed.
                _ => {
                    self.waiting.push(server)?;
                    Ok(false)
                }
            },
        }
    }

    /// Opens a connection. Those beyond the most, of all clients or of one address, are closed at
    /// once.
    fn open(
        &mut self,
        server: usize,
        stream: TcpStream,
        peer: SocketAddr,
    ) -> Result<(), ReactorFault> {
        let mut stream = stream;
        if !self.clients.has_room() || !self.has_room_for(peer.ip()) {
            return Ok(());
        }
        let Some(number) = self.service.open(server)? else {
            return Ok(());
        };
        let _ = stream.set_nodelay(true);
        if let Some(connection) = self.service.connection_mut(server, number) {
            connection.set_peer(peer);
        }
        let registered = self.poll.registry().register(
            &mut stream,
            Token(token_of(number)),
            Interest::READABLE | Interest::WRITABLE,
        );
        if registered.is_err() {
            if let Some(connection) = self.service.connection_mut(server, number) {
                connection.cut_off();
            }
            return Ok(());
        }
        self.clients.push(Client {
            server,
            number,
            address: peer.ip(),
            stream,
            readable: true,
            ticks: 0,
        })?;
        Ok(())
    }

    /// Whether another connection of an address may be open.
    fn has_room_for(&self, address: IpAddr) -> bool {
        self.clients.count_at(address) < self.most_per_address
    }

    /// Reads what clients have sent, executes it, writes what it gives, and closes the connections
    /// that are over. All that had arrived at the time `heard` is read before deadlines are compared
    /// with that time. Returns the lines on servers that have stopped by themselves, or run again.
    pub(crate) fn turn<O: Stores<S>, W: Write + Drop>(
        &mut self,
        stores: &O,
        script: &mut Script<W>,
        heard: i64,
        now: i64,
    ) -> Result<String, ReactorFault> {
        let mut notices = String::new(self.alloc);
        self.accept_waiting()?;
        self.clients.read(&mut self.service, now)?;
        if now.saturating_sub(self.ticked) >= TICK {
            self.ticked = now;
            self.stops
                .restart(&mut self.service, stores, now, &mut notices)?;
            self.clients.tick(&mut self.service);
            self.service.elect_if_lost(now)?;
            self.service.expire(heard)?;
        }
        self.is_unsettled = self.service.turn_for(ROUNDS, now)?;
        self.stops.note(&mut self.service, &mut notices)?;
        self.flush(script)?;
        Ok(notices)
    }

    /// Writes what the servers have done to the script, and then what is written to clients, and
    /// closes the connections that are over.
    fn flush<W: Write + Drop>(&mut self, script: &mut Script<W>) -> Result<(), ReactorFault> {
        script.write_events(self.alloc, &mut self.service);
        let written = self.clients.write(&mut self.service);
        if written.may_go_on {
            self.is_unsettled = true;
        }
        if !written.is_over {
            return Ok(());
        }
        for server in 1..=self.service.len() {
            for number in self.service.remove_over(server)? {
                self.clients.remove(number);
            }
        }
        Ok(())
    }

    /// Reads commands of standard input, and executes them. Returns what they print.
    pub(crate) fn obey<I: Read, O: Stores<S>, W: Write + Drop>(
        &mut self,
        input: &mut I,
        stores: &O,
        script: &mut Script<W>,
        now: i64,
    ) -> Result<String, ReactorFault> {
        let mut printed = String::new(self.alloc);
        if !self.is_typed || self.has_ended {
            return Ok(printed);
        }
        self.read_input(input)?;
        for _ in 0..=PAGE {
            let Some(line) = self.lines.take(self.alloc)? else {
                break;
            };
            let text = execute(self.alloc, &mut self.service, stores, line.as_slice(), now)?;
            printed.push_str(text.as_str())?;
        }
        self.flush(script)?;
        Ok(printed)
    }

    fn read_input<I: Read>(&mut self, input: &mut I) -> Result<(), ReactorFault> {
        let mut page = [0u8; PAGE];
        match input.read(&mut page) {
            Ok(0) => self.has_ended = true,
            Ok(count) => self.lines.push(&page[..count])?,
            Err(error) if error.kind() == ErrorKind::Interrupted => (),
            Err(_) => self.has_ended = true,
        }
        if self.waits_for_input {
            self.is_typed = false;
            let again = self.poll.registry().reregister(
                &mut SourceFd(&STANDARD_INPUT),
                Token(INPUT),
                Interest::READABLE,
            );
            if again.is_err() {
                self.has_ended = true;
            }
        }
        Ok(())
    }
}

fn token_of(number: u64) -> usize {
    FIRST_CONNECTION.saturating_add(number as usize)
}

/// Listens on the port of the server at an index.
fn listen<N: Net>(
    net: &N,
    poll: &Poll,
    settings: &Settings,
    index: usize,
) -> Result<TcpListener, ReactorFault> {
    let Some(port) = settings.port_at(index) else {
        return Err(ReactorFault::Listen);
    };
    let Ok(mut listener) = TcpListener::bind(net, SocketAddr::from((settings.address, port))) else {
        return Err(ReactorFault::Listen);
    };
    let token = Token(index.saturating_add(1));
    match poll
        .registry()
        .register(&mut listener, token, Interest::READABLE)
    {
        Ok(()) => Ok(listener),
        Err(_) => Err(ReactorFault::Listen),
    }
}
