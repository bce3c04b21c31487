ghost use Rattle.std.specs.Prelude.{◌≡◌};
ghost use Rattle.zk_reactor.specs.Ports.{most_per_address, port_at};

use crate::clock::Clock;
use crate::reactor::Reactor;
use crate::script::Script;
use crate::stores::Stores;
use mio::Events;
use std::alloc::{AllocError, AllocFailed, Global};
use std::fs;
use std::io::{Read, Write};
use std::net::{Ipv4Addr, Net};
use thiserror::Error;
use zab_host::{Storage, StoreFault};
use zk_client_service::ServiceFault;
use zk_path::NoMemory;
use zk_peers::PeersFault;

/// The events that are taken of the system at once.
pub(crate) const MOST_EVENTS: usize = 1024;

/// An ensemble whose servers listen.
#[derive(Clone, Copy, Debug)]
pub struct Settings {
    pub address: Ipv4Addr,
    /// The port of server 1. Those of the others follow.
    pub port: u16,
    /// 1 to 15.
    pub servers: usize,
    pub most_connections: usize,
    /// Whether the end of standard input ends the ensemble.
    pub until_eof: bool,
}

impl Settings {
    /// The port of the server at an index; `None` above 65,535.
    pub fn port_at(&self, index: usize) -> Option<u16>
        ensures { result ≡ port_at self.now index }
    {
        self.port.checked_add(u16::try_from(index).ok()?)
    }

    /// The most connections of one address: all but a sixteenth, which are for others.
    pub fn most_per_address(&self) -> usize
        ensures { result ≡ most_per_address self.now }
    {
        self.most_connections - self.most_connections / 16
    }
}

/// Why an ensemble does not run.
#[derive(Clone, Copy, Debug, PartialEq, Eq, Error)]
pub enum ReactorFault {
    /// A port cannot be opened, or is no longer listened to.
    #[error("listen")]
    Listen,
    /// Standard output cannot be written.
    #[error("write")]
    Write,
    /// The system gives no clock, or no random bytes.
    #[error("read")]
    Read,
    /// The servers reject it.
    #[error("{0}")]
    Service(ServiceFault),
    /// Out of memory.
    #[error("memory")]
    NoMemory,
}

impl From<NoMemory> for ReactorFault {
    fn from(_failed: NoMemory) -> ReactorFault {
        ReactorFault::NoMemory
    }
}

impl From<AllocError> for ReactorFault {
    fn from(_failed: AllocError) -> ReactorFault {
        ReactorFault::NoMemory
    }
}

impl<T: Drop> From<AllocFailed<T>> for ReactorFault {
    fn from(_failed: AllocFailed<T>) -> ReactorFault {
        ReactorFault::NoMemory
    }
}

impl From<ServiceFault> for ReactorFault {
    fn from(fault: ServiceFault) -> ReactorFault {
        match fault {
            ServiceFault::NoMemory
            | ServiceFault::Peers(PeersFault::NoMemory | PeersFault::Store(StoreFault::NoMemory)) =>
                { ReactorFault::NoMemory }
            ServiceFault::Peers(_) => ReactorFault::Service(fault),
        }
    }
}

/// Runs an ensemble, each server on its store: until the end of standard input if so set, else until
/// the process ends. A store that has failed is opened again by `stores`. The passwords of sessions
/// come from the secret. What the servers do is written to `record`, as a run script; there are
/// several servers then, on new stores.
pub fn run<N: Net, S: Storage + Drop, O: Stores<S>, W: Write + Drop>(
    rt: &HostRuntime,
    net: &N,
    settings: &Settings,
    stores: &O,
    storages: Vec<S>,
    secret: [u8; 16],
    record: Option<W>,
) -> Result<(), ReactorFault> {
    let alloc = rt.alloc();
    let clock = Clock::start(rt);
    let mut now = clock.now(rt, 0);
    let mut reactor = Reactor::start(net, alloc, settings, storages, secret, now)?;
    let mut script = reactor.begin_script(record);
    print(rt, serving_line(alloc, settings)?.as_str())?;
    let mut events = Events::with_capacity(alloc, MOST_EVENTS)?;
    let mut input = rt.reader();
    for _ in 0..u64::MAX {
        let heard = now;
        reactor.hear(&mut events)?;
        now = clock.now(rt, now);
        let notices = reactor.turn(stores, &mut script, heard, now)?;
        report(rt, notices.as_str());
        let printed = reactor.obey(&mut input, stores, &mut script, now)?;
        report(rt, script.take_notice());
        print(rt, printed.as_str())?;
        if reactor.has_ended() && settings.until_eof {
            break;
        }
    }
    Ok(())
}

/// Prints a text, if there is any.
fn print(rt: &HostRuntime, text: &str) -> Result<(), ReactorFault> {
    if text.is_empty() {
        return Ok(());
    }
    match rt.print(text) {
        Ok(()) => Ok(()),
        Err(_) => Err(ReactorFault::Write),
    }
}

/// Prints a text to standard error, if there is any. If that fails, the ensemble still runs.
fn report(rt: &HostRuntime, text: &str) {
    if !text.is_empty() {
        let _ = rt.eprint(text);
    }
}

/// The line with the ports that clients connect to.
fn serving_line(alloc: Global, settings: &Settings) -> Result<String, NoMemory> {
    let mut line = String::from_str(alloc, "serving")?;
    for index in 0..settings.servers {
        if let Some(port) = settings.port_at(index) {
            write!(line, " {port}")?;
        }
    }
    line.push_str("\n")?;
    Ok(line)
}

/// A new secret of sessions' passwords: random bytes of the system.
pub fn new_secret(rt: &HostRuntime) -> Result<[u8; 16], ReactorFault> {
    let mut secret = [0u8; 16];
    let Ok(mut file) = fs::open(rt, "/dev/urandom") else {
        return Err(ReactorFault::Read);
    };
    match file.read_exact(&mut secret) {
        Ok(()) => Ok(secret),
        Err(_) => Err(ReactorFault::Read),
    }
}
