//! Connections, one after another.

use std::alloc::Global;
use std::io;
use std::net::{TcpListener, TcpStream};
use zk_front::{FrontFault, Service, serve_lines};
use zk_log::{Sink, Source};
use zk_log_commands::TURNS;
use zk_path::NoMemory;

/// How the connections ended, and then the servers.
#[derive(Clone, Copy, Debug, PartialEq, Eq)]
pub(crate) enum Served {
    /// All were served.
    All,
    /// The listener returned no further connection.
    Unheard,
    /// The numbers of calls, receipts and events differ, or a call is not in the chronicle.
    Miscounted,
    /// The receipt at this index, from 0 on, does not match its record, or repeats one.
    Mismatched(usize),
}

/// Serves `connections` connections in order. An error on one ends only that one, except for an
/// allocation failure.
pub(crate) fn serve_connections<S: Service>(
    alloc: Global,
    listener: &TcpListener,
    connections: u32,
    service: &mut S,
) -> Result<Served, NoMemory> {
    for _ in 0..connections {
        let Ok((stream, _)) = listener.accept() else {
            return Ok(Served::Unheard);
        };
        serve_stream(alloc, &stream, service)?;
    }
    Ok(Served::All)
}

/// Serves a connection to its end.
fn serve_stream<S: Service>(
    alloc: Global,
    stream: &TcpStream,
    service: &mut S,
) -> Result<(), NoMemory> {
    // If the system rejects the option, replies are delayed but complete.
    let _: io::Result<()> = stream.set_nodelay(true);
    let mut reader = Source::new(stream);
    let mut writer = Sink::new(stream);
    match serve_lines(alloc, &mut reader, &mut writer, service, TURNS) {
        Err(FrontFault::NoMemory) => Err(NoMemory),
        Ok(_) | Err(FrontFault::Read | FrontFault::Write | FrontFault::Endless) => Ok(()),
    }
}
