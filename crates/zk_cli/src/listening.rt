//! The command `serve`.

use crate::clock::SystemClock;
use crate::faults::{faults, refuse};
use std::net::{Ipv4Addr, Net, SocketAddr, TcpListener, TcpStream};
use std::sync::Wait;
use std::thread::Threads;
use std::{io, time};
use zk_cli_args::Serving;
use zk_log::Sink;
use zk_path::NoMemory;
use zk_serve::serve;

/// Listens on a port of 127.0.0.1, and serves the connections. Returns the exit status.
pub(crate) fn listen<
    R: Threads + Wait + Net<Listener = TcpListener, Stream = TcpStream> + time::Clock + Sync,
>(threads: &R, rt: &HostRuntime, serving: Serving) -> Result<u8, NoMemory> {
    // A command line asks for no other number.
    if serving.servers < 2 || serving.servers > 15 {
        return Ok(refuse(rt, "servers"));
    }
    let address = SocketAddr::from((Ipv4Addr::LOCALHOST, serving.port));
    let Ok(listener) = TcpListener::bind(threads, address) else {
        return Ok(refuse(rt, "listen"));
    };
    let mut output = Sink::new(io::writer(rt));
    let mut faults = faults(rt);
    serve(
        threads,
        rt.alloc(),
        &listener,
        serving,
        SystemClock::new(threads),
        &mut output,
        &mut faults,
    )
}
