ghost use Rattle.std.specs.Prelude.{◌-◌, ◌<◌, ◌≤◌, ◌^◌};
ghost use Rattle.zk_records.specs.Sinks.{write_failures_of};
ghost use Rattle.zk_serve.specs.Serving.{Serves};

use crate::accepting::Served;
use crate::fault_lines::tell_mismatch;
use crate::port::{has_port, listening_line};
use crate::servers::serve_clients;
use std::alloc::Global;
use std::io::Write;
use std::net::TcpListener;
use std::sync::Wait;
use std::thread::Threads;
use std::time;
use zk_cli_args::Serving;
use zk_front::Clock;
use zk_log::Sink;
use zk_log_commands::tell;
use zk_path::NoMemory;

/// Starts servers as threads, prints the port, and serves connections on it, one after another, at
/// server 1. Returns the exit status: 0, or 1 with one line on `faults`:
///
/// - `zk: write` if the port could not be printed;
/// - `zk: listen` if the listener does not have the port, or returned no connection;
/// - `zk: C1` or `zk: C2 INDEX` if the servers' chronicle was rejected.
///
/// The port is printed before the servers start; a client that connects waits for them. Fails with
/// [`NoMemory`] also if a thread cannot be created, or if a connection runs out of memory, which
/// ends all.
#[tactic(auto, using(crate::proofs::ServesLaws::all_served, crate::proofs::ServesLaws::mismatched, crate::proofs::ServesLaws::refused_before, crate::proofs::ServesLaws::refused_behind))]
pub fn serve<R: Threads + Wait + time::Clock + Sync, C: Clock, O: Write, E: Write>(
    rt: &R,
    alloc: Global,
    listener: &TcpListener,
    serving: Serving,
    clock: C,
    output: &mut Sink<O>,
    faults: &mut Sink<E>,
) -> Result<u8, NoMemory>
    requires servers { (2 ≤ serving.servers) × (serving.servers ≤ 15) }
    requires output { write_failures_of output.old < 2 ^ 64 - 1 }
    requires faults { write_failures_of faults.old < 2 ^ 64 - 1 }
    ensures { Serves O.contents E.contents serving.port output.old output.new faults.old faults.new result }
{
    let Serving {
        port,
        servers,
        connections,
    } = serving;
    if !has_port(listener, port) {
        tell(faults, "zk: listen\n");
        return Ok(1);
    }
    let line = listening_line(alloc, port)?;
    if output.write_all(line.as_str().as_bytes()).is_err() {
        tell(faults, "zk: write\n");
        return Ok(1);
    }
    match serve_clients(rt, alloc, listener, servers, connections, clock)? {
        Served::All => Ok(0),
        Served::Unheard => {
            tell(faults, "zk: listen\n");
            Ok(1)
        }
        Served::Miscounted => {
            tell(faults, "zk: C1\n");
            Ok(1)
        }
        Served::Mismatched(at) => {
            tell_mismatch(alloc, faults, at)?;
            Ok(1)
        }
    }
}
