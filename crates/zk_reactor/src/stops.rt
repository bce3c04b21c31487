//! Servers that have stopped by themselves.

use crate::stores::{Stores, reopen};
use std::alloc::Global;
use std::mem::replace;
use zab_host::{Storage, StoreFault};
use zk_client_service::{ClientService, ServiceFault};
use zk_path::NoMemory;
use zk_peers::{PeerState, PeersFault};

/// The servers that ran out of memory, and are to start again.
#[derive(Debug, Drop)]
pub(crate) struct Stops {
    servers: Vec<usize>,
}

impl Stops {
    pub(crate) fn new(alloc: Global) -> Stops {
        Stops {
            servers: Vec::new(alloc),
        }
    }

    /// Appends a line for each server that has stopped by itself since the last call.
    pub(crate) fn note<S: Storage>(
        &mut self,
        service: &mut ClientService<S>,
        notices: &mut String,
    ) -> Result<(), NoMemory> {
        for server in 1..=service.len() {
            if let Some(fault) = service.take_stop(server) {
                push_stopped(notices, server, fault)?;
                if fault == StoreFault::NoMemory {
                    self.servers.push(server)?;
                }
            }
        }
        Ok(())
    }

    /// Starts the servers that ran out of memory, and appends a line for each.
    pub(crate) fn restart<S: Storage, O: Stores<S>>(
        &mut self,
        service: &mut ClientService<S>,
        stores: &O,
        now: i64,
        notices: &mut String,
    ) -> Result<(), ServiceFault> {
        let none = Vec::new(*self.servers.allocator());
        for server in replace(&mut self.servers, none) {
            if service.state(server) == PeerState::Down {
                reopen(service, stores, server);
                restart(service, server, now, notices)?;
            }
        }
        Ok(())
    }
}

/// Starts a server, and appends a line on it.
fn restart<S: Storage>(
    service: &mut ClientService<S>,
    server: usize,
    now: i64,
    notices: &mut String,
) -> Result<(), ServiceFault> {
    match service.restart(server, now) {
        Ok(()) => push_restarted(notices, server)?,
        Err(ServiceFault::Peers(PeersFault::Store(fault))) => push_stopped(notices, server, fault)?,
        Err(fault) => return Err(fault),
    }
    Ok(())
}

fn push_restarted(notices: &mut String, server: usize) -> Result<(), NoMemory> {
    write!(notices, "zk: server {server} runs again\n")?;
    Ok(())
}

fn push_stopped(notices: &mut String, server: usize, fault: StoreFault) -> Result<(), NoMemory> {
    let reason = reason_text(fault);
    write!(notices, "zk: server {server} has stopped: {reason}\n")?;
    Ok(())
}

fn reason_text(fault: StoreFault) -> &'static str {
    match fault {
        StoreFault::NoMemory => "out of memory",
        StoreFault::Failed => "its store has failed",
        StoreFault::BootsFull => "its number of starts is used up",
    }
}
