//! Commands of the operator, executed.

use crate::command::{Command, command_in};
use crate::stores::{Stores, reopen};
use std::alloc::Global;
use zab_host::Storage;
use zk_client_service::{ClientService, ServiceFault};
use zk_path::NoMemory;
use zk_peers::PeerState;

/// Executes a line. Returns what it prints.
pub(crate) fn execute<S: Storage, O: Stores<S>>(
    alloc: Global,
    service: &mut ClientService<S>,
    stores: &O,
    line: &[u8],
    now: i64,
) -> Result<String, NoMemory> {
    let command = match str::from_utf8(line) {
        Ok(line) => command_in(line),
        Err(_) => None,
    };
    let Some(command) = command else {
        return Ok(String::from_str(alloc, "error: no such command\n")?);
    };
    match apply(service, stores, command, now) {
        Ok(()) => report(alloc, service),
        Err(ServiceFault::Peers(fault)) => Ok(format!(in alloc; "error: {fault}\n")?),
        Err(ServiceFault::NoMemory) => Err(NoMemory),
    }
}

fn apply<S: Storage, O: Stores<S>>(
    service: &mut ClientService<S>,
    stores: &O,
    command: Command,
    now: i64,
) -> Result<(), ServiceFault> {
    match command {
        Command::Crash(server) => service.crash(server, now),
        Command::Restart(server) => {
            reopen(service, stores, server);
            service.restart(server, now)
        }
        Command::Lead(server) => service.lead(server, now),
        Command::Cut(one, other) => service.cut(one, other, now),
        Command::Heal => service.heal(now),
        Command::Status => Ok(()),
    }
}

/// A line for each server: what it does, its last zxid, and the number of its connections.
pub(crate) fn report<S: Storage>(
    alloc: Global,
    service: &ClientService<S>,
) -> Result<String, NoMemory> {
    let mut text = String::new(alloc);
    for server in 1..=service.len() {
        let state = state_text(service.state(server));
        let last = service.last(server).cast_unsigned();
        let connections = service.connections(server);
        write!(
            text,
            "server {server} {state} zxid {last:016x} connections {connections}\n"
        )?;
    }
    Ok(text)
}

fn state_text(state: PeerState) -> &'static str {
    match state {
        PeerState::Down => "down",
        PeerState::Looking => "looking",
        PeerState::Following => "following",
        PeerState::Leading => "leading",
    }
}
