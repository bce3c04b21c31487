//! The command `ensemble`.

use crate::faults::refuse;
use std::fs;
use std::fs::File;
use std::net::{Ipv4Addr, Net};
use zab_host::MemoryStorage;
use zk_cli_args::Ensemble;
use zk_data_files::{DataDirectory, DataFault, DataStore, UnknownStart};
use zk_path::NoMemory;
use zk_reactor::{InMemory, ReactorFault, Settings, Stores, new_secret, run};

/// The stores of servers on the disk.
#[derive(Clone, Copy)]
struct OnDisk<'a, 'b> {
    rt: &'a HostRuntime,
    directory: &'a DataDirectory<'b>,
}

impl<'b> Stores<DataStore<'b, UnknownStart>> for OnDisk<'_, 'b> {
    fn are_reopened(&self) -> bool {
        true
    }

    fn open(&self, server: usize) -> Option<DataStore<'b, UnknownStart>> {
        match self.directory.open_data_store(UnknownStart, server) {
            Ok(store) => Some(store),
            Err(fault) => {
                report_directory(self.rt, fault);
                None
            }
        }
    }
}

/// Runs an ensemble for ZooKeeper's clients, with the file of a record if there is one. Returns the
/// exit status.
pub(crate) fn run_ensemble<N: Net>(
    rt: &HostRuntime,
    net: &N,
    ensemble: &Ensemble,
    record: Option<&str>,
) -> Result<u8, NoMemory> {
    let address = match ensemble.bind {
        Some(word) => match word.parse::<Ipv4Addr>() {
            Ok(address) => address,
            Err(_) => return Ok(refuse_address(rt, word)),
        },
        None => Ipv4Addr::LOCALHOST,
    };
    let settings = Settings {
        address,
        port: ensemble.serving.port,
        servers: ensemble.serving.servers,
        most_connections: ensemble.serving.connections as usize,
        until_eof: ensemble.until_eof,
    };
    match ensemble.directory {
        Some(directory) => run_on_disk(rt, net, &settings, directory, record),
        None => run_in_memory(rt, net, &settings, record),
    }
}

/// Runs an ensemble whose data ends with it.
fn run_in_memory<N: Net>(
    rt: &HostRuntime,
    net: &N,
    settings: &Settings,
    record: Option<&str>,
) -> Result<u8, NoMemory> {
    let mut storages = Vec::new(rt.alloc());
    for _ in 0..settings.servers {
        storages.push(MemoryStorage::new(rt.alloc()))?;
    }
    let secret = match new_secret(rt) {
        Ok(secret) => secret,
        Err(fault) => return status_of(rt, Err(fault)),
    };
    match create_record(rt, record) {
        Ok(file) => {
            let outcome = run(rt, net, settings, &InMemory, storages, secret, file);
            status_of(rt, outcome)
        }
        Err(fault) => status_of(rt, Err(fault)),
    }
}

/// Creates the file of a record, if there is to be one.
fn create_record(rt: &HostRuntime, record: Option<&str>) -> Result<Option<File>, ReactorFault> {
    let Some(path) = record else {
        return Ok(None);
    };
    match fs::create(rt, path) {
        Ok(file) => Ok(Some(file)),
        Err(_) => Err(ReactorFault::Write),
    }
}

/// Runs an ensemble on its data directory.
fn run_on_disk<N: Net>(
    rt: &HostRuntime,
    net: &N,
    settings: &Settings,
    path: &str,
    record: Option<&str>,
) -> Result<u8, NoMemory> {
    // There are at most 15.
    let Ok(servers) = u8::try_from(settings.servers) else {
        return Ok(refuse(rt, "servers"));
    };
    let secret = match new_secret(rt) {
        Ok(secret) => secret,
        Err(fault) => return status_of(rt, Err(fault)),
    };
    let directory = match DataDirectory::open(rt, path, servers, secret) {
        Ok(directory) => directory,
        Err(fault) => return refuse_directory(rt, fault),
    };
    if matches!(record, Some(_)) && !directory.is_new() {
        return Ok(refuse_used(rt));
    }
    let file = match create_record(rt, record) {
        Ok(file) => file,
        Err(fault) => return status_of(rt, Err(fault)),
    };
    match directory.open_data_stores() {
        Ok(stores) => {
            let on_disk = OnDisk {
                rt,
                directory: &directory,
            };
            let secret = directory.secret();
            let outcome = run(rt, net, settings, &on_disk, stores, secret, file);
            status_of(rt, outcome)
        }
        Err(fault) => refuse_directory(rt, fault),
    }
}

/// Prints why an ensemble has ended, if that is an error. Returns the exit status.
fn status_of(rt: &HostRuntime, outcome: Result<(), ReactorFault>) -> Result<u8, NoMemory> {
    match outcome {
        Ok(()) => Ok(0),
        Err(ReactorFault::NoMemory) => Err(NoMemory),
        Err(ReactorFault::Listen) => Ok(refuse(rt, "listen")),
        Err(ReactorFault::Write) => Ok(refuse(rt, "write")),
        Err(ReactorFault::Read) => Ok(refuse(rt, "read")),
        Err(ReactorFault::Service(_)) => Ok(refuse(rt, "servers")),
    }
}

fn refuse_address(rt: &HostRuntime, word: &str) -> u8 {
    // If that fails, the error cannot be reported.
    let _ = eprintln!(rt; "zk: listen: --bind takes an IPv4 address such as 127.0.0.1, not {word}");
    1
}

/// A run script starts with new servers.
fn refuse_used(rt: &HostRuntime) -> u8 {
    // If that fails, the error cannot be reported.
    let _ = eprintln!(rt; "zk: data: --record needs a new directory");
    1
}

fn refuse_directory(rt: &HostRuntime, fault: DataFault) -> Result<u8, NoMemory> {
    match fault {
        DataFault::NoMemory => Err(NoMemory),
        fault => {
            report_directory(rt, fault);
            Ok(1)
        }
    }
}

/// Prints why a data directory, or a server's store in it, is not opened.
fn report_directory(rt: &HostRuntime, fault: DataFault) {
    // If that fails, the error cannot be reported.
    let _ = eprintln!(rt; "zk: data: {fault}");
}
