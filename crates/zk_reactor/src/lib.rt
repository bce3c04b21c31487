//! The loop of an ensemble that serves clients: one thread waits for the sockets of all servers, and
//! for commands on standard input.
#![tactic(auto)]

mod client;
mod clients;
mod clock;
mod command;
mod commands;
mod lines;
mod outcome;
mod reactor;
mod script;
mod setup;
mod socket;
mod stops;
mod stores;

pub use command::{Command, command_in};
pub use setup::{ReactorFault, Settings, new_secret, run};
pub use stores::{InMemory, Stores};
