//! The servers of an ensemble in one process, and their clients: connections, sessions, elections
//! and crashes.
//!
//! ZooKeeper Programmer's Guide, "ZooKeeper Sessions"; ZooKeeper Internals, "Leader Activation".
#![tactic(auto)]

mod client_service;
mod expiry;
mod fault;
mod turn;

pub use client_service::ClientService;
pub use fault::ServiceFault;
