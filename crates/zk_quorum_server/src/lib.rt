//! A server of an ensemble with its clients, as one value. It has no socket and no clock: a turn takes
//! what has arrived, and returns what is to be sent.
//!
//! ZooKeeper Internals, "Atomic Broadcast"; ZooKeeper Programmer's Guide, "Consistency Guarantees".
#![tactic(auto)]

mod laws;
mod removal;
mod server;
mod turn;

pub use laws::whole_servers_agree;
pub use server::Server;
