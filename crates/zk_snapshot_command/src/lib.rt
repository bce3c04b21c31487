//! A snapshot file of the state that a data directory holds, as of a transaction, over
//! any folders and any writers. A server of ZooKeeper starts from it.
#![tactic(auto)]

mod command;
mod part_fault;
mod parts;
mod stored_owners;

pub use command::write_snapshot;
