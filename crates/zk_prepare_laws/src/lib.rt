//! What follows for prepared transactions: the table rejects only errors, a multi is applied whole
//! or not at all, and a node's owner is an open session. Laws only; the calls are in `zk_prepare`.
//!
//! ZooKeeper Programmer's Guide, "Ephemeral Nodes" and "ZooKeeper Sessions"; `zookeeper.jute`,
//! `MultiTxn`.
#![tactic(auto)]

mod laws;

pub use laws::{multis_are_whole_or_nothing, owners_are_open, refused_only_as_errors};
