//! Tests of `zk_quorum_server`: clients of one server and of three. No code of its own.
//!
//! Frames are by `zookeeper.jute` and the ZooKeeper Programmer's Guide, written by a script that shares
//! no code with this repository.
#![tactic(auto)]

#[cfg(test)]
mod client_tests;
#[cfg(test)]
mod frames;
#[cfg(test)]
mod lone;
