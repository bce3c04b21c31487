//! Tests of `zk_server`: elections of one server and of three, servers that hear nothing for some ticks,
//! and links of bytes. No code of its own.
//!
//! Expected values come from ZooKeeper's leader election (`FastLeaderElection`).
#![tactic(auto)]

#[cfg(test)]
mod election_tests;
#[cfg(test)]
mod link_tests;
#[cfg(test)]
mod silence_tests;
#[cfg(test)]
mod trio;
#[cfg(test)]
mod wires;
