//! Tests of `zab_host`, `zk_host` and `zk_peers`: hosts, stores, tags, trees and news, elections,
//! crashes, restarts, and links that are cut. No code of its own.
//!
//! Expected values come from Zab's definition, ZooKeeper's leader election (`FastLeaderElection`),
//! ZooKeeper Internals ("Leader Activation", "Quorums"), the ZooKeeper Programmer's Guide, and the
//! forms of docs/FORMATS.md.
#![tactic(auto)]

#[cfg(test)]
mod closing_tests;
#[cfg(test)]
mod echo_hosts;
#[cfg(test)]
mod ensembles;
#[cfg(test)]
mod fault_tests;
#[cfg(test)]
mod five_tests;
#[cfg(test)]
mod host_tests;
#[cfg(test)]
mod lone_tests;
#[cfg(test)]
mod replica_tests;
#[cfg(test)]
mod store_tests;
#[cfg(test)]
mod three_tests;
#[cfg(test)]
mod tree_tests;
#[cfg(test)]
mod trios;
#[cfg(test)]
mod vote_tests;
