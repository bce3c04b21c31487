//! Tests of `zk_quorum_records`: streams that were recorded between servers of ZooKeeper 3.8.0. No
//! code of its own.
//!
//! Expected values are those of the recording's own reader, which shares no code with this repository.
#![tactic(auto)]

#[cfg(test)]
mod fault_tests;
#[cfg(test)]
mod stream_tests;
#[cfg(test)]
mod streams;
#[cfg(test)]
mod taken;
#[cfg(test)]
mod writing_tests;
