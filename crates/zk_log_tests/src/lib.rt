//! Tests of `zk_log`, `zk_newer_records`, `zk_mend` and `zk_prepare`: logs and journals, logs of
//! 3.5 to 3.8 servers, and requests before they are logged; and of `zk_snapshot`, `zk_replay` and
//! `zk_directory`. No code of its own. What the program prints is tested in `checks/golden`:
//! `logs.golden`, `mending.golden` and `requests.golden`.
//!
//! A real snapshot's nodes are those that ZooKeeper's `SnapshotFormatter` prints of it. Other files
//! and what they mean were written by hand from the formats.
#![tactic(auto)]

#[cfg(test)]
mod base_tests;
#[cfg(test)]
mod chain_tests;
#[cfg(test)]
mod create_tests;
#[cfg(test)]
mod deadline_tests;
#[cfg(test)]
mod device_tests;
#[cfg(test)]
mod digest_tests;
#[cfg(test)]
mod draft_tests;
#[cfg(test)]
mod expected;
#[cfg(test)]
mod files;
#[cfg(test)]
mod journal_tests;
#[cfg(test)]
mod log_file_tests;
#[cfg(test)]
mod log_tests;
#[cfg(test)]
mod mending_tests;
#[cfg(test)]
mod name_tests;
#[cfg(test)]
mod newer_tests;
#[cfg(test)]
mod owner_tests;
#[cfg(test)]
mod replay_tests;
#[cfg(test)]
mod snapshot_tests;
#[cfg(test)]
mod writer_tests;
