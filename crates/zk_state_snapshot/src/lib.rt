//! The snapshot of a server's state: what `zk_snapshot_writer` writes, and `zk_snapshot` reads.
//!
//! `org.apache.zookeeper.server`, `DataTree` and `ReferenceCountedACLCache`.
#![tactic(auto)]

mod accesses;
mod digest;
mod lists;
mod nodes;
mod state;

pub use state::{snapshot_from, snapshot_of};
