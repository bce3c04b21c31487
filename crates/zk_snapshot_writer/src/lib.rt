//! Writes snapshot files of ZooKeeper 3.4 to 3.8, a part at a time.
//!
//! `org.apache.zookeeper.server.persistence`, `FileSnap`, in Jute's binary encoding. `zk_snapshot`
//! reads them.
#![tactic(auto)]

mod checksum;
mod encoder;
mod fault;
mod fields;
mod lengths;
mod nodes;
mod writer;

pub use fault::WriterFault;
pub use writer::SnapshotWriter;
