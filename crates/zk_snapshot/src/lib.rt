//! Reads snapshot files of ZooKeeper 3.4 to 3.8.
//!
//! `org.apache.zookeeper.server.persistence`, `FileSnap`, in Jute's binary encoding.
#![tactic(auto)]

mod fault;
mod fields;
mod laws;
mod nodes;
mod reading;
mod snapshot;

pub use fault::SnapshotFault;
pub use laws::replay_is_exact;
pub use reading::read_snapshot;
pub use snapshot::{
    Access, Accesses, Claim, Contents, Kept, Lease, Leases, Moments, Snapshot, Stored, StoredNodes,
    Versions,
};
