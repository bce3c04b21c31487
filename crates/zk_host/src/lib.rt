//! A host with a tree: the tree of what its server has delivered, the watches of its clients'
//! connections, and their news.
//!
//! ZooKeeper Programmer's Guide, "ZooKeeper Watches" and "Consistency Guarantees".
//!
//! Also a record of what the servers of an ensemble do, as the events of a run: each input of a
//! server in its order, and messages by the numbers that a run gives them.
#![tactic(auto)]

mod closings;
mod host_fault;
mod machines;
mod news;
mod record;
mod record_fault;
mod replica_host;
mod steps;
mod tape;
mod watched_tree;

pub use host_fault::{ReadFault, ReleaseFault};
pub use news::{Connection, News};
pub use record::Record;
pub use record_fault::RecordFault;
pub use replica_host::ReplicaHost;
pub use steps::Steps;
pub use tape::{Fate, Tape};
pub use watched_tree::WatchedTree;
