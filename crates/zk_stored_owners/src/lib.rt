//! The owners of containers and of nodes with a time to live, which servers store and no client sees:
//! after a snapshot and the records of logs. Also the snapshot of a state whose nodes have them.
#![tactic(auto)]

mod follower;
mod nodes;
mod owners;

pub use follower::follow_logs;
pub use nodes::stored_snapshot;
pub use owners::Owners;
