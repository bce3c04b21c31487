//! How a leader prepares requests: a call becomes one transaction, on the state after all that was
//! taken before; and the deadlines of sessions. `zk_requests` defines the transaction of a call on
//! a state.
//!
//! ZooKeeper Programmer's Guide, "ZNodes", "Sequence Nodes", "ZooKeeper access control using ACLs"
//! and "ZooKeeper Sessions".
#![tactic(auto)]

mod prep;
mod tracker;

pub use prep::Prep;
pub use tracker::Tracker;
pub use zk_requests::{Call, Part, Parts, Request, clamp, closing_call};
