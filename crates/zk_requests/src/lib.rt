//! The transaction that a client's call becomes, on a given state.
//!
//! ZooKeeper Programmer's Guide, "ZNodes", "Sequence Nodes", "ZooKeeper access control using ACLs"
//! and "ZooKeeper Sessions". `zk_prepare`, from which this is split for the prover's time alone,
//! prepares calls on the state after all that was taken before.
//!
//! The later parts of a multi see an overlay: the nodes of a tree with changes on top, which leave
//! the tree unchanged. Its cost depends on the number of changes, not on the size of the tree
//! (`zookeeper.jute`, `MultiTxn`).
#![tactic(auto)]

mod call;
mod copies;
mod create;
mod delete;
mod deltas;
mod making;
mod multi;
mod overlay;
mod refusal;
mod texts;
mod timeout;
mod versions;

pub use call::{Call, Part, Parts, Request, closing_call};
pub use making::meaning_of;
pub use overlay::Overlay;
pub use timeout::clamp;
