//! The servers of an ensemble in one process (ZooKeeper: quorum peers): which of them run, the mail
//! between them, the links that are cut, and the leader.
//!
//! ZooKeeper Internals, "Leader Activation" and "Quorums".
#![tactic(auto)]

mod cut;
mod election;
mod fault;
mod mail;
mod peers;
mod place;
mod places;
mod state;

pub use cut::Cut;
pub use fault::PeersFault;
pub use peers::{FEWEST, MOST, Peers};
pub use place::Place;
pub use state::PeerState;
