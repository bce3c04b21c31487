//! What stock servers of 3.4 to 3.8 say to each other: packets between a learner and its leader with
//! the tree after a SNAP, and hellos and notifications on election ports.
//!
//! ZooKeeper, classes `QuorumPacket`, `LearnerHandler`, `QuorumCnxManager` and `FastLeaderElection`.
#![tactic(auto)]

mod decoder;
mod elections;
mod fault;
mod hello;
mod item;
mod items;
mod laws;
mod notification;
mod packet;
mod packets;
mod tree;
mod writing;

pub use decoder::Decoder;
pub use fault::{BadItem, DecodeFault, StreamFault, WriteFault};
pub use hello::Hello;
pub use item::{Item, Phase};
pub use laws::{decoding_composes, decoding_is_exact, items_are_of_one};
pub use notification::{Notification, ServerState};
pub use packet::QuorumPacket;
pub use writing::write_packet;
