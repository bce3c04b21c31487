//! The links of a server to the others, as bytes: Zab's messages, the notices of elections and those
//! about sessions, each in a frame, on connections that are cut and opened again.
//!
//! ZooKeeper, classes `QuorumCnxManager` and `LearnerHandler`; one connection serves for both here.
#![tactic(auto)]

mod arrival;
mod chunk;
mod incoming;
mod laws;
mod link;
mod link_input;
mod links;
mod notice;
mod notice_contents;
mod outgoing;
mod packet;
mod session_contents;
mod session_notice;

pub use arrival::Arrival;
pub use chunk::Chunk;
pub use laws::{links_are_exact, links_compose};
pub use link::Link;
pub use link_input::LinkInput;
pub use links::{Heard, Links};
pub use notice::Notice;
pub use packet::Packet;
pub use session_notice::{SessionNews, SessionNotice};
