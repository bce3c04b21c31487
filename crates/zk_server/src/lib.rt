//! A server of an ensemble: its host, its part in elections, and its links to the others. It has no
//! socket and no clock: a turn takes what has arrived, and returns what is to be sent.
//!
//! ZooKeeper Internals, "Leader Activation". Junqueira, Reed, Serafini: "Zab: High-performance
//! broadcast for primary-backup systems", DSN 2011.
#![tactic(auto)]

mod choices;
mod election;
mod laws;
mod linked_peer;
mod mail;
mod member;
mod mode;
mod quorum_peer;
mod site;
mod stopped;
mod turn;

pub use election::{Choice, Election, Position};
pub use laws::{linked_peers_agree, peers_agree};
pub use linked_peer::{LinkedPeer, Written};
pub use member::Member;
pub use mode::Mode;
pub use quorum_peer::{Posted, QuorumPeer};
pub use site::Site;
pub use stopped::Stopped;
pub use turn::{decide, hear, release};
pub use zk_peer_links::{Arrival, Notice, SessionNews, SessionNotice};
