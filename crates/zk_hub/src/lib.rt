//! The outstanding requests of a server's connections: which reply is written next, what a host's
//! release writes to its clients, and when a read is made, from the tree that the server has
//! delivered.
//!
//! ZooKeeper Programmer's Guide, "Consistency Guarantees": requests of a client are executed, and
//! their replies arrive, in the order in which they were sent. "ZooKeeper Watches": "a client will
//! see the watch event for a znode it is watching before seeing the new data that corresponds to
//! that znode".
#![tactic(auto)]

mod delivery;
mod hub;
pub mod laws;
mod news;
mod outcome;
mod reading;
mod released;
mod request;

pub use hub::{Hub, HubFault, MOST_OUTSTANDING};
pub use news::{News, Output};
pub use outcome::Outcome;
pub use reading::reply_to;
pub use released::{Released, read, release};
pub use request::{Outstanding, Reply, Stage};
