//! Watches: what sessions wait for at paths, and the events that changes fire.
//!
//! ZooKeeper Programmer's Guide, "ZooKeeper Watches".
#![tactic(auto)]

pub mod laws;
mod watch;
mod watches;

pub use watch::{Fired, Watch, WatchKind};
pub use watches::Watches;
