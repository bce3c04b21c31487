//! What the records of logs show of sessions: when each was opened, its timeout, its ephemeral nodes,
//! its writes, and when and how it ended.
//!
//! ZooKeeper Programmer's Guide, "ZooKeeper Sessions" and "Ephemeral Nodes".
#![tactic(auto)]

mod ephemerals;
mod known;
mod laws;
mod lives;
mod moment;
mod session;
mod writes;

pub use ephemerals::Ephemerals;
pub use known::Known;
pub use laws::session_writes_add_up;
pub use lives::Lives;
pub use moment::{Moment, moment_of};
pub use session::{Ending, Session};
pub use writes::write_count;
