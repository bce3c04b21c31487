//! The links between the servers of one process: what a server writes to another waits in memory, until
//! that has its turn.
#![tactic(auto)]

mod inbox;
mod local_links;

pub use inbox::Inbox;
pub use local_links::LocalLinks;
