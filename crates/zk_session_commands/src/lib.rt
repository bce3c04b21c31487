//! `zk sessions` and `zk session` of a data directory, over any folders and any writers.
//!
//! What was before the logs' first transaction is what the first snapshot shows of it that is whole.
#![tactic(auto)]

mod all_sessions;
mod asked_session;
mod base_known;
mod found_output;
mod one_session;
mod session_life;
mod touched_nodes;

pub use all_sessions::sessions;
pub use asked_session::AskedSession;
pub use base_known::first_known;
pub use one_session::session;
