//! `zk list` of a data directory or of a log, in each form of a line: that of a listing, the same
//! with the time of a clock in UTC, or a JSON object.
//!
//! Also `zk list --follow` of a data directory, over any logs and any writers. A log is read while
//! a server writes it: the entries that stand whole in it so far.
#![tactic(auto)]

mod directory;
mod fault;
mod follower;
mod formed_lines;
mod lines;
mod listing_laws;
mod log;
mod logs;
mod polling;
mod sight;
mod tail;
mod tail_laws;
mod timed;

pub use directory::list_directory;
pub use fault::FollowFault;
pub use follower::Follower;
pub use formed_lines::{push_txn_line, push_txn_lines};
pub use listing_laws::writes_listings;
pub use log::list_log;
pub use logs::GrowingLogs;
pub use polling::follow;
pub use sight::{is_written, is_written_after, window_of};
pub use tail::{Fed, LogTail, Stop};
pub use tail_laws::prints_what_was_read;
pub use zk_cli_args::Form;
