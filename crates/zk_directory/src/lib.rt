//! The meaning of a ZooKeeper data directory: which of its files are snapshots and logs, where
//! reading begins, which entry continues which, and the entries of a log file in memory, of 3.4 to
//! 3.8 servers, each with its position, its bytes and its record.
//!
//! It handles names, zxids and bytes alone; `docs/FORMATS.md` describes the files. `zk_log` loads
//! logs of 3.4 from a reader. Here a record keeps the paths that it lists and the server's digest.
#![tactic(auto)]

mod chain;
mod continuing;
mod file;
mod intact_log;
mod joint;
mod names;
mod order;
mod reading;

pub use chain::{Chain, ChainFault, LogEntry, Turn};
pub use continuing::{continues, counter_of, starts_history};
pub use file::{FileEntry, LogFile, LogFileFault};
pub use intact_log::{IntactLog, Resumption, read_intact_log};
pub use joint::Joint;
pub use names::{FileName, read_file_name, read_server_name};
pub use order::first_log;
pub use reading::read_log_file;
