//! `zk files` of a data directory as JSON, over any folders and any writers.
#![tactic(auto)]

mod file_lines;
mod files;
mod gap_lines;
mod given_files;
mod log_line;
mod snapshot_line;
mod unread_files;

pub use files::files_json;
