//! What a ZooKeeper data directory holds: the device that it is read from, its snapshots and logs in
//! order, and the state that they prove. The commands `zk files` and `zk show` of a directory are
//! here, over any folder and any writers, and the lines for directories that are rejected.
//!
//! The state is the base of a snapshot, or the empty tree, and the transactions of several logs,
//! each once. Any fold over the records of the logs sees each once too, and which range of transactions
//! the logs prove.
//!
//! [`Folder`] is the device; the program reads it from the disk, and tests from memory.
#![tactic(auto)]

mod attempt;
mod counting;
mod ends;
mod evidence;
mod fault;
mod fault_causes;
mod file_lines;
mod file_listing;
mod folded_directory;
mod folder;
mod history;
mod joining;
mod line;
mod log_line;
mod logs;
mod loss_lines;
mod names;
mod notices;
mod range;
mod report;
mod restoration;
mod restore_fault;
mod restored_directory;
mod server_names;
mod show_directory;
mod snapshot_line;
mod span;
mod telling;
mod unread_lines;
mod upto;
mod walk;
mod window;

pub use fault::{HistoryFault, PassedFault};
pub use fault_causes::history_fault;
pub use file_lines::files;
pub use file_listing::files_text;
pub use folded_directory::{FoldedDirectory, fold_directory};
pub use folder::{Folder, FolderFault};
pub use history::{Broken, Origin, Shown, shown_of};
pub use joining::{check_end, take_entry, take_on};
pub use line::{fault_line, passed_word};
pub use log_line::push_log_line;
pub use logs::{logs_in, read_logs, read_snapshot_file, slices_of, snapshots_in};
pub use names::{log_zxids, push_log_name, push_snapshot_name, snapshot_zxids};
pub use notices::{Noticed, notices_text, put_noticed, put_with_notices};
pub use range::{Bound, Range};
pub use restoration::{Base, Restore};
pub use restore_fault::{DirectoryFault, RestoreFault};
pub use restored_directory::{Restored, restore};
pub use server_names::{name_among, server_files};
pub use show_directory::show;
pub use snapshot_line::{fault_word, push_snapshot_line};
pub use span::{Moment, Span};
pub use telling::{put_text, tell_fault};
pub use upto::Upto;
pub use walk::Loss;
pub use window::window_end;
