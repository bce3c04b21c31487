//! `zk verify` of a data directory, over any folders and any writers: its logs as far as they can
//! be read, where transactions are missing, and what each snapshot leads to.
#![tactic(auto)]

mod breaks;
mod checking;
mod files;
mod findings;
mod following;
mod help;
mod log_bytes;
mod mark;
mod report;
mod report_lines;
mod survey;
mod verification;

pub use breaks::Break;
pub use checking::marks_of;
pub use files::load_logs;
pub use findings::path_of;
pub use help::{KINDS, Kind, has_kind, help_line};
pub use log_bytes::LogBytes;
pub use mark::{Damage, Facts, Mark, Mismatch, Moment};
pub use report::{count_wrong, report_text};
pub use report_lines::{push_range, stop_word, time_text};
pub use survey::{Survey, survey_logs};
pub use verification::verify;
