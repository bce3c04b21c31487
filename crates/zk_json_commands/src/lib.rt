//! `zk show`, `history`, `top`, `verify` and `diff` of a data directory as JSON, and `zk show` of a
//! log: one object a line, over any folders, any reader and any writers.
#![tactic(auto)]

mod difference;
mod difference_lines;
mod fault_text;
mod history;
mod history_lines;
mod lost_lines;
mod marks;
mod node_lines;
mod report;
mod row_lines;
mod show;
mod show_log;
mod state_lines;
mod top;
mod verification;

pub use difference::diff_json;
pub use history::history_json;
pub use show::show_json;
pub use show_log::show_log_json;
pub use top::top_json;
pub use verification::verify_json;
