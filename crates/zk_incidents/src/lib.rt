//! The questions of an incident: `zk history` of a node and `zk top`, who writes most, as folds
//! over the records of logs. Each is a command over any folders and any writers.
//!
//! Laws say what a history lists, and what counts add up to.
#![tactic(auto)]

mod base_owners;
mod counts;
mod history_fold;
mod laws;
mod line;
mod most_writes;
mod node_history;
mod owners;
mod ranks;
mod scope;
mod top_fold;
mod writes;

pub use base_owners::first_owners;
pub use history_fold::{History, covered};
pub use laws::{counts_add_up, each_change_has_a_line};
pub use line::{is_expiry, op_word};
pub use most_writes::top;
pub use node_history::history;
pub use owners::Owners;
pub use ranks::Ranks;
pub use scope::Scope;
pub use top_fold::{Key, Top, first_rows};
