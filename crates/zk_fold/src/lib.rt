//! The forward-only table: no undo records, no results.
#![tactic(auto)]

mod fold;
mod node_index;
mod node_table;
mod operations;
mod owners;
mod paths;
mod sessions;

pub use fold::Fold;
pub use sessions::Sessions;
