//! Transactions, nodes, and the lines of `zk history` and `zk top` as JSON: one object a line, in
//! the form of RFC 8259.
//!
//! Also times in UTC, as the command line and the lines of commands have them.
#![tactic(auto)]

mod changes;
mod contents;
mod fields;
mod incidents;
mod json_text;
mod nodes;
mod objects;
mod operations;
mod records;
mod text;
mod time;

pub use changes::{Held, LastChange, push_change_line};
pub use incidents::{push_count_line, push_history_line};
pub use nodes::push_node_line;
pub use objects::{Value, push_object_line};
pub use records::push_record_line;
pub use text::push_time;
pub use time::read_time;
