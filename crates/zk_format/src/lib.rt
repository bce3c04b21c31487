//! Part of `zk_listing`, split off for the prover's time alone.
//!
//! The text format of values, transactions and reports.
//!
//! One space separates two fields, and each value has exactly one text. Public functions append all
//! of a value, or nothing if an allocation fails. Only [`spell_line`] and [`spell_node_line`], for
//! buffers of many lines, may leave a part. `zk_listing` reads this format.
#![tactic(auto)]

mod listing;
mod ranges;
mod report;
mod spelling;

pub use listing::{list, push_line, spell_line};
pub use report::{push_node_line, push_result_line, spell_node_line};
pub use spelling::{push_acl, push_content, push_digits, push_id, push_quoted, push_stat};
