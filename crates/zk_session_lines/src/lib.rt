//! The lines of `zk sessions` and `zk session`: a session with when it was opened, its timeout, its
//! writes, its ephemeral nodes, and when and how it ended; and a transaction of a session.
#![tactic(auto)]

mod line_form;
mod record_line;
mod row_objects;
mod rows;

pub use line_form::LineForm;
pub use record_line::push_record_line;
pub use rows::{push_formed_row, rows_text};
