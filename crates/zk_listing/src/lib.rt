//! Listings: transaction logs as text, one line for each transaction, read and written.
//!
//! One space separates two fields. Each value has exactly one text, and no other text is read as
//! it. `zk_format` writes listings and reports; its public items are re-exported here.
//!
//! Also the report of a tree, the lines of a text, the faults of a script, and lower-case
//! hexadecimal digits, read many at a time.
#![tactic(auto)]

mod assembling;
mod digits;
mod fields;
mod laws;
mod lines;
mod list_fault;
mod ops;
mod parts;
mod quoting;
mod readers;
mod report;
mod script_fault;

pub use assembling::assemble;
pub use digits::{decode_lower, decode_lower_to};
pub use laws::listings_read_back;
pub use lines::next_line;
pub use list_fault::{ListCause, ListFault};
pub use readers::{read_acl, read_content, read_id, read_int, read_long, read_path, read_quoted};
pub use report::{push_entry_line, push_head, push_head_of, push_tree, spell_tree};
pub use script_fault::{ScriptFault, script_line};
pub use zk_format::{
    list, push_acl, push_content, push_digits, push_id, push_line, push_node_line, push_quoted,
    push_result_line, push_stat,
};
