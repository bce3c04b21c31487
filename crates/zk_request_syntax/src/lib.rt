//! Lines of clients and replies as text: requests, parts of a multi, and reads.
//!
//! One space separates fields, which have the forms of a listing; content may also be a text
//! between quotes. ZooKeeper Programmer's Guide, "ZNodes", "Data Access" and "ZooKeeper Watches".
#![tactic(auto)]

mod fields;
mod lookups;
mod numbers;
mod parts;
mod readers;
mod replies;
mod requests;
mod spaced;
mod words;

pub use lookups::{Lookup, read_lookup};
pub use parts::read_part;
pub use readers::{
    spaced_lookup, spaced_request, take_id, take_ids, take_int, take_long, take_lookup,
    take_number, take_request,
};
pub use replies::{push_refusal, push_reply};
pub use requests::read_request;
pub use spaced::{spaced_id, spaced_ids, spaced_int, spaced_long, spaced_number};
pub use words::{take_space, take_word};
