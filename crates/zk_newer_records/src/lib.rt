//! The records of servers after 3.4, each read as the 3.4 transaction that it represents.
//!
//! Servers of 3.6 to 3.8:
//! - write a digest of the tree after a record
//! - have operations that 3.4 does not
//! - list the paths that a closed session deletes
//! - keep the bodies of requests in the failed parts of a multi
//!
//! A record of 3.4 is one of these records, and represents itself. `docs/FORMATS.md` has the
//! layouts.
//!
//! [`RecordFold`] is what a command keeps while it reads a directory, record by record.
#![tactic(auto)]

mod bodies;
mod changes;
mod fault;
mod fold;
mod kept;
pub mod kinds;
mod laws;
mod multis;
mod newer_record;
mod operations;
mod owners;
mod parts;
mod reading;

pub use changes::Change;
pub use fault::NewerFault;
pub use fold::RecordFold;
pub use laws::{newer_records_are_of_one, old_records_stand};
pub use newer_record::{ClosedPaths, Encoding, NewerRecord};
pub use parts::{NewerPart, PartEncoding, PartEncodings};
pub use reading::read_newer;
