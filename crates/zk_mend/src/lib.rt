//! Converts the log of a 3.5 to 3.8 server: a log of 3.4 to 3.8 becomes the 3.4 transactions that
//! its records represent, with a report of what changed.
//!
//! Each record is checked against the table: the nodes that a closed session lists, and the
//! server's digest of its tree. Servers of 3.6 to 3.8 write a digest with each transaction: the
//! CRC-32 of each node, added up.
#![tactic(auto)]

mod closing;
mod conversion_report;
mod fault;
mod laws;
mod mended;
mod mending;
mod node;
mod owners;
mod tree;
mod walk;

pub use conversion_report::{ChangeCount, ConversionReport};
pub use fault::MendFault;
pub use laws::{mended_in_one_way, mended_tree_is_the_servers, old_logs_come_back};
pub use mended::{Mended, mend};
pub use mending::walk_entries;
pub use node::node_digest;
pub use tree::TreeDigest;
pub use walk::Walk;
