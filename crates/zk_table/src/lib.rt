//! Transactions, their results, nodes and reads, and the table: what each transaction does to the
//! nodes and sessions, its result, and the replies to reads.
//!
//! ZooKeeper Programmer's Guide, "The ZooKeeper Data Model"; `zookeeper.jute`, module
//! `org.apache.zookeeper.txn`.
#![tactic(auto)]

pub mod codes;
mod content;
mod multi;
mod names;
mod node;
mod nodes;
mod operations;
mod plain;
mod read;
mod reading;
mod result;
mod sessions;
mod sub;
mod txn;

pub use content::Content;
pub use multi::{answers_unapplied, first_refusal, hold_error};
pub use names::Names;
pub use node::Node;
pub use plain::Plain;
pub use read::{ReadCall, ReadReply};
pub use result::{PartResult, PartResults, TxnResult};
pub use sub::{Sub, Subs};
pub use txn::{Op, Txn};
