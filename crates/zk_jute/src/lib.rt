//! Reading the records of a log as transactions. `zk_records` defines and writes records.
//!
//! `zookeeper.jute`, modules `org.apache.zookeeper.data` and `org.apache.zookeeper.txn`; the
//! encoding is Jute's binary one.
//!
//! A server's transactions, kept mostly as the bytes of their log entries.
//!
//! A transaction as a value has its path and content beside its bytes. An [`Archive`] keeps the
//! bytes of all its transactions and the values of the last few thousand; older ones are read from
//! their bytes.
#![tactic(auto)]

pub mod acls;
mod archive;
pub mod bodies;
mod copies;
mod entry;
mod fault;
pub mod fields;
mod laws;
mod mark;
pub mod multis;
pub mod operations;
mod packed;
mod packed_slice;
mod reading;
mod sizes;
mod span;
mod txns;

pub use archive::Archive;
pub use fault::JuteFault;
pub use laws::only_old_creates_begin_others;
pub use reading::{Header, read_txn, read_txn_sharing, txn_header};
pub use span::Span;
pub use txns::Txns;
pub use zk_records::{kinds, short_transactions_have_records, size, write_txn};
