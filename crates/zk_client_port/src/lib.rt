//! A server's client port: its connections and their outstanding requests, what these ask of the
//! server's host, and what the host's releases write to them. Laws say what holds of a server's
//! clients over every list of turns.
//!
//! ZooKeeper Programmer's Guide, "ZooKeeper Sessions", "ZooKeeper Watches" and "Consistency
//! Guarantees"; Administrator's Guide, `clientPort`.
#![tactic(auto)]

mod admission;
mod client_port;
mod demand;
mod execution;
mod expected;
mod fault;
pub mod laws;
mod listing;
mod order_laws;
mod outputs;
mod result;
mod turn;

pub use admission::Admission;
pub use client_port::{ClientPort, Selection, Turned};
pub use demand::{Demand, demand_of};
pub use execution::{Moment, tag_after};
pub use expected::{Expected, Opening};
pub use fault::ServeFault;
pub use order_laws::replies_in_order;
pub use outputs::{PortOutput, write_outputs};
pub use result::{Attachment, write_outcome};
