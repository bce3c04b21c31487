//! Paths of nodes, and [`NoMemory`], the allocation failure that all crates share.
//!
//! ZooKeeper Programmer's Guide, "The ZooKeeper Data Model".
#![tactic(auto)]

mod fault;
mod grammar;
pub mod laws;
mod memory;
mod path;
mod sequences;

pub use fault::PathFault;
pub use memory::NoMemory;
pub use path::Path;
pub use sequences::sequence;
