//! The machine: the table over an indexed tree. It returns what each transaction changed and undoes
//! the last one, or advances without either.
//!
//! ZooKeeper Programmer's Guide, "The ZooKeeper Data Model" and "ZooKeeper Watches".
#![tactic(auto)]

mod applied;
mod change;
mod effect;
mod fault;
mod laws;
mod machine;
mod noted_tree;
mod operations;
mod preimages;
mod reading;
mod restore;
mod sessions;
mod table;
mod undo;

pub use applied::Applied;
pub use change::{Change, ChangeKind};
pub use fault::{MachineFault, UndoFault};
pub use laws::instructions_change_in_one_way;
pub use machine::Machine;
pub use sessions::Sessions;
pub use undo::Undo;
