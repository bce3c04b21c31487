//! An ensemble of ZooKeeper servers, one event at a time: elections, messages lost, repeated and
//! reordered, crashes and restarts, client calls, and reads. Each server's tree is that of its
//! delivered list.
//!
//! ZooKeeper Programmer's Guide, "ZooKeeper Watches" and "Consistency Guarantees"; Junqueira, Reed,
//! Serafini: "Zab: High-performance broadcast for primary-backup systems", DSN 2011.
#![tactic(auto)]

mod ensemble;
mod outcome;

pub use ensemble::Ensemble;
pub use outcome::{Mark, Outcome};
pub use zab_world::Caught;
pub use zk_model::{Answer, Answered, EnsembleFault, Event, Question};
