//! Ensembles of servers with trees, the effect of each event, and runs of events: types and
//! definitions. Also the primary of an ensemble, which turns calls into entries on the tree of
//! those before them. `zk_ensemble` executes events; `zk_headline_laws` has what holds of every
//! run.
//!
//! ZooKeeper Programmer's Guide, "ZooKeeper Watches" and "Consistency Guarantees"; Junqueira, Reed,
//! Serafini: "Zab: High-performance broadcast for primary-backup systems", DSN 2011.
#![tactic(auto)]

mod answer;
mod copies;
mod equals;
mod event;
mod fault;
mod preparer;

pub use answer::{Answer, Answered};
pub use equals::Equals;
pub use event::{Event, Question};
pub use fault::EnsembleFault;
pub use preparer::Preparer;
