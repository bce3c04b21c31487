//! Worlds of Zab servers and the messages between them, the effect of each event, and runs of
//! events: types and definitions. `zab_world` executes events; `zab_agreement_laws` has what holds
//! of every run.
//!
//! Junqueira, Reed, Serafini: "Zab: High-performance broadcast for primary-backup systems", DSN
//! 2011.
#![tactic(auto)]

mod event;
mod fault;
mod used_tags;

pub use event::{Event, Moved};
pub use fault::WorldFault;
pub use used_tags::UsedTags;
