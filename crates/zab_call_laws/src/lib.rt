//! The effect of calls in every run of a world. Each entry is the result of an accepted call, and a
//! tag belongs to one entry. A server with a completed sync has delivered all that its epoch's
//! leader had delivered when the sync was taken. A leader whose counter is used up stops. Laws
//! alone; no code.
//!
//! Junqueira, Reed, Serafini: "Zab: High-performance broadcast for primary-backup systems", DSN
//! 2011. ZooKeeper Programmer's Guide (3.4), Consistency Guarantees.
#![tactic(auto)]

mod laws;

pub use laws::{entries_come_from_calls, full_leaders_stop, one_entry_for_a_tag, syncs_catch_up};
