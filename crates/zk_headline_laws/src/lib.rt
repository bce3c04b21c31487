//! The headline's first half: what holds over every list of events of an ensemble about each
//! server's tree, results and watches, and about their one order; and its consequences. Laws only.
//!
//! ZooKeeper Programmer's Guide, "ZooKeeper Watches" and "Consistency Guarantees"; Junqueira, Reed,
//! Serafini: "Zab: High-performance broadcast for primary-backup systems", DSN 2011.
#![tactic(auto)]

mod laws;

pub use laws::{
    answers_have_the_tables_results, every_run_keeps_the_consequences,
    every_run_keeps_the_headline, reads_enable_events,
};
