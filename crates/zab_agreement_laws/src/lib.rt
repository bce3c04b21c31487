//! Agreement: over every list of events of a world of Zab servers, of any two lists ever delivered
//! one is a prefix of the other; and the facts of every run that imply it. Laws only.
//!
//! Junqueira, Reed, Serafini: "Zab: High-performance broadcast for primary-backup systems", DSN
//! 2011.
#![tactic(auto)]

mod laws;

pub use laws::{
    four_facts_give_one_order, new_leaders_mean_their_leaders_history, runs_agree,
    runs_keep_the_four_facts, servers_share_their_leaders_front, stable_part_outlasts_crashes,
};
