//! Part of `zk_cli`, split off for the prover's time alone.
//!
//! The helps of `zk`, and the messages of `clap` for words that name no command. Also what the lines
//! for errors mean, in words, and what helps.
#![tactic(auto)]

mod explaining;
mod explanations;
mod grammar;
mod helps;
mod notes;
mod usage;

pub use clap::error::ErrorKind;
pub use explaining::Explaining;
pub use explanations::{explain_at, explanation_of, words_of};
pub use usage::{Refusal, refusal_of, refusal_of_bytes};
