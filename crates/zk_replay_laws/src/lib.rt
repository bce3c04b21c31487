//! A snapshot is written while transactions go on, so it shows no state that the server ever had.
//! The law that its replay is exact, from the end of its window on. Laws only; the calls are in
//! `zk_replay` and `zk_directory_state`.
#![tactic(auto)]

mod laws;

pub use laws::{replay_is_exact, replay_is_exact_but_pzxids};
