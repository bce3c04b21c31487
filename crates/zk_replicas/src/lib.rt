//! Part of `zk_ensemble`, split off for the prover's time alone.
//!
//! What a server of an ensemble shows of its delivered list: its tree, the result of each entry,
//! its watches, and the events fired; how it catches up, what is cached when it crashes, and how
//! clients read.
//!
//! ZooKeeper Programmer's Guide, "ZooKeeper Watches" and "Consistency Guarantees".
#![tactic(auto)]

mod crash_cache;
mod moving;
mod replica;

pub use crash_cache::CrashCache;
pub use moving::{catch_up, find, look, peek};
pub use replica::Replica;
