//! The command `serve`: servers as threads, and clients that connect one after another.
#![tactic(auto)]

mod accepting;
mod fault_lines;
mod port;
mod servers;
mod serving;
mod start_barrier;

pub use serving::serve;
