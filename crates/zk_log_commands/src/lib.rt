//! Part of `zk_cli`, split off for the prover's time alone.
//!
//! The commands `show`, `list`, `asm` and `debug` (with a script): what each reads and writes, over
//! any readers and writers.
//!
//! They are a crate below `zk_cli` only for the prover's time: the proof of a program covers all
//! that it reaches, each time.
#![tactic(auto)]

mod answering;
mod asm_fault;
mod assembling;
mod debugging;
mod fault_lines;
mod lines;
mod list;
mod notice;
mod reporting;
mod show;
mod telling;
mod text;

pub use answering::{put_answers, put_answers_before};
pub use asm_fault::AsmFault;
pub use assembling::asm;
pub use debugging::{debug, debug_from};
pub use fault_lines::{asm_line, log_line};
pub use notice::{first_zxid, tell_notice};
pub use reporting::{Report, tell_log};
pub use telling::{TURNS, tell, tell_log_fault};
pub use text::{TextFault, read_text};
