//! A debugger for transaction logs: it moves forward and back in a loaded log, stops at
//! breakpoints, and shows the tree and the result of the transaction just applied.
//!
//! Debug scripts are the commands of their lines, with the debugger's output for a command and for
//! a whole script.
#![tactic(auto)]

mod answers;
mod breakpoint;
mod breakpoints;
mod command;
mod command_fault;
mod debug_fault;
mod debugger;
mod fields;
mod reading;
mod script;
mod stop;
mod walk;

pub use answers::run_command;
pub use breakpoint::{Breakpoint, Kind, is_in};
pub use command::Command;
pub use command_fault::CommandFault;
pub use debug_fault::DebugFault;
pub use debugger::Debugger;
pub use fields::{read_number, read_path};
pub use reading::read_command;
pub use script::run_script;
pub use stop::Stop;
pub use zk_listing::ScriptFault;
