//! Run scripts, read and written: the first line, which has the number of servers and their
//! weights; the commands of the other lines; and an ensemble's answers to a command, and to a whole
//! script of elections, crashes, messages, calls and reads.
//!
//! A function named `push..` appends whole lines with their newlines, or nothing after an error.
#![tactic(auto)]

mod command;
mod command_reading;
mod event;
mod fault;
mod fields;
mod first_line_reading;
mod laws;
mod playing;
mod reports;
mod request;
mod script;
mod server_weights;
mod told;

pub use command::{Command, Report};
pub use command_reading::read_command;
pub use event::{push_event, push_servers};
pub use fault::LineFault;
pub use first_line_reading::read_servers;
pub use playing::run_command;
pub use reports::{push_answers, push_counted_tree, push_events, push_listing, push_syncs};
pub use script::run_script;
pub use told::push_told;
pub use zk_ensemble::Ensemble;
pub use zk_listing::ScriptFault;
