//! Part of `zk_cli`, split off for the prover's time alone.
//!
//! What `zk mend`, `zk run` and a debugger's session (`debug` without a script) do, of a log or a
//! data directory, over any readers and writers. A session's lines have short forms, and it prints
//! some answers in other words than a script.
#![tactic(auto)]

mod acting;
mod answering;
mod debug_directory;
mod diff;
pub mod directory_session;
mod fault_lines;
mod hearing_bytes;
mod hearing_lines;
mod later;
mod laws;
mod line;
mod list;
mod log_folder;
mod mending;
mod prompting;
mod question;
mod reading;
mod repl;
mod repl_command;
mod report;
mod running;
mod session;
mod shorthand;
mod shown;
mod start;
mod talking;
mod texts;

pub use acting::{act, act_in};
pub use answering::answer_line;
pub use debug_directory::debug;
pub use diff::spell_diff;
pub use hearing_bytes::next_byte;
pub use laws::sessions_answer_scripts;
pub use list::spell_list;
pub use log_folder::LogFolder;
pub use mending::mend_log;
pub use prompting::put_prompt;
pub use question::{Question, ask, upto_of};
pub use repl::{run_repl, run_repl_with};
pub use repl_command::ReplCommand;
pub use report::mend_report;
pub use running::run;
pub use session::{Session, TalkFault, Turn};
pub use shorthand::long_form;
pub use shown::{push_breakpoints, push_in_words, push_or_none, push_subtree};
pub use start::{Start, start_of};
