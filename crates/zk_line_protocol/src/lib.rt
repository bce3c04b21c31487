//! A client's connection to a server: reads lines from bytes, parses them, keeps the connection's
//! state, and writes replies and events. A line is a request to the service, or has an immediate
//! reply.
//!
//! ZooKeeper Programmer's Guide, "ZNodes", "Data Access", "ZooKeeper Sessions", "ZooKeeper Watches"
//! and "ZooKeeper access control using ACLs"; the lines are this project's own.
#![tactic(auto)]

mod answer_lines;
mod ask;
mod connection_state;
mod expected_reply;
mod laws;
mod lists;
mod parsed_line;
mod pending;
mod reading;
mod session;
mod splitting;
mod telling;
mod told;

pub use answer_lines::{push_caught, push_event, push_looked, push_wrote};
pub use ask::{Action, Ask, Immediate};
pub use connection_state::ConnectionState;
pub use expected_reply::ExpectedReply;
pub use laws::{lines_say_what_they_spell, parts_say_what_they_spell};
pub use parsed_line::{ParsedLine, ParsedMultiLine, meaning_in_multi, meaning_of, text_of};
pub use pending::Pending;
pub use splitting::split_line;
pub use telling::push_saying;
pub use told::{Events, Reply, ServiceFault, Told};
