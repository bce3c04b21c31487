//! A client's connection to a server, from its first byte to its last: the bytes that wait to be
//! read as frames, those that wait to be sent, and its session. Also the sessions of an ensemble's
//! clients: the connection that has each, its deadline, and its password.
//!
//! ZooKeeper Programmer's Guide, "ZooKeeper Sessions"; Administrator's Guide, "ZooKeeper Commands".
#![tactic(auto)]

mod byte_queue;
mod client_sessions;
mod connection;
mod input;
pub mod laws;
mod listing;
mod output;
mod password;
mod session;
mod status;
mod word;

pub use byte_queue::ByteQueue;
pub use client_sessions::ClientSessions;
pub use connection::{Connection, Phase};
pub use input::Taken;
pub use listing::{OwnedNodes, connections_text, sessions_text};
pub use password::{PASSWORD_BYTES, is_password, password_of};
pub use session::Session;
pub use status::{Mode, Status, text_of};
pub use word::Word;
