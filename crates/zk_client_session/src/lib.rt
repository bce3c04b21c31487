//! A client's connection that has a session, in ZooKeeper's protocol: what each frame asks of the
//! service or is replied at once, and the bytes of replies and watch events.
//!
//! ZooKeeper Programmer's Guide, "ZooKeeper Sessions" and "ZooKeeper Watches"; `zookeeper.jute`,
//! module `org.apache.zookeeper.proto`.
#![tactic(auto)]

mod ask;
mod auth;
mod connection_watches;
mod expected_reply;
mod identities;
pub mod laws;
mod link;
mod multi;
mod parts;
mod path_set;
mod paths;
mod read_kind;
mod reply;
mod reply_bodies;
mod replying;
mod saved_watch;
mod tree_reads;
mod watch_events;

pub use ask::{Action, Ask, Immediate, WatcherType};
pub use connection_watches::ConnectionWatches;
pub use expected_reply::{ExpectedReply, PartKind, PartKinds, ReplyKind};
pub use identities::Identities;
pub use link::Link;
pub use path_set::PathSet;
pub use reply::{Reply, WatchEvent, WatchEvents};
pub use saved_watch::{SavedWatch, SavedWatchKind, SavedWatches};
pub use tree_reads::{descendant_count, ephemerals};
