//! A host: one server of Zab and its store. It receives messages and clients' calls, and sends its
//! own messages only once all that they depend on is stored. A leader that is alone in its ensemble
//! acknowledges itself.
//!
//! Junqueira, Reed, Serafini: "Zab: High-performance broadcast for primary-backup systems", DSN
//! 2011, phases 1 and 2. ZooKeeper, class `Leader`, method `lead`.
#![tactic(auto)]

mod acknowledgment;
mod dispatch;
mod fault;
mod host;
mod laws;
mod memory;
mod storage;
mod tags;
mod vote;

pub use acknowledgment::own_messages;
pub use dispatch::is_append_only;
pub use fault::{HostFault, ReceiveFault};
pub use host::Host;
pub use laws::{lone_servers_accept, lone_servers_lead};
pub use memory::MemoryStorage;
pub use storage::{DeviceStorage, Storage, StoreFault};
pub use tags::{TAG_BOOTS, TagIssuer};
pub use vote::Vote;
