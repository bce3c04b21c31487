//! The state that a snapshot holds: a draft while the snapshot's window is replayed, then a table
//! that continues from it.
//!
//! The window is the transactions that were applied while the snapshot was written: its nodes are
//! of different moments. Each transaction overwrites what it writes; the old value has no effect.
//!
//! Also the digests that 3.6 to 3.8 servers write with their records, compared with those of the
//! trees that the records lead to: a server that lost transactions has digests of another tree.
#![tactic(auto)]

mod count;
mod digests;
mod done;
mod draft;
mod draft_node;
mod draft_nodes;
mod exact;
mod fault;
mod owners;
mod paths;
mod rules;
mod stage;
mod sums;
mod table;
mod touched;
mod window;

pub use count::DigestCount;
pub use digests::Digests;
pub use done::replay_late;
pub use draft::{Draft, shown_owner};
pub use draft_node::DraftNode;
pub use draft_nodes::DraftNodes;
pub use exact::{Exact, exact_from};
pub use fault::BaseFault;
pub use stage::{Stage, finish, take};
pub use table::settle;
pub use window::replay;
