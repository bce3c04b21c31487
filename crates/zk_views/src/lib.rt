//! Views: the list of transactions that a server has published, and threads that read its tree
//! without waiting.
//!
//! One [`Publisher`] owns a view. Each [`Reader`] enters it at its own time and reads from a
//! published list, which begins with all that this reader met before. A client carries a [`Pass`]
//! from reader to reader: no view that has published less than the client has seen replies to it.
//!
//! A [`PublishedView`] is the view of one of several servers: it knows if it is late, and catches
//! up with what the server has delivered.
#![tactic(auto)]

mod fault;
mod machines;
mod pass;
mod published_view;
mod publisher;
mod reader;
mod rule;
mod seen;
mod view;

pub use fault::ViewFault;
pub use pass::Pass;
pub use published_view::{PublishedView, Viewed, catch_up_at, close_all, views_of};
pub use publisher::Publisher;
pub use reader::Reader;
pub use seen::Seen;
