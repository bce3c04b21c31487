//! Servers as threads: each takes its turns, and calls an ensemble that all share under one lock.
//! It sends the numbers of its calls' messages to the inboxes of their addressees.
//!
//! A thread calls by its [`Seat`], which keeps its calls, and gets a [`Receipt`] for each event
//! that happened. The ensemble's [`Chronicle`] records each event with its answer, in order. At the
//! end [`Shared::close`] compares the calls and the receipts with the records, and returns it.
//!
//! What each server has delivered is published in a view of its own, which a [`Reader`] reads
//! without the lock.
//!
//! This project's own; the events are those of `zk_ensemble`.
#![tactic(auto)]

mod calls;
mod chronicle;
mod closing;
mod counted_chronicle;
mod fault;
mod fitting;
mod inbox;
mod ledger;
mod looked;
mod pausing;
mod record;
mod running;
mod seat;
mod serving;
mod shared;
mod shared_state;
mod waker;

pub use calls::{Made, calls_stand};
pub use chronicle::Chronicle;
pub use closing::joined;
pub use fault::{CallFault, CloseFault};
pub use fitting::first_unfit;
pub use inbox::{Inbox, Post, Sender, Senders, inboxes};
pub use ledger::CallLedger;
pub use looked::Looked;
pub use record::{Receipt, Record};
pub use running::{Run, Turns, run_servers};
pub use seat::Seat;
pub use serving::{Gate, Worked, Worker};
pub use shared::{Shared, Started, Unclosed};
pub use shared_state::SharedState;
pub use zk_ensemble::{Ensemble, Mark, Outcome};
pub use zk_model::Event;
pub use zk_views::{Pass, PublishedView, Reader, Seen, ViewFault};
