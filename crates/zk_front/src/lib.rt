//! Services over ensembles, for serving connections.
//!
//! A service over an ensemble in this process is [`Local`], one over servers that run as threads
//! [`Remote`]. A connection's lines are read, a service is asked, and the replies are written, one
//! after the other.
//!
//! In a service over an ensemble in this process, requests are submitted to server 1, which leads,
//! and every message arrives before the next ask. The services over ensembles share the event of
//! an ask, the lookup of its reply, and the fault for an error.
//!
//! This project's own. The asks are defined in `zk_line_protocol`, the events of an ensemble in
//! `zk_model`, and its answers and watches in `zk_ensemble`.
#![tactic(auto)]

mod answering;
mod clock;
mod connection;
mod ensemble_servers;
mod event;
mod fault;
mod happening;
mod local;
mod local_state;
mod remote;
mod reply;
mod reply_kind;
mod request_driver;
mod seat_caller;
mod service;
mod serving;
mod session_effect;
mod session_table;
mod start;
mod starting;
mod waiting;

pub use clock::Clock;
pub use event::{HOME, event_of, next_tag, session_of};
pub use fault::FrontFault;
pub use local::Local;
pub use remote::{Remote, Unstarted};
pub use reply::{caught_by, looked_by, service_fault_of};
pub use reply_kind::{ReplyKind, sought_by};
pub use service::Service;
pub use serving::serve_lines;
pub use zk_line_protocol::{Ask, Events, Reply, ServiceFault, Told};
pub use zk_servers as servers;
