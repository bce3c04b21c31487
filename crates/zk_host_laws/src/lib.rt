//! What clients of hosts see: laws alone.
#![tactic(auto)]

mod laws;

pub use laws::{
    news_follows_the_trace, reads_never_go_back, synced_reads_are_current,
    trees_show_what_is_delivered,
};
