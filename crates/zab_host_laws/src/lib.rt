//! Hosts of one ensemble, and worlds that restart on what their servers have stored: laws alone.
//! Hosts take the steps of a world, whose servers agree, and agree across recoveries too.
#![tactic(auto)]

mod agreement_laws;
mod host_laws;
mod recovery_laws;

pub use agreement_laws::{hosts_agree, recoveries_agree};
pub use host_laws::{
    accepted_inputs_are_steps, crashes_leave_input_prefixes, host_syncs_catch_up,
    hosts_never_go_back, inputs_are_steps, releases_are_steps, tags_are_issued_once,
    taken_syncs_change_nothing,
};
pub use recovery_laws::{
    adoptions_are_atomic, crashes_leave_a_prefix, forgetting_is_faithful, hosts_are_a_run,
    recovery_continues_the_run,
};
