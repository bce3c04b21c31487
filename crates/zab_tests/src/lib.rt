//! Tests of `zab_epoch`, `zab_broadcast` and `zab_frames`: quorums, Zab's phases, and frames. No
//! code of its own. Runs of servers are tested in `checks/golden/protocol.golden` and by the scripts of
//! `examples/runs`.
//!
//! Expected values come from the definition of the protocol.
#![tactic(auto)]

#[cfg(test)]
mod asked;
#[cfg(test)]
mod frame_tests;
#[cfg(test)]
mod frames;
#[cfg(test)]
mod sent;
#[cfg(test)]
mod server_tests;
#[cfg(test)]
mod value_tests;
