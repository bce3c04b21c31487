//! Tests of `zab_world` and `zk_ensemble`: worlds of servers with echoed calls, and ensembles that
//! no run script has. No code of its own. Others are `checks/golden/ensembles.golden` and the
//! scripts of `examples/runs`.
//!
//! Expected values come from the definitions of the protocol, of the table and of watches.
#![tactic(auto)]

#[cfg(test)]
mod agreement_tests;
#[cfg(test)]
mod copy_tests;
#[cfg(test)]
mod ensembles;
#[cfg(test)]
mod events;
#[cfg(test)]
mod fail_tests;
#[cfg(test)]
mod happenings;
#[cfg(test)]
mod outcome_tests;
#[cfg(test)]
mod world_tests;
