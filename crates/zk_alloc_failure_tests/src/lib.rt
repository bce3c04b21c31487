//! Tests of calls that fail to allocate: `checks/alloc_failure_calls.py` runs each case with each
//! allocation failing in turn. Also tests of chronicles of an ensemble, and of the calls of an
//! ensemble that they use. No code of its own.
//!
//! The tests are apart from the crates that they test for the reason given in `zk_tree_tests`. Both
//! kinds are in one crate, since each crate of tests above the ensemble takes a minute to load its
//! dependencies. Expected values come from the definitions of the protocol and of a chronicle.
//! Large values are owned by one function with one exit, and others borrow them. The end of each
//! scope that owns such a value would be proved for each part of it.
#![tactic(auto)]

#[cfg(test)]
mod cases;
#[cfg(test)]
mod chronicle_tests;
#[cfg(test)]
mod chronicles;
#[cfg(test)]
mod ensemble_tests;
#[cfg(test)]
mod events;
#[cfg(test)]
mod machines;
#[cfg(test)]
mod seen;
#[cfg(test)]
mod servers;
#[cfg(test)]
mod tables;
#[cfg(test)]
mod worlds;
