//! Tests of `zk_servers` and of `zk_front`. Servers run as threads: two that meet at a gate,
//! closing with wrong receipts, inboxes, readers beside callers, and sessions of a service, with
//! servers and client in one process. No code of its own.
//!
//! Expected values come from the definitions of the protocol, of a chronicle, of the table, of
//! watches and of sessions.
#![tactic(auto)]

#[cfg(test)]
mod asks;
#[cfg(test)]
mod call_tests;
#[cfg(test)]
mod closing_tests;
#[cfg(test)]
mod events;
#[cfg(test)]
mod gate;
#[cfg(test)]
mod inbox_tests;
#[cfg(test)]
mod late_server_tests;
#[cfg(test)]
mod overtaking_tests;
#[cfg(test)]
mod route_tests;
#[cfg(test)]
mod running;
#[cfg(test)]
mod session_tests;
