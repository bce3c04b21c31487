//! Tests of `zk_sessions`, `zk_session_lines` and `zk_session_commands` over small directories. No
//! code of its own.
#![tactic(auto)]

#[cfg(test)]
mod files;
#[cfg(test)]
mod life_tests;
