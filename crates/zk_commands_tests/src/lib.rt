//! Tests of the commands of `zk` and of the line protocol: devices that take or give few bytes or
//! fail, services that fail, and servers with a stopped clock. Also tests of the texts of faults,
//! of command lines, of servers, of a debugger, of a directory's state, of followers of logs, and
//! of JSON lines. No code of its own. What the program prints is tested in `checks/golden`, as
//! `orders.golden` and `lines.golden`, and in `checks/clients.py`.
//!
//! The bytes of followed logs were written by Python's struct and zlib modules, by the records of
//! `zookeeper.jute`; expected JSON is that of Python's json module for the same objects.
//!
//! Large values are dropped by `drop`, and functions with early exits borrow them. The end of each
//! scope that owns such a value would be proved for each part of it.
#![tactic(auto)]

#[cfg(test)]
mod ask_tests;
#[cfg(test)]
mod base_tests;
#[cfg(test)]
mod command_tests;
#[cfg(test)]
mod comparison_tests;
#[cfg(test)]
mod debugger_tests;
#[cfg(test)]
mod device_tests;
#[cfg(test)]
mod directory_command_tests;
#[cfg(test)]
mod explanation_tests;
#[cfg(test)]
mod fault_tests;
#[cfg(test)]
mod field_tests;
#[cfg(test)]
mod file_tests;
#[cfg(test)]
mod files;
#[cfg(test)]
mod follower_tests;
#[cfg(test)]
mod kind_tests;
#[cfg(test)]
mod logs;
#[cfg(test)]
mod memory_tests;
#[cfg(test)]
mod record_tests;
#[cfg(test)]
mod restore_tests;
#[cfg(test)]
mod server_tests;
#[cfg(test)]
mod session_tests;
#[cfg(test)]
mod snapshot_tests;
