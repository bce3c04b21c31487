//! Tests of paths, access control lists, transactions, records, archives, the table, the tree, the
//! machine, watches, views and listings; no code of its own. What a command of `zk` prints is
//! tested in checks/golden: transactions and results in `table.golden`, the bytes of records in
//! `records.golden`, how listings are read and written in `listings.golden`, and more in
//! `machine.golden` and `clients.golden`.
//!
//! A crate with tests is proved twice, and therefore the tests are here and not in the crates that
//! they test. Each public function that no command calls is called once with enough memory, and its
//! result compared. Expected values come from the definition of the formats, from standards, or
//! from a real server.
//!
//! The cost of a test's proof grows steeply with its exits and with what is known of the values
//! that it owns. Therefore tests assert and have no `?`; calls with long contracts are in small
//! helpers without contracts.
#![tactic(auto)]

#[cfg(test)]
mod access_tests;
#[cfg(test)]
mod acl_tests;
#[cfg(test)]
mod archive_tests;
#[cfg(test)]
mod digest_tests;
#[cfg(test)]
mod digit_tests;
#[cfg(test)]
mod jute_tests;
#[cfg(test)]
mod listing_tests;
#[cfg(test)]
mod machine_fault_tests;
#[cfg(test)]
mod machine_tests;
#[cfg(test)]
mod path_tests;
#[cfg(test)]
mod read_tests;
#[cfg(test)]
mod table_tests;
#[cfg(test)]
mod thread_tests;
#[cfg(test)]
mod tree_fault_tests;
#[cfg(test)]
mod tree_tests;
#[cfg(test)]
mod view_tests;
#[cfg(test)]
mod watch_tests;
