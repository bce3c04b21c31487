//! Tests of `zk_store` and `zk_data_files`: files over crashes. No code of its own.
//!
//! Expected bytes come from the definition of the formats.
#![tactic(auto)]

#[cfg(test)]
mod book_tests;
#[cfg(test)]
mod disk_tests;
#[cfg(test)]
mod epoch_tests;
#[cfg(test)]
mod file_store_tests;
#[cfg(test)]
mod identity_tests;
#[cfg(test)]
mod log_store_tests;
#[cfg(test)]
mod old_format_tests;
#[cfg(test)]
mod store_tests;
#[cfg(test)]
mod tag_tests;
