//! CRC-32, four bytes at a time (RFC 1952, section 8).
#![tactic(auto)]

mod crc;
mod far;
mod near;
#[cfg(test)]
mod tests;

pub use crc::{after_bytes, complement};
