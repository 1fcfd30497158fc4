//! Copies of blocks and votes, for those that keep what they were asked.
#![tactic(auto)]

mod copies;

pub use copies::{attestation_copy, block_copy, bounded_copy};
