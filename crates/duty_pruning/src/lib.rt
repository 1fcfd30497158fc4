//! The file that forgets what is old of what a desk keeps, but for the newest of it.
#![tactic(auto)]

mod pruning;

pub use pruning::{is_after, pruning_file};
