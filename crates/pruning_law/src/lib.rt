//! To forget what is old of a key refuses no message of an epoch of which all is kept.
#![tactic(auto)]

mod laws;

pub use laws::{book_law, file_law};
