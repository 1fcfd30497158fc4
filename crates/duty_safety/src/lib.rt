//! What holds of whole runs of duties: nothing slashable is posted, and over a clock on time nothing is
//! dropped; and what a turn merges.
#![tactic(auto)]

mod laws;

pub use laws::{desk_law, merge_law, on_time_law, safe_law};
