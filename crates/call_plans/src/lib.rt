//! Plans: what is to be done of the outside, call by call, each next call following from the replies so far.
#![tactic(auto)]

mod laws;

pub use laws::plan_law;
