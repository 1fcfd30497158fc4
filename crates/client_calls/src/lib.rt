//! What a client calls of its desk and of the service that signs, step by step.
#![tactic(auto)]

mod laws;

pub use laws::seat_law;
