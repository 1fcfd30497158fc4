//! What validators sign for duties other than blocks and votes: aggregates of each fork, and registrations with builders. Their
//! hash tree roots, their JSON, and copies of those that hold lists.
#![tactic(auto)]

mod aggregate;
mod registration;

pub use aggregate::{AggregateAndProof, ElectraAggregateAndProof, ElectraAttestation};
pub use registration::ValidatorRegistration;
