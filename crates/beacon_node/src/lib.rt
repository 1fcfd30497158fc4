//! Beacon nodes that are called over HTTP.
#![tactic(auto)]

mod beacon_node;
mod keeping;
mod readings;
mod requests;
mod rows;

pub use beacon_node::BeaconNode;
