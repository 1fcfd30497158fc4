//! Lanes of the signing proxy: at the same time they serve the connections of one door, over one desk that they share, each with
//! a signer of its own.
#![tactic(auto)]

mod run;
mod seats;

pub use door_lanes::LoopEnd;
pub use run::{Proxy, serve_proxy};
