//! The signing proxy over its disks.
#![tactic(auto)]

mod close;
mod run;
mod signers;

pub use run::{ProxyEnd, run_proxy};
