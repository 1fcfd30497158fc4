//! Runs of the signing proxy as lists of events of one client of the world, and all runs of all clients.
#![tactic(auto)]

mod law;
mod proxy;

pub use law::{headline_law, lives_law};
pub use proxy::{proxy_law, proxy_service_law, proxy_silence_law};
