//! The address of a service that is called over HTTP.
#![tactic(auto)]

mod ends;
mod service;

pub use service::ServiceUrl;
