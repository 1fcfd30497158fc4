//! One HTTP call over a connection of its own.
#![tactic(auto)]

mod calls;
mod request;

pub use calls::call;
