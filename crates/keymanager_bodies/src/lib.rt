//! The bodies of the Keymanager API (ethereum/keymanager-APIs, local key manager): what a request asks, and the replies.
#![tactic(auto)]

mod asked;
mod bodies;
mod members;

pub use asked::{Asked, asked_in, read_asked};
pub use bodies::{deletion_reply, import_reply, listed_reply};
