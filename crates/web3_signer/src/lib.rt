//! Web3Signer, called over a link, as the service that signs.
#![tactic(auto)]

mod blanks;
mod replies;
mod requests;
mod service;

pub use service::Web3Signer;
