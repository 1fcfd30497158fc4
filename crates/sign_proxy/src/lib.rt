//! A request for a signature (Web3Signer API, `eth2/sign`) answered over any desk and any signer: nothing is signed but under a
//! grant of the desk, which keeps each block and vote before it is signed.
#![tactic(auto)]

mod replies;
mod signing;

pub use replies::signature_reply;
pub use signing::{SignEnd, sign_reply};
