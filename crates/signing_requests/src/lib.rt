//! Requests for a signature as validator clients send them to a signing service (Web3Signer API, `eth2/sign`): what each asks
//! for, or the first check that it fails, and the replies to refusals.
#![tactic(auto)]

mod aggregates;
mod chain;
mod kind;
mod member;
mod objects;
mod reading;
mod refusal;
mod request;
mod texts;

pub use member::SigningMember;
pub use reading::read_signing_request;
pub use refusal::{SigningRefusal, SigningStop};
pub use request::{SigningObject, SigningRequest, Wanted};
