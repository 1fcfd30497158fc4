//! What is signed for a message: the root of the object and the domain that it is signed under.
//! Nothing here is refused, and nothing takes memory.
#![tactic(auto)]

mod domains;
mod kind;
mod signing;

pub use domains::Domains;
pub use kind::DomainKind;
pub use phase0_types::Fork;
pub use signing::signing_root;
