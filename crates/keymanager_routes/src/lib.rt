//! Requests to a key manager before their bodies are looked at: what each wants, or the first check that it fails, and
//! the replies to refusals.
#![tactic(auto)]

mod bearer;
mod check;
mod member;
mod refusal;
mod reply;
mod route;

pub use check::read_action;
pub use member::Member;
pub use refusal::{Refusal, Stop};
pub use reply::Reply;
pub use route::{Action, path_of};
