//! The lines of a session: the request that a line is, and the line of an answer.
#![tactic(auto)]

mod answer;
mod cause;
mod chain;
mod member;
mod objects;
mod ops;
mod reading;
mod refusal;
mod request;
mod texts;
mod values;
mod whole_block;

pub use answer::Answer;
pub use cause::Cause;
pub use chain::SessionChain;
pub use member::Member;
pub use reading::read_request;
pub use request::{Keys, Op, Request};
