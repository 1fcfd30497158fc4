//! The duties of a validator client: what is due is voted and proposed, over any desk, signing service and nodes; and the
//! duties of a slot in lanes, beside each other, each lane with a desk, a signing service and nodes of its own.
#![tactic(auto)]

mod block;
mod lane;
mod lanes;
mod shares;
mod slot;
mod vote;

pub use duty_plans::{DutyResult, DutySetup, Ended, Refusal, Task, Unsent, Unsigned};
pub use lane::Lane;
pub use lanes::{refresh_lanes, run_lanes};
pub use slot::run_slot;
