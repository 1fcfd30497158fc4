//! The duty loop of a validator client: slot after slot, what is due is learnt from the nodes, and done in lanes.
#![tactic(auto)]

mod ends;
mod keys;
mod laws;
mod live;
mod notes;
mod run;
mod turn;
mod watch;

pub use duty_turns::{DutyEnd, Held};
pub use ends::end_law;
pub use laws::{due_law, turns_law};
pub use run::{first_held, run_duties};
pub use turn::take_turn;
