//! Lanes that share one door. Each takes a connection, serves it, hands it back and takes the next, in a thread of its own
//! where the system makes one.
#![tactic(auto)]

mod counted;
mod finish;
mod lane;
mod lanes;
mod run;
mod seat;
mod seats;
mod serves;
mod takes;

pub use counted::Taken;
pub use lanes::LoopEnd;
pub use run::serve_door;
pub use serves::Serves;
