//! A rehearsal: votes, blocks, handovers, stops and prunes of several clients, all drawn from one number, over desks on
//! disks in memory.
#![tactic(auto)]

mod acts;
mod cast;
mod client;
mod counts;
mod stage;
mod told;

pub use acts::Act;
pub use counts::Counts;
pub use stage::rehearse;
