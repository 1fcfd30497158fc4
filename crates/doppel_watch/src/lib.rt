//! The watch of a validator key before it may sign, so that a machine elsewhere that still signs with it is seen
//! first. Clients call it doppelganger protection.
#![tactic(auto)]

mod kept;
mod laws;
mod liveness;
mod watch;

pub use kept::{KeptAnswer, KeptAnswers};
pub use laws::{kept_law, watch_law};
pub use watch::{MOMENT_LIMIT, Watch, WatchState};
