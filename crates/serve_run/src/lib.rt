//! The validator client over its disks: it learns its chain from the beacon nodes, opens its journal, does the duties of
//! its keys in lanes, and answers the Keymanager API beside them, both over one desk.
#![tactic(auto)]

mod beside;
mod close;
mod held;
mod lanes;
mod run;
mod seats;
mod shared;
mod start;
mod unstarted;
mod views;

pub use lanes::{LaneEnd, make_lanes};
pub use run::{ServeEnd, run_serve};
pub use shared::serve_desk;
pub use start::{Start, Unstarted, ask_start};
pub use unstarted::close_unstarted;
