//! What is due in a slot is done in the lanes: its blocks at once, its votes a third into it, their aggregates two thirds into
//! it; each has its line.
#![tactic(auto)]

mod aggregate;
mod closing;
mod prune;
mod recording;
mod votes;
mod work;

pub use closing::close;
pub use work::{do_due, go_to};
