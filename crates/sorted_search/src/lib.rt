//! Where the entries of a slot or target are in a list in order, with each look counted, the bounds of the sources
//! of votes, and room for more elements of a list.
#![tactic(auto)]

mod looking;
mod numbered;
mod raising;
mod sources;
mod sparing;
mod steps;

pub use looking::{look, range_of};
pub use numbered::Numbered;
pub use sources::SourceBounds;
pub use sparing::reserve_sparingly;
pub use steps::Steps;
