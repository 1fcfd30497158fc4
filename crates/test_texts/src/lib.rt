//! Texts of tests: marks in the place of long digits, a desk that notes what it did, its events in words, and what a desk
//! says of its keys.
#![tactic(auto)]

mod events;
mod kept;
mod marks;
mod noting;

pub use events::words_of;
pub use kept::{genesis_of, kept_words};
pub use marks::{filled, is_text};
pub use noting::{Asked, Notes, Noting};
