//! What a validator signs, what a file or a record keeps of it, and which two messages of one key the
//! chain slashes.
#![tactic(auto)]

mod book;
mod entry;
mod granted;
mod lists;
mod message;
mod order;

pub use book::{Book, File};
pub use entry::{BlockEntry, Entry, VoteEntry, conflicts};
pub use granted::Granted;
pub use lists::{conflict_pairs, first_conflict};
pub use message::{Message, slashable};
pub use order::{compare_blocks, compare_votes};
