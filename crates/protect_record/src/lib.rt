//! What one key's past lets pass: the floors that imported books set and the entries that still count.
#![tactic(auto)]

mod bounds;
mod clash;
mod export;
mod floors;
mod kept;
mod laws;
mod living;
mod merging;
mod pruning;
mod record;
mod sorted;
mod verdict;
mod walk;

pub use bounds::{floors_of_book, join_floors};
pub use floors::Floors;
pub use kept::Kept;
pub use laws::{covers_own, join_laws, passes_less};
pub use record::Record;
pub use sorted_search::Steps;
pub use verdict::Verdict;
