//! Commands on a journal: a file that is merged into it, and what is written of each of its keys.
#![tactic(auto)]

mod keys;
mod merge;
mod showing;
mod unopened;
mod whole;

pub use keys::run_show;
pub use merge::run_merge;
pub use showing::key_line;
pub use unopened::close_unopened;
pub use whole::{WholeFault, read_whole};
