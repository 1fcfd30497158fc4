//! What a turn of the duty loop asks of the nodes, outside its duties: the fork, the indices of the active keys, and
//! who proposes and votes.
#![tactic(auto)]

mod ask;
mod duties;
mod indices;
mod take;

pub use ask::{Asked, Stop, ask_or_tell, write_text};
pub use duties::{ask_duties, renews};
pub use indices::indices_of;
