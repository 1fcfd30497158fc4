//! A value that several threads share, over a table of atomic words (`atomic_table`). Each call of it is one turn, and
//! all turns stand in one history, in which each reply is the one that the value gives at its place.
#![tactic(auto)]

mod owner;
mod rule;
mod seq;
mod shared;
mod types;
mod wide;

pub use owner::Owner;
pub use seq::Seq;
pub use shared::{Pass, Shared};
pub use types::{Entry, Held, Role, View};
pub use wide::Single;
