//! Several beacon nodes, asked in order.
#![tactic(auto)]

mod laws;
mod no_node;
mod nodes;
mod one_node;

pub use laws::first_answer_law;
pub use no_node::{Cause, NoAnswer};
pub use nodes::Nodes;
