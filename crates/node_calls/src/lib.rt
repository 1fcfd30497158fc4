//! What beacon nodes are asked, and what they answer.
#![tactic(auto)]

mod answer;
mod ask;
mod copies;
mod fitting;
mod mem_node;
mod node;
mod post;
mod told;

pub use answer::{Answer, AttesterRow, LivenessRow, NodeFault, ProposerRow, ValidatorRow};
pub use ask::Ask;
pub use copies::calls_copy;
pub use fitting::{are_attesters, are_proposers};
pub use mem_node::MemNode;
pub use node::Node;
pub use post::{Post, aggregation_bits};
pub use told::{NodeCall, PostCall};
