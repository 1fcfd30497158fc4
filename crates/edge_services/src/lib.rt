//! The services of a server over the system's sockets, and what is reported of them.
#![tactic(auto)]

mod links;
mod node_genesis;
mod node_version;
mod start;
mod told_node;
mod told_signer;

pub use links::{link_to_signer, node_link};
pub use start::announce;
pub use told_node::ToldNode;
pub use told_signer::ToldSigner;
