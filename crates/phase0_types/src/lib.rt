//! The containers of phase 0 of the consensus layer: their hash tree roots, and their JSON.
//! Those that hold lists, and blocks, stand in the crate `phase0_blocks`.
#![tactic(auto)]

mod attestation;
mod bits;
mod fault;
mod fork;
mod header;
mod items;
mod leaves;
mod list;
mod member;
mod shaped;

pub use attestation::{AttestationData, Checkpoint};
pub use fault::{ReadFault, missing};
pub use fork::{Fork, ForkData, SigningData};
pub use header::{BeaconBlockHeader, Eth1Data};
pub use list::BoundedList;
pub use member::Member;
pub use shaped::{Container, ReadResult, Shaped, container_root, read_member, with_member};
