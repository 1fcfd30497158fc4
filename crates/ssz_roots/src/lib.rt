//! Hash tree roots of the consensus layer's serialization, SimpleSerialize (SSZ).
#![tactic(auto)]

mod chunks;
mod hashing;
mod packing;
mod tree;
mod zeros;

pub use chunks::Chunks;
pub use hashing::{mix_length, number_root};
pub use packing::{pack, pack_bits};
pub use tree::{TooLong, bits_root, bytes_root, chunks_root, merkleize, numbers_root};
