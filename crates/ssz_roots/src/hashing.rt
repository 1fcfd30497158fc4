//! The hash of two roots, and of a root with a length.
ghost use Rattle.std.specs.Prelude.{◌≡◌, ◌++◌};
ghost use Rattle.sha2.specs.Sha256.{sha256};
ghost use Rattle.ssz_roots.specs.Packing.{number_chunk};

use edge_kit::Root;
use sha2::{Digest, Sha256};

/// The root of a tree, from the roots of its two halves.
pub fn hash_pair(left: &Root, right: &Root) -> Root
    ensures { result.0 ≡ sha256 (left.now.0 ++ right.now.0) }
{
    let mut hasher = Sha256::new();
    hasher.update(&left.0);
    hasher.update(&right.0);
    Root(hasher.finalize())
}

/// A list's root: its tree's root, hashed with its length as 32 little-endian bytes
/// (SimpleSerialize, `mix_in_length`).
pub fn mix_length(root: Root, length: u64) -> Root
    ensures { result.0 ≡ sha256 (root.0 ++ number_chunk length) }
{
    hash_pair(&root, &number_root(length))
}

/// The root of a number: its 8 little-endian bytes, and zeros (SimpleSerialize, `pack`).
#[tactic(auto, unfolding(crate::specs::Packing::number_chunk))]
pub fn number_root(number: u64) -> Root
    ensures { result.0 ≡ number_chunk number }
{
    let mut chunk = [0u8; 32];
    chunk[..8].copy_from_slice(&number.to_le_bytes());
    Root(chunk)
}
