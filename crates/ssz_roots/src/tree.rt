//! The root of a tree over chunks.
ghost use Rattle.std.specs.Prelude.{◌≡◌, ◌+◌, ◌-◌, ◌<◌, ◌≤◌, ◌^◌, ◌↔◌, length, take, drop, IfOk, IfErr, IsErr};
ghost use Rattle.std.specs.Int.{div_ceil};
ghost use Rattle.ssz_roots.specs.Packing.{bit_bytes, number_bytes, packed};
ghost use Rattle.ssz_roots.specs.Trees.{depth_of, merkle_root, root_chunks};
ghost use Rattle.ssz_roots.specs.Zeros.{AreZeroRoots, padded_root};

use crate::chunks::Chunks;
use crate::hashing::hash_pair;
use crate::zeros::{depths_of_padding, zero_roots};
use edge_kit::Root;
use thiserror::Error;

/// A list that is longer than its limit.
#[derive(Clone, Copy, PartialEq, Eq, Debug, Error)]
#[error("length {len} above the limit {limit}")]
pub struct TooLong {
    /// How many elements there are.
    pub len: u64,
    /// How many there may be.
    pub limit: u64,
}

/// The root of chunks under a limit, which counts chunks (SimpleSerialize, `merkleize`).
/// `TooLong` comes exactly where there are more. Takes no memory.
pub fn merkleize(chunks: &[Root], limit: u64) -> Result<Root, TooLong>
    ensures ok { IfOk result (λ root. root.0 ≡ merkle_root limit (root_chunks chunks.now)) }
    ensures err { IfErr result (λ e. e ≡ record { len = length chunks.now; limit = limit }) }
    ensures too_long { IsErr result ↔ (limit < length chunks.now) }
{
    let len = chunks.len() as u64;
    if len > limit {
        return Err(TooLong { len, limit });
    }
    Ok(chunks_root(&chunks, limit))
}

/// The root of the tree of bits under a limit, which counts bits; no length is mixed in
/// (SimpleSerialize, `merkleize(pack_bits(value), limit=chunk_count(type))`).
/// `TooLong` comes exactly where there are more. Takes no memory.
pub fn bits_root(bits: &[bool], limit: u64) -> Result<Root, TooLong>
    ensures ok { IfOk result
        (λ root. root.0 ≡ merkle_root (div_ceil limit 256) (packed (bit_bytes bits.now))) }
    ensures err { IfErr result (λ e. e ≡ record { len = length bits.now; limit = limit }) }
    ensures too_long { IsErr result ↔ (limit < length bits.now) }
{
    let len = bits.len() as u64;
    if len > limit {
        return Err(TooLong { len, limit });
    }
    Ok(chunks_root(&bits, limit.div_ceil(256)))
}

/// The root of a vector of bytes (SimpleSerialize, `merkleize(pack(value))`). Takes no memory.
pub fn bytes_root(bytes: &[u8]) -> Root
    ensures { result.0 ≡ merkle_root (div_ceil (length bytes.now) 32) (packed bytes.now) }
{
    chunks_root(&bytes, bytes.len().div_ceil(32) as u64)
}

/// The root of the tree of at most `limit` numbers of 64 bits; no length is mixed in
/// (SimpleSerialize, `merkleize(pack(value), limit=chunk_count(type))`). Takes no memory.
pub fn numbers_root(numbers: &[u64], limit: u64) -> Root
    requires { length numbers.now ≤ limit }
    ensures { result.0 ≡ merkle_root (div_ceil limit 4) (packed (number_bytes numbers.now)) }
{
    chunks_root(&numbers, limit.div_ceil(4))
}

/// The root of at most `limit` chunks. The padding is never built: the root of each
/// depth of zero chunks that it needs is computed once.
pub fn chunks_root<C: Chunks>(chunks: &C, limit: u64) -> Root
    requires { length (C.chunks chunks.now) ≤ limit }
    ensures { result.0 ≡ merkle_root limit (C.chunks chunks.now) }
{
    let depth = depth_for(limit);
    let depths = depths_of_padding(chunks.count(), depth);
    let zeros = zero_roots(depths);
    root_at(chunks, 0, depth, &zeros[..depths])
}

/// The depth of a tree whose width is the next power of two of the limit, at least one.
fn depth_for(limit: u64) -> u32
    ensures depth { result ≡ depth_of limit }
    ensures most { result ≤ 64 }
    ensures fits { limit ≤ 2 ^ result }
{
    if limit <= 1 {
        return 0;
    }
    (limit - 1).ilog2() + 1
}

/// The width of half a tree.
fn half_width(depth: u32) -> usize
    requires some { 0 < depth }
    requires deep { depth ≤ 64 }
    ensures { result ≡ 2 ^ (depth - 1) }
{
    1 << (depth - 1)
}

/// The root of the subtree of this depth that begins at chunk `start`.
fn root_at<C: Chunks>(chunks: &C, start: usize, depth: u32, zeros: &[Root]) -> Root
    requires deep { depth ≤ 64 }
    requires zeros { AreZeroRoots zeros.now (length zeros.now) }
    requires enough { 2 ^ depth < (length (C.chunks chunks.now) - start) + 2 ^ length zeros.now }
    ensures { result.0 ≡ padded_root depth (take (2 ^ depth) (drop start (C.chunks chunks.now))) }
{
    let count = chunks.count();
    if start >= count {
        return zeros[depth as usize];
    }
    if depth == 0 {
        return chunks.chunk(start);
    }
    let half = half_width(depth);
    let left = root_at(chunks, start, depth - 1, zeros);
    if count - start <= half {
        return hash_pair(&left, &zeros[depth as usize - 1]);
    }
    let right = root_at(chunks, start + half, depth - 1, zeros);
    hash_pair(&left, &right)
}
