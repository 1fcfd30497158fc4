//! Bytes as a list of chunks, and bits as bytes.
ghost use Rattle.std.specs.Prelude.{◌≡◌, IfOk};
ghost use Rattle.ssz_roots.specs.Packing.{bit_bytes, packed};
ghost use Rattle.ssz_roots.specs.Trees.{root_chunks};

use crate::chunks::{Chunks, byte_at};
use edge_kit::Root;
use std::alloc::{AllocError, Global};

/// The bytes as chunks of 32, the last filled with zeros (SimpleSerialize, `pack`).
pub fn pack(alloc: Global, bytes: &[u8]) -> Result<Vec<Root>, AllocError>
    ensures { IfOk result (λ chunks. root_chunks chunks.items ≡ packed bytes.now) }
{
    let count = bytes.count();
    let mut chunks = Vec::with_capacity(alloc, count)?;
    'chunks: for index in 0..count {
        chunks.push(bytes.chunk(index))?;
    }
    Ok(chunks)
}

/// The bits as bytes, eight in each, the lowest first (SimpleSerialize, `pack_bits`).
pub fn pack_bits(alloc: Global, bits: &[bool]) -> Result<Vec<u8>, AllocError>
    ensures { IfOk result (λ bytes. bytes.items ≡ bit_bytes bits.now) }
{
    let count = bits.len().div_ceil(8);
    let mut bytes = Vec::with_capacity(alloc, count)?;
    'bytes: for index in 0..count {
        bytes.push(byte_at(bits, 8 * index))?;
    }
    Ok(bytes)
}
