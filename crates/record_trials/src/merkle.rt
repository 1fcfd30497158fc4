//! Trees of hashes.
//!
//! | Subject | What comes of it |
//! |---|---|
//! | `merkleize LIMIT CHUNKS` | the root of chunks under a limit, or why there is none |
//! | `bits-root LIMIT BITS` | the root of bits under a limit, or why there is none |
//! | `mix LENGTH ROOT` | the root with the length |
//! | `pack BYTES` | the chunks of bytes, which are in pieces of hex |
use crate::fixed_bytes::{pieces, root_of};
use edge_kit::{Root, hex_text, push_hex};
use ssz_roots::{TooLong, bits_root, merkleize, mix_length, pack};
use std::alloc::{AllocError, Global};

/// Puts the roots that words write after others.
fn push_roots(roots: &mut Vec<Root>, text: &str) -> Option<()> {
    for word in text.split_whitespace() {
        roots.push(root_of(word)?).ok()?;
    }
    Some(())
}

/// The roots that words write.
fn roots_of(alloc: Global, text: &str) -> Option<Vec<Root>> {
    let mut roots = Vec::new(alloc);
    push_roots(&mut roots, text)?;
    Some(roots)
}

/// The bits that the digits 0 and 1 write.
fn bits_of(alloc: Global, text: &str) -> Option<Vec<bool>> {
    text.bytes().map(|digit| digit == b'1').collect(alloc).ok()
}

/// A root, or why there is none.
fn found(alloc: Global, root: &Result<Root, TooLong>) -> Option<String> {
    match root {
        Ok(root) => hex_text(alloc, &root.0).ok(),
        Err(fault) => fault.to_string(alloc).ok(),
    }
}

/// Puts chunks after a text, a line for each.
fn put_chunks(alloc: Global, out: &mut String, chunks: &[Root]) -> Result<(), AllocError> {
    for chunk in chunks {
        push_hex(alloc, out, &chunk.0)?;
        out.push('\n')?;
    }
    Ok(())
}

/// The chunks of bytes, a line for each.
fn packed(alloc: Global, bytes: &[u8]) -> Option<String> {
    let chunks = pack(alloc, bytes).ok()?;
    let mut out = String::new(alloc);
    put_chunks(alloc, &mut out, chunks.as_slice()).ok()?;
    Some(out)
}

/// What comes of a line that begins with a number.
fn numbered(alloc: Global, subject: &str, number: u64, rest: &str) -> Option<String> {
    match subject {
        "merkleize" => found(alloc, &merkleize(roots_of(alloc, rest)?.as_slice(), number)),
        "bits-root" => found(alloc, &bits_root(bits_of(alloc, rest)?.as_slice(), number)),
        "mix" => found(alloc, &Ok(mix_length(root_of(rest)?, number))),
        _ => None,
    }
}

/// What comes of a line.
pub fn outcome(alloc: Global, subject: &str, text: &str) -> Option<String> {
    if subject == "pack" {
        return packed(alloc, pieces(alloc, text)?.as_slice());
    }
    let (number, rest) = text.split_once(' ').unwrap_or((text, ""));
    numbered(alloc, subject, number.parse::<u64>().ok()?, rest)
}
