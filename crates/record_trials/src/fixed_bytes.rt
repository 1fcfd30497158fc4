//! Roots, keys and other bytes as texts: `0x` and hex digits. A single byte stands for a root or a key that it fills.
use edge_kit::{PubKey, Root, push_hex, read_hex};
use std::alloc::{AllocError, Global};

/// The `N` bytes that a text of all of them or of one of them writes.
fn filled<const N: usize>(text: &str) -> Option<[u8; N]> {
    match read_hex::<1>(text) {
        Some(one) => Some([one[0]; N]),
        None => read_hex::<N>(text),
    }
}

/// The root that a text writes.
pub fn root_of(text: &str) -> Option<Root> {
    Some(Root(filled::<32>(text)?))
}

/// The key whose first two bytes are this number; the others are 0.
pub fn key_at(number: u16) -> PubKey {
    let mut bytes = [0; 48];
    let [high, low] = number.to_be_bytes();
    bytes[0] = high;
    bytes[1] = low;
    PubKey(bytes)
}

/// The key that a text writes; two bytes stand for a key that begins with them, and zeros.
pub fn key_of(text: &str) -> Option<PubKey> {
    match read_hex::<2>(text) {
        Some(number) => Some(key_at(u16::from_be_bytes(number))),
        None => Some(PubKey(filled::<48>(text)?)),
    }
}

/// Puts a root's or a key's bytes after a text, as one byte where all are the same.
pub fn put_bytes(alloc: Global, out: &mut String, bytes: &[u8]) -> Result<(), AllocError> {
    match bytes {
        [first, rest @ ..] if rest.iter().all(|byte| *byte == *first) => {
            push_hex(alloc, out, &[*first])
        }
        _ => push_hex(alloc, out, bytes),
    }
}

/// The hex digits of a piece, and after a `*` how often their bytes come.
fn piece_of(piece: &str) -> Option<(&str, u16)> {
    let (digits, times) = piece.split_once('*').unwrap_or((piece, "1"));
    Some((digits.strip_prefix("0x")?, times.parse::<u16>().ok()?))
}

/// Puts more bytes after others, that many times.
fn push_times(bytes: &mut Vec<u8>, more: &[u8], times: u16) -> Result<(), AllocError> {
    for _ in 0..times {
        bytes.extend_from_slice(more)?;
    }
    Ok(())
}

/// Puts the bytes of a piece after others.
fn push_piece(alloc: Global, bytes: &mut Vec<u8>, piece: &str) -> Option<()> {
    let (digits, times) = piece_of(piece)?;
    let more = hex::decode(alloc, digits).ok()?;
    push_times(bytes, more.as_slice(), times).ok()
}

/// The bytes that pieces write, with spaces between them.
pub fn pieces(alloc: Global, text: &str) -> Option<Vec<u8>> {
    let mut bytes = Vec::new(alloc);
    for piece in text.split_whitespace() {
        push_piece(alloc, &mut bytes, piece)?;
    }
    Some(bytes)
}
