//! What the arguments of a case are read as.
use edge_kit::{Root, read_hex, read_quoted};
use interchange_io::read;
use record_replay::KeyState;
use slash_defs::File;
use std::alloc::{AllocError, Global};

/// Two numbers with a space between them.
pub(crate) fn numbers(text: &str) -> Option<(u64, u64)> {
    let (first, second) = text.split_once(' ')?;
    Some((read_quoted(first)?, read_quoted(second)?))
}

/// A root in hex.
pub(crate) fn root(text: &str) -> Option<Root> {
    Some(Root(read_hex::<32>(text)?))
}

/// Bytes: of their hex digits after `0x`, or else those of the text.
pub(crate) fn bytes(alloc: Global, text: &str) -> Option<Vec<u8>> {
    match text.strip_prefix("0x") {
        Some(digits) => hex::decode(alloc, digits).ok(),
        None => Vec::from_slice(alloc, text.as_bytes()).ok(),
    }
}

/// The state of a key.
pub(crate) fn state(word: &str) -> Option<KeyState> {
    match word {
        "known" => Some(KeyState::Known),
        "active" => Some(KeyState::Active),
        "closing" => Some(KeyState::Closing),
        "closed" => Some(KeyState::Closed),
        _ => None,
    }
}

/// An interchange file.
pub(crate) fn file(alloc: Global, text: &str) -> Option<File> {
    read(alloc, text.as_bytes()).ok()?.ok()
}

/// Appends a text that ends in a newline. Where it does not, that is said.
pub(crate) fn push_ended(out: &mut String, text: &str) -> Result<(), AllocError> {
    out.push_str(text)?;
    if text.ends_with('\n') {
        return Ok(());
    }
    out.push_str("\nno newline at the end\n")
}

/// Appends the hex digits of bytes.
pub(crate) fn push_digits(out: &mut String, bytes: &[u8]) -> Result<(), AllocError> {
    for byte in bytes {
        write!(out, "{byte:02x}")?;
    }
    Ok(())
}
