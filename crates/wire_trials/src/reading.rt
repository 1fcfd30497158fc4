//! What the words of a line stand for.
use altair_blocks::AnyBlock;
use json_members::json_of;
use phase0_types::Shaped;
use service_url::ServiceUrl;
use std::alloc::{AllocError, AllocFailed, Global};

/// Why nothing comes of a line.
#[derive(Clone, Copy, PartialEq, Eq, Debug)]
pub enum Stop {
    /// Its arguments cannot be read.
    Unread,
    /// Memory ran out.
    OutOfMemory,
}

impl From<AllocError> for Stop {
    fn from(_error: AllocError) -> Stop {
        Stop::OutOfMemory
    }
}

impl<T: Drop> From<AllocFailed<T>> for Stop {
    fn from(_error: AllocFailed<T>) -> Stop {
        Stop::OutOfMemory
    }
}

/// The first part of a text, and what follows it after the first of these marks.
pub fn first_part<'a>(text: &'a str, mark: &str) -> (&'a str, &'a str) {
    match text.split_once(mark) {
        Some(parts) => parts,
        None => (text, ""),
    }
}

/// The numbers among the words of a text.
pub fn numbers_in(alloc: Global, text: &str) -> Result<Vec<u64>, Stop> {
    let mut numbers = Vec::new(alloc);
    for word in text.split(' ') {
        if let Ok(number) = word.parse::<u64>() {
            numbers.push(number)?;
        }
    }
    Ok(numbers)
}

/// The byte that a number is.
pub fn byte_of(number: u64) -> u8 {
    (number % 256) as u8
}

/// The text in which `\r` and `\n` stand for the ends of lines.
pub fn text_of(alloc: Global, words: &str) -> Result<String, Stop> {
    let text = words.replace(alloc, "\\r", "\r")?;
    Ok(text.as_str().replace(alloc, "\\n", "\n")?)
}

/// Bytes as a text in which `\r` and `\n` stand for the ends of lines, each line of it in a line.
pub fn shown(alloc: Global, bytes: &[u8]) -> Result<String, Stop> {
    let text = String::from_utf8_lossy(alloc, bytes)?;
    let text = text.as_str().replace(alloc, "\r", "\\r")?;
    Ok(text.as_str().replace(alloc, "\n", "\\n\n")?)
}

/// A word, and bytes as a text in brackets after it.
pub fn with_bytes(alloc: Global, word: &str, bytes: &[u8]) -> Result<String, Stop> {
    let text = String::from_utf8_lossy(alloc, bytes)?;
    let text = text.as_str();
    Ok(format!(in alloc; "{word} [{text}]")?)
}

/// The value that a JSON text writes.
pub fn value_of<T: Shaped>(alloc: Global, text: &str) -> Result<T, Stop> {
    let Some(json) = json_of(alloc, text.as_bytes())? else {
        return Err(Stop::Unread);
    };
    match T::read_value(alloc, &json)? {
        Ok(value) => Ok(value),
        Err(_) => Err(Stop::Unread),
    }
}

/// A whole block: after `block` the JSON of one of phase 0, after `altair_block` that of one of Altair.
pub fn whole_block(alloc: Global, words: &str) -> Result<AnyBlock, Stop> {
    match first_part(words, " ") {
        ("block", json) => Ok(AnyBlock::Phase0(value_of(alloc, json)?)),
        ("altair_block", json) => Ok(AnyBlock::Altair(value_of(alloc, json)?)),
        _ => Err(Stop::Unread),
    }
}

/// The address of a service.
pub fn service_of(alloc: Global, text: &str) -> Result<ServiceUrl, Stop> {
    match ServiceUrl::read(alloc, text)? {
        Some(service) => Ok(service),
        None => Err(Stop::Unread),
    }
}
