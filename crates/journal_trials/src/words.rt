//! The notation of lines: numbers, bytes, keys and roots.
ghost use Rattle.std.specs.Prelude.{◌≤◌, IfSome};
ghost use Rattle.desk_machine.specs.Machine.{moment_limit};

use check_sign::MOMENT_LIMIT;
use edge_kit::{PubKey, Root};
use std::alloc::Global;

/// A number in decimal digits.
pub fn number_of(word: &str) -> Option<u64> {
    word.parse::<u64>().ok()
}

/// A moment in decimal digits.
pub fn moment_of(word: &str) -> Option<u64>
    ensures { IfSome result (λ moment. moment ≤ moment_limit) }
{
    let moment = number_of(word)?;
    Some(moment.min(MOMENT_LIMIT))
}

/// A byte in hex digits.
pub fn byte_of(word: &str) -> Option<u8> {
    u8::from_str_radix(word, 16).ok()
}

/// The key that consists of this byte.
pub fn key_of(word: &str) -> Option<PubKey> {
    let byte = byte_of(word)?;
    Some(PubKey([byte; 48]))
}

/// The root that consists of this byte.
pub fn root_of(word: &str) -> Option<Root> {
    let byte = byte_of(word)?;
    Some(Root([byte; 32]))
}

/// Puts digits to others: `11*48` is 48 times `11`.
fn push_repeated(digits: &mut String, piece: &str) -> Option<()> {
    let (repeated, count) = piece.split_once('*').unwrap_or((piece, "1"));
    for _ in 0..number_of(count)? {
        digits.push_str(repeated).ok()?;
    }
    Some(())
}

/// Digits, of which those in parentheses stand there several times: `04(11*48)`.
fn digits_of(alloc: Global, text: &str) -> Option<String> {
    let mut digits = String::new(alloc);
    for piece in text.split(['(', ')']) {
        push_repeated(&mut digits, piece)?;
    }
    Some(digits)
}

/// Bytes in hex digits, of which those in parentheses stand there several times.
pub fn bytes_of(alloc: Global, text: &str) -> Option<Vec<u8>> {
    let digits = digits_of(alloc, text)?;
    hex::decode(alloc, digits.as_str()).ok()
}

/// Puts the digits of bytes to a text.
fn push_digits(text: &mut String, bytes: &[u8]) -> Option<()> {
    for byte in bytes {
        write!(text, "{byte:02x}").ok()?;
    }
    Some(())
}

/// Puts bytes that are the same to a text.
fn push_run(text: &mut String, run: &[u8]) -> Option<()> {
    match run {
        [byte, _, _, _, ..] => write!(text, "({byte:02x}*{})", run.len()).ok(),
        _ => push_digits(text, run),
    }
}

/// Puts bytes to a text in the notation in which they are read. Four or more that are the same stand in parentheses.
pub fn push_bytes(text: &mut String, bytes: &[u8]) -> Option<()> {
    for run in bytes.chunk_by(|one, other| one == other) {
        push_run(text, run)?;
    }
    Some(())
}

/// Puts a word and the bytes after it to a text.
pub fn push_named(text: &mut String, name: &str, bytes: &[u8]) -> Option<()> {
    text.push_str(name).ok()?;
    push_bytes(text, bytes)
}

/// The value of an option, of those that a line names as `NAME=VALUE`.
pub fn value_of<'a>(options: &'a str, name: &str) -> Option<&'a str> {
    for option in options.split(' ') {
        if let Some((found, value)) = option.split_once('=')
            && found == name
        {
            return Some(value);
        }
    }
    None
}
