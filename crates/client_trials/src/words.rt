//! The words of a line: named numbers, and the keys and roots that numbers stand for.
use edge_kit::{PubKey, Root, read_quoted};
use std::alloc::Global;

/// The numbers of a text, with `,`, `:` or `@` between them.
pub fn numbers_of(alloc: Global, text: &str) -> Option<Vec<u64>> {
    let mut numbers = Vec::new(alloc);
    for digits in text.split([',', ':', '@']) {
        if !digits.is_empty() {
            numbers.push(read_quoted(digits)?).ok()?;
        }
    }
    Some(numbers)
}

/// The value of the word of this name, after a sign of equality; empty where there is none.
fn value_in<'a>(words: &'a str, name: &str) -> &'a str {
    for word in words.split(' ') {
        match word.split_once('=') {
            Some((found, value)) if found == name => return value,
            _ => {}
        }
    }
    ""
}

/// The numbers of the word of this name; none where there is no such word.
pub fn numbers_in(alloc: Global, words: &str, name: &str) -> Option<Vec<u64>> {
    numbers_of(alloc, value_in(words, name))
}

/// The number of the word of this name; 0 where there is no such word.
pub fn number_in(words: &str, name: &str) -> Option<u64> {
    match value_in(words, name) {
        "" => Some(0),
        digits => read_quoted(digits),
    }
}

/// The epoch of the word of this name; none where there is no such word.
pub fn epoch_in(alloc: Global, words: &str, name: &str) -> Option<Option<u64>> {
    let numbers = numbers_in(alloc, words, name)?;
    match *numbers.as_slice() {
        [epoch] => Some(Some(epoch)),
        _ => Some(None),
    }
}

/// The key that a number below 16 stands for: 1 for 0x1111.., 2 for 0x2222...
pub fn key(number: u64) -> PubKey {
    PubKey([(number % 16) as u8 * 17; 48])
}

/// The root that a number below 16 stands for: 0 for 0x0000.., 10 for 0xaaaa...
pub fn root(number: u64) -> Root {
    Root([(number % 16) as u8 * 17; 32])
}

/// The keys of the word of this name; none where there is no such word.
pub fn keys_in(alloc: Global, words: &str, name: &str) -> Option<Vec<PubKey>> {
    let mut keys = Vec::new(alloc);
    for number in numbers_in(alloc, words, name)? {
        keys.push(key(number)).ok()?;
    }
    Some(keys)
}
