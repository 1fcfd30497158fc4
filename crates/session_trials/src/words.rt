//! The words that say how a script is run: which of its requests (`all`, `none`, or the first and the last as `2-3`),
//! `compacting`, `telling`, `lacking-K1`, the bytes of the first disk in hex as `file=01`, and lists of numbers as
//! `failing=0,1`.
use edge_kit::PubKey;
use std::alloc::{AllocError, Global};

/// Whether each of the words can be read.
pub fn are_readable(words: &str) -> bool {
    for word in words.split(' ') {
        if !is_readable(word) {
            return false;
        }
    }
    true
}

/// Whether a word can be read.
fn is_readable(word: &str) -> bool {
    match word.split_once('=') {
        Some(("first" | "second" | "reads" | "writes" | "room" | "failing", numbers)) => {
            are_numbers(numbers)
        }
        Some(("file", digits)) => are_digits(digits),
        Some(_) => false,
        None => is_plain(word) || range_of(word).is_some(),
    }
}

/// Whether a word stands for itself.
fn is_plain(word: &str) -> bool {
    matches!(
        word,
        "all" | "none" | "compacting" | "telling" | "lacking-K1"
    )
}

/// Whether a list is one of numbers.
fn are_numbers(list: &str) -> bool {
    for word in list.split(',') {
        if number_of(word, 0).is_none() {
            return false;
        }
    }
    true
}

/// Whether letters are hex digits of whole bytes.
fn are_digits(digits: &str) -> bool {
    for digit in digits.bytes() {
        if !digit.is_ascii_hexdigit() {
            return false;
        }
    }
    digits.len() % 2 == 0
}

/// Whether one of the words is this one.
pub fn has_word(words: &str, word: &str) -> bool {
    for found in words.split(' ') {
        if found == word {
            return true;
        }
    }
    false
}

/// What stands after a name and `=`; nothing where the name is no word's.
pub fn value_of<'a>(words: &'a str, name: &str) -> &'a str {
    for word in words.split(' ') {
        match word.split_once('=') {
            Some((found, value)) if found == name => return value,
            _ => {}
        }
    }
    ""
}

/// Which requests the words name: how many stand before them, and how many they are.
pub fn chosen(words: &str) -> (usize, usize) {
    for word in words.split(' ') {
        if let Some(range) = range_of(word) {
            return range;
        }
    }
    if has_word(words, "none") {
        (0, 0)
    } else {
        (0, usize::MAX)
    }
}

/// How many stand before the first of a range and how many it has, where a word is one.
fn range_of(word: &str) -> Option<(usize, usize)> {
    let (first, last) = word.split_once('-')?;
    let before = first.parse::<usize>().ok()?.checked_sub(1)?;
    let count = last.parse::<usize>().ok()?.checked_sub(before)?;
    Some((before, count))
}

/// The number that a word is. After `opening+` it is counted from the calls that an opening makes.
fn number_of(word: &str, opening: u64) -> Option<u64> {
    match word.strip_prefix("opening+") {
        Some(after) => opening.checked_add(after.parse::<u64>().ok()?),
        None => word.parse::<u64>().ok(),
    }
}

/// The numbers of a name, where an opening makes that many calls.
pub fn numbers_of(
    alloc: Global,
    words: &str,
    name: &str,
    opening: u64,
) -> Result<Vec<u64>, AllocError> {
    let mut numbers = Vec::new(alloc);
    for word in value_of(words, name).split(',') {
        if let Some(number) = number_of(word, opening) {
            numbers.push(number)?;
        }
    }
    Ok(numbers)
}

/// The keys that a signer lacks.
pub fn lacking(alloc: Global, words: &str) -> Result<Vec<PubKey>, AllocError> {
    if has_word(words, "lacking-K1") {
        Ok(vec![in alloc; PubKey([0x11; 48])]?)
    } else {
        Ok(Vec::new(alloc))
    }
}
