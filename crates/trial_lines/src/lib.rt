//! Lines of trials, as the driver programs read and write them. A line is a subject and its arguments, with a space
//! between them; what came of it is written below it, each of its lines with two spaces in front. A line that is empty or
//! begins with `#` is a heading. So what is wanted is a file of the same lines, and a difference stands below its line.
#![tactic(auto)]

use std::alloc::{AllocError, Global};
use std::io;
use std::io::{Input, Print, Read};

/// Standard input to its end, as text; what is no UTF-8 in it is replaced.
pub fn read_input<R: Input + AllocGlobal>(rt: &R) -> io::Result<String> {
    let mut bytes = Vec::new(rt.alloc());
    rt.reader().read_to_end(&mut bytes)?;
    Ok(String::from_utf8_lossy(rt.alloc(), bytes.as_slice())?)
}

/// The subject and the arguments of a line; none of a heading.
pub fn case_of(line: &str) -> Option<(&str, &str)> {
    if line.is_empty() || line.starts_with('#') {
        return None;
    }
    match line.split_once(' ') {
        Some(parts) => Some(parts),
        None => Some((line, "")),
    }
}

/// Writes what came of a line: each line of the text with two spaces in front.
pub fn print_outcome<R: Print>(rt: &R, text: &str) -> io::Result<()> {
    for line in text.lines() {
        println!(rt; "  {line}")?;
    }
    Ok(())
}

/// Writes what came of a line that no subject reads.
pub fn print_unread<R: Print>(rt: &R) -> io::Result<()> {
    println!(rt; "  no subject reads this line")
}

/// Puts bytes after a text; what is no UTF-8 in them is replaced.
pub fn push_lossy(alloc: Global, text: &mut String, bytes: &[u8]) -> Result<(), AllocError> {
    let more = String::from_utf8_lossy(alloc, bytes)?;
    text.push_str(more.as_str())
}
