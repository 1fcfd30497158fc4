//! Interchange files.
use crate::entries::push_book;
use crate::words::{bytes_of, push_named};
use interchange_io::{in_written_order, read, write};
use slash_defs::File;
use std::alloc::Global;
use trial_lines::push_lossy;

/// Puts the written text of a file to a text.
fn push_written(alloc: Global, text: &mut String, file: &File) -> Option<()> {
    let written = write(alloc, file).ok()?;
    push_lossy(alloc, text, written.as_slice()).ok()
}

/// Puts the written text of the file that bytes are to a text, or why they are refused.
pub fn push_read(alloc: Global, text: &mut String, words: &str) -> Option<()> {
    let bytes = bytes_of(alloc, words)?;
    match &read(alloc, bytes.as_slice()).ok()? {
        Ok(file) => push_written(alloc, text, file),
        Err(fault) => write!(text, "{fault}").ok(),
    }
}

/// Puts a file to a text, each key with its entries, in the order in which they stand.
fn push_file(text: &mut String, file: &File) -> Option<()> {
    push_named(text, "genesis ", &file.genesis.0)?;
    text.push('\n').ok()?;
    for (key, book) in file.books.as_slice() {
        push_named(text, "key ", &key.0)?;
        push_book(text, book)?;
        text.push('\n').ok()?;
    }
    Some(())
}

/// Puts the file that bytes are to a text.
fn push_file_of(alloc: Global, text: &mut String, bytes: &[u8]) -> Option<()> {
    match &read(alloc, bytes).ok()? {
        Ok(file) => push_file(text, file),
        Err(_) => None,
    }
}

/// Puts a file to a text, also in the order in which it is written, and as it is read once it is written.
fn push_orders(alloc: Global, text: &mut String, file: &File) -> Option<()> {
    push_file(text, file)?;
    push_file(text, &in_written_order(alloc, file).ok()?)?;
    let written = write(alloc, file).ok()?;
    push_file_of(alloc, text, written.as_slice())
}

/// Puts the file that words are to a text, also in the order in which it is written, and as it is read once it is written.
pub fn push_ordered(alloc: Global, text: &mut String, words: &str) -> Option<()> {
    match &read(alloc, words.as_bytes()).ok()? {
        Ok(file) => push_orders(alloc, text, file),
        Err(_) => None,
    }
}
