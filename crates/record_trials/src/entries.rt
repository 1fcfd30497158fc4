//! Blocks and votes as texts: `SLOT` or `SOURCE->TARGET`, and after a `:` the root, where there is one. For the last number
//! `FIRST..END` may stand, for an entry of each number below the end.
use crate::fixed_bytes::{put_bytes, root_of};
use edge_kit::{Items, Root};
use protect_record::{Floors, Record};
use slash_defs::{BlockEntry, Book, Entry, Message, VoteEntry};
use std::alloc::{AllocError, Global};

/// What a text writes: the entries of these numbers.
#[derive(Clone, Copy)]
struct Written {
    source: Option<u64>,
    first: u64,
    end: u64,
    root: Option<Root>,
}

/// The number that a text writes.
fn number_of(text: &str) -> Option<u64> {
    text.parse::<u64>().ok()
}

/// The first number of a range and its end. A number alone is a range of one.
fn range_of(text: &str) -> Option<(u64, u64)> {
    let Some((first, end)) = text.split_once("..") else {
        let only = number_of(text)?;
        return Some((only, only.saturating_add(1)));
    };
    Some((number_of(first)?, number_of(end)?))
}

/// What a text without its root writes.
fn numbers_of(text: &str, root: Option<Root>) -> Option<Written> {
    let (source, numbers) = match text.split_once("->") {
        Some((source, target)) => (Some(number_of(source)?), target),
        None => (None, text),
    };
    let (first, end) = range_of(numbers)?;
    Some(Written {
        source,
        first,
        end,
        root,
    })
}

/// What a text writes.
fn read_entry(text: &str) -> Option<Written> {
    match text.split_once(':') {
        Some((numbers, root)) => numbers_of(numbers, Some(root_of(root)?)),
        None => numbers_of(text, None),
    }
}

/// The block or the vote that a text with a root writes.
pub fn message_of(text: &str) -> Option<Message> {
    let written = read_entry(text)?;
    let root = written.root?;
    match written.source {
        Some(source) => Some(Message::Vote {
            source,
            target: written.first,
            root,
        }),
        None => Some(Message::Block {
            slot: written.first,
            root,
        }),
    }
}

/// Blocks and votes, each in the order of a text.
#[derive(Drop)]
pub struct Entries {
    pub blocks: Vec<BlockEntry>,
    pub votes: Vec<VoteEntry>,
}

impl Entries {
    /// Adds what a text writes.
    fn push(&mut self, written: &Written) -> Result<(), AllocError> {
        let root = written.root;
        for number in written.first..written.end {
            match written.source {
                Some(source) => self.votes.push(VoteEntry {
                    target: number,
                    source,
                    root,
                })?,
                None => self.blocks.push(BlockEntry { slot: number, root })?,
            }
        }
        Ok(())
    }
}

/// The entries that a text writes, with spaces between them.
pub fn entries_of(alloc: Global, text: &str) -> Option<Entries> {
    let mut entries = Entries {
        blocks: Vec::new(alloc),
        votes: Vec::new(alloc),
    };
    for word in text.split_whitespace() {
        entries.push(&read_entry(word)?).ok()?;
    }
    Some(entries)
}

/// The book of the entries that a text writes.
pub fn book_of(alloc: Global, text: &str) -> Option<Book> {
    let entries = entries_of(alloc, text)?;
    Some(Book {
        blocks: Items::from_vec(entries.blocks),
        votes: Items::from_vec(entries.votes),
    })
}

/// The record of these floors and the entries that a text writes.
pub fn record_of(alloc: Global, floors: Floors, text: &str) -> Option<Record> {
    let entries = entries_of(alloc, text)?;
    Record::of_parts(floors, entries.blocks, entries.votes).ok()
}

fn put_root(alloc: Global, out: &mut String, root: &Option<Root>) -> Result<(), AllocError> {
    let Some(root) = root else {
        return Ok(());
    };
    out.push(':')?;
    put_bytes(alloc, out, &root.0)
}

/// Puts a space and a block after a text.
pub fn put_block(alloc: Global, out: &mut String, entry: &BlockEntry) -> Result<(), AllocError> {
    write!(out, " {}", entry.slot)?;
    put_root(alloc, out, &entry.root)
}

/// Puts a space and a vote after a text.
pub fn put_vote(alloc: Global, out: &mut String, entry: &VoteEntry) -> Result<(), AllocError> {
    write!(out, " {}->{}", entry.source, entry.target)?;
    put_root(alloc, out, &entry.root)
}

fn put_entry(alloc: Global, out: &mut String, entry: &Entry) -> Result<(), AllocError> {
    match entry {
        Entry::Block(block) => put_block(alloc, out, block),
        Entry::Vote(vote) => put_vote(alloc, out, vote),
    }
}

/// Puts what a record keeps after a text: its floors, its blocks and its votes.
pub fn put_record(alloc: Global, out: &mut String, record: &Record) -> Result<(), AllocError> {
    write!(out, "{:?}", record.floors())?;
    for entry in record.blocks().chain(record.votes()) {
        put_entry(alloc, out, &entry)?;
    }
    Ok(())
}
