//! Blocks, votes and books in words.
use crate::words::push_bytes;
use edge_kit::Root;
use slash_defs::{BlockEntry, Book, VoteEntry};

/// Puts a root to a text, where there is one.
fn push_root(text: &mut String, root: &Option<Root>) -> Option<()> {
    match root {
        Some(root) => push_bytes(text, &root.0),
        None => text.push_str("none").ok(),
    }
}

/// Puts a block to a text.
fn push_block(text: &mut String, block: &BlockEntry) -> Option<()> {
    write!(text, "block {} ", block.slot).ok()?;
    push_root(text, &block.root)
}

/// Puts a vote to a text.
pub fn push_vote(text: &mut String, vote: &VoteEntry) -> Option<()> {
    write!(text, "vote {} {} ", vote.source, vote.target).ok()?;
    push_root(text, &vote.root)
}

/// Puts the blocks of a book and then its votes to a text.
pub fn push_book(text: &mut String, book: &Book) -> Option<()> {
    for block in book.blocks.as_slice() {
        text.push_str(", ").ok()?;
        push_block(text, block)?;
    }
    for vote in book.votes.as_slice() {
        text.push_str(", ").ok()?;
        push_vote(text, vote)?;
    }
    Some(())
}
