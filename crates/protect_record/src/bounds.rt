//! The least and the greatest numbers of entries.
ghost use Rattle.std.specs.Prelude.{◌≡◌, Some};
ghost use Rattle.protect_record.specs.Floors.{lesser, lesser_pair, greater, greater_pair, greater_floors, least_by, least_pair_by, greatest_by, greatest_pair_by, epochs, book_floors};

use crate::floors::Floors;
use slash_defs::{BlockEntry, Book, VoteEntry};

/// The floors that a book sets.
pub fn floors_of_book(book: &Book) -> Floors
    ensures { result ≡ book_floors book.now }
{
    Floors {
        block: least_slot(book.blocks.as_slice()),
        vote: least_epochs(book.votes.as_slice()),
    }
}

/// The greater of each floor.
pub fn join_floors(a: &Floors, b: &Floors) -> Floors
    ensures { result ≡ greater_floors a.now b.now }
{
    Floors {
        block: greater_of(a.block, b.block),
        vote: greater_of_pairs(a.vote, b.vote),
    }
}

/// The greatest slot of blocks.
pub fn greatest_slot(blocks: &[BlockEntry]) -> Option<u64>
    ensures { result ≡ greatest_by (λ e. Some e.slot) blocks.now }
{
    let mut greatest = None;
    for entry in blocks {
        greatest = greater_of(greatest, Some(entry.slot));
    }
    greatest
}

/// The greatest source and the greatest target of votes, each for itself.
pub fn most_epochs(votes: &[VoteEntry]) -> Option<(u64, u64)>
    ensures { result ≡ greatest_pair_by (λ e. Some (epochs e)) votes.now }
{
    let mut greatest = None;
    for entry in votes {
        greatest = greater_of_pairs(greatest, Some((entry.source, entry.target)));
    }
    greatest
}

/// The greater of those of two numbers that there are.
pub fn greater_of(a: Option<u64>, b: Option<u64>) -> Option<u64>
    ensures { result ≡ greater a b }
{
    match (a, b) {
        (None, b) => b,
        (Some(x), None) => Some(x),
        (Some(x), Some(y)) => Some(x.max(y)),
    }
}

/// The greater of each part of those of two pairs that there are.
pub fn greater_of_pairs(a: Option<(u64, u64)>, b: Option<(u64, u64)>) -> Option<(u64, u64)>
    ensures { result ≡ greater_pair a b }
{
    match (a, b) {
        (None, b) => b,
        (Some(p), None) => Some(p),
        (Some(p), Some(q)) => Some((p.0.max(q.0), p.1.max(q.1))),
    }
}

/// The least slot of blocks.
fn least_slot(blocks: &[BlockEntry]) -> Option<u64>
    ensures { result ≡ least_by (λ e. e.slot) blocks.now }
{
    let mut least = None;
    for entry in blocks {
        least = lesser_of(least, Some(entry.slot));
    }
    least
}

/// The least source and the least target of votes, each for itself.
fn least_epochs(votes: &[VoteEntry]) -> Option<(u64, u64)>
    ensures { result ≡ least_pair_by epochs votes.now }
{
    let mut least = None;
    for entry in votes {
        least = lesser_of_pairs(least, Some((entry.source, entry.target)));
    }
    least
}

/// The lesser of those of two numbers that there are.
fn lesser_of(a: Option<u64>, b: Option<u64>) -> Option<u64>
    ensures { result ≡ lesser a b }
{
    match (a, b) {
        (None, b) => b,
        (Some(x), None) => Some(x),
        (Some(x), Some(y)) => Some(x.min(y)),
    }
}

/// The lesser of each part of those of two pairs that there are.
fn lesser_of_pairs(a: Option<(u64, u64)>, b: Option<(u64, u64)>) -> Option<(u64, u64)>
    ensures { result ≡ lesser_pair a b }
{
    match (a, b) {
        (None, b) => b,
        (Some(p), None) => Some(p),
        (Some(p), Some(q)) => Some((p.0.min(q.0), p.1.min(q.1))),
    }
}
