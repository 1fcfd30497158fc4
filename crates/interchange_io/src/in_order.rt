//! A file in the order in which it is written.
ghost use Rattle.std.specs.Prelude.{◌≡◌, IfOk};
ghost use Rattle.interchange_io.specs.WrittenOrder.{canonical};

use crate::sorted::{SortedBook, sorted_books};
use edge_kit::{Items, PubKey};
use slash_defs::{BlockEntry, Book, File, VoteEntry};
use std::alloc::{AllocError, Global};
use std::collections::{BTreeMap, BTreeSet};

/// The file in the order in which it is written: its keys in byte order and each once, the entries of a key in
/// file order, equal ones once.
///
/// # Errors
///
/// `AllocError` where memory was wanted.
pub fn in_written_order(alloc: Global, file: &File) -> Result<File, AllocError>
    ensures { IfOk result (λ sorted. sorted ≡ canonical file.now) }
{
    let sorted = sorted_books(alloc, file.books.as_slice())?;
    let books = plain_books(alloc, &sorted)?;
    Ok(File {
        genesis: file.genesis,
        books: Items::from_vec(books),
    })
}

/// The keys with their books, in order.
fn plain_books(
    alloc: Global,
    sorted: &BTreeMap<PubKey, SortedBook>,
) -> Result<Vec<(PubKey, Book)>, AllocError>
    ensures { IfOk result (λ books. books.items ≡ sorted.now.entries) }
{
    let mut books = Vec::new(alloc);
    'each: for (key, book) in sorted {
        books.push((*key, plain_book(alloc, book)?))?;
    }
    Ok(books)
}

/// The lists of a key's entries, in order.
fn plain_book(alloc: Global, sorted: &SortedBook) -> Result<Book, AllocError>
    ensures { IfOk result (λ book. book ≡ sorted.now) }
{
    let blocks = plain_blocks(alloc, sorted.blocks())?;
    let votes = plain_votes(alloc, sorted.votes())?;
    Ok(Book { blocks, votes })
}

/// The blocks, in order.
fn plain_blocks(
    alloc: Global,
    sorted: &BTreeSet<BlockEntry>,
) -> Result<Items<BlockEntry>, AllocError>
    ensures { IfOk result (λ blocks. blocks ≡ sorted.now.keys) }
{
    Ok(Items::from_vec(sorted.iter().copied().collect(alloc)?))
}

/// The votes, in order.
fn plain_votes(alloc: Global, sorted: &BTreeSet<VoteEntry>) -> Result<Items<VoteEntry>, AllocError>
    ensures { IfOk result (λ votes. votes ≡ sorted.now.keys) }
{
    Ok(Items::from_vec(sorted.iter().copied().collect(alloc)?))
}
