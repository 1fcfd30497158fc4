//! The books of a file in the order in which they are written.
ghost use Rattle.std.specs.Prelude.{◌≡◌, [], fold, OnOk, IfOk};
ghost use Rattle.std.specs.BTreeSet.{insert_key};
ghost use Rattle.slash_defs.specs.FileOrder.{block_cmp, vote_cmp};
ghost use Rattle.interchange_io.specs.WrittenOrder.{empty_book, merged, with_sorted};

use edge_kit::PubKey;
use slash_defs::{BlockEntry, Book, VoteEntry};
use std::alloc::{AllocError, Global};
use std::collections::{BTreeMap, BTreeSet};
use std::marker::Model;

/// The entries of one key in file order, equal ones once, which contracts see as a book.
#[derive(Drop)]
pub(crate) struct SortedBook {
    blocks: BTreeSet<BlockEntry>,
    votes: BTreeSet<VoteEntry>,
}

impl Model for SortedBook {
    ghost use Rattle.slash_defs.specs.declared.book.Book.{Book};

    ghost Value = { Book };

    ghost view = { λ s. record { blocks = s.blocks.keys; votes = s.votes.keys } };
}

impl SortedBook {
    fn new(alloc: Global) -> Self
        ensures { result ≡ empty_book }
    {
        SortedBook {
            blocks: BTreeSet::new(alloc),
            votes: BTreeSet::new(alloc),
        }
    }

    fn add(&mut self, book: &Book) -> Result<(), AllocError>
        ensures { OnOk result (self.new ≡ merged self.old book.now) }
    {
        add_blocks(&mut self.blocks, book.blocks.as_slice())?;
        add_votes(&mut self.votes, book.votes.as_slice())
    }

    pub(crate) fn blocks(&self) -> &BTreeSet<BlockEntry>
        ensures { result.now.keys ≡ self.now.blocks }
    {
        &self.blocks
    }

    pub(crate) fn votes(&self) -> &BTreeSet<VoteEntry>
        ensures { result.now.keys ≡ self.now.votes }
    {
        &self.votes
    }
}

fn add_blocks(sorted: &mut BTreeSet<BlockEntry>, blocks: &[BlockEntry]) -> Result<(), AllocError>
    ensures { OnOk result (sorted.new.keys ≡ fold (insert_key block_cmp) sorted.old.keys blocks.now) }
{
    'each: for block in blocks {
        sorted.insert(*block)?;
    }
    Ok(())
}

fn add_votes(sorted: &mut BTreeSet<VoteEntry>, votes: &[VoteEntry]) -> Result<(), AllocError>
    ensures { OnOk result (sorted.new.keys ≡ fold (insert_key vote_cmp) sorted.old.keys votes.now) }
{
    'each: for vote in votes {
        sorted.insert(*vote)?;
    }
    Ok(())
}

/// The books in the order of their keys, each key once with its entries in file order.
pub(crate) fn sorted_books(
    alloc: Global,
    books: &[(PubKey, Book)],
) -> Result<BTreeMap<PubKey, SortedBook>, AllocError>
    ensures { IfOk result (λ sorted. sorted.entries ≡ fold with_sorted [] books.now) }
{
    let mut sorted = BTreeMap::new(alloc);
    'each: for (key, book) in books {
        add_book(alloc, &mut sorted, *key, book)?;
    }
    Ok(sorted)
}

fn add_book(
    alloc: Global,
    sorted: &mut BTreeMap<PubKey, SortedBook>,
    key: PubKey,
    book: &Book,
) -> Result<(), AllocError>
    ensures { OnOk result (sorted.new.entries ≡ with_sorted sorted.old.entries (key, book.now)) }
{
    if let Some(kept) = sorted.get_mut(&key) {
        return kept.add(book);
    }
    let mut kept = SortedBook::new(alloc);
    kept.add(book)?;
    sorted.insert(key, kept)?;
    Ok(())
}
