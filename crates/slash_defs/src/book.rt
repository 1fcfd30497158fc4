//! What an interchange file holds.
ghost use Rattle.std.specs.Prelude.{◌≡◌, IfOk};

use crate::entry::{BlockEntry, VoteEntry};
use edge_kit::{Items, PubKey, Root};
use std::alloc::{AllocError, Global};

/// What one interchange file holds for one key (EIP-3076, an element of `data` without its key), each list
/// in the order of the file.
#[derive(Drop)]
pub struct Book {
    /// The signed blocks.
    pub blocks: Items<BlockEntry>,
    /// The signed votes.
    pub votes: Items<VoteEntry>,
}

impl Book {
    /// The same book once more.
    ///
    /// # Errors
    ///
    /// `AllocError` where memory was wanted.
    pub fn copy(&self, alloc: Global) -> Result<Book, AllocError>
        ensures { IfOk result (λ book. book ≡ self.now) }
    {
        Ok(Book {
            blocks: Items::from_vec(self.blocks.as_slice().to_vec(alloc)?),
            votes: Items::from_vec(self.votes.as_slice().to_vec(alloc)?),
        })
    }
}

/// An interchange file of format version 5 (EIP-3076): the root of the chain's genesis validators, and a
/// book for each key, in the order of the file, each key once.
#[derive(Drop)]
pub struct File {
    /// The genesis validators root.
    pub genesis: Root,
    /// Each key with its book.
    pub books: Items<(PubKey, Book)>,
}
