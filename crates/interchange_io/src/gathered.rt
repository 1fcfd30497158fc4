//! The books of a file, each key once.
ghost use Rattle.std.specs.Prelude.{◌≡◌, ◌++◌, ◌∷◌, [], length, Some, OnOk};
ghost use Rattle.std.specs.BTreeMap.{Updates};
ghost use Rattle.interchange_io.specs.United.{joined, with_book, key_cmp, ArePlaces};

use edge_kit::{Items, PubKey};
use slash_defs::Book;
use std::alloc::{AllocError, Global};
use std::collections::BTreeMap;
use std::mem;

/// The books that were read so far, and the place of each key among them.
#[derive(Drop)]
pub(crate) struct Gathered {
    pub(crate) books: Vec<(PubKey, Book)>,
    pub(crate) places: BTreeMap<PubKey, usize>,
}

impl Gathered {
    /// No book.
    pub(crate) fn new(alloc: Global) -> Self
        ensures books { result.books.items ≡ [] }
        ensures places { ArePlaces result.books.items result.places }
    {
        Gathered {
            books: Vec::new(alloc),
            places: BTreeMap::new(alloc),
        }
    }

    /// One more book. Its lists go behind those of its key, where the key is there already.
    pub(crate) fn add(&mut self, alloc: Global, key: PubKey, book: Book) -> Result<(), AllocError>
        requires { ArePlaces self.old.books.items self.old.places }
        ensures books { OnOk result (self.new.books.items ≡ with_book self.old.books.items (key, book)) }
        ensures places { OnOk result (ArePlaces self.new.books.items self.new.places) }
    {
        let Some(place) = self.places.get(&key).copied() else {
            return self.push(key, book);
        };
        let kept = &mut self.books[place];
        append_book(alloc, &mut kept.1, book)
    }

    fn push(&mut self, key: PubKey, book: Book) -> Result<(), AllocError>
        ensures books { OnOk result (self.new.books.items ≡ self.old.books.items ++ (key, book) ∷ []) }
        ensures places { OnOk result (Updates key_cmp self.old.places self.new.places key (Some (length self.old.books.items))) }
    {
        let place = self.books.len();
        self.books.push((key, book))?;
        self.places.insert(key, place)?;
        Ok(())
    }
}

fn append_book(alloc: Global, kept: &mut Book, more: Book) -> Result<(), AllocError>
    ensures { OnOk result (kept.new ≡ joined kept.old more) }
{
    append(alloc, &mut kept.blocks, more.blocks.as_slice())?;
    append(alloc, &mut kept.votes, more.votes.as_slice())
}

fn append<T: Copy + Drop>(alloc: Global, kept: &mut Items<T>, more: &[T]) -> Result<(), AllocError>
    ensures { OnOk result (kept.new ≡ kept.old ++ more.now) }
{
    let mut items = mem::replace(kept, Items::new(alloc)).into_vec();
    items.extend_from_slice(more)?;
    *kept = Items::from_vec(items);
    Ok(())
}
