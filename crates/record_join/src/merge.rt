//! Books that are merged into the records of their keys.
ghost use Rattle.std.specs.Prelude.{◌≡◌, ◌+◌, ◌≤◌, List, IsSomeAnd, IsTrue, IfOk, IfErr, OnOk, OnErr, length};
ghost use Rattle.std.specs.List.Sorted.{IsStrictlySortedBy};
ghost use Rattle.std.specs.Map.{keys_of};
ghost use Rattle.edge_kit.specs.declared.bytes.PubKey.{PubKey};
ghost use Rattle.protect_record.specs.Parts.{SameParts};
ghost use Rattle.protect_record.specs.Pasts.{Past};
ghost use Rattle.record_join.specs.Keys.{key_cmp, kept_of, EachKey};
ghost use Rattle.record_join.specs.BooksPasts.{BooksStand, EachOnce, IsMergeFault, KeepsOthers, key_limit, new_keys, with_file};
ghost use Rattle.record_join.specs.KeyByKey.{EachTakes, Takes, TakesBook};
ghost use Rattle.record_join.specs.Preparing.{HasRoomFor, HaveRoomFor, IsReady, book_size};

use crate::fault::MergeFault;
use crate::limit::{new_books, over_limit};
use crate::room::{make_room, take_out};
use edge_kit::PubKey;
use protect_record::Record;
use slash_defs::Book;
use std::alloc::Global;
use std::collections::BTreeMap;

/// Keeps each listed key, with room for its book, and gives those that were not kept. `has_room`: whether there
/// is room beside.
///
/// # Errors
///
/// `TooManyKeys` where there would be too many, and `OutOfMemory`. Each record keeps what it kept.
pub fn prepare_books(
    kept: &mut BTreeMap<PubKey, Record>,
    alloc: Global,
    books: &[(PubKey, Book)],
    has_room: bool,
) -> Result<Vec<PubKey>, MergeFault>
    requires { EachOnce books.now }
    ensures ready { IfOk result (λ fresh. IsReady book_size kept.old.entries books.now fresh.items kept.new.entries) }
    ensures within { OnOk result (length kept.old.entries + new_keys kept.old.entries books.now ≤ key_limit) }
    ensures room { OnOk result (IsTrue has_room) }
    ensures fault { IfErr result (IsMergeFault kept.old.entries books.now) }
    ensures err { OnErr result ((pasts : List (PubKey × Past)) → BooksStand kept.old.entries pasts → BooksStand kept.new.entries pasts) }
    ensures same { OnErr result (EachKey SameParts kept.old.entries kept.new.entries) }
    ensures limit { length kept.old.entries ≤ key_limit → length kept.new.entries ≤ key_limit }
    ensures others { KeepsOthers books.now kept.old.entries kept.new.entries }
{
    let new = new_books(kept, books);
    if let Some(fault) = over_limit(kept.len(), new) {
        return Err(fault);
    }
    if !has_room {
        return Err(MergeFault::OutOfMemory);
    }
    let mut fresh = Vec::new(alloc);
    'books: for listed in books {
        let size = (listed.1.blocks.len(), listed.1.votes.len());
        let Ok(()) = make_room(kept, alloc, &listed.0, size, &mut fresh) else {
            take_out(kept, fresh);
            return Err(MergeFault::OutOfMemory);
        };
    }
    Ok(fresh)
}

/// Merges each book into the record of its key, in the room that there is.
pub fn merge_books(kept: &mut BTreeMap<PubKey, Record>, books: &[(PubKey, Book)])
    requires once { EachOnce books.now }
    requires room { HaveRoomFor book_size kept.old.entries books.now }
    ensures each { EachTakes TakesBook books.now kept.old.entries kept.new.entries }
    ensures stands { (pasts : List (PubKey × Past)) → BooksStand kept.old.entries pasts → BooksStand kept.new.entries (with_file pasts books.now) }
    ensures len { length kept.new.entries ≡ length kept.old.entries }
{
    'books: for listed in books {
        merge_at(kept, &listed.0, &listed.1);
    }
}

/// Merges a book into the record of its key, in the room that there is.
fn merge_at(kept: &mut BTreeMap<PubKey, Record>, key: &PubKey, book: &Book)
    requires { IsSomeAnd (kept_of kept.old.entries key.now) (λ parts. HasRoomFor parts (book_size book.now)) }
    ensures takes { Takes TakesBook kept.old.entries kept.new.entries key.now book.now }
    ensures ordered { IsStrictlySortedBy key_cmp (keys_of kept.old.entries) }
    ensures len { length kept.new.entries ≡ length kept.old.entries }
{
    if let Some(record) = kept.get_mut(key) {
        record.merge_reserved(book);
    }
}
