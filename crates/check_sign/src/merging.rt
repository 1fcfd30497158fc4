//! Files that are merged, and keys that are pruned.
ghost use Rattle.std.specs.Prelude.{◌≡◌, ◌+◌, ◌≤◌, List, [], ◌∷◌, None, Ok, IsSome, IsSomeAnd, IfErr, IfOk, OnErr, OnOk, length};
ghost use Rattle.edge_kit.specs.declared.bytes.Root.{Root};
ghost use Rattle.interchange_io.specs.WrittenOrder.{canonical};
ghost use Rattle.protect_record.specs.Exporting.{prune_book};
ghost use Rattle.protect_record.specs.Pasts.{Past};
ghost use Rattle.record_join.specs.BooksPasts.{BooksStand, EachOnce, key_limit, new_keys, with_file};
ghost use Rattle.record_join.specs.Keys.{kept_of};
ghost use Rattle.record_journal.specs.TwoDisks.{EitherRose};
ghost use Rattle.record_replay.specs.Batches.{book_items, file_items};
ghost use Rattle.check_sign.specs.Contents.{disks_in};
ghost use Rattle.check_sign.specs.Calls.{IsStep, Counted};
ghost use Rattle.check_sign.specs.Refusing.{IsUngained, WroteOrTold};
ghost use Rattle.check_sign.specs.Writing.{HoldsJournal, Moved, Wrote, journal_of};
ghost use Rattle.desk_machine.specs.declared.call.DeskCall.TheVariants as DeskCall;

use crate::desk::Desk;
use crate::writing::{refusal, write_book, write_file};
use desk_machine::DeskReply;
use desk_parts::{note_merge, note_pruned};
use edge_kit::{Disk, PubKey};
use record_join::{Books, MergeFault};
use record_journal::Journal;
use slash_defs::{Book, File};
use std::alloc::{AllocError, Global};
use std::slice::from_ref;

impl<D: Disk> Desk<D> {
    /// Merges a file, and keeps each of its keys.
    pub(crate) fn merge_file(&mut self, file: File) -> DeskReply
        requires { EachOnce file.books }
        ensures machine { IsStep self.old.contents (DeskCall.Merge file) result self.new.contents }
        ensures counted { Counted self.old.contents (DeskCall.Merge file) result self.new.contents }
        ensures rose { result ≡ DeskReply.Disk → self.old.contents.torn ≡ None → EitherRose D.faults (disks_in self.old) (disks_in self.new) }
        ensures moved { Moved D.moment D.leaves D.faults (journal_of self.old) (journal_of self.new) }
    {
        if self.journal.failed() {
            return DeskReply::Disk;
        }
        if file.genesis != self.genesis {
            return DeskReply::GenesisDiffers {
                kept: self.genesis,
                given: file.genesis,
            };
        }
        match gain_file(&mut self.journal, self.alloc, &mut self.books, &file) {
            Ok(()) => {}
            Err(told) => return told,
        }
        let keys = file.books.len() as u64;
        note_merge(&mut self.events, file, self.latest);
        DeskReply::Merged { keys }
    }

    /// Prunes the record of a key, which gains a book of its own.
    pub(crate) fn prune_key(&mut self, key: PubKey) -> DeskReply
        ensures machine { IsStep self.old.contents (DeskCall.Prune key) result self.new.contents }
        ensures counted { Counted self.old.contents (DeskCall.Prune key) result self.new.contents }
        ensures rose { result ≡ DeskReply.Disk → self.old.contents.torn ≡ None → EitherRose D.faults (disks_in self.old) (disks_in self.new) }
        ensures moved { Moved D.moment D.leaves D.faults (journal_of self.old) (journal_of self.new) }
    {
        let book = match self.pruning_book(&key) {
            Ok(book) => book,
            Err(bar) => return bar,
        };
        let listed = (key, book);
        match gain_book(&mut self.journal, self.alloc, &mut self.books, &listed) {
            Ok(()) => {}
            Err(told) => return told,
        }
        let (_, book) = listed;
        DeskReply::Pruned(note_pruned(&mut self.events, key, book, self.latest))
    }

    /// The book that prunes the record of a key. The `Err` is the first of what bars it: the disk failed, no past is
    /// kept of the key, or want of memory.
    fn pruning_book(&self, key: &PubKey) -> Result<Book, DeskReply>
        ensures machine { IfErr result (λ r. IsStep self.now.contents (DeskCall.Prune key.now) r self.now.contents) }
        ensures counted { IfErr result (λ r. Counted self.now.contents (DeskCall.Prune key.now) r self.now.contents) }
        ensures failed { IfErr result (λ r. r ≡ DeskReply.Disk → IsSome self.now.contents.torn) }
        ensures up { OnOk result (self.now.contents.torn ≡ None) }
        ensures book { IfOk result (λ book. IsSomeAnd (kept_of self.now.contents.keys key.now) (λ parts. book ≡ prune_book parts)) }
    {
        if self.journal.failed() {
            return Err(DeskReply::Disk);
        }
        let Some(record) = self.books.get(key) else {
            return Err(DeskReply::Unknown);
        };
        match record.pruning_book(self.alloc) {
            Ok(book) => Ok(book),
            Err(AllocError) => Err(DeskReply::OutOfMemory),
        }
    }
}

/// Takes the books of a file in, once they are on the disk. The `Err` says why not: too many keys would be kept, or it
/// names the fault; the records are then as before.
fn gain_file<D: Disk>(
    journal: &mut Journal<D>,
    alloc: Global,
    books: &mut Books,
    file: &File,
) -> Result<(), DeskReply>
    requires once { EachOnce file.now.books }
    requires up { journal.old.torn ≡ None }
    requires held { (g : Root) × HoldsJournal D.moment D.leaves g journal.old }
    ensures wrote { OnOk result (Wrote D.faults journal.old (file_items (canonical file.now).books) journal.new (Ok tt)) }
    ensures within { OnOk result (length books.old + new_keys books.old file.now.books ≤ key_limit) }
    ensures gained { OnOk result ((pasts : List (PubKey × Past)) → BooksStand books.old pasts → BooksStand books.new (with_file pasts file.now.books)) }
    ensures ungained { IfErr result (IsUngained D.faults journal.old books.old file.now journal.new) }
    ensures kept { OnErr result ((pasts : List (PubKey × Past)) → BooksStand books.old pasts → BooksStand books.new pasts) }
    ensures moved { Moved D.moment D.leaves D.faults journal.old journal.new }
    ensures holds { (g : Root) → HoldsJournal D.moment D.leaves g journal.old → HoldsJournal D.moment D.leaves g journal.new }
{
    let listed = file.books.as_slice();
    let fresh = match books.prepare(listed, true) {
        Ok(fresh) => fresh,
        Err(MergeFault::TooManyKeys { have, new }) => {
            return Err(DeskReply::TooManyKeys { have, new });
        }
        Err(MergeFault::OutOfMemory) => return Err(DeskReply::OutOfMemory),
    };
    if let Err(fault) = write_file(journal, alloc, file) {
        books.take_back(fresh);
        return Err(refusal(fault));
    }
    books.merge_prepared(listed);
    Ok(())
}

/// Takes in the book that a key gains, once it is on the disk. The `Err` names the fault; the records are then as before.
fn gain_book<D: Disk>(
    journal: &mut Journal<D>,
    alloc: Global,
    books: &mut Books,
    listed: &(PubKey, Book),
) -> Result<(), DeskReply>
    requires up { journal.old.torn ≡ None }
    requires held { (g : Root) × HoldsJournal D.moment D.leaves g journal.old }
    ensures wrote { WroteOrTold D.faults journal.old (book_items listed.now) journal.new result }
    ensures gained { OnOk result ((pasts : List (PubKey × Past)) → BooksStand books.old pasts → BooksStand books.new (with_file pasts (listed.now ∷ []))) }
    ensures kept { OnErr result ((pasts : List (PubKey × Past)) → BooksStand books.old pasts → BooksStand books.new pasts) }
    ensures moved { Moved D.moment D.leaves D.faults journal.old journal.new }
    ensures holds { (g : Root) → HoldsJournal D.moment D.leaves g journal.old → HoldsJournal D.moment D.leaves g journal.new }
{
    let one = from_ref(listed);
    let Ok(fresh) = books.prepare(one, true) else {
        return Err(DeskReply::OutOfMemory);
    };
    if let Err(fault) = write_book(journal, alloc, listed) {
        books.take_back(fresh);
        return Err(refusal(fault));
    }
    books.merge_prepared(one);
    Ok(())
}
