//! What is written into the journal, before the desk changes.
ghost use Rattle.std.specs.Prelude.{◌≡◌, ◌⊎◌, [], ◌∷◌, None, Some, IfOk, if◌then◌else◌};
ghost use Rattle.edge_kit.specs.declared.bytes.Root.{Root};
ghost use Rattle.slash_defs.specs.declared.book.File.{File};
ghost use Rattle.interchange_io.specs.WrittenOrder.{canonical};
ghost use Rattle.record_join.specs.Repeats.{repeats};
ghost use Rattle.record_replay.specs.Batches.{book_items, file_items, message_item, message_items};
ghost use Rattle.protect_record.specs.Pasts.{Past};
ghost use Rattle.desk_machine.specs.Written.{proposal_items};
ghost use Rattle.check_sign.specs.Writing.{HoldsJournal, IsWritable, Moved, Wrote, refusal_of};

use desk_machine::DeskReply;
use edge_kit::{Disk, PubKey};
use interchange_io::in_written_order;
use record_codec::{JournalItem, encode};
use record_journal::{AppendFault, Journal};
use record_replay::{book_items, file_items, message_item, message_items};
use slash_defs::{Book, File, Message};
use std::alloc::{AllocError, Global};

/// Writes a batch, if there is one. Takes memory before it writes.
pub fn write_items<D: Disk>(
    journal: &mut Journal<D>,
    alloc: Global,
    items: &[JournalItem],
) -> Result<(), AppendFault>
    requires batch { IsWritable items.now }
    requires up { journal.old.torn ≡ None }
    requires held { (g : Root) × HoldsJournal D.moment D.leaves g journal.old }
    ensures wrote { Wrote D.faults journal.old items.now journal.new result }
    ensures moved { Moved D.moment D.leaves D.faults journal.old journal.new }
    ensures holds { (g : Root) → HoldsJournal D.moment D.leaves g journal.old → HoldsJournal D.moment D.leaves g journal.new }
{
    if items.is_empty() {
        return Ok(());
    }
    let Ok(payload) = encode(alloc, items) else {
        return Err(AppendFault::OutOfMemory);
    };
    journal.append(alloc, payload)
}

/// Writes what a file holds, in written order. A file without keys writes nothing.
pub fn write_file<D: Disk>(
    journal: &mut Journal<D>,
    alloc: Global,
    file: &File,
) -> Result<(), AppendFault>
    requires up { journal.old.torn ≡ None }
    requires held { (g : Root) × HoldsJournal D.moment D.leaves g journal.old }
    ensures wrote { Wrote D.faults journal.old (file_items (canonical file.now).books) journal.new result }
    ensures moved { Moved D.moment D.leaves D.faults journal.old journal.new }
    ensures holds { (g : Root) → HoldsJournal D.moment D.leaves g journal.old → HoldsJournal D.moment D.leaves g journal.new }
{
    match items_of_file(alloc, file) {
        Ok(items) => write_items(journal, alloc, &items),
        Err(AllocError) => Err(AppendFault::OutOfMemory),
    }
}

/// The items of a file, in written order.
fn items_of_file(alloc: Global, file: &File) -> Result<Vec<JournalItem>, AllocError>
    ensures items { IfOk result (λ items. items.items ≡ file_items (canonical file.now).books) }
    ensures batch { IfOk result (λ items. IsWritable items.items) }
{
    let sorted = in_written_order(alloc, file)?;
    file_items(alloc, sorted.books.as_slice())
}

/// Writes the book that a key gains.
pub fn write_book<D: Disk>(
    journal: &mut Journal<D>,
    alloc: Global,
    listed: &(PubKey, Book),
) -> Result<(), AppendFault>
    requires up { journal.old.torn ≡ None }
    requires held { (g : Root) × HoldsJournal D.moment D.leaves g journal.old }
    ensures wrote { Wrote D.faults journal.old (book_items listed.now) journal.new result }
    ensures moved { Moved D.moment D.leaves D.faults journal.old journal.new }
    ensures holds { (g : Root) → HoldsJournal D.moment D.leaves g journal.old → HoldsJournal D.moment D.leaves g journal.new }
{
    match items_of_book(alloc, listed) {
        Ok(items) => write_items(journal, alloc, &items),
        Err(AllocError) => Err(AppendFault::OutOfMemory),
    }
}

/// The items of a book.
fn items_of_book(alloc: Global, listed: &(PubKey, Book)) -> Result<Vec<JournalItem>, AllocError>
    ensures items { IfOk result (λ items. items.items ≡ book_items listed.now) }
    ensures batch { IfOk result (λ items. IsWritable items.items) }
{
    book_items(alloc, listed)
}

/// Writes a proposal that passed. A repeat writes nothing.
pub fn write_message<D: Disk>(
    journal: &mut Journal<D>,
    alloc: Global,
    key: PubKey,
    message: &Message,
    repeat: bool,
) -> Result<(), AppendFault>
    requires up { journal.old.torn ≡ None }
    requires held { (g : Root) × HoldsJournal D.moment D.leaves g journal.old }
    ensures wrote { (past : Past) → repeat ≡ repeats past message.now → Wrote D.faults journal.old (proposal_items (Some past) key message.now) journal.new result }
    ensures wrote_own { Wrote D.faults journal.old (if repeat then [] else message_item key message.now ∷ []) journal.new result }
    ensures moved { Moved D.moment D.leaves D.faults journal.old journal.new }
    ensures holds { (g : Root) → HoldsJournal D.moment D.leaves g journal.old → HoldsJournal D.moment D.leaves g journal.new }
{
    if repeat {
        return write_items(journal, alloc, &[]);
    }
    write_items(journal, alloc, &[message_item(key, message)])
}

/// Writes messages of different keys by one batch. Where there is none, nothing is written.
pub fn write_messages<D: Disk>(
    journal: &mut Journal<D>,
    alloc: Global,
    listed: &[(PubKey, Message)],
) -> Result<(), AppendFault>
    requires up { journal.old.torn ≡ None }
    requires held { (g : Root) × HoldsJournal D.moment D.leaves g journal.old }
    ensures wrote { Wrote D.faults journal.old (message_items listed.now) journal.new result }
    ensures moved { Moved D.moment D.leaves D.faults journal.old journal.new }
    ensures holds { (g : Root) → HoldsJournal D.moment D.leaves g journal.old → HoldsJournal D.moment D.leaves g journal.new }
{
    match items_of_messages(alloc, listed) {
        Ok(items) => write_items(journal, alloc, &items),
        Err(AllocError) => Err(AppendFault::OutOfMemory),
    }
}

/// The items of messages, each of its key.
fn items_of_messages(
    alloc: Global,
    listed: &[(PubKey, Message)],
) -> Result<Vec<JournalItem>, AllocError>
    ensures items { IfOk result (λ items. items.items ≡ message_items listed.now) }
    ensures batch { IfOk result (λ items. IsWritable items.items) }
{
    message_items(alloc, listed)
}

/// What the desk replies where nothing was written.
pub fn refusal(fault: AppendFault) -> DeskReply
    ensures { result ≡ refusal_of fault }
{
    match fault {
        AppendFault::Disk => DeskReply::Disk,
        AppendFault::OutOfMemory => DeskReply::OutOfMemory,
        AppendFault::Full { size, wanted } => DeskReply::Full { size, wanted },
    }
}
