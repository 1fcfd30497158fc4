//! What a merge of the file that forgets what is old refuses, and what it lets pass.
ghost use Rattle.std.specs.Prelude.{ℕ, List};
ghost use Rattle.edge_kit.specs.declared.bytes.PubKey.{PubKey};
ghost use Rattle.slash_defs.specs.declared.book.Book.{Book};
ghost use Rattle.slash_defs.specs.declared.book.File.{File};
ghost use Rattle.slash_defs.specs.declared.message.Message.{Message};
ghost use Rattle.protect_record.specs.Parts.{Parts};
ghost use Rattle.protect_record.specs.Pasts.{Past, with_book};
ghost use Rattle.protect_record.specs.Passing.{Passes};
ghost use Rattle.protect_record.specs.Standing.{Stands};
ghost use Rattle.protect_record.specs.Exporting.{export_of};
ghost use Rattle.record_join.specs.BooksPasts.{PassesAt, with_file};
ghost use Rattle.duty_pruning.specs.Pruning.{kept_from, pruning_book, pruning_file};
ghost use Rattle.pruning_law.specs.KeptEpochs.{AreExports, IsOfKeptEpoch};

/// One key, with a record that stands for its past. To forget what is old, what the record exports is cut: its blocks to
/// the newest of those before the epoch `from` and all after it, and its votes so by their targets, each list to nothing
/// where no more than `few` of it are that old. The book that is left is merged into the past. No message of the epoch
/// `from` or a later one is refused by this that passed before. Nor does any book that is merged let pass what did not
/// pass before.
pub fn book_law()
    ensures kept { (parts : Parts) (past : Past) (few from : ℕ) (m : Message) → Stands parts past → IsOfKeptEpoch from m → Passes past m
        → Passes (with_book past (pruning_book few from (export_of parts))) m }
    ensures nothing_more { (past : Past) (book : Book) (m : Message) → Passes (with_book past book) m → Passes past m }
{}

/// What is said of one book holds of a whole file that lists keys, each with what its record exports. The file that
/// forgets what is old of it, at the epoch `epoch`, is merged into the pasts of the keys. Of each key, no message of the
/// epoch `keep` epochs earlier or of a later one is refused by this that passed before; nor does one pass that did not
/// pass before.
pub fn file_law()
    ensures kept { (pasts : List (PubKey × Past)) (keep epoch : ℕ) (file : File) (key : PubKey) (m : Message) → AreExports pasts file.books → IsOfKeptEpoch (kept_from keep epoch) m
        → PassesAt pasts key m → PassesAt (with_file pasts (pruning_file keep epoch file).books) key m }
    ensures nothing_more { (pasts : List (PubKey × Past)) (keep epoch : ℕ) (file : File) (key : PubKey) (m : Message) → AreExports pasts file.books
        → PassesAt (with_file pasts (pruning_file keep epoch file).books) key m → PassesAt pasts key m }
{}
