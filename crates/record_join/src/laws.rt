//! Laws of files and joins, for the layers above.
ghost use Rattle.std.specs.Prelude.{◌≡◌, ◌↔◌, ◌⊎◌, List, Option, None, Some, IsSome, false, true};
ghost use Rattle.std.specs.BTreeMap.{is_at};
ghost use Rattle.std.specs.Cmp.{IsTotalOrder};
ghost use Rattle.std.specs.Map.{keys_of};
ghost use Rattle.edge_kit.specs.declared.bytes.PubKey.{PubKey};
ghost use Rattle.slash_defs.specs.declared.book.Book.{Book};
ghost use Rattle.slash_defs.specs.declared.message.Message.{Message};
ghost use Rattle.protect_record.specs.Pasts.{Past, then_past, with_book, with_own};
ghost use Rattle.protect_record.specs.Standing.{Stands};
ghost use Rattle.record_join.specs.Keys.{key_cmp, kept_of, EachKey};
ghost use Rattle.protect_record.specs.Parts.{Parts, SameParts};
ghost use Rattle.record_join.specs.BooksPasts.{BooksStand, EachOnce, PassesAt, gained, joined, with_file};
ghost use Rattle.record_join.specs.KeyByKey.{EachTakes, StandsOf, Takes, TakesBook, TakesMessage, TakesRecord};
ghost use Rattle.record_join.specs.Preparing.{AreTaken, IsPrepared};
ghost use Rattle.record_join.specs.Repeats.{IsRepeat, repeats};

use std::cmp::Ordering;

/// What is kept of each key after a file or a join. What passes after a join does not depend on its order or
/// on repeats.
pub fn books_join_laws()
    ensures file { (pasts : List (PubKey × Past)) (books : List (PubKey × Book)) (key : PubKey) → EachOnce books
        → kept_of (with_file pasts books) key ≡ gained with_book (kept_of pasts key) (kept_of books key) }
    ensures join { (pasts others : List (PubKey × Past)) (key : PubKey) → EachOnce others
        → kept_of (joined pasts others) key ≡ gained then_past (kept_of pasts key) (kept_of others key) }
    ensures commutative { (pasts others : List (PubKey × Past)) (key : PubKey) (m : Message) → EachOnce pasts → EachOnce others
        → PassesAt (joined pasts others) key m ↔ PassesAt (joined others pasts) key m }
    ensures idempotent { (pasts : List (PubKey × Past)) (key : PubKey) (m : Message) → EachOnce pasts
        → PassesAt (joined pasts pasts) key m ↔ PassesAt pasts key m }
{}

/// Keys that were made ready for books were taken as fresh ones.
pub fn prepared_law()
    ensures { (before : List (PubKey × Parts)) (listed : List (PubKey × Book)) (fresh : List PubKey) (now : List (PubKey × Parts))
        → IsPrepared before listed fresh now → AreTaken before fresh now }
{}

/// A message is a repeat exactly where the past has it, root and all.
pub fn repeat_law()
    ensures { (past : Past) (m : Message) → (repeats past m ≡ true) ↔ IsRepeat past m }
{}

/// A key is found where it stands and nowhere else, and keys are ordered totally.
pub fn key_laws()
    ensures itself { (key : PubKey) → is_at (key_cmp key) key ≡ true }
    ensures found { (key other : PubKey) → is_at (key_cmp key) other ≡ true → key ≡ other }
    ensures apart { (key other : PubKey) → is_at (key_cmp key) other ≡ false → is_at (key_cmp other) key ≡ false }
    ensures exact { (key other : PubKey) → key_cmp key other ≡ Ordering.Equal → key ≡ other }
    ensures total { IsTotalOrder key_cmp }
{}

/// Where each record stands for the past of its key: the keys are the same, so each key's record stands for
/// its past, and more room changes nothing.
pub fn books_stand_law()
    ensures keys { (kept : List (PubKey × Parts)) (pasts : List (PubKey × Past)) → BooksStand kept pasts → keys_of kept ≡ keys_of pasts }
    ensures each { (kept : List (PubKey × Parts)) (pasts : List (PubKey × Past)) (key : PubKey) → BooksStand kept pasts → StandsOf (kept_of kept key) (kept_of pasts key) }
    ensures found { (kept : List (PubKey × Parts)) (pasts : List (PubKey × Past)) (key : PubKey) (parts : Parts) → BooksStand kept pasts → kept_of kept key ≡ Some parts
        → (past : Past) × (kept_of pasts key ≡ Some past) × Stands parts past }
    ensures absent { (kept : List (PubKey × Parts)) (pasts : List (PubKey × Past)) (key : PubKey) → BooksStand kept pasts → kept_of kept key ≡ None → kept_of pasts key ≡ None }
    ensures same { (old new : List (PubKey × Parts)) (pasts : List (PubKey × Past)) → EachKey SameParts old new → BooksStand old pasts → BooksStand new pasts }
{}

/// What one key's record stands for after something was taken in, whatever is kept of the others: its past with
/// the book that is listed for it, with the past of the record that is joined, or with the own message; and
/// which keys are kept then.
pub fn takes_law()
    ensures book { (listed : List (PubKey × Book)) (old new : List (PubKey × Parts)) (key : PubKey) (past : Option Past) → EachTakes TakesBook listed old new → StandsOf (kept_of old key) past
        → StandsOf (kept_of new key) (gained with_book past (kept_of listed key)) }
    ensures join { (others old new : List (PubKey × Parts)) (key : PubKey) (past other : Option Past) → EachTakes TakesRecord others old new → StandsOf (kept_of old key) past → StandsOf (kept_of others key) other
        → StandsOf (kept_of new key) (gained then_past past other) }
    ensures message { (old new : List (PubKey × Parts)) (key : PubKey) (m : Message) (past : Past) → Takes TakesMessage old new key m → StandsOf (kept_of old key) (Some past)
        → StandsOf (kept_of new key) (Some (with_own past m)) }
    ensures keys { (listed : List (PubKey × Book)) (old new : List (PubKey × Parts)) (key : PubKey) → EachTakes TakesBook listed old new
        → IsSome (kept_of new key) ↔ (IsSome (kept_of old key) ⊎ IsSome (kept_of listed key)) }
    ensures joined_keys { (others old new : List (PubKey × Parts)) (key : PubKey) → EachTakes TakesRecord others old new
        → IsSome (kept_of new key) ↔ (IsSome (kept_of old key) ⊎ IsSome (kept_of others key)) }
{}
