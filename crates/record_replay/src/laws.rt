//! What a change makes of the items and of the pasts that they stand for, for the layers above.
ghost use Rattle.std.specs.Prelude.{◌≡◌, ℕ, List, [], ◌∷◌, ◌++◌, true, Some, IsSome, IsSomeAnd};
ghost use Rattle.doppel_watch.specs.Watching.{Telling};
ghost use Rattle.edge_kit.specs.declared.bytes.PubKey.{PubKey};
ghost use Rattle.slash_defs.specs.declared.book.Book.{Book};
ghost use Rattle.slash_defs.specs.declared.book.File.{File};
ghost use Rattle.slash_defs.specs.declared.message.Message.{Message};
ghost use Rattle.protect_record.specs.Gathering.{SameEntries};
ghost use Rattle.protect_record.specs.Parts.{Parts};
ghost use Rattle.protect_record.specs.Pasts.{Past};
ghost use Rattle.protect_record.specs.Standing.{Stands};
ghost use Rattle.protect_record.specs.Exporting.{prune_book};
ghost use Rattle.record_replay.specs.Pruning.{pruning_of, record_of};
ghost use Rattle.interchange_io.specs.WrittenOrder.{canonical};
ghost use Rattle.record_codec.specs.declared.item.JournalItem.{JournalItem};
ghost use Rattle.record_codec.specs.declared.item.JournalItem.TheVariants as item;
ghost use Rattle.record_join.specs.Keys.{kept_of, with_key, with_kept};
ghost use Rattle.record_join.specs.BooksPasts.{EachOnce, own_grown, with_file};
ghost use Rattle.record_replay.specs.Batches.{answer_item, book_items, file_items, message_item};
ghost use Rattle.record_replay.specs.Replaying.{ItemsStand, with_known};
ghost use Rattle.record_replay.specs.Watches.{Watched, fresh_watch, with_telling, without_watch};
ghost use Rattle.record_replay.specs.declared.state.KeyState.{KeyState};

use crate::state::KeyState;

/// What is written of a change makes of the items just what the change makes of the pasts, the states and the
/// watches: an activation, with which a watch begins (none where its epoch isn't said); an answer, which joins the
/// watch of its key; a closing, which ends the watch (and of whose beginning nothing is written); an own message (a
/// repeat writes nothing), a file that is merged, and a book that one key gains, which leave the watches.
pub fn replay_laws()
    ensures none { ItemsStand [] [] [] [] }
    ensures activated { (items : List JournalItem) (keys : List (PubKey × Past)) (states : List (PubKey × KeyState)) (watched : List (PubKey × Watched)) (key : PubKey) (epoch : ℕ) → ItemsStand items keys states watched
        → ItemsStand (items ++ item.Activate key epoch ∷ []) (with_known keys key) (with_key states key KeyState.Active) (with_key watched key (fresh_watch epoch)) }
    ensures undated { (items : List JournalItem) (keys : List (PubKey × Past)) (states : List (PubKey × KeyState)) (watched : List (PubKey × Watched)) (key : PubKey) → ItemsStand items keys states watched
        → ItemsStand (items ++ item.ActivateUndated key ∷ []) (with_known keys key) (with_key states key KeyState.Active) (without_watch watched key) }
    ensures answered { (items : List JournalItem) (keys : List (PubKey × Past)) (states : List (PubKey × KeyState)) (watched : List (PubKey × Watched)) (key : PubKey) (telling : Telling) → ItemsStand items keys states watched
        → IsSome (kept_of keys key) → ItemsStand (items ++ answer_item key telling ∷ []) keys states (with_telling watched key telling) }
    ensures closing { (items : List JournalItem) (keys : List (PubKey × Past)) (states : List (PubKey × KeyState)) (watched : List (PubKey × Watched)) (key : PubKey) → ItemsStand items keys states watched
        → kept_of states key ≡ Some KeyState.Active → ItemsStand items keys (with_kept states key KeyState.Closing) watched }
    ensures closed { (items : List JournalItem) (keys : List (PubKey × Past)) (states : List (PubKey × KeyState)) (watched : List (PubKey × Watched)) (key : PubKey) → ItemsStand items keys states watched
        → IsSome (kept_of keys key) → IsSome (kept_of states key) → ItemsStand (items ++ item.Close key ∷ []) keys (with_kept states key KeyState.Closed) (without_watch watched key) }
    ensures own { (items : List JournalItem) (keys : List (PubKey × Past)) (states : List (PubKey × KeyState)) (watched : List (PubKey × Watched)) (key : PubKey) (m : Message) → ItemsStand items keys states watched
        → IsSome (kept_of keys key) → ItemsStand (items ++ message_item key m ∷ []) (own_grown keys key m) states watched }
    ensures merged { (items : List JournalItem) (keys : List (PubKey × Past)) (states : List (PubKey × KeyState)) (watched : List (PubKey × Watched)) (file : File) → ItemsStand items keys states watched
        → EachOnce file.books → ItemsStand (items ++ file_items (canonical file).books) (with_file keys file.books) states watched }
    ensures gained { (items : List JournalItem) (keys : List (PubKey × Past)) (states : List (PubKey × KeyState)) (watched : List (PubKey × Watched)) (key : PubKey) (book : Book) → ItemsStand items keys states watched
        → ItemsStand (items ++ book_items (key, book)) (with_file keys ((key, book) ∷ [])) states watched }
{}

/// A record that stands for a past has the floors and the entries of the past's own record.
pub fn record_law()
    ensures { (parts : Parts) (past : Past) → Stands parts past → SameEntries parts (record_of past) }
{}

/// The book that prunes a record is the one of the past that it stands for.
pub fn pruning_law()
    ensures { (parts : Parts) (past : Past) → Stands parts past → prune_book parts ≡ pruning_of past }
{}
