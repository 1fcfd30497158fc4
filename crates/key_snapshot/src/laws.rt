//! What the batches of a snapshot are to a journal, and what their replay brings back.
ghost use Rattle.std.specs.Prelude.{◌≡◌, ℕ, ◌<◌, ◌≤◌, ◌++◌, List, [], ◌∷◌, None, flat_map, sum_by};
ghost use Rattle.std.specs.List.{AllByRecursion};
ghost use Rattle.edge_kit.specs.declared.bytes.PubKey.{PubKey};
ghost use Rattle.protect_record.specs.Gathering.{IsWellKept, SameEntries};
ghost use Rattle.protect_record.specs.Parts.{Parts};
ghost use Rattle.protect_record.specs.Pasts.{Past};
ghost use Rattle.protect_record.specs.Standing.{Stands};
ghost use Rattle.record_codec.specs.Spelling.{IsBatch, IsOf};
ghost use Rattle.record_codec.specs.declared.version.JournalVersion.TheVariants.{One};
ghost use Rattle.record_codec.specs.declared.item.JournalItem.{JournalItem};
ghost use Rattle.record_join.specs.Keys.{kept_of, with_key};
ghost use Rattle.record_replay.specs.Items.{items_in, named_keys, states_in};
ghost use Rattle.record_replay.specs.Replaying.{IsReplayed, ItemsStand, lasting_states};
ghost use Rattle.record_replay.specs.declared.state.KeyState.{KeyState};
ghost use Rattle.key_snapshot.specs.Cuts.{cut, AreFilled};
ghost use Rattle.key_snapshot.specs.Restoring.{AreRead, with_held};
ghost use Rattle.key_snapshot.specs.Snapshots.{items_of, snapshot_of};
ghost use Rattle.key_snapshot.specs.Weights.{IsSized, framed_size, key_weight};

use record_replay::KeyState;

/// The batches of a snapshot are batches of a journal, of items that the first version has. A list that is cut keeps its items in order; each part but
/// the last is full, and none is empty. Payloads that are read as batches have the items of the batches.
pub fn batches_law()
    ensures batches { (key : PubKey) (state : KeyState) (parts : Parts) → AllByRecursion IsBatch (snapshot_of key state parts) }
    ensures versions { (key : PubKey) (state : KeyState) (parts : Parts) → AllByRecursion (AllByRecursion (IsOf One)) (snapshot_of key state parts) }
    ensures joined { (limit : ℕ) (items : List JournalItem) → 0 < limit → items_of (cut limit items) ≡ items }
    ensures filled { (limit : ℕ) (items : List JournalItem) → 0 < limit → AreFilled limit (cut limit items) }
    ensures read { (payloads : List (List ℕ)) (batches : List (List JournalItem)) → AreRead payloads batches → items_in One payloads ≡ items_of batches }
{}

/// The replay of a key's snapshot brings back its record, with the same floors and entries and nothing else, and
/// its state, but that a closing key is active. So where items stand for the pasts of other keys, they stand with
/// the items of the snapshot also for the past that the record stands for.
pub fn restoring_law()
    ensures named { (key : PubKey) (state : KeyState) (parts : Parts) → named_keys (items_of (snapshot_of key state parts)) ≡ key ∷ [] }
    ensures brought_back { (key : PubKey) (state : KeyState) (parts : Parts) → IsWellKept parts.floors parts.blocks parts.votes
        → IsReplayed (items_of (snapshot_of key state parts)) key parts }
    ensures nothing_else { (key : PubKey) (state : KeyState) (parts other : Parts) → IsWellKept parts.floors parts.blocks parts.votes
        → IsReplayed (items_of (snapshot_of key state parts)) key other → SameEntries parts other }
    ensures states { (key : PubKey) (state : KeyState) (parts : Parts) → states_in (items_of (snapshot_of key state parts)) ≡ lasting_states (with_held [] key state) }
    ensures stands { (items : List JournalItem) (keys : List (PubKey × Past)) (states : List (PubKey × KeyState)) (key : PubKey) (state : KeyState) (parts : Parts) (past : Past)
        → ItemsStand items keys states [] → kept_of keys key ≡ None → Stands parts past
        → ItemsStand (items ++ items_of (snapshot_of key state parts)) (with_key keys key past) (with_held states key state) [] }
{}

/// The snapshots of keys take no more bytes in a file than the keys' records weigh, whatever the states of the keys.
pub fn weighing_law()
    ensures { (state_of : PubKey → KeyState) (keys : List (PubKey × Parts)) → AllByRecursion (λ kept. IsSized kept.0 kept.1) keys
        → framed_size (flat_map (λ kept. snapshot_of kept.0 (state_of kept.0) kept.1) keys) ≤ sum_by (λ kept. key_weight kept.1) keys }
{}
