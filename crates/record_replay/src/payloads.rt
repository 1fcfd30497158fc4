//! The keys of a journal, as its payloads make them.
ghost use Rattle.std.specs.Prelude.{◌≡◌, ◌≤◌, List, Some, length, IfOk, IfErr};
ghost use Rattle.std.specs.Map.{keys_of};
ghost use Rattle.edge_kit.specs.declared.bytes.PubKey.{PubKey};
ghost use Rattle.protect_record.specs.Parts.{Parts};
ghost use Rattle.protect_record.specs.Pasts.{Past};
ghost use Rattle.record_join.specs.Keys.{EachKey, kept_of};
ghost use Rattle.record_join.specs.BooksPasts.{BooksStand, key_limit};
ghost use Rattle.record_replay.specs.Gathering.{IsGathered, IsRecordOf};
ghost use Rattle.record_replay.specs.Items.{items_in, named_keys, states_in};
ghost use Rattle.record_replay.specs.Replaying.{IsReplayed, IsReplayFault, ItemsStand, lasting_states};
ghost use Rattle.record_replay.specs.Watches.{AreWatchesOf, Watched, watches_in};
ghost use Rattle.record_replay.specs.declared.state.KeyState.{KeyState};

use crate::fault::ReplayFault;
use crate::histories::Histories;
use crate::key_history::KeyHistory;
use crate::state::KeyState;
use doppel_watch::Watch;
use edge_kit::PubKey;
use journal_frames::Reader;
use record_codec::JournalVersion;
use record_join::{BeginFault, Books, KEY_LIMIT};
use std::alloc::{AllocError, Global};
use std::collections::BTreeMap;

/// The keys that a journal's payloads name: the record of each, the state of those that were activated or closed,
/// and the watch of those that were activated at an epoch and not closed since.
#[derive(Drop)]
pub struct Replayed {
    pub books: Books,
    pub states: BTreeMap<PubKey, KeyState>,
    pub watches: BTreeMap<PubKey, Watch>,
}

/// Replays the payloads that a reader lends of a file of this version, one at a time, in time linear in their size but for
/// sorting. Each key that an item names is kept; its record has the greatest of each floor, and the entries that still count; a
/// key is active or closed as the last of its items says. A key that became active at an epoch has a watch, which began then
/// and was told the answers since; one that was closed, or of whose activation no epoch is said, has none.
///
/// # Errors
///
/// `TooManyKeys` exactly where more than 65,536 different keys are named, and `OutOfMemory`.
pub fn replay(
    alloc: Global,
    version: JournalVersion,
    reader: Reader,
) -> Result<Replayed, ReplayFault>
    ensures keys { IfOk result (λ r. keys_of r.books ≡ named_keys (items_in version reader)) }
    ensures each { IfOk result (λ r. (key : PubKey) (parts : Parts) → kept_of r.books key ≡ Some parts → IsReplayed (items_in version reader) key parts) }
    ensures states { IfOk result (λ r. r.states.entries ≡ states_in (items_in version reader)) }
    ensures watches { IfOk result (λ r. AreWatchesOf r.watches.entries (watches_in (items_in version reader))) }
    ensures limit { IfOk result (λ r. length r.books ≤ key_limit) }
    // The records and the watches stand for whichever pasts and watches the items stand for.
    ensures stands { IfOk result (λ r. (pasts : List (PubKey × Past)) (states : List (PubKey × KeyState)) (watched : List (PubKey × Watched)) → ItemsStand (items_in version reader) pasts states watched
        → BooksStand r.books pasts × (r.states.entries ≡ lasting_states states) × AreWatchesOf r.watches.entries watched) }
    ensures fault { IfErr result (IsReplayFault (items_in version reader)) }
{
    let mut reader = reader;
    let Ok(histories) = gather(alloc, version, &mut reader) else {
        return Err(ReplayFault::OutOfMemory);
    };
    let new = histories.keys.len();
    if new > KEY_LIMIT {
        return Err(ReplayFault::TooManyKeys {
            have: 0,
            new: new as u64,
        });
    }
    let Ok(books) = books_of(alloc, histories.keys) else {
        return Err(ReplayFault::OutOfMemory);
    };
    Ok(Replayed {
        books,
        states: histories.states,
        watches: histories.watches,
    })
}

/// What the items of the payloads that are left say of each key; then none are left.
fn gather(
    alloc: Global,
    version: JournalVersion,
    reader: &mut Reader,
) -> Result<Histories, AllocError>
    ensures { IfOk result (λ g. IsGathered (items_in version reader.old) g.keys.entries g.states.entries g.watches.entries) }
{
    let mut histories = Histories::new(alloc);
    while let Some(payload) = reader.first() {
        histories.take_payload(alloc, version, payload)?;
        reader.skip();
    }
    Ok(histories)
}

/// The record of each key, of what was gathered of it.
fn books_of(alloc: Global, keys: BTreeMap<PubKey, KeyHistory>) -> Result<Books, BeginFault>
    ensures { IfOk result (λ books. EachKey IsRecordOf keys.entries books) }
{
    let mut books = Books::new(alloc);
    'keys: for (key, gathered) in keys {
        let Ok(record) = gathered.into_record() else {
            return Err(BeginFault::OutOfMemory);
        };
        books.insert(key, record)?;
    }
    Ok(books)
}
