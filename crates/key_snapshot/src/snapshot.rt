//! The batches of one key's snapshot.
ghost use Rattle.std.specs.Prelude.{◌≡◌, ◌∷◌, ◌++◌, [], map, IfOk, OnOk};
ghost use Rattle.key_snapshot.specs.Snapshots.{snapshot_of};

use crate::entries::push_entries;
use edge_kit::PubKey;
use protect_record::Record;
use record_codec::JournalItem;
use record_replay::KeyState;
use std::alloc::{AllocError, Global};

/// The batches that bring a key back: its kept blocks and then its kept votes in file order, as one list cut into
/// batches of 4,096 entries, the last with the rest (no such batch for a key without entries); its floors alone;
/// and alone what says that it is active (also where it is closing) or closed, of a key that is either.
///
/// # Errors
///
/// `AllocError` where memory was wanted.
pub fn snapshot_batches(
    alloc: Global,
    key: &PubKey,
    state: KeyState,
    kept: &Record,
) -> Result<Vec<Vec<JournalItem>>, AllocError>
    ensures { IfOk result (λ batches. map (λ v. v.items) batches.items ≡ snapshot_of key.now state kept.now) }
{
    let key = *key;
    let mut batches = Vec::new(alloc);
    push_entries(&mut batches, alloc, key, kept)?;
    let floors = kept.floors();
    let item = JournalItem::Floors {
        key,
        block: floors.block,
        vote: floors.vote,
    };
    push_alone(&mut batches, alloc, item)?;
    match state {
        KeyState::Known => {}
        KeyState::Active | KeyState::Closing => {
            push_alone(&mut batches, alloc, JournalItem::ActivateUndated { key })?;
        }
        KeyState::Closed => push_alone(&mut batches, alloc, JournalItem::Close { key })?,
    }
    Ok(batches)
}

// Adds a batch of one item.
fn push_alone(
    batches: &mut Vec<Vec<JournalItem>>,
    alloc: Global,
    item: JournalItem,
) -> Result<(), AllocError>
    ensures { OnOk result (map (λ v. v.items) batches.new.items ≡ map (λ v. v.items) batches.old.items ++ (item ∷ []) ∷ []) }
{
    let mut batch = Vec::new(alloc);
    batch.push(item)?;
    batches.push(batch)?;
    Ok(())
}
