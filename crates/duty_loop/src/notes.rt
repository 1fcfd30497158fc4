//! What is to be noted of an answer on liveness.
ghost use Rattle.std.specs.Prelude.{◌≡◌, ◌==◌, ◌++◌, IfOk, OnOk, filter};
ghost use Rattle.std.specs.List.Sorted.{IsSortedByKey};
ghost use Rattle.std.specs.Ordering.{nat_cmp};
ghost use Rattle.record_join.specs.Keys.{kept_of};
ghost use Rattle.duty_turns.specs.Turns.{notes_of};
ghost use Rattle.duty_loop.specs.Asked.{AskedKey, IsByIndex, asked_keys, notes_on, with_asked, with_index};

use edge_kit::PubKey;
use node_calls::LivenessRow;
use std::alloc::{AllocError, Global};
use std::collections::BTreeMap;

/// What each row says of the keys that were asked for by its index, row by row and in the order of the keys. The
/// error is want of memory.
pub(crate) fn notes_of(
    alloc: Global,
    indices: &BTreeMap<PubKey, u64>,
    keys: &[PubKey],
    rows: &[LivenessRow],
) -> Result<Vec<(PubKey, bool)>, AllocError>
    ensures { IfOk result (λ notes. notes.items ≡ notes_of indices.now.entries keys.now rows.now) }
{
    let asked = by_index(alloc, indices, keys)?;
    let mut notes = Vec::new(alloc);
    'rows: for row in rows {
        let of_row = keys_of(asked.as_slice(), row.index);
        push_notes(&mut notes, of_row, row.is_live)?;
    }
    Ok(notes)
}

/// Puts a note of each of these keys after others. The error is want of memory.
fn push_notes(
    notes: &mut Vec<(PubKey, bool)>,
    asked: &[(u64, PubKey)],
    live: bool,
) -> Result<(), AllocError>
    ensures { OnOk result (notes.new.items ≡ notes.old.items ++ notes_on live asked.now) }
{
    'keys: for asked in asked {
        notes.push((asked.1, live))?;
    }
    Ok(())
}

/// The keys that have an index, each with it, by index and then in their order. The error is want of memory.
fn by_index(
    alloc: Global,
    indices: &BTreeMap<PubKey, u64>,
    keys: &[PubKey],
) -> Result<Vec<(u64, PubKey)>, AllocError>
    ensures { IfOk result (λ asked. IsByIndex indices.now.entries keys.now asked.items) }
{
    let mut asked = with_indices(alloc, indices, keys)?;
    asked.sort_by_key(|asked| asked.0)?;
    Ok(asked)
}

/// The keys that have an index, each with it, in their order. The error is want of memory.
fn with_indices(
    alloc: Global,
    indices: &BTreeMap<PubKey, u64>,
    keys: &[PubKey],
) -> Result<Vec<(u64, PubKey)>, AllocError>
    ensures { IfOk result (λ asked. asked.items ≡ asked_keys indices.now.entries keys.now) }
{
    let mut asked = Vec::new(alloc);
    'keys: for key in keys {
        push_asked(&mut asked, asked_key(indices, key))?;
    }
    Ok(asked)
}

/// A key with its index before it, if it has one.
fn asked_key(indices: &BTreeMap<PubKey, u64>, key: &PubKey) -> Option<(u64, PubKey)>
    ensures { result ≡ with_index key.now (kept_of indices.now.entries key.now) }
{
    match indices.get(key) {
        Some(index) => Some((*index, *key)),
        None => None,
    }
}

/// Puts a key with its index, if it has one, after others. The error is want of memory.
fn push_asked(asked: &mut Vec<(u64, PubKey)>, one: Option<(u64, PubKey)>) -> Result<(), AllocError>
    ensures { OnOk result (asked.new.items ≡ with_asked asked.old.items one) }
{
    if let Some(one) = one {
        asked.push(one)?;
    }
    Ok(())
}

/// Of keys by index, those with this one.
fn keys_of(asked: &[(u64, PubKey)], index: u64) -> &[(u64, PubKey)]
    requires { IsSortedByKey (λ (a : AskedKey). a.0) nat_cmp asked.now }
    ensures { result.now ≡ filter (λ (a : AskedKey). a.0 == index) asked.now }
{
    let begin = asked.partition_point(|asked| asked.0 < index);
    let (_, rest) = asked.split_at(begin);
    let end = rest.partition_point(|asked| asked.0 <= index);
    rest.split_at(end).0
}
