//! Records that are made ready, so that more can be taken in without refusal.
ghost use Rattle.std.specs.Prelude.{◌≡◌, ◌+◌, List, None, false, All, IsSomeAnd, OnOk, OnErr, length, is_some, if◌then◌else◌};
ghost use Rattle.std.specs.BTreeMap.{is_at};
ghost use Rattle.edge_kit.specs.declared.bytes.PubKey.{PubKey};
ghost use Rattle.protect_record.specs.Parts.{Parts, SameParts};
ghost use Rattle.record_join.specs.Keys.{key_cmp, kept_of, EachKey};
ghost use Rattle.record_join.specs.Preparing.{AreFresh, HasRoomFor, Knows, MakesRoom, no_parts, with_each};

use edge_kit::PubKey;
use protect_record::Record;
use std::alloc::{AllocError, Global};
use std::collections::BTreeMap;

/// Makes room for so many more blocks and votes of a key. A key that is not kept is, with an empty record, and
/// is noted behind the fresh ones.
///
/// # Errors
///
/// `AllocError` where memory was wanted. The record may have more room then.
pub fn make_room(
    kept: &mut BTreeMap<PubKey, Record>,
    alloc: Global,
    key: &PubKey,
    size: (usize, usize),
    fresh: &mut Vec<PubKey>,
) -> Result<(), AllocError>
    ensures makes { MakesRoom kept.old.entries kept.new.entries key.now fresh.old.items fresh.new.items }
    ensures room { OnOk result (IsSomeAnd (kept_of kept.new.entries key.now) (λ parts. HasRoomFor parts size)) }
    ensures noted { OnOk result (length fresh.new.items ≡ length fresh.old.items + (if is_some (kept_of kept.old.entries key.now) then 0 else 1)) }
{
    if let Some(record) = kept.get_mut(key) {
        return record.reserve(size.0, size.1);
    }
    insert_fresh(kept, alloc, *key, size, fresh)
}

/// Takes fresh keys out again, the last first.
pub fn take_out(kept: &mut BTreeMap<PubKey, Record>, mut fresh: Vec<PubKey>)
    ensures same { (before : List (PubKey × Parts)) → AreFresh no_parts before fresh.items → EachKey SameParts (with_each no_parts before fresh.items) kept.old.entries
        → EachKey SameParts before kept.new.entries }
    ensures others { (key : PubKey) → All (λ other. is_at (key_cmp other) key ≡ false) fresh.items → kept_of kept.new.entries key ≡ kept_of kept.old.entries key }
{
    'fresh: while let Some(key) = fresh.pop() {
        let _ = kept.remove(&key);
    }
}

/// Keeps a key that is not kept with an empty record, which has room for so many blocks and votes, and notes it
/// behind the fresh ones.
///
/// # Errors
///
/// `AllocError` where memory was wanted. Nothing has changed then.
pub fn insert_fresh(
    kept: &mut BTreeMap<PubKey, Record>,
    alloc: Global,
    key: PubKey,
    size: (usize, usize),
    fresh: &mut Vec<PubKey>,
) -> Result<(), AllocError>
    requires { kept_of kept.old.entries key ≡ None }
    ensures knows { OnOk result (Knows kept.old.entries kept.new.entries key fresh.old.items fresh.new.items) }
    ensures room { OnOk result (IsSomeAnd (kept_of kept.new.entries key) (λ parts. HasRoomFor parts size)) }
    ensures err { OnErr result ((kept.new.entries ≡ kept.old.entries) × (fresh.new.items ≡ fresh.old.items)) }
{
    let mut record = Record::new(alloc);
    record.reserve(size.0, size.1)?;
    fresh.reserve(1)?;
    if kept.insert(key, record).is_err() {
        return Err(AllocError);
    }
    let _ = fresh.push(key);
    Ok(())
}
