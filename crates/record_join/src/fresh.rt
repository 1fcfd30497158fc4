//! Keys that begin to be kept.
ghost use Rattle.std.specs.Prelude.{◌≡◌, ◌<◌, ◌≤◌, [], None, IsSome, IfOk, IfErr, OnOk, OnErr, length};
ghost use Rattle.record_join.specs.Keys.{kept_of, with_key};
ghost use Rattle.record_join.specs.BooksPasts.{IsBeginFault, key_limit};
ghost use Rattle.record_join.specs.Preparing.{Knows};

use crate::fault::BeginFault;
use crate::limit::no_more;
use crate::room::insert_fresh;
use edge_kit::PubKey;
use protect_record::Record;
use std::alloc::Global;
use std::collections::BTreeMap;

/// Keeps a key that is not kept with an empty record, and gives those that were not kept.
///
/// # Errors
///
/// `TooManyKeys` where no more may be kept, and `OutOfMemory`. Nothing has changed then.
pub fn make_fresh(
    kept: &mut BTreeMap<PubKey, Record>,
    alloc: Global,
    key: PubKey,
) -> Result<Vec<PubKey>, BeginFault>
    ensures knows { IfOk result (λ fresh. Knows kept.old.entries kept.new.entries key [] fresh.items) }
    ensures within { OnOk result (kept_of kept.old.entries key ≡ None → length kept.old.entries < key_limit) }
    ensures fault { IfErr result (IsBeginFault kept.old.entries key) }
    ensures err { OnErr result (kept.new.entries ≡ kept.old.entries) }
    ensures limit { length kept.old.entries ≤ key_limit → length kept.new.entries ≤ key_limit }
{
    if let Some(fault) = no_more(kept, &key) {
        return Err(fault);
    }
    let mut fresh = Vec::new(alloc);
    if kept.contains_key(&key) {
        return Ok(fresh);
    }
    let Ok(()) = insert_fresh(kept, alloc, key, (0, 0), &mut fresh) else {
        return Err(BeginFault::OutOfMemory);
    };
    Ok(fresh)
}

/// Keeps a key that is not kept with this record.
///
/// # Errors
///
/// `TooManyKeys` where no more may be kept, and `OutOfMemory`. Nothing has changed then.
pub fn insert_new(
    kept: &mut BTreeMap<PubKey, Record>,
    key: PubKey,
    record: Record,
) -> Result<(), BeginFault>
    ensures known { IsSome (kept_of kept.old.entries key) → OnOk result (kept.new.entries ≡ kept.old.entries) }
    ensures inserted { OnOk result (kept_of kept.old.entries key ≡ None → kept.new.entries ≡ with_key kept.old.entries key «record») }
    ensures within { OnOk result (kept_of kept.old.entries key ≡ None → length kept.old.entries < key_limit) }
    ensures fault { IfErr result (IsBeginFault kept.old.entries key) }
    ensures err { OnErr result (kept.new.entries ≡ kept.old.entries) }
    ensures limit { length kept.old.entries ≤ key_limit → length kept.new.entries ≤ key_limit }
{
    if let Some(fault) = no_more(kept, &key) {
        return Err(fault);
    }
    if kept.contains_key(&key) {
        return Ok(());
    }
    match kept.insert(key, record) {
        Ok(_) => Ok(()),
        Err(_) => Err(BeginFault::OutOfMemory),
    }
}
