//! Records that are joined to the records of their keys.
ghost use Rattle.std.specs.Prelude.{◌≡◌, List, IsSomeAnd, OnOk, OnErr, length};
ghost use Rattle.std.specs.List.Sorted.{IsStrictlySortedBy};
ghost use Rattle.std.specs.Map.{keys_of};
ghost use Rattle.edge_kit.specs.declared.bytes.PubKey.{PubKey};
ghost use Rattle.protect_record.specs.Parts.{SameParts};
ghost use Rattle.protect_record.specs.Pasts.{Past};
ghost use Rattle.record_join.specs.Keys.{key_cmp, kept_of, EachKey};
ghost use Rattle.record_join.specs.BooksPasts.{BooksStand, KeepsOthers, joined};
ghost use Rattle.record_join.specs.KeyByKey.{EachTakes, Takes, TakesRecord};
ghost use Rattle.record_join.specs.Preparing.{HasRoomFor, HaveRoomFor, IsReady, parts_size};

use crate::room::{make_room, take_out};
use edge_kit::PubKey;
use protect_record::{Record, join_laws};
use std::alloc::{AllocError, Global};
use std::collections::BTreeMap;

/// Keeps each key of the others, with room for what is kept of it. After an error each record keeps what it
/// kept.
///
/// # Errors
///
/// `AllocError` where memory was wanted.
pub fn prepare_records(
    kept: &mut BTreeMap<PubKey, Record>,
    alloc: Global,
    others: &BTreeMap<PubKey, Record>,
) -> Result<(), AllocError>
    ensures ready { OnOk result ((fresh : List PubKey) × IsReady parts_size kept.old.entries others.now.entries fresh kept.new.entries) }
    ensures err { OnErr result (EachKey SameParts kept.old.entries kept.new.entries) }
    ensures others { KeepsOthers others.now.entries kept.old.entries kept.new.entries }
{
    let mut fresh = Vec::new(alloc);
    'others: for (key, record) in others {
        let Ok(()) = make_room(kept, alloc, key, size_of(record), &mut fresh) else {
            take_out(kept, fresh);
            return Err(AllocError);
        };
    }
    Ok(())
}

/// Joins each of the others to the record of its key, in the room that there is.
pub fn join_records(kept: &mut BTreeMap<PubKey, Record>, others: &BTreeMap<PubKey, Record>)
    requires { HaveRoomFor parts_size kept.old.entries others.now.entries }
    ensures each { EachTakes TakesRecord others.now.entries kept.old.entries kept.new.entries }
    ensures stands { (pasts more : List (PubKey × Past)) → BooksStand kept.old.entries pasts → BooksStand others.now.entries more → BooksStand kept.new.entries (joined pasts more) }
    ensures len { length kept.new.entries ≡ length kept.old.entries }
{
    'others: for (key, record) in others {
        join_at(kept, key, record);
    }
}

/// Joins a record to the record of its key, in the room that there is.
fn join_at(kept: &mut BTreeMap<PubKey, Record>, key: &PubKey, more: &Record)
    requires { IsSomeAnd (kept_of kept.old.entries key.now) (λ parts. HasRoomFor parts (parts_size more.now)) }
    ensures takes { Takes TakesRecord kept.old.entries kept.new.entries key.now more.now }
    ensures ordered { IsStrictlySortedBy key_cmp (keys_of kept.old.entries) }
    ensures len { length kept.new.entries ≡ length kept.old.entries }
{
    join_laws();
    // Of every record it is known that none of its entries is dead.
    let _ = more.floors();
    if let Some(record) = kept.get_mut(key) {
        record.join_reserved(more);
    }
}

/// How many blocks and votes a record keeps.
fn size_of(other: &Record) -> (usize, usize)
    ensures { result ≡ parts_size other.now }
{
    let blocks = other.blocks();
    let votes = other.votes();
    (blocks.count(), votes.count())
}
