//! A message that is judged by the record of its key, and added to it.
ghost use Rattle.std.specs.Prelude.{◌≡◌, Bool, List, IsTrue, length};
ghost use Rattle.protect_record.specs.Parts.{SameParts};
ghost use Rattle.edge_kit.specs.declared.bytes.PubKey.{PubKey};
ghost use Rattle.protect_record.specs.Pasts.{Past};
ghost use Rattle.record_join.specs.BooksPasts.{AreNew, BooksStand, EachOnce, own_grown, with_messages};
ghost use Rattle.record_join.specs.KeyByKey.{EachTakes, Takes, TakesMessage};
ghost use Rattle.record_join.specs.Keys.{EachKey};
ghost use Rattle.record_join.specs.Taking.{AreNewIn, AreReadyFor, IsReadyFor, JudgesKept};
ghost use Rattle.record_join.specs.declared.judgement.JudgedAll.TheVariants as JudgedAll;

use crate::judgement::{Judged, JudgedAll};
use edge_kit::PubKey;
use protect_record::{Record, Verdict};
use slash_defs::Message;
use std::collections::BTreeMap;

/// Judges a message by the record of its key, and makes room for it there.
pub fn judge(
    kept: &mut BTreeMap<PubKey, Record>,
    key: &PubKey,
    message: &Message,
    has_room: bool,
) -> Judged
    ensures judges { JudgesKept kept.old.entries kept.new.entries key.now message.now result }
    ensures room { (repeat : Bool) → result ≡ Judged.Ready repeat → IsTrue has_room }
{
    let Some(record) = kept.get_mut(key) else {
        return Judged::Unknown;
    };
    let reserved = record.reserve(1, 1);
    let verdict = record.check(message);
    if verdict != Verdict::Pass {
        return Judged::Refused(verdict);
    }
    if !has_room || reserved.is_err() {
        return Judged::NoRoom;
    }
    let repeat = record.keeps(message);
    Judged::Ready { repeat }
}

/// Adds a message to the record of its key, which lets it pass and has room for it.
pub fn add(kept: &mut BTreeMap<PubKey, Record>, key: &PubKey, message: &Message)
    requires { IsReadyFor kept.old.entries key.now message.now }
    ensures takes { Takes TakesMessage kept.old.entries kept.new.entries key.now message.now }
    ensures stands { (pasts : List (PubKey × Past)) → BooksStand kept.old.entries pasts → BooksStand kept.new.entries (own_grown pasts key.now message.now) }
    ensures len { length kept.new.entries ≡ length kept.old.entries }
{
    if let Some(record) = kept.get_mut(key) {
        record.add(message);
    }
}

/// Judges messages of different keys by the records of their keys, and makes room for them there, up to the first that
/// does not pass, is kept already, or has no room.
pub fn judge_all(kept: &mut BTreeMap<PubKey, Record>, listed: &[(PubKey, Message)]) -> JudgedAll
    requires { EachOnce listed.now }
    ensures same { EachKey SameParts kept.old.entries kept.new.entries }
    ensures ready { result ≡ JudgedAll.Ready → AreReadyFor kept.new.entries listed.now }
    ensures own { result ≡ JudgedAll.Ready → AreNewIn kept.old.entries listed.now }
    ensures new { result ≡ JudgedAll.Ready → (pasts : List (PubKey × Past)) → BooksStand kept.old.entries pasts → AreNew pasts listed.now }
    ensures unfit { result ≡ JudgedAll.Unfit → (pasts : List (PubKey × Past)) → BooksStand kept.old.entries pasts → ¬ (AreNew pasts listed.now) }
{
    'messages: for one in listed {
        match judge(kept, &one.0, &one.1, true) {
            Judged::Ready { repeat } => {
                if repeat {
                    return JudgedAll::Unfit;
                }
            }
            Judged::Unknown | Judged::Refused(_) => return JudgedAll::Unfit,
            Judged::NoRoom => return JudgedAll::NoRoom,
        }
    }
    JudgedAll::Ready
}

/// Adds messages of different keys to the records of their keys, which let them pass and have room for them.
pub fn add_all(kept: &mut BTreeMap<PubKey, Record>, listed: &[(PubKey, Message)])
    requires once { EachOnce listed.now }
    requires ready { AreReadyFor kept.old.entries listed.now }
    ensures each { EachTakes TakesMessage listed.now kept.old.entries kept.new.entries }
    ensures stands { (pasts : List (PubKey × Past)) → BooksStand kept.old.entries pasts → BooksStand kept.new.entries (with_messages pasts listed.now) }
    ensures len { length kept.new.entries ≡ length kept.old.entries }
{
    'messages: for one in listed {
        add(kept, &one.0, &one.1);
    }
}
