//! How many keys are kept at most.
ghost use Rattle.std.specs.Prelude.{◌≡◌, ◌+◌, ◌≤◌, ◌<◌, None, MatchOption, length};
ghost use Rattle.record_join.specs.Keys.{kept_of};
ghost use Rattle.record_join.specs.BooksPasts.{key_limit, new_keys, IsBeginFault, IsOverLimit};

use crate::fault::{BeginFault, MergeFault};
use edge_kit::PubKey;
use protect_record::Record;
use slash_defs::Book;
use std::collections::BTreeMap;

/// How many keys are kept at most.
pub const KEY_LIMIT: usize = 65_536;

/// The fault of so many keys and so many new ones, where they are more than may be kept.
pub fn over_limit(have: usize, new: usize) -> Option<MergeFault>
    ensures { MatchOption result (have + new ≤ key_limit) (IsOverLimit have new) }
{
    if have <= KEY_LIMIT && new <= KEY_LIMIT - have {
        return None;
    }
    Some(MergeFault::TooManyKeys {
        have: have as u64,
        new: new as u64,
    })
}

/// The fault of a key that is not kept, where no more may be.
pub fn no_more(kept: &BTreeMap<PubKey, Record>, key: &PubKey) -> Option<BeginFault>
    ensures { MatchOption result (kept_of kept.now.entries key.now ≡ None → length kept.now.entries < key_limit) (IsBeginFault kept.now.entries key.now) }
{
    let have = kept.len();
    if kept.contains_key(key) || have < KEY_LIMIT {
        return None;
    }
    Some(BeginFault::TooManyKeys {
        have: have as u64,
        new: 1,
    })
}

/// How many of the listed keys are not kept.
pub fn new_books(kept: &BTreeMap<PubKey, Record>, books: &[(PubKey, Book)]) -> usize
    ensures { result ≡ new_keys kept.now.entries books.now }
{
    books
        .iter()
        .filter(|listed| !kept.contains_key(&listed.0))
        .count()
}

/// How many keys of the others are not kept.
pub fn new_records(kept: &BTreeMap<PubKey, Record>, others: &BTreeMap<PubKey, Record>) -> usize
    ensures { result ≡ new_keys kept.now.entries others.now.entries }
{
    others
        .iter()
        .filter(|(key, _)| !kept.contains_key(*key))
        .count()
}
