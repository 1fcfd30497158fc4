//! Bytes are read as a batch.
ghost use Rattle.std.specs.Prelude.{◌≡◌, ◌<◌, ◌≤◌, ℕ, List, length, IfOk, IfErr, Ok, Err, Some, None, MatchResult};
ghost use Rattle.std.specs.List.{AllByRecursion};
ghost use Rattle.record_codec.specs.declared.item.JournalItem.{JournalItem};
ghost use Rattle.record_codec.specs.Spelling.{IsBatch, IsOf, Fits, spelling, IsFirstBad};
ghost use Rattle.record_codec.specs.Seen.{seen};
ghost use Rattle.std.specs.Option.{option_map};
ghost use Rattle.record_codec.specs.Reading.{bytes_at as bytes_of, number_at as number_of, root_at as root_of, key_at as key_of, moment_at as moment_of, flag_at as flag_of, optional_root_at as optional_root_of, optional_number_at as optional_number_of, optional_pair_at as optional_pair_of, block_at as block_of, vote_at as vote_of, floors_at as floors_of, tagged_at as tagged_of, record_at as record_of, activate_at as activate_of, answer_at as answer_of, tagged_state_at as tagged_state_of, state_at as state_of, records_at as records_of, batch_of, bad_at, fault_in};

use crate::item::{
    ACTIVATE, ACTIVATE_UNDATED, ANSWER, BLOCK, BadAt, CLOSE, FLOORS, JournalItem, VOTE,
};
use crate::version::JournalVersion;
use doppel_watch::MOMENT_LIMIT;
use edge_kit::{PubKey, Root};
use slash_defs::{BlockEntry, VoteEntry};
use std::alloc::{AllocError, Global};

// A field is a value and the bytes behind it.
fn bytes_at<const N: usize>(bytes: &[u8]) -> Option<([u8; N], &[u8])>
    ensures { option_map (λ x. (x.0, x.1.now)) result ≡ bytes_of N bytes.now }
{
    let (front, rest) = bytes.split_first_chunk::<N>()?;
    Some((*front, rest))
}

#[tactic(auto, unfolding(crate::specs::Reading::number_at))]
fn number_at(bytes: &[u8]) -> Option<(u64, &[u8])>
    ensures { option_map (λ x. (x.0, x.1.now)) result ≡ number_of bytes.now }
{
    let (front, rest) = bytes_at::<8>(bytes)?;
    Some((u64::from_le_bytes(front), rest))
}

#[tactic(auto, unfolding(crate::specs::Reading::root_at))]
fn root_at(bytes: &[u8]) -> Option<(Root, &[u8])>
    ensures { option_map (λ x. (x.0, x.1.now)) result ≡ root_of bytes.now }
{
    let (front, rest) = bytes_at::<32>(bytes)?;
    Some((Root(front), rest))
}

#[tactic(auto, unfolding(crate::specs::Reading::key_at))]
fn key_at(bytes: &[u8]) -> Option<(PubKey, &[u8])>
    ensures { option_map (λ x. (x.0, x.1.now)) result ≡ key_of bytes.now }
{
    let (front, rest) = bytes_at::<48>(bytes)?;
    Some((PubKey(front), rest))
}

#[tactic(auto, unfolding(crate::specs::Reading::moment_at))]
fn moment_at(bytes: &[u8]) -> Option<(u64, &[u8])>
    ensures { option_map (λ x. (x.0, x.1.now)) result ≡ moment_of bytes.now }
{
    let (moment, rest) = number_at(bytes)?;
    if MOMENT_LIMIT < moment {
        return None;
    }
    Some((moment, rest))
}

#[tactic(auto, unfolding(crate::specs::Reading::flag_at))]
fn flag_at(bytes: &[u8]) -> Option<(bool, &[u8])>
    ensures { option_map (λ x. (x.0, x.1.now)) result ≡ flag_of bytes.now }
{
    match bytes {
        [0, rest @ ..] => Some((false, rest)),
        [1, rest @ ..] => Some((true, rest)),
        _ => None,
    }
}

#[tactic(auto, unfolding(crate::specs::Reading::optional_root_at))]
fn optional_root_at(bytes: &[u8]) -> Option<(Option<Root>, &[u8])>
    ensures { option_map (λ x. (x.0, x.1.now)) result ≡ optional_root_of bytes.now }
{
    match bytes {
        [0, rest @ ..] => Some((None, rest)),
        [1, rest @ ..] => {
            let (root, rest) = root_at(rest)?;
            Some((Some(root), rest))
        }
        _ => None,
    }
}

#[tactic(auto, unfolding(crate::specs::Reading::optional_number_at))]
fn optional_number_at(bytes: &[u8]) -> Option<(Option<u64>, &[u8])>
    ensures { option_map (λ x. (x.0, x.1.now)) result ≡ optional_number_of bytes.now }
{
    match bytes {
        [0, rest @ ..] => Some((None, rest)),
        [1, rest @ ..] => {
            let (number, rest) = number_at(rest)?;
            Some((Some(number), rest))
        }
        _ => None,
    }
}

#[tactic(auto, unfolding(crate::specs::Reading::optional_pair_at))]
fn optional_pair_at(bytes: &[u8]) -> Option<(Option<(u64, u64)>, &[u8])>
    ensures { option_map (λ x. (x.0, x.1.now)) result ≡ optional_pair_of bytes.now }
{
    match bytes {
        [0, rest @ ..] => Some((None, rest)),
        [1, rest @ ..] => {
            let (first, rest) = number_at(rest)?;
            let (second, rest) = number_at(rest)?;
            Some((Some((first, second)), rest))
        }
        _ => None,
    }
}

// What an item says of its key.
#[tactic(auto, unfolding(crate::specs::Reading::block_at))]
fn block_at(key: PubKey, bytes: &[u8]) -> Option<(JournalItem, &[u8])>
    ensures { option_map (λ x. (x.0, x.1.now)) result ≡ block_of key bytes.now }
{
    let (slot, rest) = number_at(bytes)?;
    let (root, rest) = optional_root_at(rest)?;
    let entry = BlockEntry { slot, root };
    Some((JournalItem::Block { key, entry }, rest))
}

#[tactic(auto, unfolding(crate::specs::Reading::vote_at))]
fn vote_at(key: PubKey, bytes: &[u8]) -> Option<(JournalItem, &[u8])>
    ensures { option_map (λ x. (x.0, x.1.now)) result ≡ vote_of key bytes.now }
{
    let (source, rest) = number_at(bytes)?;
    let (target, rest) = number_at(rest)?;
    let (root, rest) = optional_root_at(rest)?;
    let entry = VoteEntry {
        target,
        source,
        root,
    };
    Some((JournalItem::Vote { key, entry }, rest))
}

#[tactic(auto, unfolding(crate::specs::Reading::floors_at))]
fn floors_at(key: PubKey, bytes: &[u8]) -> Option<(JournalItem, &[u8])>
    ensures { option_map (λ x. (x.0, x.1.now)) result ≡ floors_of key bytes.now }
{
    let (block, rest) = optional_number_at(bytes)?;
    let (vote, rest) = optional_pair_at(rest)?;
    Some((JournalItem::Floors { key, block, vote }, rest))
}

#[tactic(auto, unfolding(crate::specs::Reading::tagged_at))]
fn tagged_at(tag: u8, key: PubKey, bytes: &[u8]) -> Option<(JournalItem, &[u8])>
    ensures { option_map (λ x. (x.0, x.1.now)) result ≡ tagged_of tag key bytes.now }
{
    match tag {
        BLOCK => block_at(key, bytes),
        VOTE => vote_at(key, bytes),
        FLOORS => floors_at(key, bytes),
        _ => None,
    }
}

// The record at the front.
#[tactic(auto, unfolding(crate::specs::Reading::record_at))]
fn record_at(bytes: &[u8]) -> Option<(JournalItem, &[u8])>
    ensures { option_map (λ x. (x.0, x.1.now)) result ≡ record_of bytes.now }
{
    let (tag, rest) = bytes.split_first()?;
    let (key, rest) = key_at(rest)?;
    tagged_at(*tag, key, rest)
}

// What an item that stands alone says of its key.
#[tactic(auto, unfolding(crate::specs::Reading::activate_at))]
fn activate_at(key: PubKey, bytes: &[u8]) -> Option<(JournalItem, &[u8])>
    ensures { option_map (λ x. (x.0, x.1.now)) result ≡ activate_of key bytes.now }
{
    let (epoch, rest) = moment_at(bytes)?;
    Some((JournalItem::Activate { key, epoch }, rest))
}

#[tactic(auto, unfolding(crate::specs::Reading::answer_at))]
fn answer_at(key: PubKey, bytes: &[u8]) -> Option<(JournalItem, &[u8])>
    ensures { option_map (λ x. (x.0, x.1.now)) result ≡ answer_of key bytes.now }
{
    let (epoch, rest) = number_at(bytes)?;
    let (live, rest) = flag_at(rest)?;
    let (moment, rest) = moment_at(rest)?;
    let item = JournalItem::Answer {
        key,
        epoch,
        live,
        moment,
    };
    Some((item, rest))
}

#[tactic(auto, unfolding(crate::specs::Reading::tagged_state_at))]
fn tagged_state_at(
    version: JournalVersion,
    tag: u8,
    key: PubKey,
    bytes: &[u8],
) -> Option<(JournalItem, &[u8])>
    ensures { option_map (λ x. (x.0, x.1.now)) result ≡ tagged_state_of version tag key bytes.now }
{
    match version {
        JournalVersion::One => match tag {
            ACTIVATE_UNDATED => Some((JournalItem::ActivateUndated { key }, bytes)),
            CLOSE => Some((JournalItem::Close { key }, bytes)),
            _ => None,
        },
        JournalVersion::Two => match tag {
            CLOSE => Some((JournalItem::Close { key }, bytes)),
            ACTIVATE => activate_at(key, bytes),
            ANSWER => answer_at(key, bytes),
            _ => None,
        },
    }
}

// A state of a key or an answer, alone.
#[tactic(auto, unfolding(crate::specs::Reading::state_at))]
fn state_at(version: JournalVersion, bytes: &[u8]) -> Option<JournalItem>
    ensures { result ≡ state_of version bytes.now }
{
    let (tag, rest) = bytes.split_first()?;
    let (key, rest) = key_at(rest)?;
    let (item, behind) = tagged_state_at(version, *tag, key, rest)?;
    if behind.is_empty() {
        return Some(item);
    }
    None
}

/// The items of a payload in a file of this version, or the place of the first item that can't be read. States of a key
/// and answers stand alone: one with a byte before or after it can't be read, nor can the first item of an empty payload,
/// an item that the version doesn't have, or one whose moment is above the limit of moments.
pub fn decode(
    alloc: Global,
    version: JournalVersion,
    payload: &[u8],
) -> Result<Result<Vec<JournalItem>, BadAt>, AllocError>
    ensures exact { IfOk result (λ read. seen read ≡ batch_of version payload.now) }
    // What is read is one batch of items of the version, and the payload is its one spelling.
    ensures found { IfOk result (λ read. IfOk read (λ items. IsBatch items.items × AllByRecursion (IsOf version) items.items × AllByRecursion Fits items.items × (payload.now ≡ spelling items.items))) }
    // What is spelled so is read.
    ensures only { (items : List JournalItem) → IsBatch items → AllByRecursion (IsOf version) items → AllByRecursion Fits items → payload.now ≡ spelling items → IfOk result (λ read. seen read ≡ Ok items) }
    // The fault is the first item that can't be read.
    ensures bad { IfOk result (λ read. IfErr read (λ bad. IsFirstBad version payload.now bad.offset)) }
    ensures only_bad { (offset : ℕ) → IsFirstBad version payload.now offset → IfOk result (λ read. seen read ≡ Err offset) }
{
    all(alloc, version, payload)
}

// The items of a payload, as `decode` gives them.
#[tactic(auto, unfolding(crate::specs::Reading::batch_of))]
fn all(
    alloc: Global,
    version: JournalVersion,
    payload: &[u8],
) -> Result<Result<Vec<JournalItem>, BadAt>, AllocError>
    ensures { IfOk result (λ read. seen read ≡ batch_of version payload.now) }
{
    if let Some(item) = state_at(version, payload) {
        let mut items = Vec::new(alloc);
        items.push(item)?;
        return Ok(Ok(items));
    }
    let read = records(alloc, payload)?;
    Ok(read)
}

fn records(alloc: Global, payload: &[u8]) -> Result<Result<Vec<JournalItem>, BadAt>, AllocError>
    ensures { IfOk result (λ read. (fuel : ℕ) → length payload.now < fuel → seen read ≡ records_of fuel 0 payload.now) }
{
    let mut items = Vec::new(alloc);
    let mut rest = payload;
    'items: loop {
        let offset = (payload.len() - rest.len()) as u64;
        let Some((item, behind)) = record_at(rest) else {
            return Ok(Err(BadAt { offset }));
        };
        items.push(item)?;
        if behind.is_empty() {
            return Ok(Ok(items));
        }
        rest = behind;
    }
}

/// Whether a payload is one batch in a file of this version; else the place of the first item that can't be read, as
/// `decode` has it. Takes no memory.
#[tactic(auto, unfolding(crate::specs::Reading::batch_of))]
pub fn check_batch(version: JournalVersion, payload: &[u8]) -> Result<(), BadAt>
    ensures within { IfErr result (λ bad. bad.offset ≤ length payload.now) }
    ensures bad { MatchResult result (λ done. bad_at version payload.now ≡ None) (λ bad. bad_at version payload.now ≡ Some bad.offset) }
{
    if let Some(_state) = state_at(version, payload) {
        return Ok(());
    }
    check_records(payload)
}

fn check_records(payload: &[u8]) -> Result<(), BadAt>
    ensures within { IfErr result (λ bad. bad.offset ≤ length payload.now) }
    ensures bad { (fuel : ℕ) → length payload.now < fuel → MatchResult result (λ done. fault_in (records_of fuel 0 payload.now) ≡ None) (λ bad. fault_in (records_of fuel 0 payload.now) ≡ Some bad.offset) }
{
    let mut rest = payload;
    'items: loop {
        let offset = (payload.len() - rest.len()) as u64;
        let Some((_item, behind)) = record_at(rest) else {
            return Err(BadAt { offset });
        };
        if behind.is_empty() {
            return Ok(());
        }
        rest = behind;
    }
}
