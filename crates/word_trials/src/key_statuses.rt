//! What becomes of keys that are taken in or given up.
use crate::reading::bytes;
use crate::refusals::desk_refusal;
use edge_kit::Items;
use key_custody::{KeyStatus, KeyStatuses, Reason};
use std::alloc::Global;
use trial_lines::case_of;

/// What becomes of keys, with a `|` between two.
pub(crate) fn key_statuses(alloc: Global, text: &str) -> Option<KeyStatuses> {
    let mut statuses = Vec::new(alloc);
    for status in text.split('|') {
        statuses.push(key_status(alloc, status)?).ok()?;
    }
    Some(Items::from_vec(statuses))
}

/// What becomes of a key.
fn key_status(alloc: Global, text: &str) -> Option<KeyStatus> {
    match text {
        "imported" => Some(KeyStatus::Imported),
        "duplicate" => Some(KeyStatus::Duplicate),
        "deleted" => Some(KeyStatus::Deleted),
        "not_active" => Some(KeyStatus::NotActive),
        "not_found" => Some(KeyStatus::NotFound),
        _ => Some(KeyStatus::Error(reason(alloc, text)?)),
    }
}

/// Why a key is neither taken in nor given up.
fn reason(alloc: Global, text: &str) -> Option<Reason> {
    let (name, rest) = case_of(text)?;
    match name {
        "bad_keystore" => Some(Reason::BadKeystore),
        "signer_fault" => Some(Reason::SignerFault),
        "signer_refused" => Some(Reason::SignerRefused(said(alloc, rest)?)),
        "signer_bad_answer" => Some(Reason::SignerBadAnswer(said(alloc, rest)?)),
        "desk" => Some(Reason::Desk(desk_refusal(rest)?)),
        _ => None,
    }
}

/// What a service said.
fn said(alloc: Global, text: &str) -> Option<Items<u8>> {
    Some(Items::from_vec(bytes(alloc, text)?))
}
