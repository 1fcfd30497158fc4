//! What the desk, a session or the past of a key refuses.
use crate::reading::{bytes, numbers, root, state};
use edge_kit::read_quoted;
use interchange_io::{ReadFault, read};
use key_custody::DeskRefusal;
use protect_record::Verdict;
use session_format::Answer;
use slash_defs::{BlockEntry, VoteEntry};
use std::alloc::Global;
use trial_lines::case_of;

/// What the desk refuses.
pub(crate) fn desk_refusal(text: &str) -> Option<DeskRefusal> {
    let (name, rest) = case_of(text)?;
    match name {
        "disk" => Some(DeskRefusal::Disk),
        "closing" => Some(DeskRefusal::Closing),
        "unknown" => Some(DeskRefusal::Unknown),
        "not_closing" => Some(DeskRefusal::NotClosing(state(rest)?)),
        "busy" => Some(DeskRefusal::Busy {
            grants: read_quoted(rest)?,
        }),
        "genesis_differs" => genesis_differs(rest),
        _ => desk_limit(name, rest),
    }
}

/// The chain that is kept, and the one that is given.
fn genesis_differs(text: &str) -> Option<DeskRefusal> {
    let (kept, given) = text.split_once(' ')?;
    Some(DeskRefusal::GenesisDiffers {
        kept: root(kept)?,
        given: root(given)?,
    })
}

/// What the desk has no room for.
fn desk_limit(name: &str, rest: &str) -> Option<DeskRefusal> {
    let (first, second) = numbers(rest)?;
    match name {
        "too_many_keys" => Some(DeskRefusal::TooManyKeys {
            have: first,
            new: second,
        }),
        "full" => Some(DeskRefusal::Full {
            size: first,
            wanted: second,
        }),
        _ => None,
    }
}

/// What a session refuses.
pub(crate) fn refused(alloc: Global, text: &str) -> Option<Answer> {
    let (name, rest) = case_of(text)?;
    match name {
        "not_active" => Some(Answer::NotActive),
        "last_generation" => Some(Answer::LastGeneration),
        "live" => Some(Answer::Live {
            epoch: read_quoted(rest)?,
        }),
        "watching" => watching(rest),
        "bad_file" => Some(Answer::BadFile(fault(alloc, rest)?)),
        "too_long" => {
            let len = rest.parse::<usize>().ok()?;
            Some(Answer::BadFile(ReadFault::TooLong(len)))
        }
        _ => None,
    }
}

/// A key that is watched, and the epochs that are missing: one, or two with a space between them.
fn watching(text: &str) -> Option<Answer> {
    let (first, second) = case_of(text)?;
    let first = read_quoted(first)?;
    if second.is_empty() {
        return Some(Answer::Watching {
            first,
            second: None,
        });
    }
    Some(Answer::Watching {
        first,
        second: Some(read_quoted(second)?),
    })
}

/// Why a text is no interchange file.
fn fault(alloc: Global, text: &str) -> Option<ReadFault> {
    let bytes = bytes(alloc, text)?;
    read(alloc, bytes.as_slice()).ok()?.err()
}

/// Why a key's past forbids a message: its floor, or what is kept.
pub(crate) fn verdict(text: &str) -> Option<Verdict> {
    let (name, rest) = case_of(text)?;
    match name {
        "slot_below" => Some(Verdict::SlotBelow(read_quoted(rest)?)),
        "target_below" => Some(Verdict::TargetBelow(read_quoted(rest)?)),
        "double_block" => Some(Verdict::DoubleBlock(kept_block(rest)?)),
        "surrounds" => Some(Verdict::Surrounds(kept_vote(rest)?)),
        _ => None,
    }
}

/// A kept block: its slot and its signing root.
fn kept_block(text: &str) -> Option<BlockEntry> {
    let (slot, signed) = text.split_once(' ')?;
    Some(BlockEntry {
        slot: read_quoted(slot)?,
        root: Some(root(signed)?),
    })
}

/// A kept vote whose signing root is not known: its source and its target.
fn kept_vote(text: &str) -> Option<VoteEntry> {
    let (source, target) = numbers(text)?;
    Some(VoteEntry {
        target,
        source,
        root: None,
    })
}
