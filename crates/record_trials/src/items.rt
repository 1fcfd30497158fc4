//! The items of a journal in words: `block KEY SLOT`, `vote KEY SOURCE->TARGET`, `floors KEY ..`, `activate KEY`,
//! `activate KEY at EPOCH`, `answer KEY epoch EPOCH live|absent at MOMENT` and `close KEY`.
use crate::entries::{put_block, put_vote};
use crate::fixed_bytes::put_bytes;
use edge_kit::PubKey;
use record_codec::JournalItem;
use std::alloc::{AllocError, Global};

/// The kind of an item, and its key.
fn kind_of(item: &JournalItem) -> (&'static str, &PubKey) {
    match item {
        JournalItem::Block { key, .. } => ("block ", key),
        JournalItem::Vote { key, .. } => ("vote ", key),
        JournalItem::Floors { key, .. } => ("floors ", key),
        JournalItem::ActivateUndated { key } | JournalItem::Activate { key, .. } => (
            "activate ",
            key,
        ),
        JournalItem::Answer { key, .. } => ("answer ", key),
        JournalItem::Close { key } => ("close ", key),
    }
}

/// Puts what an item says of its key after a text.
fn put_said(alloc: Global, out: &mut String, item: &JournalItem) -> Result<(), AllocError> {
    match item {
        JournalItem::Block { entry, .. } => put_block(alloc, out, entry),
        JournalItem::Vote { entry, .. } => put_vote(alloc, out, entry),
        JournalItem::Floors { block, vote, .. } => write!(out, " block {block:?} vote {vote:?}"),
        JournalItem::Activate { epoch, .. } => write!(out, " at {epoch}"),
        JournalItem::Answer {
            epoch,
            live,
            moment,
            ..
        } => {
            let said = if *live { "live" } else { "absent" };
            write!(out, " epoch {epoch} {said} at {moment}")
        }
        JournalItem::ActivateUndated { .. } | JournalItem::Close { .. } => Ok(()),
    }
}

/// Puts items after a text, a line for each.
pub fn put_items(alloc: Global, out: &mut String, items: &[JournalItem]) -> Result<(), AllocError> {
    for item in items {
        let (kind, key) = kind_of(item);
        out.push_str(kind)?;
        put_bytes(alloc, out, &key.0)?;
        put_said(alloc, out, item)?;
        out.push('\n')?;
    }
    Ok(())
}
