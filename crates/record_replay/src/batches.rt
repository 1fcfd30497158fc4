//! The items that are written of each change.
ghost use Rattle.std.specs.Prelude.{◌≡◌, ◌++◌, map, IfOk, OnOk};
ghost use Rattle.record_codec.specs.declared.item.JournalItem.TheVariants as item;
ghost use Rattle.record_replay.specs.Batches.{book_items, file_items, message_item, message_items};

use edge_kit::PubKey;
use protect_record::floors_of_book;
use record_codec::JournalItem;
use slash_defs::{BlockEntry, Book, Message, VoteEntry};
use std::alloc::{AllocError, Global};

/// The item of an own message of a key.
pub fn message_item(key: PubKey, message: &Message) -> JournalItem
    ensures { result ≡ message_item key message.now }
{
    match *message {
        Message::Block { slot, root } => JournalItem::Block {
            key,
            entry: BlockEntry {
                slot,
                root: Some(root),
            },
        },
        Message::Vote {
            source,
            target,
            root,
        } => JournalItem::Vote {
            key,
            entry: VoteEntry {
                target,
                source,
                root: Some(root),
            },
        },
    }
}

/// The items of own messages, each of its key, in their order.
///
/// # Errors
///
/// `AllocError` where memory was wanted.
pub fn message_items(
    alloc: Global,
    listed: &[(PubKey, Message)],
) -> Result<Vec<JournalItem>, AllocError>
    ensures { IfOk result (λ items. items.items ≡ message_items listed.now) }
{
    listed
        .iter()
        .map(|one| message_item(one.0, &one.1))
        .collect(alloc)
}

/// The items of a book of a key: its blocks, its votes and its floors.
///
/// # Errors
///
/// `AllocError` where memory was wanted.
pub fn book_items(alloc: Global, listed: &(PubKey, Book)) -> Result<Vec<JournalItem>, AllocError>
    ensures { IfOk result (λ items. items.items ≡ book_items listed.now) }
{
    let mut items = Vec::new(alloc);
    push_book(&mut items, listed)?;
    Ok(items)
}

/// The items of the books of a file, one after another.
///
/// # Errors
///
/// `AllocError` where memory was wanted.
pub fn file_items(alloc: Global, books: &[(PubKey, Book)]) -> Result<Vec<JournalItem>, AllocError>
    ensures { IfOk result (λ items. items.items ≡ file_items books.now) }
{
    let mut items = Vec::new(alloc);
    for listed in books {
        push_book(&mut items, listed)?;
    }
    Ok(items)
}

/// Adds the items of a book of a key.
fn push_book(items: &mut Vec<JournalItem>, listed: &(PubKey, Book)) -> Result<(), AllocError>
    ensures { OnOk result (items.new.items ≡ items.old.items ++ book_items listed.now) }
{
    let key = listed.0;
    push_blocks(items, key, listed.1.blocks.as_slice())?;
    push_votes(items, key, listed.1.votes.as_slice())?;
    let floors = floors_of_book(&listed.1);
    items.push(JournalItem::Floors {
        key,
        block: floors.block,
        vote: floors.vote,
    })?;
    Ok(())
}

/// Adds the items of blocks of a key.
fn push_blocks(
    items: &mut Vec<JournalItem>,
    key: PubKey,
    blocks: &[BlockEntry],
) -> Result<(), AllocError>
    ensures { OnOk result (items.new.items ≡ items.old.items ++ map (item.Block key) blocks.now) }
{
    for entry in blocks {
        items.push(JournalItem::Block { key, entry: *entry })?;
    }
    Ok(())
}

/// Adds the items of votes of a key.
fn push_votes(
    items: &mut Vec<JournalItem>,
    key: PubKey,
    votes: &[VoteEntry],
) -> Result<(), AllocError>
    ensures { OnOk result (items.new.items ≡ items.old.items ++ map (item.Vote key) votes.now) }
{
    for entry in votes {
        items.push(JournalItem::Vote { key, entry: *entry })?;
    }
    Ok(())
}
