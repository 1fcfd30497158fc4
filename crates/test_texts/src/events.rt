//! The events of a run, in words.
use check_sign::{DeskEvent, Event, Outcome};
use edge_kit::PubKey;
use slash_defs::{Book, Message};
use std::alloc::{AllocError, Global};

/// The events, one on each line, with their moment first. Keys and roots are in hex; of a merged file stands how many keys it
/// lists, of messages kept how many they are, of a pruning how many blocks and votes the record gained, of a closing how many
/// were handed over, and of a compaction both sizes.
pub fn words_of(alloc: Global, events: &[DeskEvent]) -> Result<String, AllocError> {
    let mut text = String::new(alloc);
    for event in events {
        let words = event_words(alloc, &event.event)?;
        let line = format!(in alloc; "{} {}\n", event.moment, words.as_str())?;
        text.push_str(line.as_str())?;
    }
    Ok(text)
}

/// An event without its moment.
fn event_words(alloc: Global, event: &Event) -> Result<String, AllocError> {
    match event {
        Event::Merged { file } => format!(in alloc; "merged {}", file.books.len()),
        Event::Activated { key } => key_words(alloc, "activated", key),
        Event::Granted {
            key,
            message,
            grant,
        } => {
            let granted = format!(in alloc; "granted {}", *grant)?;
            let granted = key_words(alloc, granted.as_str(), key)?;
            let message = message_words(alloc, message)?;
            format!(in alloc; "{} {}", granted.as_str(), message.as_str())
        }
        Event::Allowed { key, grant } => {
            let allowed = format!(in alloc; "allowed {}", *grant)?;
            key_words(alloc, allowed.as_str(), key)
        }
        Event::Told { key, epoch, live } => {
            let told = if *live { "live" } else { "not live" };
            let told = format!(in alloc; "told {told} in {}", *epoch)?;
            key_words(alloc, told.as_str(), key)
        }
        Event::Settled { grant, outcome } => match outcome {
            Outcome::Sent => format!(in alloc; "sent {}", *grant),
            Outcome::Dropped => format!(in alloc; "dropped {}", *grant),
        },
        Event::CloseBegun { key } => key_words(alloc, "close begun", key),
        Event::Closed { key, book } => book_words(alloc, "closed", key, book),
        Event::Pruned { key, book } => book_words(alloc, "pruned", key, book),
        Event::Recorded { proposals } => format!(in alloc; "recorded {}", proposals.len()),
        Event::Compacted { before, after } => {
            format!(in alloc; "compacted {} {}", *before, *after)
        }
    }
}

/// What was done to a key.
fn key_words(alloc: Global, done: &str, key: &PubKey) -> Result<String, AllocError> {
    let key = hex::encode(alloc, &key.0)?;
    format!(in alloc; "{done} 0x{}", key.as_str())
}

/// What was done to a key, and how many blocks and votes a book has.
fn book_words(alloc: Global, done: &str, key: &PubKey, book: &Book) -> Result<String, AllocError> {
    let words = key_words(alloc, done, key)?;
    let (blocks, votes) = (book.blocks.len(), book.votes.len());
    format!(in alloc; "{} {blocks} {votes}", words.as_str())
}

/// A message in words.
fn message_words(alloc: Global, message: &Message) -> Result<String, AllocError> {
    match message {
        Message::Block { slot, root } => {
            let root = hex::encode(alloc, &root.0)?;
            format!(in alloc; "block {} 0x{}", *slot, root.as_str())
        }
        Message::Vote {
            source,
            target,
            root,
        } => {
            let root = hex::encode(alloc, &root.0)?;
            format!(in alloc; "vote {} {} 0x{}", *source, *target, root.as_str())
        }
    }
}
