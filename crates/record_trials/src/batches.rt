//! Batches of a journal, their bytes in pieces of hex with spaces between them; `0x11*48` is a byte 48 times.
//!
//! | Subject | What comes of it |
//! |---|---|
//! | `payload BYTES` | of a file of the first version: how many bytes there are, what a check says, the items that are read, and the bytes that are written of them |
//! | `payload_two BYTES` | the same of a file of the second version |
//! | `replay BYTES \| BYTES ..` | what the payloads of a file are replayed to: the records of the keys, and their states |
//! | `book KEY ENTRIES` | the items of a book |
//! | `snapshot KEY STATE ENTRIES` | how many items each batch of a snapshot has |
use crate::books::put_books;
use crate::entries::{book_of, record_of};
use crate::fixed_bytes::{key_of, pieces, put_bytes};
use crate::items::put_items;
use edge_kit::{PubKey, push_hex};
use journal_frames::{Found, Reader, header_bytes, parse};
use key_snapshot::snapshot_batches;
use protect_record::Floors;
use record_codec::{JournalItem, JournalVersion, check_batch, decode, encode};
use record_replay::{KeyState, Replayed, book_items, replay};
use std::alloc::{AllocError, Global};

/// The floors of a record that has none.
const NO_FLOORS: Floors = Floors {
    block: None,
    vote: None,
};

/// Puts the items that are read of bytes after a text, and the bytes that are written of them; or where they can't be read.
fn put_read(
    alloc: Global,
    out: &mut String,
    version: JournalVersion,
    bytes: &[u8],
) -> Result<(), AllocError> {
    let items = match decode(alloc, version, bytes)? {
        Ok(items) => items,
        Err(bad) => return write!(out, "read: {bad:?}\n"),
    };
    put_items(alloc, out, items.as_slice())?;
    let written = encode(alloc, items.as_slice())?;
    push_hex(alloc, out, written.as_slice())
}

fn payload(alloc: Global, version: JournalVersion, text: &str) -> Option<String> {
    let bytes = pieces(alloc, text)?;
    let count = bytes.len();
    let checked = check_batch(version, bytes.as_slice());
    let mut out = format!(in alloc; "{count} bytes\ncheck: {checked:?}\n").ok()?;
    put_read(alloc, &mut out, version, bytes.as_slice()).ok()?;
    Some(out)
}

/// The payloads that a text writes, with `|` between them.
fn payloads(alloc: Global, text: &str) -> Option<Vec<Vec<u8>>> {
    let mut all = Vec::new(alloc);
    for payload in text.split('|') {
        all.push(pieces(alloc, payload)?).ok()?;
    }
    Some(all)
}

/// Puts an open gate and then these bytes after those of a file.
fn push_open(file: &mut Vec<u8>, bytes: &[u8]) -> Result<(), AllocError> {
    file.push(1)?;
    file.extend_from_slice(bytes)
}

/// Puts an open gate and the frame of a payload after the bytes of a file.
fn push_frame(file: &mut Vec<u8>, payload: &[u8]) -> Result<(), AllocError> {
    let length = u32::try_from(payload.len()).unwrap_or(u32::MAX);
    push_open(file, &length.to_le_bytes())?;
    file.extend_from_slice(payload)
}

/// Puts a file of these payloads after bytes: a header, a frame of each after an open gate, and a closed gate.
fn push_file(alloc: Global, file: &mut Vec<u8>, payloads: &[Vec<u8>]) -> Result<(), AllocError> {
    push_open(file, &header_bytes(alloc, &[0; 32])?)?;
    for payload in payloads {
        push_frame(file, payload)?;
    }
    file.push(0)?;
    Ok(())
}

/// The bytes of a file of the payloads that a text writes.
fn file_bytes(alloc: Global, text: &str) -> Option<Vec<u8>> {
    let mut file = Vec::new(alloc);
    push_file(alloc, &mut file, payloads(alloc, text)?.as_slice()).ok()?;
    Some(file)
}

/// Puts what payloads are replayed to after a text.
fn put_replayed(alloc: Global, out: &mut String, replayed: &Replayed) -> Result<(), AllocError> {
    put_books(alloc, out, &replayed.books)?;
    for (key, state) in replayed.states.iter() {
        put_bytes(alloc, out, &key.0)?;
        write!(out, ": {state:?}\n")?;
    }
    Ok(())
}

/// What the payloads that a reader lends are replayed to.
fn replay_lent(alloc: Global, reader: Reader) -> Option<String> {
    let mut out = String::new(alloc);
    match replay(alloc, JournalVersion::One, reader) {
        Ok(replayed) => put_replayed(alloc, &mut out, &replayed).ok()?,
        Err(fault) => write!(out, "{fault}").ok()?,
    }
    Some(out)
}

fn replays(alloc: Global, text: &str) -> Option<String> {
    let bytes = file_bytes(alloc, text)?;
    match parse(&bytes, &[0; 32]) {
        Found::Kept(payloads, _, _) => replay_lent(alloc, Reader::new(bytes, &payloads)),
        Found::Damaged(offset, byte) => {
            format!(in alloc; "damaged at {offset}, byte {byte:?}").ok()
        }
        _ => None,
    }
}

fn items_of_book(alloc: Global, key: PubKey, text: &str) -> Option<String> {
    let items = book_items(alloc, &(key, book_of(alloc, text)?)).ok()?;
    let mut out = String::new(alloc);
    put_items(alloc, &mut out, items.as_slice()).ok()?;
    Some(out)
}

fn state_of(word: &str) -> Option<KeyState> {
    match word {
        "known" => Some(KeyState::Known),
        "active" => Some(KeyState::Active),
        "closing" => Some(KeyState::Closing),
        "closed" => Some(KeyState::Closed),
        _ => None,
    }
}

/// Puts how many items each batch has after a text, a line for each.
fn put_lengths(out: &mut String, batches: &[Vec<JournalItem>]) -> Result<(), AllocError> {
    for batch in batches {
        write!(out, "{}\n", batch.len())?;
    }
    Ok(())
}

fn snapshot(alloc: Global, key: &PubKey, text: &str) -> Option<String> {
    let (state, entries) = text.split_once(' ').unwrap_or((text, ""));
    let record = record_of(alloc, NO_FLOORS, entries)?;
    let batches = snapshot_batches(alloc, key, state_of(state)?, &record).ok()?;
    let mut out = String::new(alloc);
    put_lengths(&mut out, batches.as_slice()).ok()?;
    Some(out)
}

/// What comes of a line.
pub fn outcome(alloc: Global, subject: &str, text: &str) -> Option<String> {
    let (key, rest) = text.split_once(' ').unwrap_or((text, ""));
    match subject {
        "payload" => payload(alloc, JournalVersion::One, text),
        "payload_two" => payload(alloc, JournalVersion::Two, text),
        "replay" => replays(alloc, text),
        "book" => items_of_book(alloc, key_of(key)?, rest),
        _ => snapshot(alloc, &key_of(key)?, rest),
    }
}
