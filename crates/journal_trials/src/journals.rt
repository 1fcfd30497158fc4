//! A journal over two disks in memory.
ghost use Rattle.std.specs.Prelude.{map, IfSome};
ghost use Rattle.std.specs.List.{AllByRecursion};
ghost use Rattle.journal_frames.specs.Frames.{IsPayload};

use crate::words::{bytes_of, push_named, root_of, value_of};
use edge_kit::{Disks, MemDisk, Root};
use journal_frames::Reader;
use record_codec::{JournalVersion, check_batch};
use record_journal::{Journal, OpenFault};
use std::alloc::{AllocError, Global};

/// Appends a payload, and puts what is answered to a text.
fn append(
    alloc: Global,
    journal: &mut Journal<MemDisk>,
    payload: &str,
    text: &mut String,
) -> Option<()> {
    let payload = bytes_of(alloc, payload)?;
    if check_batch(JournalVersion::One, &payload).is_err() {
        return None;
    }
    match journal.append(alloc, payload) {
        Ok(()) => text.push_str("appended\n").ok(),
        Err(fault) => writeln!(text, "not appended: {fault:?}").ok(),
    }
}

/// A payload of a snapshot.
fn payload_of(alloc: Global, word: &str) -> Option<Vec<u8>>
    ensures { IfSome result (λ p. IsPayload p.items) }
{
    let payload = bytes_of(alloc, word)?;
    if payload.is_empty()
        || payload.len() > 1000
        || check_batch(JournalVersion::One, &payload).is_err()
    {
        return None;
    }
    Some(payload)
}

/// The snapshot of two payloads.
fn snapshot_of(alloc: Global, words: &str) -> Option<Vec<Vec<u8>>>
    ensures { IfSome result (λ all. AllByRecursion IsPayload (map (λ v. v.items) all.items)) }
{
    let (first, second) = words.split_once(' ')?;
    let first = payload_of(alloc, first)?;
    let second = payload_of(alloc, second)?;
    let mut all = Vec::new(alloc);
    all.push(first).ok()?;
    all.push(second).ok()?;
    Some(all)
}

/// Compacts a journal to a snapshot, and puts what is answered to a text.
fn compact(
    alloc: Global,
    journal: &mut Journal<MemDisk>,
    words: &str,
    text: &mut String,
) -> Option<()> {
    let snapshot = snapshot_of(alloc, words)?;
    match journal.compact(alloc, snapshot) {
        Ok((before, after)) => writeln!(text, "compacted from {before} to {after}").ok(),
        Err(fault) => writeln!(text, "not compacted: {fault:?}").ok(),
    }
}

/// A disk that holds the same and never fails.
fn disk_like(alloc: Global, disk: &MemDisk) -> Result<MemDisk, AllocError> {
    let bytes = disk.bytes().to_vec(alloc)?;
    MemDisk::new(alloc, bytes, Vec::new(alloc), None)
}

/// Puts the payloads that a reader lends to a text.
fn push_lent(text: &mut String, reader: &mut Reader) -> Option<()> {
    while let Some(payload) = reader.first() {
        push_named(text, "payload ", payload)?;
        text.push('\n').ok()?;
        reader.skip();
    }
    Some(())
}

/// Puts why a journal is not opened to a text.
fn push_fault(text: &mut String, fault: &OpenFault) -> Option<()> {
    let OpenFault::Genesis { kept, given } = fault else {
        return writeln!(text, "not opened: {fault:?}").ok();
    };
    push_named(text, "not opened: genesis kept ", &kept.0)?;
    push_named(text, ", given ", &given.0)?;
    text.push('\n').ok()
}

/// Puts the payloads to a text that a journal over such disks is opened with.
fn push_payloads(
    alloc: Global,
    text: &mut String,
    disks: &Disks<MemDisk>,
    root: Root,
) -> Option<()> {
    let first = disk_like(alloc, &disks.first).ok()?;
    let second = disk_like(alloc, &disks.second).ok()?;
    match Journal::open(alloc, Disks { first, second }, root) {
        Ok((_journal, mut reader)) => push_lent(text, &mut reader),
        Err((fault, _disks)) => {
            text.push_str("then ").ok()?;
            push_fault(text, &fault)
        }
    }
}

/// Makes a call of a journal, and puts what it answers to a text.
fn push_call(
    alloc: Global,
    journal: &mut Journal<MemDisk>,
    call: &str,
    text: &mut String,
) -> Option<()> {
    match call.split_once(' ') {
        Some(("append", payload)) => append(alloc, journal, payload, text),
        Some(("compact", words)) => compact(alloc, journal, words, text),
        Some(_) => None,
        None => Some(()),
    }
}

/// Makes calls of a journal, and puts what they answer and its size then to a text.
fn push_calls(
    alloc: Global,
    journal: &mut Journal<MemDisk>,
    calls: &str,
    text: &mut String,
) -> Option<()> {
    for call in calls.split(',') {
        push_call(alloc, journal, call.trim(), text)?;
    }
    writeln!(text, "size {}, failed {}", journal.size(), journal.failed()).ok()
}

/// Makes calls of a journal, puts the payloads that are on its disks then to a text, and gives the disks.
fn play_opened(
    alloc: Global,
    mut journal: Journal<MemDisk>,
    root: Root,
    calls: &str,
    text: &mut String,
) -> Option<Disks<MemDisk>> {
    push_calls(alloc, &mut journal, calls, text)?;
    let disks = journal.end();
    push_payloads(alloc, text, &disks, root)?;
    Some(disks)
}

/// Opens a journal over disks, makes calls of it, puts the payloads that are on the disks then to a text, and gives the disks
/// as it leaves them.
pub fn play(
    alloc: Global,
    options: &str,
    calls: &str,
    disks: Disks<MemDisk>,
    text: &mut String,
) -> Option<Disks<MemDisk>> {
    let root = root_of(value_of(options, "genesis").unwrap_or("00"))?;
    match Journal::open(alloc, disks, root) {
        Ok((journal, _reader)) => play_opened(alloc, journal, root, calls, text),
        Err((fault, disks)) => {
            push_fault(text, &fault)?;
            Some(disks)
        }
    }
}
