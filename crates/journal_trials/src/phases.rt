//! Phases of a journal or of a desk, one after another over the same two disks: each opens what a crash or the end of the
//! phase before left, and makes calls of it.
use crate::words::{bytes_of, number_of, push_named, value_of};
use crate::{desks, journals};
use edge_kit::{Crash, Disks, MemDisk};
use std::alloc::{AllocError, Global};

/// What is opened over the disks.
#[derive(Clone, Copy)]
pub enum Opened {
    Journal,
    Desk,
}

/// The bytes that are left of a disk: those that a read sees, or those that the crash leaves that the options name.
fn left_of(alloc: Global, options: &str, disk: &MemDisk) -> Option<Vec<u8>> {
    match value_of(options, "crash") {
        None => disk.bytes().to_vec(alloc).ok(),
        Some("written") => disk.image(alloc, Crash::Written).ok(),
        Some("before") => disk.image(alloc, Crash::Before).ok(),
        Some("torn") => disk.image(alloc, Crash::Torn).ok(),
        Some(_) => None,
    }
}

/// The disk of a file: its bytes are those that the options name, or what is left of it. It stops at the call that the
/// options name.
fn disk_of(
    alloc: Global,
    options: &str,
    name: &str,
    stop: &str,
    before: &MemDisk,
) -> Option<MemDisk> {
    let stop = match value_of(options, stop) {
        Some(word) => Some(number_of(word)?),
        None => None,
    };
    let bytes = match value_of(options, name) {
        Some(text) => bytes_of(alloc, text)?,
        None => left_of(alloc, options, before)?,
    };
    MemDisk::new(alloc, bytes, Vec::new(alloc), stop).ok()
}

/// The disks of a phase.
fn disks_of(alloc: Global, options: &str, before: &Disks<MemDisk>) -> Option<Disks<MemDisk>> {
    Some(Disks {
        first: disk_of(alloc, options, "first", "stop-first", &before.first)?,
        second: disk_of(alloc, options, "second", "stop-second", &before.second)?,
    })
}

/// Two disks without a byte.
pub fn empty_disks(alloc: Global) -> Result<Disks<MemDisk>, AllocError> {
    Ok(Disks {
        first: MemDisk::new(alloc, Vec::new(alloc), Vec::new(alloc), None)?,
        second: MemDisk::new(alloc, Vec::new(alloc), Vec::new(alloc), None)?,
    })
}

/// Puts the bytes of both files to a text, where the options say so.
fn push_files(text: &mut String, options: &str, disks: &Disks<MemDisk>) -> Option<()> {
    if value_of(options, "files").is_none() {
        return Some(());
    }
    push_named(text, "first [", disks.first.bytes())?;
    push_named(text, "]\nsecond [", disks.second.bytes())?;
    text.push_str("]\n").ok()
}

/// Plays a phase, which is options, a colon and calls with commas between, and gives the disks as it leaves them.
fn play(
    alloc: Global,
    opened: Opened,
    phase: &str,
    before: &Disks<MemDisk>,
    text: &mut String,
) -> Option<Disks<MemDisk>> {
    let (options, calls) = phase.split_once(':')?;
    let disks = disks_of(alloc, options, before)?;
    let left = match opened {
        Opened::Journal => journals::play(alloc, options, calls, disks, text)?,
        Opened::Desk => desks::play(alloc, options, calls, disks, text)?,
    };
    push_files(text, options, &left)?;
    Some(left)
}

/// Puts what comes of phases to a text, which stand with a bar between.
pub fn play_all(alloc: Global, opened: Opened, phases: &str, text: &mut String) -> Option<()> {
    let mut disks = empty_disks(alloc).ok()?;
    for phase in phases.split(" | ") {
        disks = play(alloc, opened, phase, &disks, text)?;
    }
    Some(())
}
