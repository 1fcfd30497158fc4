//! Commands over disks in memory, lines of keys, and inputs that are read whole.
use crate::reading::{file, numbers, push_ended, state};
use command_line::{PathText, Plan};
use edge_kit::{Disks, MemDisk, MemSink, MemSource, Root, read_quoted};
use journal_commands::{key_line, read_whole, run_merge, run_show};
use program_end::Status;
use protect_record::{Floors, Record};
use record_replay::KeyState;
use slash_defs::File;
use std::alloc::{AllocError, Global};

/// The chain of the commands.
const GENESIS: Root = Root([7; 32]);

/// How many bytes an output takes.
const ROOM: usize = 4096;

/// Appends what comes of a text that is merged into an empty journal, and what is shown of the journal then.
pub(crate) fn push_journal(alloc: Global, text: &str, out: &mut String) -> Option<()> {
    let disks = merge_text(alloc, text, out).ok()?;
    show(alloc, disks, out).ok()
}

/// The path of a journal.
fn path(alloc: Global) -> Result<PathText, AllocError> {
    Ok(PathText::new(String::from_str(alloc, "journal")?))
}

/// An empty disk.
fn new_disk(alloc: Global) -> Result<MemDisk, AllocError> {
    MemDisk::new(alloc, Vec::new(alloc), Vec::new(alloc), None)
}

/// Merges a text, appends how that ended, and gives the disks.
fn merge_text(alloc: Global, text: &str, out: &mut String) -> Result<Disks<MemDisk>, AllocError> {
    let bytes = Vec::from_slice(alloc, text.as_bytes())?;
    let mut input = MemSource::new(bytes, Vec::new(alloc));
    let mut sink = MemSink::new(alloc, ROOM, Vec::new(alloc))?;
    let (status, disks) = merge(alloc, &mut input, &mut sink)?;
    push_end(alloc, out, "merge", status, sink)?;
    Ok(disks)
}

/// Merges an input into an empty journal.
fn merge(
    alloc: Global,
    input: &mut MemSource,
    sink: &mut MemSink,
) -> Result<(Status, Disks<MemDisk>), AllocError> {
    let plan = Plan::Merge {
        genesis: GENESIS,
        journal: path(alloc)?,
    };
    let first = new_disk(alloc)?;
    let second = new_disk(alloc)?;
    let disks = Disks { first, second };
    let (status, disks, _events) = run_merge(alloc, &plan, disks, input, sink);
    Ok((status, disks))
}

/// Shows the keys of disks, and appends how that ended.
fn show(alloc: Global, disks: Disks<MemDisk>, out: &mut String) -> Result<(), AllocError> {
    let plan = Plan::Show {
        genesis: GENESIS,
        journal: path(alloc)?,
    };
    let mut sink = MemSink::new(alloc, ROOM, Vec::new(alloc))?;
    let (status, _disks, _events) = run_show(alloc, &plan, disks, &mut sink);
    push_end(alloc, out, "show", status, sink)
}

/// Appends what a command wrote, if it wrote anything.
fn push_written(alloc: Global, out: &mut String, bytes: &[u8]) -> Result<(), AllocError> {
    if bytes.is_empty() {
        return Ok(());
    }
    let text = String::from_utf8_lossy(alloc, bytes)?;
    push_ended(out, text.as_str())
}

/// Appends the status of a command, its number, and what the command wrote.
fn push_end(
    alloc: Global,
    out: &mut String,
    command: &str,
    status: Status,
    sink: MemSink,
) -> Result<(), AllocError> {
    writeln!(out, "{command} {status:?} {}", status.code())?;
    push_written(alloc, out, sink.into_bytes().as_slice())
}

/// Appends the lines of keys: their state, the floors of their records, and a file with what else is kept of each.
pub(crate) fn push_keys(alloc: Global, text: &str, out: &mut String) -> Option<()> {
    let (word, rest) = text.split_once('|')?;
    let (block, rest) = rest.split_once('|')?;
    let (vote, text) = rest.split_once('|')?;
    let floors = Floors {
        block: read_quoted(block),
        vote: numbers(vote),
    };
    let state = state(word)?;
    push_kept(alloc, out, state, floors, file(alloc, text)?).ok()
}

/// Appends the line of each key of a file.
fn push_kept(
    alloc: Global,
    out: &mut String,
    state: KeyState,
    floors: Floors,
    file: File,
) -> Result<(), AllocError> {
    for (key, book) in file.books.into_vec() {
        let kept = Record::of_parts(floors, book.blocks.into_vec(), book.votes.into_vec())?;
        let line = key_line(alloc, &key, state, &kept)?;
        push_ended(out, line.as_str())?;
    }
    Ok(())
}

/// Appends how many bytes of an input are read: of its length, the limit, and the call that fails, if one does.
pub(crate) fn push_reading(alloc: Global, text: &str, out: &mut String) -> Option<()> {
    let (len, rest) = text.split_once(' ')?;
    let (limit, call) = rest.split_once(' ')?;
    let mut input = input_of(alloc, len, call)?;
    match read_whole(alloc, &mut input, read_quoted(limit)?) {
        Ok(bytes) => write!(out, "{} bytes", bytes.len()).ok(),
        Err(fault) => write!(out, "{fault:?}: {fault}").ok(),
    }
}

/// The call of this number, if it is one.
fn failing_of(alloc: Global, call: &str) -> Option<Vec<u64>> {
    match read_quoted(call) {
        Some(call) => vec![in alloc; call; 1].ok(),
        None => Some(Vec::new(alloc)),
    }
}

/// An input of that many bytes, with the call that fails, if one does.
fn input_of(alloc: Global, len: &str, call: &str) -> Option<MemSource> {
    let len = len.parse::<usize>().ok()?;
    let bytes = vec![in alloc; 7u8; len].ok()?;
    Some(MemSource::new(bytes, failing_of(alloc, call)?))
}
