//! Runs of scripts over disks, an input, an output and a signer in memory.
use crate::Trial;
use crate::outside::{Ended, Faults, SESSION, disks_after, fresh_disks, play, run};
use crate::script::Script;
use crate::shown::{marked, shown};
use crate::words::{lacking, numbers_of, value_of};
use edge_kit::{Disks, MemDisk};
use signer_link::{MemSigner, Signer};
use std::alloc::{AllocError, Global};
use std::mem;
use std::sync::Wait;
use std::thread::Threads;

/// How many calls of the first disk the opening of empty disks makes.
pub fn opening_calls<T: Threads + Wait + Sync>(rt: &T, alloc: Global) -> Result<u64, AllocError> {
    let idle = play(rt, alloc, SESSION, fresh_disks(alloc)?, "")?;
    Ok(idle.disks.first.calls())
}

/// Which calls of the input and the output fail, and the output's room.
fn faults_of(alloc: Global, words: &str) -> Result<Faults, AllocError> {
    let reads = numbers_of(alloc, words, "reads", 0)?;
    let writes = numbers_of(alloc, words, "writes", 0)?;
    let room = value_of(words, "room").parse::<usize>();
    Ok(Faults {
        reads,
        writes,
        room: room.unwrap_or(1 << 20),
    })
}

/// Runs the requests that the words name over disks, with a signer.
pub fn run_over<T: Threads + Wait + Sync, S: Signer + Drop + Send>(
    rt: &T,
    alloc: Global,
    script: &Script,
    words: &str,
    disks: Disks<MemDisk>,
    signer: S,
) -> Result<Ended<S>, AllocError> {
    let input = script.input(alloc, words)?;
    let faults = faults_of(alloc, words)?;
    let session = script.words.as_str();
    run(rt, alloc, session, disks, input.as_bytes(), signer, faults)
}

/// The signer in memory that the words tell.
fn signer_of(alloc: Global, words: &str) -> Result<MemSigner, AllocError> {
    let lacking = lacking(alloc, words)?;
    let failing = numbers_of(alloc, words, "failing", 0)?;
    Ok(MemSigner::new(alloc, lacking, failing))
}

/// Runs the requests that the words name over disks, keeps the disks that are left, and gives what came of it.
fn play_over<T: Threads + Wait + Sync>(
    rt: &T,
    alloc: Global,
    trial: &mut Trial,
    words: &str,
    disks: Disks<MemDisk>,
) -> Result<String, AllocError> {
    let signer = signer_of(alloc, words)?;
    let ended = run_over(rt, alloc, &trial.script, words, disks, signer)?;
    trial.disks = disks_after(alloc, &ended)?;
    let text = shown(alloc, &ended, words)?;
    marked(alloc, text)
}

/// Runs them over the disks that the last run left.
pub fn play_again<T: Threads + Wait + Sync>(
    rt: &T,
    alloc: Global,
    trial: &mut Trial,
    words: &str,
) -> Result<String, AllocError> {
    let left = mem::replace(&mut trial.disks, fresh_disks(alloc)?);
    play_over(rt, alloc, trial, words, left)
}

/// Runs them over new disks.
pub fn play_anew<T: Threads + Wait + Sync>(
    rt: &T,
    alloc: Global,
    trial: &mut Trial,
    words: &str,
) -> Result<String, AllocError> {
    let disks = new_disks(alloc, words, trial.opening)?;
    play_over(rt, alloc, trial, words, disks)
}

/// New disks: the first with the bytes of the file, and each with the calls that fail.
fn new_disks(alloc: Global, words: &str, opening: u64) -> Result<Disks<MemDisk>, AllocError> {
    let file = hex::decode(alloc, value_of(words, "file")).unwrap_or(Vec::new(alloc));
    Ok(Disks {
        first: disk_of(alloc, file, words, "first", opening)?,
        second: disk_of(alloc, Vec::new(alloc), words, "second", opening)?,
    })
}

/// A disk of these bytes, whose calls fail that the words name.
fn disk_of(
    alloc: Global,
    bytes: Vec<u8>,
    words: &str,
    name: &str,
    opening: u64,
) -> Result<MemDisk, AllocError> {
    let failing = numbers_of(alloc, words, name, opening)?;
    MemDisk::new(alloc, bytes, failing, None)
}
