//! What stands for the outside of a session.
use edge_clock::MemClock;
use edge_kit::{Disks, MemDisk, MemDoor, MemSink, MemSource, PubKey, Root};
use node_calls::MemNode;
use signer_link::{MemSigner, Signer};
use std::alloc::{AllocError, Global};
use std::sync::Wait;
use std::thread::Threads;
use test_texts::{filled, genesis_of};
use validator_cli::{Status, run_validator};

/// The words of a session for the chain G0.
pub const SESSION: &str = "validator session --genesis <G0>";

/// Which calls of the input and the output fail, and the output's room.
#[derive(Drop)]
pub struct Faults {
    pub reads: Vec<u64>,
    pub writes: Vec<u64>,
    pub room: usize,
}

/// No fault, and ample room.
pub fn no_faults(alloc: Global) -> Faults {
    Faults {
        reads: Vec::new(alloc),
        writes: Vec::new(alloc),
        room: 1 << 20,
    }
}

/// A signer that holds every key and never fails.
pub fn ready_signer(alloc: Global) -> MemSigner {
    let lacking: Vec<PubKey> = Vec::new(alloc);
    MemSigner::new(alloc, lacking, Vec::new(alloc))
}

/// The disks of a run, the first of these bytes, its calls of these numbers failing; the second is empty.
pub fn disks_of(
    alloc: Global,
    bytes: Vec<u8>,
    failing: Vec<u64>,
) -> Result<Disks<MemDisk>, AllocError> {
    let empty = Vec::new(alloc);
    Ok(Disks {
        first: MemDisk::new(alloc, bytes, failing, None)?,
        second: MemDisk::new(alloc, empty, Vec::new(alloc), None)?,
    })
}

/// Empty disks that never fail.
pub fn fresh_disks(alloc: Global) -> Result<Disks<MemDisk>, AllocError> {
    disks_of(alloc, Vec::new(alloc), Vec::new(alloc))
}

/// Disks that never fail, over what a run left on both.
pub fn disks_after<S>(alloc: Global, ended: &Ended<S>) -> Result<Disks<MemDisk>, AllocError> {
    let Disks { first, second } = &ended.disks;
    let first = first.bytes().to_vec(alloc)?;
    let second = second.bytes().to_vec(alloc)?;
    Ok(Disks {
        first: MemDisk::new(alloc, first, Vec::new(alloc), None)?,
        second: MemDisk::new(alloc, second, Vec::new(alloc), None)?,
    })
}

/// What a run leaves.
#[derive(Drop)]
pub struct Ended<S> {
    pub status: Status,
    pub output: Vec<u8>,
    pub disks: Disks<MemDisk>,
    pub signer: S,
    /// The root of genesis validators that the words name.
    pub genesis: Root,
}

/// The words of one text, with marks and with spaces between them.
fn split_words(alloc: Global, marked: &str) -> Result<Vec<String>, AllocError> {
    let text = filled(alloc, marked)?;
    let mut words = Vec::new(alloc);
    for word in text.split_whitespace() {
        words.push(String::from_str(alloc, word)?)?;
    }
    Ok(words)
}

/// What a run reads from and what it writes to.
#[derive(Drop)]
struct Streams {
    source: MemSource,
    sink: MemSink,
}

/// An input of these bytes and an empty output, with their faults.
fn streams_of(alloc: Global, input: &[u8], faults: Faults) -> Result<Streams, AllocError> {
    let input = Vec::from_slice(alloc, input)?;
    let source = MemSource::new(input, faults.reads);
    let sink = MemSink::new(alloc, faults.room, faults.writes)?;
    Ok(Streams { source, sink })
}

/// Runs the program over disks and an input. Its words are one text, with marks and with spaces between them.
pub fn run<T: Threads + Wait + Sync, S: Signer + Send + Drop>(
    rt: &T,
    alloc: Global,
    words: &str,
    disks: Disks<MemDisk>,
    input: &[u8],
    signer: S,
    faults: Faults,
) -> Result<Ended<S>, AllocError> {
    let words = split_words(alloc, words)?;
    let genesis = genesis_of(words.as_slice());
    let mut streams = streams_of(alloc, input, faults)?;
    let door = MemDoor::new(alloc, Vec::new(alloc), Vec::new(alloc))?;
    let ending = run_validator(
        rt,
        alloc,
        words.as_slice(),
        disks,
        signer,
        no_nodes(alloc),
        MemClock::new(0, Vec::new(alloc)),
        door,
        &mut streams.source,
        &mut streams.sink,
    );
    Ok(Ended {
        status: ending.status,
        output: streams.sink.into_bytes(),
        disks: ending.disks,
        signer: ending.signer,
        genesis,
    })
}

/// No beacon node.
fn no_nodes(alloc: Global) -> Vec<MemNode> {
    Vec::new(alloc)
}

/// Runs words over disks and an input with marks, where nothing fails and the signer holds every key.
pub fn play<T: Threads + Wait + Sync>(
    rt: &T,
    alloc: Global,
    words: &str,
    disks: Disks<MemDisk>,
    input: &str,
) -> Result<Ended<MemSigner>, AllocError> {
    let input = filled(alloc, input)?;
    let signer = ready_signer(alloc);
    let faults = no_faults(alloc);
    run(rt, alloc, words, disks, input.as_bytes(), signer, faults)
}
