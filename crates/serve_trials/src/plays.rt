//! Plays: their acts, and what is written of each run.
use crate::meetings::Flags;
use crate::runs::{Left, PlayLane, PlaySigner, outside_of, run};
use crate::scenes::Scene;
use edge_kit::{Disks, MemDisk, MemLink, Root};
use std::alloc::{AllocError, Global};
use std::io;
use std::io::Print;
use std::rt::Clock;
use std::sync::Wait;
use std::thread::Threads;
use test_texts::{filled, genesis_of, kept_words};
use trial_lines::print_outcome;
use validator_cli::Status;

/// Carries out the acts of a play: `run WORDS` does what the words say, and `Scene` has the others.
pub fn play<T: Threads + Wait + Clock + Print + Sync>(
    rt: &T,
    alloc: Global,
    acts: &str,
) -> io::Result<()> {
    let acts = unmarked(alloc, acts)?;
    let mut scene = Scene::new(alloc);
    for act in acts.split(" | ") {
        take_act(rt, alloc, &mut scene, act)?;
    }
    Ok(())
}

/// A line without its marks.
pub fn unmarked(alloc: Global, line: &str) -> Result<String, AllocError> {
    let line = filled(alloc, line)?;
    let line = line.replace(alloc, "\\r", "\r")?;
    line.replace(alloc, "\\n", "\n")
}

/// A text on one line.
pub fn on_one_line(alloc: Global, bytes: &[u8]) -> Result<String, AllocError> {
    let text = String::from_utf8_lossy(alloc, bytes)?;
    let text = text.replace(alloc, "\r", "\\r")?;
    text.replace(alloc, "\n", "\\n")
}

fn take_act<'a, T: Threads + Wait + Clock + Print + Sync>(
    rt: &T,
    alloc: Global,
    scene: &mut Scene<'a>,
    act: &'a str,
) -> io::Result<()> {
    match act.split_once(' ').unwrap_or((act, "")) {
        ("run", words) => run_words(rt, alloc, scene, words),
        (name, text) => scene.set(alloc, name, text),
    }
}

/// Does what these words say, writes what that leaves, and leaves the disks to the next run.
fn run_words<T: Threads + Wait + Clock + Print + Sync>(
    rt: &T,
    alloc: Global,
    scene: &mut Scene,
    words: &str,
) -> io::Result<()> {
    let said = scene.said(alloc)?;
    let flags = Flags::new(scene.waits(alloc)?);
    let words = words_of(alloc, words)?;
    let genesis = genesis_of(words.as_slice());
    let outside = outside_of(rt, alloc, scene, said.as_slice(), &flags)?;
    let left = run(rt, alloc, words.as_slice(), outside);
    scene_after(rt, alloc, scene, left, genesis, flags.late_waits())
}

/// Writes what a run left, and leaves the disks to the next run.
fn scene_after<T: Print>(
    rt: &T,
    alloc: Global,
    scene: &mut Scene,
    left: Left<T>,
    genesis: Root,
    late_waits: u64,
) -> io::Result<()> {
    let Left { ending, output } = left;
    show_output(rt, alloc, output.as_slice())?;
    show_status(rt, ending.status, &ending.disks)?;
    show_kept(rt, alloc, &ending.disks, genesis)?;
    show_waits(rt, scene, late_waits)?;
    show_lanes(rt, scene, ending.lanes)?;
    show_signers(rt, scene, ending.signers)?;
    show_sent(rt, alloc, ending.door.door.into_finished())?;
    scene.hold(alloc, &ending.disks)
}

pub fn words_of(alloc: Global, text: &str) -> Result<Vec<String>, AllocError> {
    let mut words = Vec::new(alloc);
    for word in text.split_whitespace() {
        words.push(String::from_str(alloc, word)?)?;
    }
    Ok(words)
}

/// Writes an output, and whether its last line has no end.
fn show_output<T: Print>(rt: &T, alloc: Global, output: &[u8]) -> io::Result<()> {
    let text = String::from_utf8_lossy(alloc, output)?;
    print_outcome(rt, text.as_str())?;
    if output.is_empty() || output.ends_with(b"\n") {
        return Ok(());
    }
    println!(rt; "  .. and no end of the line")
}

fn show_status<T: Print>(rt: &T, status: Status, disks: &Disks<MemDisk>) -> io::Result<()> {
    let is_used = disks.first.calls() > 0 || disks.second.calls() > 0;
    let disks = if is_used { "used" } else { "untouched" };
    let code = status.code();
    println!(rt; "  {status:?}, code {code}, disks {disks}")
}

/// Writes what a desk over the disks of a run says of each key.
fn show_kept<T: Print>(
    rt: &T,
    alloc: Global,
    disks: &Disks<MemDisk>,
    genesis: Root,
) -> io::Result<()> {
    let kept = kept_words(alloc, disks, genesis)?;
    for line in kept.as_str().lines() {
        println!(rt; "  kept {line}")?;
    }
    Ok(())
}

fn show_waits<T: Print>(rt: &T, scene: &Scene, late_waits: u64) -> io::Result<()> {
    if scene.text("wait").is_none() {
        return Ok(());
    }
    println!(rt; "  late waits {late_waits}")
}

/// Writes how many requests the signer of each lane had, and how many nodes the lane has.
fn show_lanes<T: Print>(rt: &T, scene: &Scene, lanes: Vec<PlayLane<T>>) -> io::Result<()> {
    if scene.text("lanes").is_none() {
        return Ok(());
    }
    for lane in lanes {
        let requests = lane.signer.requests;
        let nodes = lane.nodes.into_nodes().len();
        println!(rt; "  a lane: requests {requests}, nodes {nodes}")?;
    }
    Ok(())
}

/// Writes how many requests the signer of each lane of a signing proxy had.
fn show_signers<T: Print>(rt: &T, scene: &Scene, signers: Vec<PlaySigner<T>>) -> io::Result<()> {
    if scene.text("lanes").is_none() {
        return Ok(());
    }
    for signer in signers {
        let requests = signer.requests;
        println!(rt; "  a lane: requests {requests}")?;
    }
    Ok(())
}

/// Writes what each finished connection was sent.
fn show_sent<T: Print>(rt: &T, alloc: Global, finished: Vec<MemLink>) -> io::Result<()> {
    for link in finished {
        let sent = on_one_line(alloc, link.into_sent().as_slice())?;
        let sent = sent.as_str();
        println!(rt; "  sent {sent}")?;
    }
    Ok(())
}
