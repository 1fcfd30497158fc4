//! A run of a play.
use crate::meetings::{Flags, MeetingDoor, MeetingSigner};
use crate::nodes::ChainNode;
use crate::said::Said;
use crate::scenes::{Scene, nodes_of};
use edge_clock::MemClock;
use edge_kit::{Disks, MemDisk, MemDoor, MemSink, MemSource};
use signer_link::MemSigner;
use std::alloc::Global;
use std::io;
use std::rt::Clock;
use std::sync::Wait;
use std::thread::Threads;
use validator_cli::{Ending, LaneEnd, run_validator};

/// The door of a run.
type PlayDoor<'a, T> = MeetingDoor<'a, T, MemDoor>;

/// The signer of a run.
pub type PlaySigner<'a, T> = MeetingSigner<'a, T, MemSigner>;

/// What a run gives back.
type PlayEnding<'a, T> = Ending<MemDisk, PlaySigner<'a, T>, ChainNode<'a>, PlayDoor<'a, T>>;

/// What a lane gives back.
pub type PlayLane<'a, T> = LaneEnd<PlaySigner<'a, T>, ChainNode<'a>>;

/// What stands for the outside of a run.
#[derive(Drop)]
pub struct Outside<'a, T> {
    disks: Disks<MemDisk>,
    signer: PlaySigner<'a, T>,
    nodes: Vec<ChainNode<'a>>,
    door: PlayDoor<'a, T>,
    input: MemSource,
    out: MemSink,
}

/// What a run leaves.
#[derive(Drop)]
pub struct Left<'a, T> {
    pub ending: PlayEnding<'a, T>,
    pub output: Vec<u8>,
}

/// What was set, with nodes that say this.
pub fn outside_of<'a, T>(
    rt: &'a T,
    alloc: Global,
    scene: &Scene,
    said: &'a [Said],
    flags: &'a Flags,
) -> io::Result<Outside<'a, T>> {
    Ok(Outside {
        disks: scene.disks(alloc)?,
        signer: MeetingSigner {
            signer: scene.signer(alloc)?,
            requests: 0,
            flags,
            clock: rt,
        },
        nodes: nodes_of(alloc, said, flags)?,
        door: MeetingDoor {
            door: scene.door(alloc)?,
            flags,
            clock: rt,
        },
        input: scene.source(alloc)?,
        out: scene.sink(alloc)?,
    })
}

/// Does what these words say over the outside. Its clock starts at second 0 and is on time.
pub fn run<'a, T: Threads + Wait + Clock + Sync>(
    rt: &T,
    alloc: Global,
    words: &[String],
    outside: Outside<'a, T>,
) -> Left<'a, T> {
    let Outside {
        disks,
        signer,
        nodes,
        door,
        mut input,
        mut out,
    } = outside;
    let clock = MemClock::new(0, Vec::new(alloc));
    let ending = run_validator(
        rt, alloc, words, disks, signer, nodes, clock, door, &mut input, &mut out,
    );
    Left {
        ending,
        output: out.into_bytes(),
    }
}
