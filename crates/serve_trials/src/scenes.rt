//! What a run of a play begins with.
use crate::meetings::{Flags, Step};
use crate::nodes::ChainNode;
use crate::said::Said;
use edge_kit::{Crash, Disks, Link, MemDisk, MemDoor, MemLink, MemSink, MemSource};
use signer_link::MemSigner;
use std::alloc::{AllocError, Global};
use std::io;

/// Room for the output, if none is set.
const ROOM: u64 = 1 << 20;

/// Room for each reply at the door.
const REPLY_ROOM: usize = 4096;

/// The acts that set something besides the disks.
const ACTS: [&str; 16] = [
    "input",
    "caller",
    "node",
    "disk-fails",
    "second-fails",
    "read-fails",
    "write-fails",
    "sign-fails",
    "door-fails",
    "caller-fails",
    "disk-stops",
    "second-stops",
    "crash",
    "room",
    "wait",
    "lanes",
];

/// What was set for the next run: acts by name and text, in their order, and what the disks hold. The acts are:
///
/// - `disk HEX`: what the first disk holds, in place of what an earlier run left.
/// - `input TEXT`: the input.
/// - `caller TEXT`: a connection, and what the client says over it.
/// - `node ITEMS`: a beacon node, as `Said` reads it.
/// - `disk-fails N..`, `second-fails N..`, `read-fails N..`, `write-fails N..`, `sign-fails N..`, `door-fails N..`: calls
///   of the first disk, the second one, the input, the output, the signer (each lane's has a count of its own) and the
///   door, from 0.
/// - `caller-fails N..`: calls of each connection.
/// - `disk-stops N`, `second-stops N`: the call at which the first disk, or the second one, stops.
/// - `crash written`, `crash before`, `crash half`: what the next run leaves of changes that are not synced: each as it
///   was made, none, or the first half of each write. Without it each stands.
/// - `room N`: the room of the output.
/// - `wait STEP STEP`: the first step of the first kind waits until one of the second has come.
/// - `lanes`: what each lane leaves is shown.
#[derive(Drop)]
pub struct Scene<'a> {
    acts: Vec<(&'a str, &'a str)>,
    first: Vec<u8>,
    second: Vec<u8>,
}

/// What is said of a line that no act reads.
pub fn bad() -> io::Error {
    io::Error::from(io::ErrorKind::InvalidInput)
}

pub fn number_of(word: &str) -> io::Result<u64> {
    match word.parse::<u64>() {
        Ok(number) => Ok(number),
        Err(_) => Err(bad()),
    }
}

impl<'a> Scene<'a> {
    /// Nothing is set, and the disks are empty.
    pub fn new(alloc: Global) -> Self {
        Scene {
            acts: Vec::new(alloc),
            first: Vec::new(alloc),
            second: Vec::new(alloc),
        }
    }

    /// Sets something for the next run.
    pub fn set(&mut self, alloc: Global, name: &'a str, text: &'a str) -> io::Result<()> {
        match name {
            "disk" => self.set_disk(alloc, text),
            _ if ACTS.contains(&name) => Ok(self.acts.push((name, text))?),
            _ => Err(bad()),
        }
    }

    fn set_disk(&mut self, alloc: Global, digits: &str) -> io::Result<()> {
        match hex::decode(alloc, digits) {
            Ok(bytes) => self.first = bytes,
            Err(_) => return Err(bad()),
        }
        Ok(())
    }

    /// The disks hold what the crash that is set leaves of these, and nothing is set.
    pub fn hold(&mut self, alloc: Global, disks: &Disks<MemDisk>) -> io::Result<()> {
        let crash = self.crash()?;
        self.first = disks.first.image(alloc, crash)?;
        self.second = disks.second.image(alloc, crash)?;
        self.forget();
        Ok(())
    }

    /// Nothing is set.
    pub fn forget(&mut self) {
        self.acts.clear();
    }

    /// What a crash makes of the changes that are not synced.
    fn crash(&self) -> io::Result<Crash> {
        match self.text("crash") {
            None | Some("written") => Ok(Crash::Written),
            Some("before") => Ok(Crash::Before),
            Some("half") => Ok(Crash::Torn),
            Some(_) => Err(bad()),
        }
    }

    /// The text of an act, where it was set.
    pub fn text(&self, name: &str) -> Option<&'a str> {
        for (set, text) in self.acts.as_slice() {
            if *set == name {
                return Some(*text);
            }
        }
        None
    }

    /// The numbers of an act; none where it was not set.
    fn numbers(&self, alloc: Global, name: &str) -> io::Result<Vec<u64>> {
        let mut numbers = Vec::new(alloc);
        for word in self.text(name).unwrap_or("").split_whitespace() {
            numbers.push(number_of(word)?)?;
        }
        Ok(numbers)
    }

    /// Which step waits for which.
    pub fn waits(&self, alloc: Global) -> io::Result<Vec<(Step, Step)>> {
        let mut waits = Vec::new(alloc);
        for (set, text) in self.acts.as_slice() {
            if *set == "wait" {
                waits.push(wait_of(text)?)?;
            }
        }
        Ok(waits)
    }

    pub fn source(&self, alloc: Global) -> io::Result<MemSource> {
        let failing = self.numbers(alloc, "read-fails")?;
        let input = self.text("input").unwrap_or("");
        let input = Vec::from_slice(alloc, input.as_bytes())?;
        Ok(MemSource::new(input, failing))
    }

    pub fn sink(&self, alloc: Global) -> io::Result<MemSink> {
        let failing = self.numbers(alloc, "write-fails")?;
        let room = match self.text("room") {
            Some(word) => number_of(word)?,
            None => ROOM,
        };
        Ok(MemSink::new(alloc, room as usize, failing)?)
    }

    pub fn disks(&self, alloc: Global) -> io::Result<Disks<MemDisk>> {
        Ok(Disks {
            first: self.disk(alloc, self.first.as_slice(), "disk-fails", "disk-stops")?,
            second: self.disk(
                alloc,
                self.second.as_slice(),
                "second-fails",
                "second-stops",
            )?,
        })
    }

    /// A disk of these bytes, whose calls fail and which stops as the acts of these names say.
    fn disk(&self, alloc: Global, bytes: &[u8], fails: &str, stops: &str) -> io::Result<MemDisk> {
        let failing = self.numbers(alloc, fails)?;
        let stop = match self.text(stops) {
            Some(word) => Some(number_of(word)?),
            None => None,
        };
        Ok(MemDisk::new(alloc, bytes.to_vec(alloc)?, failing, stop)?)
    }

    /// Disks that never fail, and hold what these do.
    pub fn sound_disks(&self, alloc: Global) -> Result<Disks<MemDisk>, AllocError> {
        Ok(Disks {
            first: sound_disk(alloc, self.first.as_slice())?,
            second: sound_disk(alloc, self.second.as_slice())?,
        })
    }

    /// A signer that holds every key.
    pub fn signer(&self, alloc: Global) -> io::Result<MemSigner> {
        let failing = self.numbers(alloc, "sign-fails")?;
        Ok(MemSigner::new(alloc, Vec::new(alloc), failing))
    }

    pub fn door(&self, alloc: Global) -> io::Result<MemDoor> {
        let failing = self.numbers(alloc, "door-fails")?;
        let mut coming = Vec::new(alloc);
        for (set, text) in self.acts.as_slice() {
            if *set == "caller" {
                let failing = self.numbers(alloc, "caller-fails")?;
                coming.push(connected(alloc, text, failing)?)?;
            }
        }
        Ok(MemDoor::new(alloc, coming, failing)?)
    }

    /// What each node says.
    pub fn said(&self, alloc: Global) -> io::Result<Vec<Said>> {
        let mut said = Vec::new(alloc);
        for (set, text) in self.acts.as_slice() {
            if *set == "node" {
                said.push(Said::read(alloc, text)?)?;
            }
        }
        Ok(said)
    }
}

/// The two steps of a wait.
fn wait_of(words: &str) -> io::Result<(Step, Step)> {
    let (own, other) = words.split_once(' ').unwrap_or((words, ""));
    match (Step::read(own), Step::read(other)) {
        (Some(own), Some(other)) => Ok((own, other)),
        _ => Err(bad()),
    }
}

/// A disk of these bytes that never fails.
fn sound_disk(alloc: Global, bytes: &[u8]) -> Result<MemDisk, AllocError> {
    MemDisk::new(alloc, bytes.to_vec(alloc)?, Vec::new(alloc), None)
}

/// The nodes that say this.
pub fn nodes_of<'a>(
    alloc: Global,
    said: &'a [Said],
    flags: &'a Flags,
) -> Result<Vec<ChainNode<'a>>, AllocError> {
    let mut nodes = Vec::new(alloc);
    for said in said {
        nodes.push(ChainNode {
            alloc,
            said,
            flags,
            is_of_lane: false,
            calls: 0,
            faults: 0,
        })?;
    }
    Ok(nodes)
}

/// The connected link of a client that says this, whose calls of these numbers fail; that of the connecting has number 0.
fn connected(alloc: Global, said: &str, failing: Vec<u64>) -> Result<MemLink, AllocError> {
    let said = Vec::from_slice(alloc, said.as_bytes())?;
    let conversations = vec![in alloc; said]?;
    let mut link = MemLink::new(alloc, conversations, REPLY_ROOM, failing)?;
    let _ = link.connect();
    Ok(link)
}
