//! Disks that stop at a call, and desks over what a crash leaves of them.
use crate::lanes::{MemLane, desk_over};
use crate::words::number_in;
use edge_kit::{Crash, MemDisk};
use signer_link::MemSigner;
use std::alloc::Global;
use std::mem;

/// The first disk of the lane's desk, which ends; the lane has an empty one then.
fn take_disk(alloc: Global, lane: &mut MemLane) -> Option<MemDisk> {
    let empty = desk_over(alloc, Vec::new(alloc), None, false, 0)?;
    let (disks, _) = mem::replace(&mut lane.desk, empty).desk.end();
    Some(disks.first)
}

/// How many calls the opening of a desk over these bytes makes of its first disk.
fn opening_calls(alloc: Global, bytes: &[u8]) -> Option<u64> {
    let desk = desk_over(alloc, bytes.to_vec(alloc).ok()?, None, false, 0)?;
    let (disks, _) = desk.desk.end();
    Some(disks.first.calls())
}

/// `stop call=N`: the lane's desk is opened again, over a disk that stops at the call of this number after the opening.
pub fn stop(alloc: Global, lane: &mut MemLane, rest: &str) -> Option<()> {
    let after = number_in(rest, "call")?;
    let bytes = take_disk(alloc, lane)?.image(alloc, Crash::Written).ok()?;
    let opening = opening_calls(alloc, bytes.as_slice())?;
    lane.desk = desk_over(alloc, bytes, Some(opening.saturating_add(after)), false, 0)?;
    Some(())
}

/// `crash written`, `crash before` or `crash torn`: the lane's desk is opened again, over what this crash leaves. The lane
/// has a signer that holds every key then.
pub fn crash(alloc: Global, lane: &mut MemLane, word: &str) -> Option<()> {
    let crash = match word {
        "written" => Crash::Written,
        "before" => Crash::Before,
        "torn" => Crash::Torn,
        _ => return None,
    };
    let image = take_disk(alloc, lane)?.image(alloc, crash).ok()?;
    lane.desk = desk_over(alloc, image, None, false, 0)?;
    lane.signer = MemSigner::new(alloc, Vec::new(alloc), Vec::new(alloc));
    Some(())
}
