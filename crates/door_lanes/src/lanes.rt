//! Lanes at the same time.
ghost use Rattle.std.specs.Prelude.{◌≡◌, ◌<◌, All, length};
ghost use Rattle.std.specs.List.{list_any};
ghost use Rattle.door_lanes.specs.Lanes.{AllWent, IsReady, LanesEnd, Went, is_disk, is_door};

use crate::lane::{Lane, LaneEnd, run_lane};
use crate::serves::Serves;
use crate::takes::Takes;
use std::sync::Wait;
use std::thread;
use std::thread::Threads;

/// Why lanes end before as many connections as are wanted were given, though others may come.
#[derive(Clone, Copy, PartialEq, Eq, Debug)]
pub enum LoopEnd {
    /// The door failed: its count of faults rose.
    Door,
    /// The disk of a desk was said to have failed.
    Disk,
    /// Memory was wanted, and nothing was done.
    Memory,
}

/// Lets the lanes serve the connections of a door at the same time, each up to its end. Takes no memory of its own.
///
/// # Errors
///
/// `LoopEnd::Disk` where a lane ended so; else `LoopEnd::Door` where one ended so.
pub(crate) fn serve_lanes<
    R: Threads + Wait + Sync,
    C: Send + Drop,
    T: Takes<C> + Send,
    V: Serves<C> + Send,
>(rt: &R, lanes: &mut [Lane<T, V, C>]) -> Result<(), LoopEnd>
    requires some { 0 < length lanes.old }
    requires ready { All (IsReady T.ready V.ready) lanes.old }
    ensures ready { All (IsReady T.ready V.ready) lanes.new }
    ensures went { AllWent T.leads V.serves lanes.old lanes.new }
    ensures ends { LanesEnd result lanes.new }
{
    run_lanes(rt, lanes);
    ended(lanes)
}

/// Lets the lanes serve the connections of a door at the same time, each up to its end.
fn run_lanes<R: Threads + Wait + Sync, C: Send + Drop, T: Takes<C> + Send, V: Serves<C> + Send>(
    rt: &R,
    lanes: &mut [Lane<T, V, C>],
)
    requires some { 0 < length lanes.old }
    requires ready { All (IsReady T.ready V.ready) lanes.old }
    ensures ready { All (IsReady T.ready V.ready) lanes.new }
    ensures went { AllWent T.leads V.serves lanes.old lanes.new }
{
    let count = lanes.len();
    let work = |_i: usize, lane: &mut Lane<T, V, C>|
        requires { IsReady T.ready V.ready lane.old }
        ensures { IsReady T.ready V.ready lane.new × Went T.leads V.serves lane.old lane.new }
    { run_lane(rt, lane) };
    thread::for_each_mut(rt, lanes, count, &work);
}

/// How the lanes ended.
fn ended<T, V, C>(lanes: &[Lane<T, V, C>]) -> Result<(), LoopEnd>
    ensures { LanesEnd result lanes.now }
{
    if any_disk_failed(lanes) {
        return Err(LoopEnd::Disk);
    }
    if any_door_failed(lanes) {
        return Err(LoopEnd::Door);
    }
    Ok(())
}

/// Whether a lane ended by a failed disk.
fn any_disk_failed<T, V, C>(lanes: &[Lane<T, V, C>]) -> bool
    ensures { result ≡ list_any (λ lane. is_disk lane.end) lanes.now }
{
    lanes.iter().any(|lane| is_disk(lane.end))
}

/// Whether a lane ended by a failed door.
fn any_door_failed<T, V, C>(lanes: &[Lane<T, V, C>]) -> bool
    ensures { result ≡ list_any (λ lane. is_door lane.end) lanes.now }
{
    lanes.iter().any(|lane| is_door(lane.end))
}

fn is_disk(end: LaneEnd) -> bool
    ensures { result ≡ is_disk end }
{
    matches!(end, LaneEnd::Disk)
}

fn is_door(end: LaneEnd) -> bool
    ensures { result ≡ is_door end }
{
    matches!(end, LaneEnd::Door)
}
