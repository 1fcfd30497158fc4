//! How tasks are dealt to lanes, and how what the lanes say of their ends is put together.
ghost use Rattle.std.specs.Prelude.{◌≡◌, ◌<◌, length, IfOk, OnOk, Some, is_some};
ghost use Rattle.std.specs.List.{list_all};
ghost use Rattle.duty_turns.specs.Lanes.{dealt};
ghost use Rattle.duty_workers.specs.Shares.{AreGathered, HaveShares, end_at, kept, lane_ends};

use crate::lane::Lane;
use duty_plans::{Ended, Task};
use std::alloc::{AllocError, Global};

/// Those of these tasks that go to a lane, the first task being at the given place. The error is want of memory.
pub(crate) fn dealt(
    alloc: Global,
    tasks: &[Task],
    place: usize,
    lane: usize,
    lanes: usize,
) -> Result<Vec<Task>, AllocError>
    requires { 0 < lanes }
    ensures { IfOk result (λ mine. mine.items ≡ dealt lanes lane place tasks.now) }
{
    let mut mine = Vec::new(alloc);
    let mut at = place % lanes;
    'tasks: for task in tasks {
        keep(alloc, &mut mine, task, at == lane)?;
        at = (at + 1) % lanes;
    }
    Ok(mine)
}

/// Keeps a task, where it is one to keep. The error is want of memory.
fn keep(alloc: Global, mine: &mut Vec<Task>, task: &Task, is_mine: bool) -> Result<(), AllocError>
    ensures { OnOk result (mine.new.items ≡ kept is_mine mine.old.items task.now) }
{
    if is_mine {
        mine.push(task.copy(alloc)?)?;
    }
    Ok(())
}

/// How these tasks ended, which the lanes did, in the order of the tasks; the first task is at the given place.
///
/// # Errors
///
/// `AllocError` where some lane does not say how its own ended, or memory was wanted.
pub(crate) fn gathered<K, S, N>(
    alloc: Global,
    place: usize,
    tasks: &[Task],
    lanes: &[Lane<K, S, N>],
) -> Result<Vec<Ended>, AllocError>
    requires some { 0 < length lanes.now }
    requires shares { HaveShares place tasks.now lanes.now }
    ensures { IfOk result (λ ends. AreGathered place tasks.now lanes.now ends.items) }
{
    if !have_ends(lanes) {
        return Err(AllocError);
    }
    let mut ends = Vec::with_capacity(alloc, tasks.len())?;
    let mut at = place % lanes.len();
    'tasks: for i in 0..tasks.len() {
        ends.push(end_at(alloc, &lanes[at], i / lanes.len())?)?;
        at = (at + 1) % lanes.len();
    }
    Ok(ends)
}

/// Whether each lane says how its own ended.
fn have_ends<K, S, N>(lanes: &[Lane<K, S, N>]) -> bool
    ensures { result ≡ list_all (λ lane. is_some lane.ends) lanes.now }
{
    lanes.iter().all(|lane| lane.ends.is_some())
}

/// How the task ended that a lane did at this place among its own.
///
/// # Errors
///
/// `AllocError` where it does not say so, or memory was wanted.
fn end_at<K, S, N>(alloc: Global, lane: &Lane<K, S, N>, place: usize) -> Result<Ended, AllocError>
    ensures { IfOk result (λ end. Some end ≡ end_at (lane_ends lane.now) place) }
{
    let Some(ends) = &lane.ends else {
        return Err(AllocError);
    };
    match ends.get(place) {
        Some(end) => end.copy(alloc),
        None => Err(AllocError),
    }
}
