//! Lanes beside each other.
ghost use Rattle.std.specs.Prelude.{◌≡◌, ◌<◌, ◌≤◌, All, is_ok, length, option_map, true};
ghost use Rattle.std.specs.Result.{result_ok};
ghost use Rattle.desk_machine.specs.Machine.{moment_limit};
ghost use Rattle.duty_plans.specs.Plans.{slot_work};
ghost use Rattle.duty_workers.specs.Places.{are_placed_tasks};
ghost use Rattle.duty_workers.specs.Shares.{DidLane, IsRefreshedIn};
ghost use Rattle.duty_workers.specs.Working.{IsReady, WereRefreshed, WorksDone, lane_seen, lanes_seen};

use crate::lane::Lane;
use crate::shares::{dealt, gathered};
use crate::slot::run_slot;
use desk_machine::DeskCalls;
use duty_plans::{DutySetup, Ended, Task};
use node_calls::Node;
use sign_roots::Domains;
use signer_link::Signer;
use std::alloc::{AllocError, Global};
use std::thread;
use std::thread::Threads;

/// Does these tasks of a slot in the lanes, beside each other, and says of each how it ended, in the order of the tasks:
/// the task at a place goes to the lane that the place is modulo the lanes, the first task being at the given place. Each
/// lane does its own one after another, as `run_slot` does them.
///
/// # Errors
///
/// `AllocError` where memory was wanted. Each lane did its share, or the first few calls of it, each whole, and each grant
/// is settled.
pub fn run_lanes<T: Threads + Sync, K: DeskCalls + Send, S: Signer + Send, N: Node + Drop + Send>(
    rt: &T,
    alloc: Global,
    setup: &DutySetup,
    domains: &Domains,
    slot: u64,
    now: u64,
    place: usize,
    tasks: &[Task],
    lanes: &mut [Lane<K, S, N>],
) -> Result<Vec<Ended>, AllocError>
    requires some { 0 < length lanes.old }
    requires ready { All (IsReady K.ready) lanes.old }
    requires moment { now ≤ moment_limit }
    requires places { are_placed_tasks tasks.now ≡ true }
    ensures ready { All (IsReady K.ready) lanes.new }
    ensures works { WorksDone K.leads (slot_work setup.now domains.now slot now) place tasks.now
        (lanes_seen S.told S.faults S.denials N.told N.faults lanes.old) (lanes_seen S.told S.faults S.denials N.told N.faults lanes.new)
        (option_map (λ ends. ends.items) (result_ok result)) }
{
    let count = lanes.len();
    let work = |i: usize, lane: &mut Lane<K, S, N>|
        requires { (0 < count) × (now ≤ moment_limit) × (are_placed_tasks tasks.now ≡ true) × IsReady K.ready lane.old }
        ensures { IsReady K.ready lane.new × DidLane K.leads S.told S.faults S.denials N.told N.faults
            (slot_work setup.entry.now domains.entry.now slot now) place tasks.entry.now count i lane.old lane.new }
    {
        do_lane(
            alloc, setup, domains, slot, now, place, tasks, count, i, lane,
        )
    };
    thread::for_each_mut(rt, lanes, count, &work);
    gathered(alloc, place, tasks, lanes)
}

/// Does the tasks that go to one of that many lanes, and leaves in it how they ended.
fn do_lane<K: DeskCalls, S: Signer, N: Node + Drop>(
    alloc: Global,
    setup: &DutySetup,
    domains: &Domains,
    slot: u64,
    now: u64,
    place: usize,
    tasks: &[Task],
    count: usize,
    i: usize,
    lane: &mut Lane<K, S, N>,
)
    requires some { 0 < count }
    requires moment { now ≤ moment_limit }
    requires places { are_placed_tasks tasks.now ≡ true }
    requires ready { IsReady K.ready lane.old }
    ensures ready { IsReady K.ready lane.new }
    ensures did { DidLane K.leads S.told S.faults S.denials N.told N.faults
        (slot_work setup.now domains.now slot now) place tasks.now count i lane.old lane.new }
{
    let Ok(mine) = dealt(alloc, tasks, place, i, count) else {
        lane.ends = None;
        return;
    };
    let done = run_slot(
        alloc,
        setup,
        domains,
        slot,
        now,
        mine.as_slice(),
        &mut lane.desk,
        &mut lane.signer,
        &mut lane.nodes,
    );
    lane.ends = done.ok();
}

/// Asks the nodes of each lane, in the order of the lanes, whether they are syncing.
///
/// # Errors
///
/// `AllocError` where memory was wanted; the nodes of the lanes before it were asked, and the first few of that lane.
pub fn refresh_lanes<K: DeskCalls, S: Signer, N: Node + Drop>(
    lanes: &mut [Lane<K, S, N>],
) -> Result<(), AllocError>
    requires ready { All (IsReady K.ready) lanes.old }
    ensures ready { All (IsReady K.ready) lanes.new }
    ensures refreshed { WereRefreshed (is_ok result) (lanes_seen S.told S.faults S.denials N.told N.faults lanes.old)
        (lanes_seen S.told S.faults S.denials N.told N.faults lanes.new) }
{
    'lanes: for i in 0..lanes.len() {
        let Ok(()) = refresh_lane(&mut lanes[i]) else {
            return Err(AllocError);
        };
    }
    Ok(())
}

/// Asks the nodes of a lane whether they are syncing. The error is want of memory.
fn refresh_lane<K, S: Signer, N: Node + Drop>(lane: &mut Lane<K, S, N>) -> Result<(), AllocError>
    ensures desk { lane.new.desk ≡ lane.old.desk }
    ensures refreshed { IsRefreshedIn (is_ok result) (lane_seen S.told S.faults S.denials N.told N.faults lane.old)
        (lane_seen S.told S.faults S.denials N.told N.faults lane.new) }
{
    lane.nodes.refresh()
}
