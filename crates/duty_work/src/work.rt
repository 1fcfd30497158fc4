//! What is due in a slot is done: blocks at once, votes a third into it.
ghost use Rattle.std.specs.Prelude.{◌≡◌, ◌++◌, ◌<◌, ℕ, All, List, IfOk, Option, length, option_map, true};
ghost use Rattle.std.specs.Result.{result_ok};
ghost use Rattle.node_fallback.specs.Seen.{Seen};
ghost use Rattle.duty_plans.specs.Tasks.{fresh};
ghost use Rattle.duty_workers.specs.Working.{IsReady, WorksDone, lanes_seen};
ghost use Rattle.duty_workers.specs.Places.{are_placed, are_placed_tasks};
ghost use Rattle.duty_turns.specs.Standing.{Standing};
ghost use Rattle.duty_turns.specs.Turns.{after_wait, again_plan, at_moment, blocks_in, casts, due_plan, is_block, tried_plan, votes_in, votes_plan, work_of};
ghost use Rattle.duty_turns.specs.TurnSteps.{sink_seen};
ghost use Rattle.duty_asks.specs.Placed.{HoldsPlaced};
ghost use Rattle.duty_work.specs.Houses.{Turns, house};

use crate::aggregate::{report_ended, report_merged};
use crate::closing::close_ended;
use crate::votes::cast_votes;
use desk_machine::DeskCalls;
use duty_plans::{DutySetup, Ended, Task, again_tasks, fresh};
use duty_schedule::{Duty, Schedule};
use duty_turns::{
    DutyEnd, Held, again_start, epoch_of, is_missed, next_slot, slot_of, votes_start,
};
use duty_workers::{Lane, run_lanes};
use edge_clock::Clock;
use edge_kit::Sink;
use node_calls::Node;
use sign_roots::Domains;
use signer_link::Signer;
use std::alloc::{AllocError, Global};
use std::sync::Wait;
use std::thread::Threads;

/// Has these duties of the slot done in the lanes, of which the blocks are done at once, and the votes a third into it.
pub fn do_due<
    T: Threads + Wait + Sync,
    K: DeskCalls + Send,
    S: Signer + Send,
    N: Node + Drop + Send,
    C: Clock,
    O: Sink,
>(
    rt: &T,
    alloc: Global,
    setup: &DutySetup,
    clock: &C,
    due: &[Duty],
    held: &mut Held,
    desk: &mut K,
    lanes: &mut [Lane<K, S, N>],
    out: &mut O,
) -> Result<(), DutyEnd>
    requires some { 0 < length lanes.old }
    requires ready { K.ready desk.old }
    requires lanes { All (IsReady K.ready) lanes.old }
    requires places { are_placed due.now ≡ true }
    ensures ready { K.ready desk.new }
    ensures lanes { All (IsReady K.ready) lanes.new }
    ensures runs { (nodes : List Seen) (s : Standing) → HoldsPlaced held.old s → Turns K.leads (C.start clock.now) (HoldsPlaced held.new) (due_plan setup.now s due.now)
        (house desk.old (lanes_seen S.told S.faults S.denials N.told N.faults lanes.old) nodes (sink_seen O.held O.faults out.old))
        (house desk.new (lanes_seen S.told S.faults S.denials N.told N.faults lanes.new) nodes (sink_seen O.held O.faults out.new)) result }
{
    let Ok(blocks) = blocks_in(alloc, due) else {
        return Err(DutyEnd::OutOfMemory);
    };
    let blocks = blocks.as_slice();
    let Ok(proposed) = do_duties(rt, alloc, setup, 0, blocks, held, lanes) else {
        return Err(DutyEnd::OutOfMemory);
    };
    let reached = clock.wait_until(rt, votes_start(setup.genesis_time, held.slot));
    vote_at(
        rt, alloc, setup, clock, reached, due, blocks, proposed, held, desk, lanes, out,
    )
}

/// Has these duties done in the lanes, which are of one kind, and of which the first has this place in the slot.
fn do_duties<T: Threads + Sync, K: DeskCalls + Send, S: Signer + Send, N: Node + Drop + Send>(
    rt: &T,
    alloc: Global,
    setup: &DutySetup,
    place: usize,
    duties: &[Duty],
    held: &Held,
    lanes: &mut [Lane<K, S, N>],
) -> Result<Vec<Ended>, AllocError>
    requires some { 0 < length lanes.old }
    requires ready { All (IsReady K.ready) lanes.old }
    requires places { are_placed duties.now ≡ true }
    ensures ready { All (IsReady K.ready) lanes.new }
    ensures works { (s : Standing) → HoldsPlaced held.now s → WorksDone K.leads (work_of setup.now s) place (fresh duties.now)
        (lanes_seen S.told S.faults S.denials N.told N.faults lanes.old) (lanes_seen S.told S.faults S.denials N.told N.faults lanes.new)
        (option_map (λ ends. ends.items) (result_ok result)) }
{
    let Ok(tasks) = fresh(alloc, duties) else {
        return Err(AllocError);
    };
    do_tasks(rt, alloc, setup, place, tasks.as_slice(), held, lanes)
}

/// Has these tasks done in the lanes, of which the first has this place in the slot.
pub(crate) fn do_tasks<
    T: Threads + Sync,
    K: DeskCalls + Send,
    S: Signer + Send,
    N: Node + Drop + Send,
>(
    rt: &T,
    alloc: Global,
    setup: &DutySetup,
    place: usize,
    tasks: &[Task],
    held: &Held,
    lanes: &mut [Lane<K, S, N>],
) -> Result<Vec<Ended>, AllocError>
    requires some { 0 < length lanes.old }
    requires ready { All (IsReady K.ready) lanes.old }
    requires places { are_placed_tasks tasks.now ≡ true }
    ensures ready { All (IsReady K.ready) lanes.new }
    ensures works { (s : Standing) → HoldsPlaced held.now s → WorksDone K.leads (work_of setup.now s) place tasks.now
        (lanes_seen S.told S.faults S.denials N.told N.faults lanes.old) (lanes_seen S.told S.faults S.denials N.told N.faults lanes.new)
        (option_map (λ ends. ends.items) (result_ok result)) }
{
    let domains = Domains::new(held.fork, setup.genesis);
    run_lanes(
        rt,
        alloc,
        setup,
        &domains,
        held.slot,
        epoch_of(held.slot),
        place,
        tasks,
        lanes,
    )
}

/// Has the votes cast, whose places are after those of the blocks, unless the moment that was reached is of a later slot,
/// or before that at which votes are cast. Then the next turn is that of the slot that was reached.
fn vote_at<
    T: Threads + Wait + Sync,
    K: DeskCalls + Send,
    S: Signer + Send,
    N: Node + Drop + Send,
    C: Clock,
    O: Sink,
>(
    rt: &T,
    alloc: Global,
    setup: &DutySetup,
    clock: &C,
    reached: u64,
    due: &[Duty],
    blocks: &[Duty],
    proposed: Vec<Ended>,
    held: &mut Held,
    desk: &mut K,
    lanes: &mut [Lane<K, S, N>],
    out: &mut O,
) -> Result<(), DutyEnd>
    requires some { 0 < length lanes.old }
    requires ready { K.ready desk.old }
    requires lanes { All (IsReady K.ready) lanes.old }
    requires places { are_placed due.now ≡ true }
    requires blocks { blocks.now ≡ blocks_in due.now }
    ensures ready { K.ready desk.new }
    ensures lanes { All (IsReady K.ready) lanes.new }
    ensures runs { (nodes : List Seen) (s : Standing) → HoldsPlaced held.old s → Turns K.leads (C.start clock.now) (HoldsPlaced held.new) (votes_plan setup.now s due.now proposed.items reached)
        (house desk.old (lanes_seen S.told S.faults S.denials N.told N.faults lanes.old) nodes (sink_seen O.held O.faults out.old))
        (house desk.new (lanes_seen S.told S.faults S.denials N.told N.faults lanes.new) nodes (sink_seen O.held O.faults out.new)) result }
{
    let slot = held.slot;
    let moment = votes_start(setup.genesis_time, slot);
    if is_missed(setup.genesis_time, slot, moment, reached) {
        go_to(alloc, setup.genesis_time, moment, reached, held);
        return close_ended(
            alloc,
            setup,
            slot,
            blocks,
            proposed.as_slice(),
            held,
            desk,
            out,
        );
    }
    cast_now(
        rt, alloc, setup, clock, due, blocks, proposed, held, desk, lanes, out,
    )
}

/// Has the votes cast now.
fn cast_now<
    T: Threads + Wait + Sync,
    K: DeskCalls + Send,
    S: Signer + Send,
    N: Node + Drop + Send,
    C: Clock,
    O: Sink,
>(
    rt: &T,
    alloc: Global,
    setup: &DutySetup,
    clock: &C,
    due: &[Duty],
    blocks: &[Duty],
    proposed: Vec<Ended>,
    held: &mut Held,
    desk: &mut K,
    lanes: &mut [Lane<K, S, N>],
    out: &mut O,
) -> Result<(), DutyEnd>
    requires some { 0 < length lanes.old }
    requires ready { K.ready desk.old }
    requires lanes { All (IsReady K.ready) lanes.old }
    requires places { are_placed due.now ≡ true }
    requires blocks { blocks.now ≡ blocks_in due.now }
    ensures ready { K.ready desk.new }
    ensures lanes { All (IsReady K.ready) lanes.new }
    ensures runs { (nodes : List Seen) (s : Standing) → HoldsPlaced held.old s → Turns K.leads (C.start clock.now) (HoldsPlaced held.new)
        (casts (work_of setup.now s) (length (blocks_in due.now)) (votes_in due.now) (λ cast. again_plan setup.now s (blocks_in due.now ++ votes_in due.now) (proposed.items ++ cast)))
        (house desk.old (lanes_seen S.told S.faults S.denials N.told N.faults lanes.old) nodes (sink_seen O.held O.faults out.old))
        (house desk.new (lanes_seen S.told S.faults S.denials N.told N.faults lanes.new) nodes (sink_seen O.held O.faults out.new)) result }
{
    let Ok(votes) = votes_in(alloc, due) else {
        return Err(DutyEnd::OutOfMemory);
    };
    let votes = votes.as_slice();
    let Ok(cast) = cast_votes(rt, alloc, setup, blocks.len(), votes, held, desk, lanes) else {
        return Err(DutyEnd::OutOfMemory);
    };
    end_both(
        rt, alloc, setup, clock, blocks, votes, proposed, cast, held, desk, lanes, out,
    )
}

/// Ends a slot in which blocks were proposed and votes were cast, and these ended so.
fn end_both<
    T: Threads + Wait + Sync,
    K: DeskCalls + Send,
    S: Signer + Send,
    N: Node + Drop + Send,
    C: Clock,
    O: Sink,
>(
    rt: &T,
    alloc: Global,
    setup: &DutySetup,
    clock: &C,
    blocks: &[Duty],
    votes: &[Duty],
    proposed: Vec<Ended>,
    cast: Vec<Ended>,
    held: &mut Held,
    desk: &mut K,
    lanes: &mut [Lane<K, S, N>],
    out: &mut O,
) -> Result<(), DutyEnd>
    requires some { 0 < length lanes.old }
    requires ready { K.ready desk.old }
    requires lanes { All (IsReady K.ready) lanes.old }
    requires places { are_placed (blocks.now ++ votes.now) ≡ true }
    ensures ready { K.ready desk.new }
    ensures lanes { All (IsReady K.ready) lanes.new }
    ensures runs { (nodes : List Seen) (s : Standing) → HoldsPlaced held.old s → Turns K.leads (C.start clock.now) (HoldsPlaced held.new)
        (again_plan setup.now s (blocks.now ++ votes.now) (proposed.items ++ cast.items))
        (house desk.old (lanes_seen S.told S.faults S.denials N.told N.faults lanes.old) nodes (sink_seen O.held O.faults out.old))
        (house desk.new (lanes_seen S.told S.faults S.denials N.told N.faults lanes.new) nodes (sink_seen O.held O.faults out.new)) result }
{
    let Ok(duties) = joined(alloc, blocks, votes) else {
        return Err(DutyEnd::OutOfMemory);
    };
    let duties = duties.as_slice();
    let Ok(ends) = both_ends(proposed, cast) else {
        return Err(DutyEnd::OutOfMemory);
    };
    let ends = ends.as_slice();
    end_slot(
        rt, alloc, setup, clock, duties, ends, held, desk, lanes, out,
    )
}

/// Ends a slot whose duties were done and ended so: what was granted and not sent is tried once more at its time, if there is
/// something and the slot lasts.
fn end_slot<
    T: Threads + Wait + Sync,
    K: DeskCalls + Send,
    S: Signer + Send,
    N: Node + Drop + Send,
    C: Clock,
    O: Sink,
>(
    rt: &T,
    alloc: Global,
    setup: &DutySetup,
    clock: &C,
    duties: &[Duty],
    ends: &[Ended],
    held: &mut Held,
    desk: &mut K,
    lanes: &mut [Lane<K, S, N>],
    out: &mut O,
) -> Result<(), DutyEnd>
    requires some { 0 < length lanes.old }
    requires ready { K.ready desk.old }
    requires lanes { All (IsReady K.ready) lanes.old }
    requires places { are_placed duties.now ≡ true }
    ensures ready { K.ready desk.new }
    ensures lanes { All (IsReady K.ready) lanes.new }
    ensures runs { (nodes : List Seen) (s : Standing) → HoldsPlaced held.old s → Turns K.leads (C.start clock.now) (HoldsPlaced held.new)
        (again_plan setup.now s duties.now ends.now)
        (house desk.old (lanes_seen S.told S.faults S.denials N.told N.faults lanes.old) nodes (sink_seen O.held O.faults out.old))
        (house desk.new (lanes_seen S.told S.faults S.denials N.told N.faults lanes.new) nodes (sink_seen O.held O.faults out.new)) result }
{
    let Ok(tasks) = again_tasks(alloc, duties, ends) else {
        return Err(DutyEnd::OutOfMemory);
    };
    let tasks = tasks.as_slice();
    if tasks.is_empty() {
        return report_ended(
            rt, alloc, setup, clock, duties, ends, held, desk, lanes, out,
        );
    }
    let reached = clock.wait_until(rt, again_start(setup.genesis_time, held.slot));
    try_again(
        rt, alloc, setup, clock, reached, duties, ends, tasks, held, desk, lanes, out,
    )
}

/// Tries once more what was granted and not sent, unless the moment that was reached is of a later slot, or before that which
/// was waited for, since the clock was set back.
fn try_again<
    T: Threads + Wait + Sync,
    K: DeskCalls + Send,
    S: Signer + Send,
    N: Node + Drop + Send,
    C: Clock,
    O: Sink,
>(
    rt: &T,
    alloc: Global,
    setup: &DutySetup,
    clock: &C,
    reached: u64,
    duties: &[Duty],
    ends: &[Ended],
    tasks: &[Task],
    held: &mut Held,
    desk: &mut K,
    lanes: &mut [Lane<K, S, N>],
    out: &mut O,
) -> Result<(), DutyEnd>
    requires some { 0 < length lanes.old }
    requires ready { K.ready desk.old }
    requires lanes { All (IsReady K.ready) lanes.old }
    requires places { are_placed_tasks tasks.now ≡ true }
    requires duties { are_placed duties.now ≡ true }
    ensures ready { K.ready desk.new }
    ensures lanes { All (IsReady K.ready) lanes.new }
    ensures runs { (nodes : List Seen) (s : Standing) → HoldsPlaced held.old s → Turns K.leads (C.start clock.now) (HoldsPlaced held.new)
        (tried_plan setup.now s duties.now ends.now tasks.now reached)
        (house desk.old (lanes_seen S.told S.faults S.denials N.told N.faults lanes.old) nodes (sink_seen O.held O.faults out.old))
        (house desk.new (lanes_seen S.told S.faults S.denials N.told N.faults lanes.new) nodes (sink_seen O.held O.faults out.new)) result }
{
    let slot = held.slot;
    let start = again_start(setup.genesis_time, slot);
    if is_missed(setup.genesis_time, slot, start, reached) {
        go_after(alloc, setup.genesis_time, start, reached, held);
        return close_ended(alloc, setup, slot, duties, ends, held, desk, out);
    }
    let Ok(again) = do_tasks(rt, alloc, setup, 0, tasks, held, lanes) else {
        return Err(DutyEnd::OutOfMemory);
    };
    let again = again.as_slice();
    report_merged(
        rt, alloc, setup, clock, duties, ends, again, held, desk, lanes, out,
    )
}

/// Has the next turn be of the next slot, or of the slot of the moment that was reached, where that is before the one that was
/// waited for, since the clock was set back. Takes no memory.
pub(crate) fn go_after(alloc: Global, genesis_time: u64, moment: u64, reached: u64, held: &mut Held)
    ensures { (s : Standing) → HoldsPlaced held.old s → HoldsPlaced held.new (after_wait genesis_time moment reached s) }
{
    if moment <= reached {
        held.slot = next_slot(held.slot);
        return;
    }
    go_to(alloc, genesis_time, moment, reached, held);
}

/// Has the next turn be of the slot of a moment at which a wait for another was over. Where it is before that, since the
/// clock was set back, no answer of before stands: one of a later epoch would bar those of this one. Takes no memory.
pub fn go_to(alloc: Global, genesis_time: u64, moment: u64, reached: u64, held: &mut Held)
    ensures { (s : Standing) → HoldsPlaced held.old s → HoldsPlaced held.new (at_moment genesis_time moment reached s) }
{
    if reached < moment {
        held.schedule = Schedule::new(alloc);
    }
    held.slot = slot_of(genesis_time, reached);
}

/// The blocks of these duties. The error is want of memory.
fn blocks_in(alloc: Global, due: &[Duty]) -> Result<Vec<Duty>, AllocError>
    ensures { IfOk result (λ blocks. blocks.items ≡ blocks_in due.now) }
{
    due.iter().copied().filter(is_block).collect(alloc)
}

/// The votes of these duties. The error is want of memory.
fn votes_in(alloc: Global, due: &[Duty]) -> Result<Vec<Duty>, AllocError>
    ensures { IfOk result (λ votes. votes.items ≡ votes_in due.now) }
{
    due.iter()
        .copied()
        .filter(|duty| !is_block(duty))
        .collect(alloc)
}

fn is_block(duty: &Duty) -> bool
    ensures { result ≡ is_block duty.now }
{
    matches!(duty, Duty::Block(_))
}

/// Both, one after the other. The error is want of memory.
fn joined<T: Copy>(alloc: Global, first: &[T], second: &[T]) -> Result<Vec<T>, AllocError>
    ensures { IfOk result (λ both. both.items ≡ first.now ++ second.now) }
{
    let mut both = Vec::new(alloc);
    both.extend_from_slice(first)?;
    both.extend_from_slice(second)?;
    Ok(both)
}

/// Both, one after the other. The error is want of memory.
fn both_ends(first: Vec<Ended>, second: Vec<Ended>) -> Result<Vec<Ended>, AllocError>
    ensures { IfOk result (λ both. both.items ≡ first.items ++ second.items) }
{
    let mut both = first;
    let mut second = second;
    both.append(&mut second)?;
    Ok(both)
}
