//! What a slot's duties came to is reported, and aggregates of its votes are published.
ghost use Rattle.std.specs.Prelude.{◌≡◌, ◌<◌, ℕ, All, List, IfOk, Option, length, true};
ghost use Rattle.call_plans.specs.Paths.{Carries};
ghost use Rattle.node_fallback.specs.Seen.{Seen};
ghost use Rattle.duty_plans.specs.Choices.{aggregate_tasks, reports};
ghost use Rattle.duty_plans.specs.Ends.{merged, results_of};
ghost use Rattle.duty_plans.specs.Seats.{Seat};
ghost use Rattle.duty_workers.specs.Working.{IsReady, lanes_seen};
ghost use Rattle.duty_workers.specs.Places.{are_placed, are_placed_tasks};
ghost use Rattle.duty_turns.specs.Standing.{Standing};
ghost use Rattle.duty_turns.specs.Turns.{aggregates_plan, choices_of, chooses_plan, gathers_plan, report_plan, told_plan};
ghost use Rattle.duty_turns.specs.TurnSteps.{Does, Fits, sink_seen};
ghost use Rattle.duty_asks.specs.Placed.{HoldsPlaced};
ghost use Rattle.duty_work.specs.Houses.{Turns, house, next_value};

use crate::closing::finish;
use crate::work::{do_tasks, go_after};
use desk_machine::DeskCalls;
use duty_asks::write_text;
use duty_plans::{
    DutyResult, DutySetup, Ended, Task, aggregate_tasks, choose_tasks, merged, reports, results_of,
};
use duty_schedule::Duty;
use duty_turns::{
    DutyEnd, Held, aggregate_lines, aggregates_start, duty_lines, is_missed, next_slot,
};
use duty_workers::Lane;
use edge_clock::Clock;
use edge_kit::Sink;
use node_calls::Node;
use signer_link::Signer;
use std::alloc::{AllocError, Global};
use std::sync::Wait;
use std::thread::Threads;

/// Reports that a slot's duties ended so, and goes on with the aggregates of its votes.
pub(crate) fn report_ended<
    T: Threads + Wait + Sync,
    K: DeskCalls + Send,
    S: Signer + Send,
    N: Node + Drop + Send,
    C: Clock,
    O: Sink,
>(
    rt: &T,
    alloc: Global,
    setup: &DutySetup,
    clock: &C,
    duties: &[Duty],
    ends: &[Ended],
    held: &mut Held,
    desk: &mut K,
    lanes: &mut [Lane<K, S, N>],
    out: &mut O,
) -> Result<(), DutyEnd>
    requires some { 0 < length lanes.old }
    requires ready { K.ready desk.old }
    requires lanes { All (IsReady K.ready) lanes.old }
    requires places { are_placed duties.now ≡ true }
    ensures ready { K.ready desk.new }
    ensures lanes { All (IsReady K.ready) lanes.new }
    ensures runs { (nodes : List Seen) (s : Standing) → HoldsPlaced held.old s → Turns K.leads (C.start clock.now) (HoldsPlaced held.new)
        (told_plan setup.now s duties.now ends.now (results_of ends.now))
        (house desk.old (lanes_seen S.told S.faults S.denials N.told N.faults lanes.old) nodes (sink_seen O.held O.faults out.old))
        (house desk.new (lanes_seen S.told S.faults S.denials N.told N.faults lanes.new) nodes (sink_seen O.held O.faults out.new)) result }
{
    let Ok(results) = results_of(alloc, ends) else {
        return Err(DutyEnd::OutOfMemory);
    };
    let results = results.as_slice();
    write_results(
        rt, alloc, setup, clock, duties, ends, results, held, desk, lanes, out,
    )
}

/// Reports how a slot's duties ended at last, where what was left of them was tried once more and ended so, and goes on with
/// the aggregates of its votes.
pub(crate) fn report_merged<
    T: Threads + Wait + Sync,
    K: DeskCalls + Send,
    S: Signer + Send,
    N: Node + Drop + Send,
    C: Clock,
    O: Sink,
>(
    rt: &T,
    alloc: Global,
    setup: &DutySetup,
    clock: &C,
    duties: &[Duty],
    ends: &[Ended],
    again: &[Ended],
    held: &mut Held,
    desk: &mut K,
    lanes: &mut [Lane<K, S, N>],
    out: &mut O,
) -> Result<(), DutyEnd>
    requires some { 0 < length lanes.old }
    requires ready { K.ready desk.old }
    requires lanes { All (IsReady K.ready) lanes.old }
    requires places { are_placed duties.now ≡ true }
    ensures ready { K.ready desk.new }
    ensures lanes { All (IsReady K.ready) lanes.new }
    ensures runs { (nodes : List Seen) (s : Standing) → HoldsPlaced held.old s → Turns K.leads (C.start clock.now) (HoldsPlaced held.new)
        (told_plan setup.now s duties.now ends.now (merged ends.now again.now))
        (house desk.old (lanes_seen S.told S.faults S.denials N.told N.faults lanes.old) nodes (sink_seen O.held O.faults out.old))
        (house desk.new (lanes_seen S.told S.faults S.denials N.told N.faults lanes.new) nodes (sink_seen O.held O.faults out.new)) result }
{
    let Ok(results) = merged(alloc, ends, again) else {
        return Err(DutyEnd::OutOfMemory);
    };
    let results = results.as_slice();
    write_results(
        rt, alloc, setup, clock, duties, ends, results, held, desk, lanes, out,
    )
}

/// Writes a line for each of these duties of the slot, and goes on with the aggregates of its votes.
fn write_results<
    T: Threads + Wait + Sync,
    K: DeskCalls + Send,
    S: Signer + Send,
    N: Node + Drop + Send,
    C: Clock,
    O: Sink,
>(
    rt: &T,
    alloc: Global,
    setup: &DutySetup,
    clock: &C,
    duties: &[Duty],
    ends: &[Ended],
    results: &[DutyResult],
    held: &mut Held,
    desk: &mut K,
    lanes: &mut [Lane<K, S, N>],
    out: &mut O,
) -> Result<(), DutyEnd>
    requires some { 0 < length lanes.old }
    requires ready { K.ready desk.old }
    requires lanes { All (IsReady K.ready) lanes.old }
    requires places { are_placed duties.now ≡ true }
    ensures ready { K.ready desk.new }
    ensures lanes { All (IsReady K.ready) lanes.new }
    ensures runs { (nodes : List Seen) (s : Standing) → HoldsPlaced held.old s → Turns K.leads (C.start clock.now) (HoldsPlaced held.new)
        (told_plan setup.now s duties.now ends.now results.now)
        (house desk.old (lanes_seen S.told S.faults S.denials N.told N.faults lanes.old) nodes (sink_seen O.held O.faults out.old))
        (house desk.new (lanes_seen S.told S.faults S.denials N.told N.faults lanes.new) nodes (sink_seen O.held O.faults out.new)) result }
{
    let Ok(lines) = duty_lines(alloc, held.slot, duties, results) else {
        return Err(DutyEnd::OutOfMemory);
    };
    match write_text(out, lines.as_bytes()) {
        Ok(()) => {}
        Err(_) => return Err(DutyEnd::Write),
    }
    let Ok(choices) = choices_of(alloc, setup, duties, ends) else {
        return Err(DutyEnd::OutOfMemory);
    };
    let choices = choices.as_slice();
    choose_all(rt, alloc, setup, clock, choices, held, desk, lanes, out)
}

/// The choices of aggregators among the validators of these votes, which ended so: none where nothing is aggregated. The error
/// is want of memory.
fn choices_of(
    alloc: Global,
    setup: &DutySetup,
    duties: &[Duty],
    ends: &[Ended],
) -> Result<Vec<Task>, AllocError>
    ensures { IfOk result (λ choices. choices.items ≡ choices_of setup.now duties.now ends.now) }
{
    if setup.aggregate {
        choose_tasks(alloc, duties, ends)
    } else {
        Ok(Vec::new(alloc))
    }
}

/// Has these choices made, if there is one, and goes on with the aggregates of the validators that are chosen.
fn choose_all<
    T: Threads + Wait + Sync,
    K: DeskCalls + Send,
    S: Signer + Send,
    N: Node + Drop + Send,
    C: Clock,
    O: Sink,
>(
    rt: &T,
    alloc: Global,
    setup: &DutySetup,
    clock: &C,
    choices: &[Task],
    held: &mut Held,
    desk: &mut K,
    lanes: &mut [Lane<K, S, N>],
    out: &mut O,
) -> Result<(), DutyEnd>
    requires some { 0 < length lanes.old }
    requires ready { K.ready desk.old }
    requires lanes { All (IsReady K.ready) lanes.old }
    requires places { are_placed_tasks choices.now ≡ true }
    ensures ready { K.ready desk.new }
    ensures lanes { All (IsReady K.ready) lanes.new }
    ensures runs { (nodes : List Seen) (s : Standing) → HoldsPlaced held.old s → Turns K.leads (C.start clock.now) (HoldsPlaced held.new)
        (chooses_plan setup.now s choices.now)
        (house desk.old (lanes_seen S.told S.faults S.denials N.told N.faults lanes.old) nodes (sink_seen O.held O.faults out.old))
        (house desk.new (lanes_seen S.told S.faults S.denials N.told N.faults lanes.new) nodes (sink_seen O.held O.faults out.new)) result }
{
    if choices.is_empty() {
        let slot = held.slot;
        held.slot = next_slot(slot);
        return finish(alloc, setup, slot, held, desk);
    }
    let Ok(chosen) = do_tasks(rt, alloc, setup, 0, choices, held, lanes) else {
        return Err(DutyEnd::OutOfMemory);
    };
    let chosen = chosen.as_slice();
    gather(
        rt, alloc, setup, clock, choices, chosen, held, desk, lanes, out,
    )
}

/// Goes on with the aggregates of the validators that these choices, which ended so, have chosen: two thirds into the slot.
fn gather<
    T: Threads + Wait + Sync,
    K: DeskCalls + Send,
    S: Signer + Send,
    N: Node + Drop + Send,
    C: Clock,
    O: Sink,
>(
    rt: &T,
    alloc: Global,
    setup: &DutySetup,
    clock: &C,
    choices: &[Task],
    chosen: &[Ended],
    held: &mut Held,
    desk: &mut K,
    lanes: &mut [Lane<K, S, N>],
    out: &mut O,
) -> Result<(), DutyEnd>
    requires some { 0 < length lanes.old }
    requires ready { K.ready desk.old }
    requires lanes { All (IsReady K.ready) lanes.old }
    requires places { are_placed_tasks choices.now ≡ true }
    ensures ready { K.ready desk.new }
    ensures lanes { All (IsReady K.ready) lanes.new }
    ensures runs { (nodes : List Seen) (s : Standing) → HoldsPlaced held.old s → Turns K.leads (C.start clock.now) (HoldsPlaced held.new)
        (gathers_plan setup.now s choices.now chosen.now (aggregate_tasks choices.now chosen.now))
        (house desk.old (lanes_seen S.told S.faults S.denials N.told N.faults lanes.old) nodes (sink_seen O.held O.faults out.old))
        (house desk.new (lanes_seen S.told S.faults S.denials N.told N.faults lanes.new) nodes (sink_seen O.held O.faults out.new)) result }
{
    let Ok(tasks) = aggregate_tasks(alloc, choices, chosen) else {
        return Err(DutyEnd::OutOfMemory);
    };
    let tasks = tasks.as_slice();
    if tasks.is_empty() {
        let slot = held.slot;
        held.slot = next_slot(slot);
        return report(alloc, setup, slot, choices, chosen, &[], held, desk, out);
    }
    let reached = clock.wait_until(rt, aggregates_start(setup.genesis_time, held.slot));
    publish_all(
        rt, alloc, setup, reached, choices, chosen, tasks, held, desk, lanes, out,
    )
}

/// Has these aggregates published, unless the moment that was reached is of a later slot, or before that which was waited for,
/// since the clock was set back; and closes the slot.
fn publish_all<
    T: Threads + Sync,
    K: DeskCalls + Send,
    S: Signer + Send,
    N: Node + Drop + Send,
    O: Sink,
>(
    rt: &T,
    alloc: Global,
    setup: &DutySetup,
    reached: u64,
    choices: &[Task],
    chosen: &[Ended],
    tasks: &[Task],
    held: &mut Held,
    desk: &mut K,
    lanes: &mut [Lane<K, S, N>],
    out: &mut O,
) -> Result<(), DutyEnd>
    requires some { 0 < length lanes.old }
    requires ready { K.ready desk.old }
    requires lanes { All (IsReady K.ready) lanes.old }
    requires places { are_placed_tasks tasks.now ≡ true }
    ensures ready { K.ready desk.new }
    ensures lanes { All (IsReady K.ready) lanes.new }
    ensures runs { (start : Option ℕ) (nodes : List Seen) (s : Standing) → HoldsPlaced held.old s → Turns K.leads start (HoldsPlaced held.new)
        (aggregates_plan setup.now s choices.now chosen.now tasks.now reached)
        (house desk.old (lanes_seen S.told S.faults S.denials N.told N.faults lanes.old) nodes (sink_seen O.held O.faults out.old))
        (house desk.new (lanes_seen S.told S.faults S.denials N.told N.faults lanes.new) nodes (sink_seen O.held O.faults out.new)) result }
{
    let slot = held.slot;
    let start = aggregates_start(setup.genesis_time, slot);
    if is_missed(setup.genesis_time, slot, start, reached) {
        go_after(alloc, setup.genesis_time, start, reached, held);
        return report(alloc, setup, slot, choices, chosen, &[], held, desk, out);
    }
    let Ok(ends) = do_tasks(rt, alloc, setup, 0, tasks, held, lanes) else {
        return Err(DutyEnd::OutOfMemory);
    };
    let ends = ends.as_slice();
    held.slot = next_slot(slot);
    report(alloc, setup, slot, choices, chosen, ends, held, desk, out)
}

/// Writes a line for each of these choices of a slot, which ended so, that has something to report, where the aggregates of
/// those that are chosen ended so; and finishes the slot.
fn report<K: DeskCalls, O: Sink>(
    alloc: Global,
    setup: &DutySetup,
    slot: u64,
    choices: &[Task],
    chosen: &[Ended],
    ends: &[Ended],
    held: &Held,
    desk: &mut K,
    out: &mut O,
) -> Result<(), DutyEnd>
    requires ready { K.ready desk.old }
    ensures ready { K.ready desk.new }
    ensures runs { (start : Option ℕ) (lanes : List (Seat K)) (nodes : List Seen) (s : Standing) → held.now.active ≡ s.active → Carries Fits (Does K.leads start) (report_plan setup.now slot choices.now (reports chosen.now ends.now) s)
        (house desk.old lanes nodes (sink_seen O.held O.faults out.old)) (house desk.new lanes nodes (sink_seen O.held O.faults out.new)) (next_value s result) }
{
    let Ok(found) = reports(alloc, chosen, ends) else {
        return Err(DutyEnd::OutOfMemory);
    };
    write_reports(
        alloc,
        setup,
        slot,
        choices,
        found.as_slice(),
        held,
        desk,
        out,
    )
}

/// Writes a line for each of these choices of a slot that has something to report, and finishes the slot.
fn write_reports<K: DeskCalls, O: Sink>(
    alloc: Global,
    setup: &DutySetup,
    slot: u64,
    choices: &[Task],
    found: &[Option<DutyResult>],
    held: &Held,
    desk: &mut K,
    out: &mut O,
) -> Result<(), DutyEnd>
    requires ready { K.ready desk.old }
    ensures ready { K.ready desk.new }
    ensures runs { (start : Option ℕ) (lanes : List (Seat K)) (nodes : List Seen) (s : Standing) → held.now.active ≡ s.active → Carries Fits (Does K.leads start) (report_plan setup.now slot choices.now found.now s)
        (house desk.old lanes nodes (sink_seen O.held O.faults out.old)) (house desk.new lanes nodes (sink_seen O.held O.faults out.new)) (next_value s result) }
{
    let Ok(lines) = aggregate_lines(alloc, slot, choices, found) else {
        return Err(DutyEnd::OutOfMemory);
    };
    match write_text(out, lines.as_bytes()) {
        Ok(()) => {}
        Err(_) => return Err(DutyEnd::Write),
    }
    finish(alloc, setup, slot, held, desk)
}
