//! One turn.
ghost use Rattle.std.specs.Prelude.{◌≡◌, ◌<◌, ℕ, All, List, OnOk, Option, Some, length};
ghost use Rattle.desk_machine.specs.declared.call.DeskCall.TheVariants as call;
ghost use Rattle.desk_machine.specs.declared.call.DeskReply.TheVariants as reply;
ghost use Rattle.node_fallback.specs.Seen.{Seen};
ghost use Rattle.duty_plans.specs.Seats.{Seat, nodes_seen};
ghost use Rattle.duty_workers.specs.Working.{IsReady, lanes_seen};
ghost use Rattle.duty_turns.specs.Standing.{Standing};
ghost use Rattle.duty_turns.specs.Turns.{NextPlan, calls, duties_plan, listed_plan, ready_plan, renewed_plan, shortens, sized, then_on, turn_plan, watch_plan, woken_plan};
ghost use Rattle.duty_turns.specs.TurnSteps.{SinkSeen, sink_seen};
ghost use Rattle.duty_asks.specs.Placed.{HoldsPlaced};
ghost use Rattle.duty_work.specs.Houses.{CalledOn, IsHolding, PartTurns, Turns, end_of, house, short_by};
ghost use Rattle.duty_loop.specs.Shortening.{IsCompaction};

use crate::keys::active_of;
use crate::watch::watch;
use desk_machine::{DeskCall, DeskCalls, DeskReply, KeyStanding};
use duty_asks::{Stop, ask_duties};
use duty_plans::DutySetup;
use duty_turns::{DutyEnd, Held, is_first_slot, is_missed, is_worth_compacting, slot_start};
use duty_work::{close, do_due, go_to};
use duty_workers::{Lane, refresh_lanes};
use edge_clock::Clock;
use edge_kit::{Items, PubKey, Sink};
use node_calls::Node;
use node_fallback::Nodes;
use signer_link::Signer;
use std::alloc::{AllocError, Global};
use std::sync::Wait;
use std::thread::Threads;

/// Takes one turn: waits for the start of the held slot, asks the nodes what is due for the desk's active keys, and
/// has it done in the lanes, blocks at once and votes a third into the slot (consensus-specs, `SECONDS_PER_SLOT`,
/// `INTERVALS_PER_SLOT`). What became of each duty is a line of the output, which is written after the last of them.
/// Then the next turn is the next slot's. Where a wait is over in a later slot, or before its moment, since the clock was
/// set back, the duties that are left are dropped, and the next turn is that of the slot that was reached; where the clock
/// was set back, what was answered before stands no more.
///
/// At an epoch's first slot, before the desk is asked for its keys, a journal is compacted that has 16,777,216 bytes at
/// least, half of which or more that frees, or more than 1,073,741,824, of which it frees a quarter or more. After the
/// lines, where not all is kept, the desk is asked to export a part of the active keys, which in 32 slots come each once,
/// and a file is merged by which it forgets what is old of them, if there is anything. Whatever the desk replies, the turn
/// goes on, but for want of memory.
///
/// A lane does duties with a desk, a signing service and nodes of its own, beside the others. The duties of a slot have
/// places, its blocks and then its votes, from 0 on; the one at a place goes to the lane that the place is modulo the
/// lanes. All else is done with the desk and the nodes of the loop itself, which signs nothing. At the slot's start its
/// nodes are asked whether they are syncing, and then those of each lane.
///
/// # Errors
///
/// `DutyEnd::Disk` where the desk says that its disk failed, `DutyEnd::Write` only where the output's count of
/// faults rose, `DutyEnd::OutOfMemory` where memory was wanted: then the first few calls of the turn are done, each
/// whole, and no grant is open. After an error nothing is promised of what is held.
pub fn take_turn<
    T: Threads + Wait + Sync,
    K: DeskCalls + Send,
    S: Signer + Send,
    N: Node + Drop + Send,
    C: Clock,
    O: Sink,
>(
    rt: &T,
    alloc: Global,
    setup: &DutySetup,
    clock: &C,
    held: &mut Held,
    desk: &mut K,
    nodes: &mut Nodes<N>,
    lanes: &mut [Lane<K, S, N>],
    out: &mut O,
) -> Result<(), DutyEnd>
    requires some { 0 < length lanes.old }
    requires ready { K.ready desk.old }
    requires lanes { All (IsReady K.ready) lanes.old }
    requires held { IsHolding held.old }
    ensures ready { K.ready desk.new }
    ensures lanes { All (IsReady K.ready) lanes.new }
    ensures held { OnOk result (IsHolding held.new) }
    ensures runs { (s : Standing) → HoldsPlaced held.old s → Turns K.leads (C.start clock.now) (HoldsPlaced held.new) (turn_plan setup.now s)
        (house desk.old (lanes_seen S.told S.faults S.denials N.told N.faults lanes.old) (nodes_seen N.told N.faults nodes.old) (sink_seen O.held O.faults out.old))
        (house desk.new (lanes_seen S.told S.faults S.denials N.told N.faults lanes.new) (nodes_seen N.told N.faults nodes.new) (sink_seen O.held O.faults out.new)) result }
{
    let reached = clock.wait_until(rt, slot_start(setup.genesis_time, held.slot));
    begin(
        rt, alloc, setup, clock, reached, held, desk, nodes, lanes, out,
    )
}

/// Begins the slot, if this moment is of it and not before its start.
fn begin<
    T: Threads + Wait + Sync,
    K: DeskCalls + Send,
    S: Signer + Send,
    N: Node + Drop + Send,
    C: Clock,
    O: Sink,
>(
    rt: &T,
    alloc: Global,
    setup: &DutySetup,
    clock: &C,
    reached: u64,
    held: &mut Held,
    desk: &mut K,
    nodes: &mut Nodes<N>,
    lanes: &mut [Lane<K, S, N>],
    out: &mut O,
) -> Result<(), DutyEnd>
    requires some { 0 < length lanes.old }
    requires ready { K.ready desk.old }
    requires lanes { All (IsReady K.ready) lanes.old }
    requires held { IsHolding held.old }
    ensures ready { K.ready desk.new }
    ensures lanes { All (IsReady K.ready) lanes.new }
    ensures runs { (s : Standing) → HoldsPlaced held.old s → Turns K.leads (C.start clock.now) (HoldsPlaced held.new) (woken_plan setup.now s reached)
        (house desk.old (lanes_seen S.told S.faults S.denials N.told N.faults lanes.old) (nodes_seen N.told N.faults nodes.old) (sink_seen O.held O.faults out.old))
        (house desk.new (lanes_seen S.told S.faults S.denials N.told N.faults lanes.new) (nodes_seen N.told N.faults nodes.new) (sink_seen O.held O.faults out.new)) result }
{
    let slot = held.slot;
    let moment = slot_start(setup.genesis_time, slot);
    if is_missed(setup.genesis_time, slot, moment, reached) {
        go_to(alloc, setup.genesis_time, moment, reached, held);
        return close(alloc, setup, slot, &[], &[], held, desk, out);
    }
    let Ok(()) = nodes.refresh() else {
        return Err(DutyEnd::OutOfMemory);
    };
    let Ok(()) = refresh_lanes(lanes) else {
        return Err(DutyEnd::OutOfMemory);
    };
    shorten(rt, alloc, setup, clock, held, desk, nodes, lanes, out)
}

/// Has a journal that has grown compacted at an epoch's first slot, and goes on with the desk's keys.
fn shorten<
    T: Threads + Wait + Sync,
    K: DeskCalls + Send,
    S: Signer + Send,
    N: Node + Drop + Send,
    C: Clock,
    O: Sink,
>(
    rt: &T,
    alloc: Global,
    setup: &DutySetup,
    clock: &C,
    held: &mut Held,
    desk: &mut K,
    nodes: &mut Nodes<N>,
    lanes: &mut [Lane<K, S, N>],
    out: &mut O,
) -> Result<(), DutyEnd>
    requires some { 0 < length lanes.old }
    requires ready { K.ready desk.old }
    requires lanes { All (IsReady K.ready) lanes.old }
    requires held { IsHolding held.old }
    ensures ready { K.ready desk.new }
    ensures lanes { All (IsReady K.ready) lanes.new }
    ensures runs { (s : Standing) → HoldsPlaced held.old s → Turns K.leads (C.start clock.now) (HoldsPlaced held.new) (shortens s (calls call.Keys (listed_plan setup.now s)))
        (house desk.old (lanes_seen S.told S.faults S.denials N.told N.faults lanes.old) (nodes_seen N.told N.faults nodes.old) (sink_seen O.held O.faults out.old))
        (house desk.new (lanes_seen S.told S.faults S.denials N.told N.faults lanes.new) (nodes_seen N.told N.faults nodes.new) (sink_seen O.held O.faults out.new)) result }
{
    let Ok(()) = compact_grown(held.slot, desk) else {
        return Err(DutyEnd::OutOfMemory);
    };
    list_keys(rt, alloc, setup, clock, held, desk, nodes, lanes, out)
}

/// Has a journal that has grown compacted, if this slot is an epoch's first.
fn compact_grown<K: DeskCalls>(slot: u64, desk: &mut K) -> Result<(), AllocError>
    requires ready { K.ready desk.old }
    ensures ready { K.ready desk.new }
    ensures called { (start : Option ℕ) (lanes : List (Seat K)) (nodes : List Seen) (out : SinkSeen) (s : Standing) (next : NextPlan) → slot ≡ s.slot → CalledOn K.leads start (shortens s next) next
        (house desk.old lanes nodes out) (house desk.new lanes nodes out) result }
{
    if !is_first_slot(slot) {
        return Ok(());
    }
    match desk.call(DeskCall::Size) {
        DeskReply::Size { size, weight } => compact_worth(size, weight, desk),
        _ => unreachable!(),
    }
}

/// Has a journal of that many bytes compacted, if that is worth it. Whatever the desk replies, the turn goes on, but for
/// want of memory.
fn compact_worth<K: DeskCalls>(size: u64, weight: u64, desk: &mut K) -> Result<(), AllocError>
    requires ready { K.ready desk.old }
    ensures ready { K.ready desk.new }
    ensures called { (start : Option ℕ) (lanes : List (Seat K)) (nodes : List Seen) (out : SinkSeen) (next : NextPlan) → CalledOn K.leads start (sized (reply.Size size weight) next) next
        (house desk.old lanes nodes out) (house desk.new lanes nodes out) result }
{
    if !is_worth_compacting(size, weight) {
        return Ok(());
    }
    let reply = desk.call(DeskCall::Compact);
    short_by(reply)
}

/// Whether memory ran out at a compaction. A disk that failed is asked for at the turn's end.
fn short_by(reply: DeskReply) -> Result<(), AllocError>
    requires { IsCompaction reply }
    ensures { result ≡ short_by reply }
{
    match reply {
        DeskReply::Compacted {
            before: _,
            after: _,
        }
        | DeskReply::Full { size: _, wanted: _ }
        | DeskReply::LastGeneration
        | DeskReply::Disk => Ok(()),
        DeskReply::OutOfMemory => Err(AllocError),
        _ => unreachable!(),
    }
}

/// Asks the desk for its keys, and goes on with them.
fn list_keys<
    T: Threads + Wait + Sync,
    K: DeskCalls + Send,
    S: Signer + Send,
    N: Node + Drop + Send,
    C: Clock,
    O: Sink,
>(
    rt: &T,
    alloc: Global,
    setup: &DutySetup,
    clock: &C,
    held: &mut Held,
    desk: &mut K,
    nodes: &mut Nodes<N>,
    lanes: &mut [Lane<K, S, N>],
    out: &mut O,
) -> Result<(), DutyEnd>
    requires some { 0 < length lanes.old }
    requires ready { K.ready desk.old }
    requires lanes { All (IsReady K.ready) lanes.old }
    requires held { IsHolding held.old }
    ensures ready { K.ready desk.new }
    ensures lanes { All (IsReady K.ready) lanes.new }
    ensures runs { (s : Standing) → HoldsPlaced held.old s → Turns K.leads (C.start clock.now) (HoldsPlaced held.new) (calls call.Keys (listed_plan setup.now s))
        (house desk.old (lanes_seen S.told S.faults S.denials N.told N.faults lanes.old) (nodes_seen N.told N.faults nodes.old) (sink_seen O.held O.faults out.old))
        (house desk.new (lanes_seen S.told S.faults S.denials N.told N.faults lanes.new) (nodes_seen N.told N.faults nodes.new) (sink_seen O.held O.faults out.new)) result }
{
    match desk.call(DeskCall::Keys) {
        DeskReply::Keys(listed) => do_slot(
            rt,
            alloc,
            setup,
            clock,
            listed.as_slice(),
            held,
            desk,
            nodes,
            lanes,
            out,
        ),
        DeskReply::OutOfMemory => Err(DutyEnd::OutOfMemory),
        _ => unreachable!(),
    }
}

/// Asks the nodes what is due, with these keys at the desk, and has it done.
fn do_slot<
    T: Threads + Wait + Sync,
    K: DeskCalls + Send,
    S: Signer + Send,
    N: Node + Drop + Send,
    C: Clock,
    O: Sink,
>(
    rt: &T,
    alloc: Global,
    setup: &DutySetup,
    clock: &C,
    listed: &[(PubKey, KeyStanding)],
    held: &mut Held,
    desk: &mut K,
    nodes: &mut Nodes<N>,
    lanes: &mut [Lane<K, S, N>],
    out: &mut O,
) -> Result<(), DutyEnd>
    requires some { 0 < length lanes.old }
    requires ready { K.ready desk.old }
    requires lanes { All (IsReady K.ready) lanes.old }
    requires held { IsHolding held.old }
    ensures ready { K.ready desk.new }
    ensures lanes { All (IsReady K.ready) lanes.new }
    ensures runs { (s : Standing) → HoldsPlaced held.old s → Turns K.leads (C.start clock.now) (HoldsPlaced held.new) (listed_plan setup.now s (reply.Keys listed.now))
        (house desk.old (lanes_seen S.told S.faults S.denials N.told N.faults lanes.old) (nodes_seen N.told N.faults nodes.old) (sink_seen O.held O.faults out.old))
        (house desk.new (lanes_seen S.told S.faults S.denials N.told N.faults lanes.new) (nodes_seen N.told N.faults nodes.new) (sink_seen O.held O.faults out.new)) result }
{
    let Ok(active) = active_of(alloc, listed) else {
        return Err(DutyEnd::OutOfMemory);
    };
    match ask_all(
        alloc,
        setup.watch,
        listed,
        active.as_slice(),
        held,
        desk,
        nodes,
        out,
    ) {
        Ok(()) => {}
        Err(stop) => return Err(end_of(stop)),
    }
    do_active(rt, alloc, setup, clock, active, held, desk, lanes, out)
}

/// Why the loop ends where a part of a turn stopped.
fn end_of(stop: Stop) -> DutyEnd
    ensures { result ≡ end_of stop }
{
    match stop {
        Stop::Write => DutyEnd::Write,
        Stop::OutOfMemory => DutyEnd::OutOfMemory,
    }
}

/// Asks the nodes for the duties, and for what is missing of the watch.
fn ask_all<K: DeskCalls, N: Node + Drop, O: Sink>(
    alloc: Global,
    watches: bool,
    listed: &[(PubKey, KeyStanding)],
    active: &[PubKey],
    held: &mut Held,
    desk: &mut K,
    nodes: &mut Nodes<N>,
    out: &mut O,
) -> Result<(), Stop>
    requires ready { K.ready desk.old }
    ensures ready { K.ready desk.new }
    ensures runs { (start : Option ℕ) (lanes : List (Seat K)) (s : Standing) → HoldsPlaced held.old s → PartTurns K.leads start (HoldsPlaced held.new) (then_on (then_on (renewed_plan active.now s) (duties_plan active.now)) (watch_plan watches listed.now))
        (house desk.old lanes (nodes_seen N.told N.faults nodes.old) (sink_seen O.held O.faults out.old))
        (house desk.new lanes (nodes_seen N.told N.faults nodes.new) (sink_seen O.held O.faults out.new)) result }
{
    match ask_duties(alloc, active, held, nodes, out) {
        Ok(()) => {}
        Err(stop) => return Err(stop),
    }
    watch(alloc, watches, listed, held, desk, nodes, out)
}

/// Has what is due of the active keys done.
fn do_active<
    T: Threads + Wait + Sync,
    K: DeskCalls + Send,
    S: Signer + Send,
    N: Node + Drop + Send,
    C: Clock,
    O: Sink,
>(
    rt: &T,
    alloc: Global,
    setup: &DutySetup,
    clock: &C,
    active: Items<PubKey>,
    held: &mut Held,
    desk: &mut K,
    lanes: &mut [Lane<K, S, N>],
    out: &mut O,
) -> Result<(), DutyEnd>
    requires some { 0 < length lanes.old }
    requires ready { K.ready desk.old }
    requires lanes { All (IsReady K.ready) lanes.old }
    requires held { IsHolding held.old }
    ensures ready { K.ready desk.new }
    ensures lanes { All (IsReady K.ready) lanes.new }
    ensures runs { (nodes : List Seen) (s : Standing) → HoldsPlaced held.old s → Turns K.leads (C.start clock.now) (HoldsPlaced held.new) (ready_plan setup.now active (Some s))
        (house desk.old (lanes_seen S.told S.faults S.denials N.told N.faults lanes.old) nodes (sink_seen O.held O.faults out.old))
        (house desk.new (lanes_seen S.told S.faults S.denials N.told N.faults lanes.new) nodes (sink_seen O.held O.faults out.new)) result }
{
    let Ok(due) = held.schedule.due(held.slot, active.as_slice()) else {
        return Err(DutyEnd::OutOfMemory);
    };
    held.active = Some(active);
    do_due(rt, alloc, setup, clock, &due, held, desk, lanes, out)
}
