//! Turn after turn.
ghost use Rattle.std.specs.Prelude.{◌≡◌, ◌<◌, ℕ, All, length};
ghost use Rattle.edge_clock.specs.Clocks.{IsNow};
ghost use Rattle.call_plans.specs.Paths.{Carries};
ghost use Rattle.duty_plans.specs.Seats.{nodes_seen};
ghost use Rattle.duty_workers.specs.Working.{IsReady, lanes_seen};
ghost use Rattle.duty_turns.specs.Turns.{first_standing, turns_plan};
ghost use Rattle.duty_turns.specs.TurnSteps.{Does, Fits, sink_seen};
ghost use Rattle.duty_asks.specs.Placed.{HoldsPlaced};
ghost use Rattle.duty_work.specs.Houses.{RunsFrom, end_value, house};

use crate::turn::take_turn;
use desk_machine::DeskCalls;
use duty_plans::DutySetup;
use duty_schedule::Schedule;
use duty_turns::{DutyEnd, Held, slot_of};
use duty_workers::Lane;
use edge_clock::Clock;
use edge_kit::Sink;
use node_calls::Node;
use node_fallback::Nodes;
use signer_link::Signer;
use std::alloc::Global;
use std::collections::BTreeMap;
use std::sync::Wait;
use std::thread::Threads;

/// Takes the turns of a duty loop, as many as the setup says, beginning at the clock's slot: in each the nodes are
/// asked what is due for the desk's active keys, and that is done in the lanes, each duty under a grant of its lane's
/// desk. What became of each is a line of the output. A slot whose time is over when its turn comes is passed over. Where
/// the clock is halted no further turn begins, and the loop ends as it does after its last turn.
///
/// Each lane does its duties with a desk, a signing service and nodes of its own, one after another, and beside the other
/// lanes; the loop itself has a desk and nodes, for what is asked outside the duties, and signs nothing. The duties of a
/// slot have places, its blocks and then its votes, from 0 on; the one at a place goes to the lane that the place is
/// modulo the lanes.
///
/// # Errors
///
/// `DutyEnd::Disk` where the desk says that its disk failed, `DutyEnd::Write` only where the output's count of
/// faults rose, `DutyEnd::OutOfMemory` where memory was wanted: then the first few calls of the turn are done, each
/// whole, and no grant is open.
pub fn run_duties<
    T: Threads + Wait + Sync,
    K: DeskCalls + Send,
    S: Signer + Send,
    N: Node + Drop + Send,
    C: Clock,
    O: Sink,
>(
    rt: &T,
    alloc: Global,
    setup: &DutySetup,
    clock: &C,
    desk: &mut K,
    nodes: &mut Nodes<N>,
    lanes: &mut [Lane<K, S, N>],
    out: &mut O,
) -> Result<(), DutyEnd>
    requires some { 0 < length lanes.old }
    requires ready { K.ready desk.old }
    requires lanes { All (IsReady K.ready) lanes.old }
    ensures ready { K.ready desk.new }
    ensures lanes { All (IsReady K.ready) lanes.new }
    ensures runs { RunsFrom K.leads (C.start clock.now) setup.now
        (house desk.old (lanes_seen S.told S.faults S.denials N.told N.faults lanes.old) (nodes_seen N.told N.faults nodes.old) (sink_seen O.held O.faults out.old))
        (house desk.new (lanes_seen S.told S.faults S.denials N.told N.faults lanes.new) (nodes_seen N.told N.faults nodes.new) (sink_seen O.held O.faults out.new)) (end_value result) }
{
    let mut held = first_held(alloc, setup, clock.now());
    'turns: for _turn in 0..setup.slots {
        if clock.is_halted() {
            return Ok(());
        }
        match take_turn(rt, alloc, setup, clock, &mut held, desk, nodes, lanes, out) {
            Ok(()) => {}
            Err(end) => return Err(end),
        }
    }
    Ok(())
}

/// What is held before the first turn of a duty loop that begins at this moment: nothing was asked yet, the fork is
/// the setup's, and the first slot is the moment's, 0 before genesis. Takes no memory.
pub fn first_held(alloc: Global, setup: &DutySetup, now: u64) -> Held
    ensures { HoldsPlaced result (first_standing setup.now now) }
{
    Held {
        slot: slot_of(setup.genesis_time, now),
        fork: setup.fork,
        indices: BTreeMap::new(alloc),
        schedule: Schedule::new(alloc),
        active: None,
        renewed: None,
    }
}
