//! The watch: what is missing of it is asked of the nodes, and noted at the desk.
ghost use Rattle.std.specs.Prelude.{◌≡◌, ℕ, List, Option};
ghost use Rattle.call_plans.specs.Paths.{Carries};
ghost use Rattle.duty_plans.specs.Seats.{Seat, nodes_seen};
ghost use Rattle.duty_turns.specs.Standing.{IsHeld, Standing};
ghost use Rattle.duty_turns.specs.Times.{epoch_of};
ghost use Rattle.duty_turns.specs.Turns.{epochs_plan, missing_epochs, watch_plan};
ghost use Rattle.duty_turns.specs.TurnSteps.{Does, Fits, sink_seen};
ghost use Rattle.duty_asks.specs.Quiet.{done_value};
ghost use Rattle.duty_work.specs.Houses.{house};

use crate::keys::next_missed;
use crate::live::watch_epoch;
use desk_machine::{DeskCalls, KeyStanding};
use duty_asks::Stop;
use duty_turns::{Held, epoch_of};
use edge_kit::{PubKey, Sink};
use node_calls::Node;
use node_fallback::Nodes;
use std::alloc::Global;

/// With a watch, asks of each epoch before this one that some key misses, the lesser first, and notes what was
/// answered.
pub(crate) fn watch<K: DeskCalls, N: Node + Drop, O: Sink>(
    alloc: Global,
    watches: bool,
    listed: &[(PubKey, KeyStanding)],
    held: &Held,
    desk: &mut K,
    nodes: &mut Nodes<N>,
    out: &mut O,
) -> Result<(), Stop>
    requires ready { K.ready desk.old }
    ensures ready { K.ready desk.new }
    ensures runs { (start : Option ℕ) (lanes : List (Seat K)) (s : Standing) → IsHeld held.now s → Carries Fits (Does K.leads start) (watch_plan watches listed.now s)
        (house desk.old lanes (nodes_seen N.told N.faults nodes.old) (sink_seen O.held O.faults out.old))
        (house desk.new lanes (nodes_seen N.told N.faults nodes.new) (sink_seen O.held O.faults out.new)) (done_value s result) }
{
    if !watches {
        return Ok(());
    }
    watch_epochs(alloc, listed, held, desk, nodes, out)
}

fn watch_epochs<K: DeskCalls, N: Node + Drop, O: Sink>(
    alloc: Global,
    listed: &[(PubKey, KeyStanding)],
    held: &Held,
    desk: &mut K,
    nodes: &mut Nodes<N>,
    out: &mut O,
) -> Result<(), Stop>
    requires ready { K.ready desk.old }
    ensures ready { K.ready desk.new }
    ensures runs { (start : Option ℕ) (lanes : List (Seat K)) (s : Standing) → IsHeld held.now s → Carries Fits (Does K.leads start) (epochs_plan (epoch_of s.slot) listed.now (missing_epochs (epoch_of s.slot) listed.now) s)
        (house desk.old lanes (nodes_seen N.told N.faults nodes.old) (sink_seen O.held O.faults out.old))
        (house desk.new lanes (nodes_seen N.told N.faults nodes.new) (sink_seen O.held O.faults out.new)) (done_value s result) }
{
    let now = epoch_of(held.slot);
    let mut epoch = next_missed(listed, 0, now);
    'epochs: while epoch < now {
        match watch_epoch(alloc, now, epoch, listed, held, desk, nodes, out) {
            Ok(()) => {}
            Err(stop) => return Err(stop),
        }
        let next = next_missed(listed, epoch + 1, now);
        epoch = next;
    }
    Ok(())
}
