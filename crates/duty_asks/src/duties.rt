//! Who proposes, and who votes where.
ghost use Rattle.std.specs.Prelude.{◌≡◌, [], IfOk};
ghost use Rattle.duty_plans.specs.Seats.{nodes_seen};
ghost use Rattle.duty_turns.specs.Standing.{IsHeld, Standing, with_attesters, with_fork, with_proposers};
ghost use Rattle.duty_turns.specs.Times.{epoch_of};
ghost use Rattle.duty_turns.specs.Turns.{ask_plan, attesters_plan, duties_plan, renew_plan, renewed_plan, renews, same_keys, then_on, to_renew, voters_plan};
ghost use Rattle.duty_turns.specs.TurnSteps.{sink_seen};
ghost use Rattle.duty_asks.specs.Placed.{HoldsPlaced};
ghost use Rattle.duty_asks.specs.Quiet.{Parts, outside};
ghost use Rattle.node_calls.specs.declared.ask.Ask.TheVariants as question;

use crate::ask::{Stop, ask_or_tell};
use crate::indices::{ask_indices, indices_of};
use crate::take::{take_attesters, take_fork, take_proposers};
use duty_turns::{Held, epoch_of};
use edge_kit::{Items, PubKey, Sink};
use node_calls::{Ask, Node};
use node_fallback::Nodes;
use std::alloc::{AllocError, Global};

/// Asks for the fork and the indices of the active keys, where they are asked for anew, and then for who proposes
/// and who votes.
pub fn ask_duties<N: Node + Drop, O: Sink>(
    alloc: Global,
    active: &[PubKey],
    held: &mut Held,
    nodes: &mut Nodes<N>,
    out: &mut O,
) -> Result<(), Stop>
    ensures { (s : Standing) → HoldsPlaced held.old s → Parts (HoldsPlaced held.new) (then_on (renewed_plan active.now s) (duties_plan active.now))
        (outside (nodes_seen N.told N.faults nodes.old) (sink_seen O.held O.faults out.old))
        (outside (nodes_seen N.told N.faults nodes.new) (sink_seen O.held O.faults out.new)) result }
{
    match renew(alloc, active, held, nodes, out) {
        Ok(()) => {}
        Err(stop) => return Err(stop),
    }
    ask_rows(alloc, active, held, nodes, out)
}

/// Whether the fork and the indices are asked for: at the first turn of an epoch, where one of these questions had no
/// answer the last time, and where other keys are active than in the turn before. Takes no memory.
pub fn renews(active: &[PubKey], held: &Held) -> bool
    ensures { (s : Standing) → IsHeld held.now s → result ≡ renews active.now s }
{
    if held.renewed != Some(epoch_of(held.slot)) {
        return true;
    }
    match &held.active {
        Some(before) => active != before.as_slice(),
        None => true,
    }
}

fn renew<N: Node + Drop, O: Sink>(
    alloc: Global,
    active: &[PubKey],
    held: &mut Held,
    nodes: &mut Nodes<N>,
    out: &mut O,
) -> Result<(), Stop>
    ensures { (s : Standing) → HoldsPlaced held.old s → Parts (HoldsPlaced held.new) (renewed_plan active.now s)
        (outside (nodes_seen N.told N.faults nodes.old) (sink_seen O.held O.faults out.old))
        (outside (nodes_seen N.told N.faults nodes.new) (sink_seen O.held O.faults out.new)) result }
{
    if !renews(active, held) {
        return Ok(());
    }
    ask_chain(alloc, active, held, nodes, out)
}

fn ask_chain<N: Node + Drop, O: Sink>(
    alloc: Global,
    active: &[PubKey],
    held: &mut Held,
    nodes: &mut Nodes<N>,
    out: &mut O,
) -> Result<(), Stop>
    ensures { (s : Standing) → HoldsPlaced held.old s → Parts (HoldsPlaced held.new) (renew_plan active.now s)
        (outside (nodes_seen N.told N.faults nodes.old) (sink_seen O.held O.faults out.old))
        (outside (nodes_seen N.told N.faults nodes.new) (sink_seen O.held O.faults out.new)) result }
{
    held.renewed = Some(epoch_of(held.slot));
    match ask_fork(alloc, held, nodes, out) {
        Ok(()) => {}
        Err(stop) => return Err(stop),
    }
    ask_indices(alloc, active, held, nodes, out)
}

fn ask_fork<N: Node + Drop, O: Sink>(
    alloc: Global,
    held: &mut Held,
    nodes: &mut Nodes<N>,
    out: &mut O,
) -> Result<(), Stop>
    ensures { (s : Standing) → HoldsPlaced held.old s → Parts (HoldsPlaced held.new) (ask_plan question.Fork with_fork (to_renew s) s)
        (outside (nodes_seen N.told N.faults nodes.old) (sink_seen O.held O.faults out.old))
        (outside (nodes_seen N.told N.faults nodes.new) (sink_seen O.held O.faults out.new)) result }
{
    let asked = ask_or_tell(alloc, held.slot, &Ask::Fork, nodes, out);
    take_fork(held, asked)
}

fn ask_rows<N: Node + Drop, O: Sink>(
    alloc: Global,
    active: &[PubKey],
    held: &mut Held,
    nodes: &mut Nodes<N>,
    out: &mut O,
) -> Result<(), Stop>
    ensures { (s : Standing) → HoldsPlaced held.old s → Parts (HoldsPlaced held.new) (duties_plan active.now s)
        (outside (nodes_seen N.told N.faults nodes.old) (sink_seen O.held O.faults out.old))
        (outside (nodes_seen N.told N.faults nodes.new) (sink_seen O.held O.faults out.new)) result }
{
    match ask_proposers(alloc, held, nodes, out) {
        Ok(()) => {}
        Err(stop) => return Err(stop),
    }
    ask_voters(alloc, active, held, nodes, out)
}

fn ask_proposers<N: Node + Drop, O: Sink>(
    alloc: Global,
    held: &mut Held,
    nodes: &mut Nodes<N>,
    out: &mut O,
) -> Result<(), Stop>
    ensures { (s : Standing) → HoldsPlaced held.old s → Parts (HoldsPlaced held.new) (ask_plan (question.Proposer (epoch_of s.slot)) (with_proposers (epoch_of s.slot)) s s)
        (outside (nodes_seen N.told N.faults nodes.old) (sink_seen O.held O.faults out.old))
        (outside (nodes_seen N.told N.faults nodes.new) (sink_seen O.held O.faults out.new)) result }
{
    let epoch = epoch_of(held.slot);
    let asked = ask_or_tell(alloc, held.slot, &Ask::Proposer { epoch }, nodes, out);
    take_proposers(alloc, held, epoch, asked)
}

fn ask_voters<N: Node + Drop, O: Sink>(
    alloc: Global,
    active: &[PubKey],
    held: &mut Held,
    nodes: &mut Nodes<N>,
    out: &mut O,
) -> Result<(), Stop>
    ensures { (s : Standing) → HoldsPlaced held.old s → Parts (HoldsPlaced held.new) (voters_plan active.now s)
        (outside (nodes_seen N.told N.faults nodes.old) (sink_seen O.held O.faults out.old))
        (outside (nodes_seen N.told N.faults nodes.new) (sink_seen O.held O.faults out.new)) result }
{
    let Ok(indices) = indices_of(alloc, &held.indices, active) else {
        return Err(Stop::OutOfMemory);
    };
    ask_attesters(alloc, indices, held, nodes, out)
}

fn ask_attesters<N: Node + Drop, O: Sink>(
    alloc: Global,
    indices: Items<u64>,
    held: &mut Held,
    nodes: &mut Nodes<N>,
    out: &mut O,
) -> Result<(), Stop>
    ensures { (s : Standing) → HoldsPlaced held.old s → Parts (HoldsPlaced held.new) (attesters_plan (epoch_of s.slot) indices s)
        (outside (nodes_seen N.told N.faults nodes.old) (sink_seen O.held O.faults out.old))
        (outside (nodes_seen N.told N.faults nodes.new) (sink_seen O.held O.faults out.new)) result }
{
    if indices.is_empty() {
        return Ok(());
    }
    let epoch = epoch_of(held.slot);
    let Ok(copy) = copied(alloc, indices.as_slice()) else {
        return Err(Stop::OutOfMemory);
    };
    let ask = Ask::Attester {
        epoch,
        indices: copy,
    };
    let asked = ask_or_tell(alloc, held.slot, &ask, nodes, out);
    take_attesters(held, epoch, indices, asked)
}

/// The same indices. The error is want of memory.
fn copied(alloc: Global, indices: &[u64]) -> Result<Items<u64>, AllocError>
    ensures { IfOk result (λ copy. copy ≡ indices.now) }
{
    Ok(Items::from_vec(indices.to_vec(alloc)?))
}
